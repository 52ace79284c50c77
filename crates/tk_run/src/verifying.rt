//! The command `verify`: whether the trace behind a script is the one that its own run writes.

ghost use Rattle.std.specs.Prelude.{◌≡◌, ◌≢◌, ◌+◌, ◌<◌, ◌≤◌, ◌^◌, length, Some, IfSome};
ghost use Rattle.dev_layer.specs.Tables.{AreDevices};
ghost use Rattle.kernel_model.specs.Bodies.Statements.{IsRunnable};
ghost use Rattle.tk_ports.specs.Streams.{CountsWithin, Rose, TakesWithin};
ghost use Rattle.tk_session.specs.TracedAnswers.{Shows};
ghost use Rattle.tk_session.specs.TracedReading.{TracedScript};
ghost use Rattle.tk_run.specs.Answers.{IsCertain, IsPastTrace, OutcomeAnswers};
ghost use Rattle.tk_run.specs.Commands.{IsBudget};
ghost use Rattle.tk_run.specs.Replays.{journal_limit};
ghost use Rattle.tk_run.specs.Verdicts.{VerifyHeadline, Verifies, traced_outcome, verify_outcome};

use crate::LONGEST_SESSION;
use crate::judging::judged;
use crate::refusal::refuse;
use crate::status::Status;
use crate::verdict::tell_verdict;
use std::alloc::Global;
use tk_ports::whole::{ReadError, read_within};
use tk_ports::{Sink, Source};
use tk_session::{Traced, TracedReading, read_traced};
use tk_types::Mode;

/// Writes the verdict on a trace.
fn verify_traced<K: Sink>(
    alloc: Global,
    traced: Traced<'_>,
    mode: Mode,
    budget: u32,
    sink: &mut K,
) -> Status
    requires runnable { IsRunnable traced.script }
    requires devices { AreDevices traced.script.devices }
    requires few { length traced.journal ≤ journal_limit }
    requires short { length traced.given.now + 1 < 2 ^ 32 }
    requires steps { IsBudget budget }
    ensures outcome { (shown : TracedScript) → Shows traced.entry shown → OutcomeAnswers (traced_outcome mode budget shown) (K.held sink.old) (K.held sink.new) result }
    ensures past_trace { IsPastTrace result }
    ensures write_fault { result ≡ Status.WriteFault → Rose (K.faulted sink.old) (K.faulted sink.new) }
    ensures faults_stay { K.faulted sink.old ≤ K.faulted sink.new }
    ensures certain { (shown : TracedScript) → Shows traced.entry shown → length (traced_outcome mode budget shown).bytes ≤ K.sure_room sink.old
        → IsCertain (traced_outcome mode budget shown).status (K.faulted sink.old) (K.faulted sink.new) result }
{
    let Ok(verdict) = judged(alloc, traced, mode, budget) else {
        return Status::NoMemory;
    };
    tell_verdict(alloc, &verdict, sink)
}

/// Writes the verdict on the trace in a text, or why the text is refused.
fn verify_text<K: Sink>(alloc: Global, text: &[u8], mode: Mode, budget: u32, sink: &mut K) -> Status
    requires steps { IsBudget budget }
    ensures outcome { OutcomeAnswers (verify_outcome mode budget text.now) (K.held sink.old) (K.held sink.new) result }
    ensures past_trace { IsPastTrace result }
    ensures write_fault { result ≡ Status.WriteFault → Rose (K.faulted sink.old) (K.faulted sink.new) }
    ensures faults_stay { K.faulted sink.old ≤ K.faulted sink.new }
    ensures certain { length (verify_outcome mode budget text.now).bytes ≤ K.sure_room sink.old
        → IsCertain (verify_outcome mode budget text.now).status (K.faulted sink.old) (K.faulted sink.new) result }
{
    match read_traced(alloc, text) {
        Ok(TracedReading::Traced(traced)) => verify_traced(alloc, traced, mode, budget, sink),
        Ok(TracedReading::Refused { line, why }) => refuse(alloc, line, why, sink),
        Err(_) => Status::NoMemory,
    }
}

/// Reads a script and a trace behind it, runs the script fed with the endings that the trace's own lines record, and writes whether the
/// trace is that of this run. The budget of steps is from 1 to 1,000,000.
///
/// Answers `Done` where it is, behind `same N` with the number of its lines, also where the run ended at its budget. `Differs` with the
/// number of the first line that isn't the same, behind `differs K` and that line in the run and in the trace; where one of them has no
/// such line its word stands alone. `Starved` where the run needs an ending that no line gives, behind `starved N` with the steps
/// done, and `Unfit` with the number of the first ending that isn't fit at its place, behind `unfit K`; these come before a
/// difference. `Refused` where the input spells no script with a trace; then `refused LINE WHY` is written. `ReadFault` where the
/// source failed; then nothing is written. `WriteFault`, where the sink failed, and `NoMemory` may stand in the place of what would
/// have followed; then a front of those bytes was written.
pub fn verify_session<S: Source, K: Sink>(
    alloc: Global,
    mode: Mode,
    budget: u32,
    source: &mut S,
    sink: &mut K,
) -> Status
    requires steps { IsBudget budget }

    // The answer is the outcome of the input, unless a stream failed or memory ran out.
    ensures outcome { IfSome (S.left source.old) (λ input. OutcomeAnswers (verify_outcome mode budget input) (K.held sink.old) (K.held sink.new) result) }

    // With the status of a verdict the input spells a script with a trace, and the verdict on it was written.
    ensures headline { IfSome (S.left source.old) (λ input. VerifyHeadline mode budget input (K.held sink.old) (K.held sink.new) result) }

    // A trace that its own run writes is answered so, unless a stream failed or memory ran out.
    ensures own { IfSome (S.left source.old) (λ input. Verifies mode budget input result) }
    ensures past { (result ≢ Status.Usage) × (result ≢ Status.NoThread) × (result ≢ Status.Budget) }

    // A failure shows in its count, and nothing was written before the input was read.
    ensures read_fault { result ≡ Status.ReadFault → Rose (S.faulted source.old) (S.faulted source.new) × (sink.new ≡ sink.old) }
    ensures write_fault { result ≡ Status.WriteFault → Rose (K.faulted sink.old) (K.faulted sink.new) }
    ensures source_faults_stay { S.faulted source.old ≤ S.faulted source.new }
    ensures sink_faults_stay { K.faulted sink.old ≤ K.faulted sink.new }

    // No byte is taken past the one behind the limit, and each turn of reading that goes on takes one.
    ensures within { TakesWithin (S.left source.old) (S.left source.new) (S.turns source.old) (S.turns source.new) 67108865 }
    ensures turns { CountsWithin (S.turns source.old) (S.turns source.new) 67108865 }

    // Over a source that never fails and a sink with room no failure is answered.
    ensures certain { S.never_fails source.old → (result ≢ Status.ReadFault) × (S.faulted source.new ≡ S.faulted source.old) }
    ensures complete { S.never_fails source.old → IfSome (S.left source.old) (λ input. length (verify_outcome mode budget input).bytes ≤ K.sure_room sink.old
        → IsCertain (verify_outcome mode budget input).status (K.faulted sink.old) (K.faulted sink.new) result) }
{
    let text = match read_within(alloc, source, LONGEST_SESSION) {
        Ok(text) => text,
        Err(ReadError::Failed) => return Status::ReadFault,
        Err(ReadError::OutOfMemory) => return Status::NoMemory,
    };
    verify_text(alloc, &text, mode, budget, sink)
}

//! The command `replay`: a run of the script that the input begins with, fed with the journal behind it.

ghost use Rattle.std.specs.Prelude.{◌≡◌, ◌≢◌, ◌≤◌, length, Some, IfOk, IfSome};
ghost use Rattle.tk_ports.specs.Streams.{CountsWithin, Rose, TakesWithin};
ghost use Rattle.tk_run.specs.Answers.{HeadlineAnswers, IsCertain, IsPastSession, OutcomeAnswers};
ghost use Rattle.tk_run.specs.Commands.{IsBudget};
ghost use Rattle.tk_run.specs.Outcomes.{replay_outcome, session_outcome};
ghost use Rattle.tk_run.specs.Readings.{session_of};
ghost use Rattle.tk_run.specs.Replays.{IsReplayable};
ghost use Rattle.tk_run.specs.declared.command.Command.TheVariants.{Replay};

use crate::LONGEST_SESSION;
use crate::refusal::refuse;
use crate::replay::replay_script;
use crate::status::Status;
use std::alloc::Global;
use tk_ports::whole::{ReadError, read_within};
use tk_ports::{Sink, Source};
use tk_session::{SessionReading, read_session};
use tk_types::{Mode, OutOfMemory};

/// What a text is read as to be replayed: a session, or a refusal.
#[tactic(auto, unfolding(crate::specs::Readings::session_of))]
fn session_of(alloc: Global, text: &[u8]) -> Result<SessionReading, OutOfMemory>
    ensures exact { IfOk result (λ reading. reading ≡ session_of text.now) }
    ensures replayable { IfOk result IsReplayable }
{
    read_session(alloc, text)
}

/// Runs the session that was read, or writes why the text was refused.
fn replay_reading<K: Sink>(
    alloc: Global,
    reading: SessionReading,
    mode: Mode,
    budget: u32,
    sink: &mut K,
) -> Status
    requires replayable { IsReplayable reading }
    requires steps { IsBudget budget }
    ensures outcome { OutcomeAnswers (session_outcome mode budget reading) (K.held sink.old) (K.held sink.new) result }
    ensures past_session { IsPastSession result }
    ensures write_fault { result ≡ Status.WriteFault → Rose (K.faulted sink.old) (K.faulted sink.new) }
    ensures faults_stay { K.faulted sink.old ≤ K.faulted sink.new }
    ensures certain { length (session_outcome mode budget reading).bytes ≤ K.sure_room sink.old
        → IsCertain (session_outcome mode budget reading).status (K.faulted sink.old) (K.faulted sink.new) result }
{
    match reading {
        SessionReading::Session(session) => { replay_script(alloc, session, mode, budget, sink) }
        SessionReading::Refused { line, why } => refuse(alloc, line, why, sink),
    }
}

/// Runs the session that a text is, or writes why it is refused.
#[tactic(auto, unfolding(crate::specs::Outcomes::replay_outcome))]
fn replay_text<K: Sink>(alloc: Global, text: &[u8], mode: Mode, budget: u32, sink: &mut K) -> Status
    requires steps { IsBudget budget }
    ensures outcome { OutcomeAnswers (replay_outcome mode budget text.now) (K.held sink.old) (K.held sink.new) result }
    ensures past_session { IsPastSession result }
    ensures write_fault { result ≡ Status.WriteFault → Rose (K.faulted sink.old) (K.faulted sink.new) }
    ensures faults_stay { K.faulted sink.old ≤ K.faulted sink.new }
    ensures certain { length (replay_outcome mode budget text.now).bytes ≤ K.sure_room sink.old
        → IsCertain (replay_outcome mode budget text.now).status (K.faulted sink.old) (K.faulted sink.new) result }
{
    let Ok(reading) = session_of(alloc, text) else {
        return Status::NoMemory;
    };
    replay_reading(alloc, reading, mode, budget, sink)
}

/// Reads a session, runs its script fed with the endings of its journal, and writes the trace, the lines of each turn as soon as it
/// is done. The budget of steps is from 1 to 1,000,000.
///
/// Answers `Done` or `Budget` by the end of the trace; `Starved` where the run needs an ending and the journal is used up, and
/// `Unfit` with the number of the first entry that isn't fit at its place. `Refused` where the input spells no session; then
/// `refused LINE WHY` is written. `ReadFault` where the source failed; then nothing is written. `WriteFault`, where the sink failed,
/// and `NoMemory` may stand in the place of what would have followed; then a front of those bytes was written.
pub fn replay_session<S: Source, K: Sink>(
    alloc: Global,
    mode: Mode,
    budget: u32,
    source: &mut S,
    sink: &mut K,
) -> Status
    requires steps { IsBudget budget }

    // The answer is the outcome of the input, unless a stream failed or memory ran out.
    ensures outcome { IfSome (S.left source.old) (λ input. OutcomeAnswers (replay_outcome mode budget input) (K.held sink.old) (K.held sink.new) result) }

    // With the status of a run the input spells a session, and the trace of its script, fed with its journal, was written.
    ensures headline { IfSome (S.left source.old) (λ input. HeadlineAnswers (Some (Replay mode budget)) input (K.held sink.old) (K.held sink.new) result) }
    ensures not_usage { result ≢ Status.Usage }
    ensures not_thread { result ≢ Status.NoThread }

    // A failure shows in its count, and nothing was written before the input was read.
    ensures read_fault { result ≡ Status.ReadFault → Rose (S.faulted source.old) (S.faulted source.new) × (sink.new ≡ sink.old) }
    ensures write_fault { result ≡ Status.WriteFault → Rose (K.faulted sink.old) (K.faulted sink.new) }
    ensures source_faults_stay { S.faulted source.old ≤ S.faulted source.new }
    ensures sink_faults_stay { K.faulted sink.old ≤ K.faulted sink.new }

    // No byte is taken past the one behind the limit, and each turn of reading that goes on takes one.
    ensures within { TakesWithin (S.left source.old) (S.left source.new) (S.turns source.old) (S.turns source.new) 67108865 }
    ensures turns { CountsWithin (S.turns source.old) (S.turns source.new) 67108865 }

    // Over a source that never fails and a sink with room no failure is answered.
    ensures certain { S.never_fails source.old → (result ≢ Status.ReadFault) × (S.faulted source.new ≡ S.faulted source.old) }
    ensures complete { S.never_fails source.old → IfSome (S.left source.old) (λ input. length (replay_outcome mode budget input).bytes ≤ K.sure_room sink.old
        → IsCertain (replay_outcome mode budget input).status (K.faulted sink.old) (K.faulted sink.new) result) }
{
    let text = match read_within(alloc, source, LONGEST_SESSION) {
        Ok(text) => text,
        Err(ReadError::Failed) => return Status::ReadFault,
        Err(ReadError::OutOfMemory) => return Status::NoMemory,
    };
    replay_text(alloc, &text, mode, budget, sink)
}

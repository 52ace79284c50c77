//! The command `check`: the printed form of the script that the input is.

ghost use Rattle.std.specs.Prelude.{◌≡◌, ◌≢◌, ◌≤◌, length, Some, IfSome};
ghost use Rattle.tk_ports.specs.Streams.{CountsWithin, Rose, TakesWithin};
ghost use Rattle.tk_run.specs.Answers.{HeadlineAnswers, IsCertain, IsPastReading, OutcomeAnswers};
ghost use Rattle.tk_run.specs.Outcomes.{check_outcome, form_outcome, printed_outcome};
ghost use Rattle.tk_run.specs.declared.command.Command.TheVariants.{Check};

use crate::LONGEST_SCRIPT;
use crate::reading::reading_of;
use crate::refusal::refuse;
use crate::status::Status;
use std::alloc::Global;
use tk_ports::whole::{ReadError, read_within, write_whole};
use tk_ports::{Sink, Source};
use tk_script::print_script;
use tk_types::{Reading, Script};

/// Writes the printed form of a script.
fn write_form<K: Sink>(alloc: Global, script: &Script, sink: &mut K) -> Status
    ensures outcome { OutcomeAnswers (form_outcome script.now) (K.held sink.old) (K.held sink.new) result }
    ensures past_reading { IsPastReading result }
    ensures write_fault { result ≡ Status.WriteFault → Rose (K.faulted sink.old) (K.faulted sink.new) }
    ensures faults_stay { K.faulted sink.old ≤ K.faulted sink.new }
    ensures certain { length (form_outcome script.now).bytes ≤ K.sure_room sink.old
        → IsCertain (form_outcome script.now).status (K.faulted sink.old) (K.faulted sink.new) result }
{
    let Ok(text) = print_script(alloc, script) else {
        return Status::NoMemory;
    };
    if write_whole(sink, &text).is_err() {
        return Status::WriteFault;
    }
    Status::Done
}

/// Writes the printed form of the script that was read, or why the text was refused.
fn write_reading<K: Sink>(alloc: Global, reading: Reading, sink: &mut K) -> Status
    ensures outcome { OutcomeAnswers (printed_outcome reading) (K.held sink.old) (K.held sink.new) result }
    ensures past_reading { IsPastReading result }
    ensures write_fault { result ≡ Status.WriteFault → Rose (K.faulted sink.old) (K.faulted sink.new) }
    ensures faults_stay { K.faulted sink.old ≤ K.faulted sink.new }
    ensures certain { length (printed_outcome reading).bytes ≤ K.sure_room sink.old
        → IsCertain (printed_outcome reading).status (K.faulted sink.old) (K.faulted sink.new) result }
{
    match reading {
        Reading::Script(script) => write_form(alloc, &script, sink),
        Reading::Refused { line, why } => refuse(alloc, line, why, sink),
    }
}

/// Writes the printed form of the script that a text is, or why it is refused.
#[tactic(auto, unfolding(crate::specs::Outcomes::check_outcome))]
fn check_text<K: Sink>(alloc: Global, text: &[u8], sink: &mut K) -> Status
    ensures outcome { OutcomeAnswers (check_outcome text.now) (K.held sink.old) (K.held sink.new) result }
    ensures past_reading { IsPastReading result }
    ensures write_fault { result ≡ Status.WriteFault → Rose (K.faulted sink.old) (K.faulted sink.new) }
    ensures faults_stay { K.faulted sink.old ≤ K.faulted sink.new }
    ensures certain { length (check_outcome text.now).bytes ≤ K.sure_room sink.old
        → IsCertain (check_outcome text.now).status (K.faulted sink.old) (K.faulted sink.new) result }
{
    let Ok(reading) = reading_of(alloc, text) else {
        return Status::NoMemory;
    };
    write_reading(alloc, reading, sink)
}

/// Reads a script of the whole grammar and writes its printed form: one space between words, no comments and no
/// empty lines, and a line feed behind each line. Nothing is run.
///
/// Answers `Done` behind the printed form, or `Refused` where the input spells no script; then `refused LINE WHY` is
/// written. `ReadFault` where the source failed; then nothing is written. `WriteFault`, where the sink failed, and
/// `NoMemory` may stand in the place of what would have followed; then a front of those bytes was written.
pub fn check_script<S: Source, K: Sink>(alloc: Global, source: &mut S, sink: &mut K) -> Status
    // The answer is the outcome of the input, unless a stream failed or memory ran out.
    ensures outcome { IfSome (S.left source.old) (λ input. OutcomeAnswers (check_outcome input) (K.held sink.old) (K.held sink.new) result) }

    // With `Done` the input spells a script, and its printed form was written.
    ensures headline { IfSome (S.left source.old) (λ input. HeadlineAnswers (Some Check) input (K.held sink.old) (K.held sink.new) result) }
    ensures not_usage { result ≢ Status.Usage }
    ensures not_thread { result ≢ Status.NoThread }

    // A failure shows in its count, and nothing was written before the input was read.
    ensures read_fault { result ≡ Status.ReadFault → Rose (S.faulted source.old) (S.faulted source.new) × (sink.new ≡ sink.old) }
    ensures write_fault { result ≡ Status.WriteFault → Rose (K.faulted sink.old) (K.faulted sink.new) }
    ensures source_faults_stay { S.faulted source.old ≤ S.faulted source.new }
    ensures sink_faults_stay { K.faulted sink.old ≤ K.faulted sink.new }

    // No byte is taken past the one behind the limit, and each turn of reading that goes on takes one.
    ensures within { TakesWithin (S.left source.old) (S.left source.new) (S.turns source.old) (S.turns source.new) 1048577 }
    ensures turns { CountsWithin (S.turns source.old) (S.turns source.new) 1048577 }

    // Over a source that never fails and a sink with room no failure is answered.
    ensures certain { S.never_fails source.old → (result ≢ Status.ReadFault) × (S.faulted source.new ≡ S.faulted source.old) }
    ensures complete { S.never_fails source.old → IfSome (S.left source.old) (λ input. length (check_outcome input).bytes ≤ K.sure_room sink.old
        → IsCertain (check_outcome input).status (K.faulted sink.old) (K.faulted sink.new) result) }
{
    let text = match read_within(alloc, source, LONGEST_SCRIPT) {
        Ok(text) => text,
        Err(ReadError::Failed) => return Status::ReadFault,
        Err(ReadError::OutOfMemory) => return Status::NoMemory,
    };
    check_text(alloc, &text, sink)
}

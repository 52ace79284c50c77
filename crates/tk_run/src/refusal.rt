//! The texts that say why nothing is run.

ghost use Rattle.std.specs.Prelude.{◌≡◌, ◌≤◌, length, IfOk};
ghost use Rattle.tk_ports.specs.Streams.{Rose};
ghost use Rattle.tk_run.specs.Answers.{IsCertain, IsPastReading, IsUsage, OutcomeAnswers};
ghost use Rattle.tk_run.specs.Outcomes.{refusal_outcome, refusal_text, usage_outcome};

use crate::status::Status;
use itoa::Buffer;
use std::alloc::Global;
use tk_ports::Sink;
use tk_ports::whole::write_whole;
use tk_types::{OutOfMemory, Why};

/// The text of a refusal: `refused LINE WHY` and a line feed.
#[tactic(auto, unfolding(crate::specs::Outcomes::refusal_text))]
fn refusal_text(alloc: Global, line: u32, why: Why) -> Result<Vec<u8>, OutOfMemory>
    ensures { IfOk result (λ text. text.items ≡ refusal_text line why) }
{
    let mut text = Vec::new(alloc);
    let mut buffer = Buffer::new();
    text.extend_from_slice(b"refused ")?;
    text.extend_from_slice(buffer.format(line).as_bytes())?;
    text.extend_from_slice(b" ")?;
    text.extend_from_slice(why.text().as_bytes())?;
    text.extend_from_slice(b"\n")?;
    Ok(text)
}

/// Writes why the input is refused.
pub(crate) fn refuse<K: Sink>(alloc: Global, line: u32, why: Why, sink: &mut K) -> Status
    ensures outcome { OutcomeAnswers (refusal_outcome line why) (K.held sink.old) (K.held sink.new) result }
    ensures past_reading { IsPastReading result }
    ensures write_fault { result ≡ Status.WriteFault → Rose (K.faulted sink.old) (K.faulted sink.new) }
    ensures faults_stay { K.faulted sink.old ≤ K.faulted sink.new }
    ensures certain { length (refusal_text line why) ≤ K.sure_room sink.old
        → IsCertain (Status.Refused line why) (K.faulted sink.old) (K.faulted sink.new) result }
{
    let Ok(text) = refusal_text(alloc, line, why) else {
        return Status::NoMemory;
    };
    if write_whole(sink, &text).is_err() {
        return Status::WriteFault;
    }
    Status::Refused { line, why }
}

/// Writes that the words are no command. It takes no memory.
pub(crate) fn tell_usage<K: Sink>(sink: &mut K) -> Status
    ensures outcome { OutcomeAnswers usage_outcome (K.held sink.old) (K.held sink.new) result }
    ensures usage { IsUsage result }
    ensures write_fault { result ≡ Status.WriteFault → Rose (K.faulted sink.old) (K.faulted sink.new) }
    ensures faults_stay { K.faulted sink.old ≤ K.faulted sink.new }
    ensures certain { length usage_outcome.bytes ≤ K.sure_room sink.old
        → IsCertain Status.Usage (K.faulted sink.old) (K.faulted sink.new) result }
{
    if write_whole(sink, b"usage\n").is_err() {
        return Status::WriteFault;
    }
    Status::Usage
}

//! The command `gen`: the script with a number is made and run, and its run is summed up.

ghost use Rattle.std.specs.Prelude.{◌≡◌, ◌≤◌, length};
ghost use Rattle.tk_gen.specs.Summaries.{SumsUp};
ghost use Rattle.tk_ports.specs.Streams.{Rose};
ghost use Rattle.tk_run.specs.Answers.{IsCertain, IsPastReading, OutcomeAnswers};
ghost use Rattle.tk_run.specs.Outcomes.{generate_outcome, generated_trace, status_of_end, summed_outcome};

use crate::fleet_run::status_of_end;
use crate::status::Status;
use std::alloc::Global;
use tk_gen::{Summary, summary_text, summed_up};
use tk_ports::Sink;
use tk_ports::whole::write_whole;

/// Writes the line of a summary.
fn tell_summary<K: Sink>(alloc: Global, summed: &Summary, sink: &mut K) -> Status
    ensures outcome { OutcomeAnswers (summed_outcome summed.now) (K.held sink.old) (K.held sink.new) result }
    ensures past_reading { IsPastReading result }
    ensures write_fault { result ≡ Status.WriteFault → Rose (K.faulted sink.old) (K.faulted sink.new) }
    ensures faults_stay { K.faulted sink.old ≤ K.faulted sink.new }
    ensures certain { length (summed_outcome summed.now).bytes ≤ K.sure_room sink.old
        → IsCertain (summed_outcome summed.now).status (K.faulted sink.old) (K.faulted sink.new) result }
{
    let Ok(text) = summary_text(alloc, summed) else {
        return Status::NoMemory;
    };
    if write_whole(sink, &text).is_err() {
        return Status::WriteFault;
    }
    status_of_end(summed.last)
}

/// Makes the script with a number, runs it in sync mode, at most 100,000 steps, with the unit of its device served on the spot, and
/// writes one line: `gen N steps S calls C waits B ticks K endings J`, with how many lines of the trace are of those kinds. No thread
/// is started, nothing is read, and the trace isn't kept.
///
/// Answers `Done` or `Budget` by the end of the trace. `WriteFault`, where the sink failed, and `NoMemory` may stand in its place; then
/// a front of the line was written.
pub fn generate<K: Sink>(alloc: Global, number: u16, sink: &mut K) -> Status
    // The answer is the outcome of the number, unless the sink failed or memory ran out.
    ensures outcome { OutcomeAnswers (generate_outcome number) (K.held sink.old) (K.held sink.new) result }
    ensures past_reading { IsPastReading result }

    // A failure shows in its count.
    ensures write_fault { result ≡ Status.WriteFault → Rose (K.faulted sink.old) (K.faulted sink.new) }
    ensures faults_stay { K.faulted sink.old ≤ K.faulted sink.new }

    // A line that surely has room is written.
    ensures certain { length (generate_outcome number).bytes ≤ K.sure_room sink.old
        → IsCertain (generate_outcome number).status (K.faulted sink.old) (K.faulted sink.new) result }
{
    let Ok(summed) = summed_up(alloc, number) else {
        return Status::NoMemory;
    };
    tell_summary(alloc, &summed, sink)
}

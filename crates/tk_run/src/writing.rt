//! Lines of a trace that are written as they come.

ghost use Rattle.std.specs.Prelude.{◌≡◌, ◌≢◌, ◌≤◌, ◌+◌, length, Err};
ghost use Rattle.tk_ports.specs.Streams.{Rose};
ghost use Rattle.tk_model.specs.LineText.{text_of_lines};
ghost use Rattle.tk_run.specs.Replays.{WriteAnswers, failure_status};

use crate::status::Status;
use tk_ports::Sink;
use tk_ports::whole::write_whole;
use tk_trace::lines_text;
use tk_types::Line;

/// Why lines weren't written.
#[derive(Clone, Copy, Debug, PartialEq, Eq)]
pub(crate) enum Unwritten {
    /// The sink failed, and took a front of them.
    WriteFault,
    /// The host's memory ran out before anything of them was written.
    NoMemory,
}

/// The status of a run whose lines weren't written.
pub(crate) fn failure_status(failure: Unwritten) -> Status
    ensures { result ≡ failure_status failure }
{
    match failure {
        Unwritten::WriteFault => Status::WriteFault,
        Unwritten::NoMemory => Status::NoMemory,
    }
}

/// Writes lines, by way of `text`, whose room serves again and again.
pub(crate) fn write_lines<K: Sink>(
    lines: &[Line],
    text: &mut Vec<u8>,
    sink: &mut K,
) -> Result<(), Unwritten>
    ensures answer { WriteAnswers (K.held sink.old) (K.held sink.new) (text_of_lines lines.now) result }
    ensures write_fault { result ≡ Err Unwritten.WriteFault → Rose (K.faulted sink.old) (K.faulted sink.new) }
    ensures unwritten { result ≡ Err Unwritten.NoMemory → sink.new ≡ sink.old }
    ensures faults_stay { K.faulted sink.old ≤ K.faulted sink.new }

    // Lines that surely have room are written.
    ensures certain { length (text_of_lines lines.now) ≤ K.sure_room sink.old → (result ≢ Err Unwritten.WriteFault)
        × (K.faulted sink.new ≡ K.faulted sink.old) × (K.sure_room sink.old ≤ K.sure_room sink.new + length (text_of_lines lines.now)) }
{
    text.clear();
    if lines_text(lines, text).is_err() {
        return Err(Unwritten::NoMemory);
    }
    if write_whole(sink, text).is_err() {
        return Err(Unwritten::WriteFault);
    }
    Ok(())
}

//! A run of a script without devices, from its start to its end.

ghost use Rattle.std.specs.Prelude.{◌≡◌, ◌≤◌, [], length};
ghost use Rattle.tk_ports.specs.Streams.{Rose};
ghost use Rattle.machine_model.specs.Runs.Trace.{trace};
ghost use Rattle.tk_run.specs.Answers.{IsCertain, RunAnswers};
ghost use Rattle.tk_run.specs.Outcomes.{trace_outcome};
ghost use Rattle.tk_run.specs.Readings.{RunsAlone};

use crate::replay::replay_script;
use crate::status::Status;
use std::alloc::Global;
use tk_ports::Sink;
use tk_session::Session;
use tk_types::{Mode, Script, Sequence};

/// Runs a script without devices and writes its trace, the lines of each step as soon as it is done. The script is one that
/// some text spells, and the budget of steps is from 1 to 1,000,000. Where there are no devices no request ends, so the run needs
/// no endings.
///
/// Answers `Done` or `Budget` by the end of the trace, `WriteFault` where the sink failed, or `NoMemory`; in the last two cases
/// the sink took a front of the trace's text.
pub fn run_script<K: Sink>(
    alloc: Global,
    script: Script,
    mode: Mode,
    budget: u32,
    sink: &mut K,
) -> Status
    requires alone { RunsAlone script }
    requires low { 1 ≤ budget }
    requires high { budget ≤ 1000000 }
    ensures outcome { RunAnswers (trace_outcome (trace script mode budget [])) (K.held sink.old) (K.held sink.new) result }

    // A failure shows in the count.
    ensures write_fault { result ≡ Status.WriteFault → Rose (K.faulted sink.old) (K.faulted sink.new) }
    ensures faults_stay { K.faulted sink.old ≤ K.faulted sink.new }

    // A trace that surely has room is written whole.
    ensures certain { length (trace_outcome (trace script mode budget [])).bytes ≤ K.sure_room sink.old
        → IsCertain (trace_outcome (trace script mode budget [])).status (K.faulted sink.old) (K.faulted sink.new) result }
{
    let session = Session {
        script,
        journal: Sequence::new(alloc),
    };
    replay_script(alloc, session, mode, budget, sink)
}

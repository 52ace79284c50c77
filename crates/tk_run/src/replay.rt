//! A run that is fed with a journal, from its start to its end.

ghost use Rattle.std.specs.Prelude.{◌≡◌, ◌≤◌, length};
ghost use Rattle.dev_layer.specs.Tables.{AreDevices};
ghost use Rattle.kernel_model.specs.Bodies.Statements.{IsRunnable};
ghost use Rattle.machine_model.specs.Runs.Machine.{new_machine};
ghost use Rattle.machine_model.specs.Runs.Trace.{trace};
ghost use Rattle.tk_ports.specs.Streams.{Rose};
ghost use Rattle.tk_run.specs.Answers.{IsCertain, IsPastSession, OutcomeAnswers};
ghost use Rattle.tk_run.specs.Commands.{IsBudget};
ghost use Rattle.tk_run.specs.Outcomes.{session_trace, status_of_last, trace_outcome};
ghost use Rattle.tk_run.specs.Replays.{CountsSteps, failure_status, journal_limit};

use crate::replay_turn::{Fate, fed_turn};
use crate::status::Status;
use crate::writing::{Unwritten, failure_status, write_lines};
use std::alloc::Global;
use tk_kernel::Machine;
use tk_ports::Sink;
use tk_session::Session;
use tk_types::{Entry, LastLine, Mode};

/// How a run that was written ended.
#[derive(Clone, Copy, Debug, PartialEq, Eq)]
pub(crate) struct RunEnd {
    pub(crate) status: Status,
    /// The steps that were done; they say nothing with a fault of the sink or want of memory.
    pub(crate) steps: u32,
}

/// The end of a run whose lines weren't written.
fn unwritten(failure: Unwritten) -> RunEnd
    ensures { result ≡ record { status = failure_status failure; steps = 0 } }
{
    RunEnd {
        status: failure_status(failure),
        steps: 0,
    }
}

/// The status of a run with that last line.
fn status_of_last(last: LastLine) -> Status
    ensures { result ≡ status_of_last last }
{
    match last {
        LastLine::Idle | LastLine::Halt => Status::Done,
        LastLine::Budget => Status::Budget,
        LastLine::Starved => Status::Starved,
        LastLine::Unfit(entry) => Status::Unfit { entry },
    }
}

/// Runs a machine that is at its start, fed with the entries of a journal, and writes the trace, the lines of each turn as soon
/// as it is done.
fn replay_machine<K: Sink>(
    machine: &mut Machine,
    mode: Mode,
    budget: u32,
    journal: &[Entry],
    text: &mut Vec<u8>,
    sink: &mut K,
) -> RunEnd
    requires fresh { machine.old ≡ new_machine machine.old.script mode budget }
    requires low { 1 ≤ budget }
    requires high { budget ≤ 1000000 }
    requires few { length journal.now ≤ journal_limit }
    ensures outcome { OutcomeAnswers (trace_outcome (trace machine.old.script mode budget journal.now)) (K.held sink.old) (K.held sink.new) result.status }
    ensures steps { CountsSteps (trace machine.old.script mode budget journal.now).steps result.status result.steps }
    ensures past_session { IsPastSession result.status }
    ensures write_fault { result.status ≡ Status.WriteFault → Rose (K.faulted sink.old) (K.faulted sink.new) }
    ensures faults_stay { K.faulted sink.old ≤ K.faulted sink.new }

    // A trace that surely has room is written whole.
    ensures certain { length (trace_outcome (trace machine.old.script mode budget journal.now)).bytes ≤ K.sure_room sink.old
        → IsCertain (trace_outcome (trace machine.old.script mode budget journal.now)).status (K.faulted sink.old) (K.faulted sink.new) result.status }
{
    let started = machine.take_lines();
    if let Err(failure) = write_lines(&started, text, sink) {
        return unwritten(failure);
    }
    let mut taken: usize = 0;
    'turns: for _turn in 0..budget as usize + journal.len() + 1 {
        let Ok(turn) = fed_turn(machine, mode, &journal[taken..], taken as u32 + 1) else {
            return RunEnd {
                status: Status::NoMemory,
                steps: 0,
            };
        };
        if let Err(failure) = write_lines(&turn.lines, text, sink) {
            return unwritten(failure);
        }
        match turn.fate {
            Fate::Fed => taken += 1,
            Fate::Went => {}
            Fate::Over(last) => {
                return RunEnd {
                    status: status_of_last(last),
                    steps: turn.steps,
                };
            }
        }
    }
    // Each turn takes an entry or does a step, and the last step of the budget ends the run; so no turn is left here.
    RunEnd {
        status: Status::Budget,
        steps: budget,
    }
}

/// Runs the script of a session, fed with its journal, writes the trace, and tells the steps that were done.
pub(crate) fn replay_counted<K: Sink>(
    alloc: Global,
    session: Session,
    mode: Mode,
    budget: u32,
    sink: &mut K,
) -> RunEnd
    requires runnable { IsRunnable session.script }
    requires devices { AreDevices session.script.devices }
    requires few { length session.journal ≤ journal_limit }
    requires steps { IsBudget budget }
    ensures outcome { OutcomeAnswers (trace_outcome (session_trace mode budget session)) (K.held sink.old) (K.held sink.new) result.status }
    ensures steps { CountsSteps (session_trace mode budget session).steps result.status result.steps }
    ensures past_session { IsPastSession result.status }
    ensures write_fault { result.status ≡ Status.WriteFault → Rose (K.faulted sink.old) (K.faulted sink.new) }
    ensures faults_stay { K.faulted sink.old ≤ K.faulted sink.new }
    ensures certain { length (trace_outcome (session_trace mode budget session)).bytes ≤ K.sure_room sink.old
        → IsCertain (trace_outcome (session_trace mode budget session)).status (K.faulted sink.old) (K.faulted sink.new) result.status }
{
    let Session { script, journal } = session;
    let Ok(mut machine) = Machine::new(alloc, script, mode, budget) else {
        return RunEnd {
            status: Status::NoMemory,
            steps: 0,
        };
    };
    let mut text = Vec::new(alloc);
    replay_machine(
        &mut machine,
        mode,
        budget,
        journal.as_slice(),
        &mut text,
        sink,
    )
}

/// Runs the script of a session, fed with its journal, and writes the trace.
pub(crate) fn replay_script<K: Sink>(
    alloc: Global,
    session: Session,
    mode: Mode,
    budget: u32,
    sink: &mut K,
) -> Status
    requires runnable { IsRunnable session.script }
    requires devices { AreDevices session.script.devices }
    requires few { length session.journal ≤ journal_limit }
    requires steps { IsBudget budget }
    ensures outcome { OutcomeAnswers (trace_outcome (session_trace mode budget session)) (K.held sink.old) (K.held sink.new) result }
    ensures past_session { IsPastSession result }
    ensures write_fault { result ≡ Status.WriteFault → Rose (K.faulted sink.old) (K.faulted sink.new) }
    ensures faults_stay { K.faulted sink.old ≤ K.faulted sink.new }
    ensures certain { length (trace_outcome (session_trace mode budget session)).bytes ≤ K.sure_room sink.old
        → IsCertain (trace_outcome (session_trace mode budget session)).status (K.faulted sink.old) (K.faulted sink.new) result }
{
    replay_counted(alloc, session, mode, budget, sink).status
}

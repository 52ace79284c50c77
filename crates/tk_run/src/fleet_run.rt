//! A run of a script with the drivers of its devices on threads, from its start to its end.

ghost use Rattle.std.specs.Prelude.{◌≡◌, ◌≢◌, ◌≤◌, length};
ghost use Rattle.machine_model.specs.Runs.Machine.{new_machine};
ghost use Rattle.fleet_model.specs.Fleets.{fleet_start};
ghost use Rattle.tk_ports.specs.Streams.{Rose};
ghost use Rattle.turn_lemmas.specs.Going.{IsFleetRun};
ghost use Rattle.tk_run.specs.FleetRuns.{RunEnds, held_by};
ghost use Rattle.tk_run.specs.Commands.{IsBudget};
ghost use Rattle.tk_run.specs.Readings.{Runs};
ghost use Rattle.tk_run.specs.Outcomes.{status_of_end};
ghost use Rattle.tk_run.specs.Runs.{HasRoom, ScriptAnswers, StartsAnswers};

use crate::fleet_turn::DrivenRun;
use crate::status::Status;
use crate::writing::failure_status;
use dev_drivers::{Fleet, FleetRecord, Spawner, Start, Started};
use std::alloc::Global;
use std::sync::Wait;
use std::thread::Threads;
use tk_kernel::Machine;
use tk_ports::Sink;
use tk_types::{End, Mode, Script};

/// The status of a run that ended so.
pub(crate) fn status_of_end(end: End) -> Status
    ensures { result ≡ status_of_end end }
{
    match end {
        End::Idle | End::Halt => Status::Done,
        End::Budget => Status::Budget,
    }
}

impl<P: Started> DrivenRun<P> {
    /// Runs the machine from its start to its end, and writes the lines of each event before it waits for another one.
    pub(crate) fn run<R: Wait, K: Sink>(&mut self, rt: &R, sink: &mut K) -> Status
        requires run { IsFleetRun self.old.machine.script self.old.machine.budget }
        requires machine { self.old.machine ≡ new_machine self.old.machine.script self.old.mode self.old.machine.budget }
        requires fleet { self.old.fleet ≡ fleet_start self.old.machine.script.devices }
        requires served { self.old.served ≡ 1 }
        ensures ends { RunEnds self.old.machine.script self.old.mode self.old.machine.budget self.new.fleet
            (held_by (K.held sink.old) (K.faulted sink.old) (K.sure_room sink.old)) (held_by (K.held sink.new) (K.faulted sink.new) (K.sure_room sink.new)) result }
    {
        if let Err(failure) = self.pass_on(sink) {
            return failure_status(failure);
        }
        'turns: for _turn in rt.forever() {
            match self.turn(rt, sink) {
                Ok(None) => {}
                Ok(Some(end)) => return status_of_end(end),
                Err(failure) => return failure_status(failure),
            }
        }
        unreachable!()
    }
}

/// Runs a script with devices, whose drivers are started for it, and writes its trace. The script is one that some text spells, and
/// the budget of steps is from 1 to 1,000,000. In free mode the drivers choose when a request ends; all else is determined. The
/// drivers are stopped and joined before it answers, and the record tells what went to each of them and came from it.
///
/// Answers `Done` or `Budget` by the end of the trace; `NoThread` where a driver couldn't be started, and then nothing is written;
/// `WriteFault` where the sink failed, or `NoMemory`, and then the sink took a front of a trace.
pub(crate) fn run_with_drivers<
    R: Threads + Wait + Copy + Send + Sync + 'static,
    K: Sink,
    P: Spawner<R>,
>(
    rt: &R,
    alloc: Global,
    script: Script,
    mode: Mode,
    budget: u32,
    sink: &mut K,
    spawner: &mut P,
) -> (Status, Option<FleetRecord>)
    requires runs { Runs script }
    requires some { 1 ≤ length script.devices }
    requires steps { IsBudget budget }
    ensures answers { ScriptAnswers script mode budget (K.held sink.old) (K.held sink.new) result.0 result.1 }

    // A failure shows in its count.
    ensures write_fault { result.0 ≡ Status.WriteFault → Rose (K.faulted sink.old) (K.faulted sink.new) }
    ensures faults_stay { K.faulted sink.old ≤ K.faulted sink.new }
    ensures no_thread { result.0 ≡ Status.NoThread → Rose (P.refusal_count spawner.old) (P.refusal_count spawner.new) }

    // A driver was started for each device, and all are joined.
    ensures starts { StartsAnswers (length script.devices) (P.start_count spawner.old) (P.start_count spawner.new) result.0 }
    ensures running { P.running spawner.new ≡ P.running spawner.old }

    // A trace that surely has room is written.
    ensures certain { HasRoom script mode budget (K.sure_room sink.old) → (result.0 ≢ Status.WriteFault) × (K.faulted sink.new ≡ K.faulted sink.old) }
{
    let fleet = match Fleet::start(rt, alloc, spawner, &script) {
        Ok(fleet) => fleet,
        Err(Start::Refused) => return (Status::NoThread, None),
        Err(Start::OutOfMemory) => return (Status::NoMemory, None),
    };
    let Ok(machine) = Machine::new(alloc, script, mode, budget) else {
        let record = fleet.close(rt, spawner);
        return (Status::NoMemory, Some(record));
    };
    let mut run = DrivenRun {
        machine,
        fleet,
        mode,
        served: 1,
        text: Vec::new(alloc),
    };
    let status = run.run(rt, sink);
    let DrivenRun {
        machine: _,
        fleet,
        mode: _,
        served: _,
        text: _,
    } = run;
    let record = fleet.close(rt, spawner);
    (status, Some(record))
}

//! The run of a generated script, whose one device is served inline.

ghost use Rattle.std.specs.Prelude.{◌≡◌, ◌<◌, ◌-◌, ◌^◌, [], IfOk, OnOk, None};
ghost use Rattle.machine_model.specs.Runs.Generator.{generated};
ghost use Rattle.machine_model.specs.Runs.SyncTrace.{sync_trace};
ghost use Rattle.machine_model.specs.Runs.Trace.{start};
ghost use Rattle.tk_gen.specs.Counts.{Fits, HasRoom, counted_on, nothing_counted};
ghost use Rattle.tk_gen.specs.Serving.{HasRequest, HasServed, IsBetweenTurns, TurnGives};
ghost use Rattle.tk_gen.specs.Summaries.{SumsUp, most_steps};

use crate::counts::Counts;
use crate::driving::{DEVICE, served};
use crate::script::{DEVICE_SIZE, generated};
use crate::summary::Summary;
use dev_units::{DriverCore, Unit};
use device_model::messages::Message;
use std::alloc::Global;
use tk_kernel::{Arrival, Machine, Pace};
use tk_types::{End, Kind, Mode, OutOfMemory};

/// The most steps of a run.
const MOST_STEPS: u32 = 100_000;

/// A run on its way: the machine, the driver of its one device, and how many lines there were of each kind.
#[derive(Drop)]
struct ServedRun {
    machine: Machine,
    driver: DriverCore,
    counts: Counts,
}

impl ServedRun {
    /// The run of a generated script before its first turn. The line of the first dispatch is counted.
    fn new(alloc: Global, number: u16) -> Result<ServedRun, OutOfMemory>
        ensures between { IfOk result (λ run. IsBetweenTurns (generated number) most_steps run) }
        ensures state { IfOk result (λ run. run.machine.state ≡ (start (generated number)).state) }
        ensures counts { IfOk result (λ run. run.counts ≡ counted_on nothing_counted (start (generated number)).lines) }
        ensures untaken { IfOk result (λ run. run.driver.taken ≡ 0) }
    {
        let script = generated(alloc, number)?;
        let unit = Unit::new(alloc, Kind::Ram(DEVICE_SIZE))?;
        let mut run = ServedRun {
            machine: Machine::new(alloc, script, Mode::Sync, MOST_STEPS)?,
            driver: DriverCore::new(alloc, DEVICE, unit)?,
            counts: Counts::new(),
        };
        run.count_lines();
        Ok(run)
    }

    /// The lines that the machine keeps are counted, and dropped.
    fn count_lines(&mut self)
        requires { Fits (counted_on self.old.counts self.old.machine.lines) }
        ensures machine { self.new.machine ≡ record self.old.machine { lines = [] } }
        ensures driver { self.new.driver ≡ self.old.driver }
        ensures counts { self.new.counts ≡ counted_on self.old.counts self.old.machine.lines }
    {
        let lines = self.machine.take_lines();
        self.counts.add(&lines);
    }

    /// The machine needs the ending of a request: its unit serves it, and it arrives.
    fn serve(&mut self) -> Result<(), OutOfMemory>
        requires waits { HasRequest self.old.machine.script self.old.machine.budget self.old }
        requires few { self.old.driver.taken < 2 ^ 64 - 1 }
        requires room { HasRoom 2 self.old.counts }
        ensures { OnOk result (HasServed self.old.machine.script self.old.machine.budget self.old self.new) }
    {
        let mut messages = self.machine.take_messages();
        let Some(Message::Serve { device: _, request }) = messages.pop() else {
            unreachable!();
        };
        let ending = served(&mut self.driver, request);
        match self.machine.arrive(ending) {
            Ok(()) => {
                self.count_lines();
                Ok(())
            }
            Err(Arrival::OutOfMemory) => Err(OutOfMemory),
            Err(Arrival::Unfit) => unreachable!(),
        }
    }

    /// One turn of the run: a step is done, or the ending of a request is made and arrives. Answers how the run ended, once it is
    /// over.
    fn turn(&mut self) -> Result<Option<End>, OutOfMemory>
        requires between { IsBetweenTurns self.old.machine.script self.old.machine.budget self.old }
        requires few { self.old.driver.taken < 2 ^ 64 - 1 }
        requires room { HasRoom 2 self.old.counts }
        ensures { IfOk result (λ over. TurnGives self.old.machine.script self.old.machine.budget self.old self.new over) }
    {
        match self.machine.step()? {
            Pace::Went => {
                self.count_lines();
                Ok(None)
            }
            Pace::Over(end) => {
                self.count_lines();
                Ok(Some(end))
            }
            Pace::NeedsEnding => {
                self.serve()?;
                Ok(None)
            }
        }
    }

    /// What is told of the run, which ended so.
    fn summary(&self, number: u16, last: End) -> Summary
        ensures { result ≡ record { number = number; steps = self.now.machine.state.steps; calls = self.now.counts.calls; waits = self.now.counts.waits; ticks = self.now.counts.ticks; endings = self.now.counts.endings; last = last } }
    {
        Summary {
            number,
            steps: self.machine.steps_done(),
            calls: self.counts.calls,
            waits: self.counts.waits,
            ticks: self.counts.ticks,
            endings: self.counts.endings,
            last,
        }
    }
}

/// Runs the script with a number in sync mode, by 100,000 steps at most, and tells how often a call returned, a task began to wait,
/// a tick passed, and a request ended. The unit of its device is served inline. Lines are counted as they come, and none is kept.
/// `OutOfMemory` comes only where the host's memory runs out.
pub fn summed_up(alloc: Global, number: u16) -> Result<Summary, OutOfMemory>
    ensures { IfOk result (λ summed. SumsUp summed number (sync_trace (generated number) most_steps)) }
{
    let mut run = ServedRun::new(alloc, number)?;
    'turns: for _turn in 0..2 * MOST_STEPS + 1 {
        if let Some(end) = run.turn()? {
            return Ok(run.summary(number, end));
        }
    }
    // Each turn does a step or takes the ending of a request, and each request is asked for at a step of its own. So these turns
    // are enough.
    Ok(run.summary(number, End::Budget))
}

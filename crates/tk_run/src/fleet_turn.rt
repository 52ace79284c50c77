//! One turn of a run with drivers: an ending is taken in, or a step is done.

ghost use Rattle.std.specs.Prelude.{◌≡◌, ◌≤◌, [], length, None, OnErr, OnOk, Some};
ghost use Rattle.fleet_model.specs.Fleets.{HasChannel, IsOfFleet, Waited};
ghost use Rattle.run_model.specs.SoFar.{SoFar};
ghost use Rattle.tk_model.specs.LineText.{text_of_lines};
ghost use Rattle.turn_lemmas.specs.Going.{Going, Hands, IsGoing, MayHand};
ghost use Rattle.tk_run.specs.FleetRuns.{StepAnswers, TakeAnswers, TurnAnswers, held_by};

use crate::offering::{hand_all, offer};
use crate::writing::{Unwritten, write_lines};
use dev_drivers::{Fleet, Started};
use device_model::messages::Ending;
use std::sync::Wait;
use tk_kernel::{Machine, Pace};
use tk_ports::Sink;
use tk_types::{End, Mode};

/// A run with drivers on its way: the machine, the fleet that follows it, the device to which the last request went, and room for the
/// text of lines.
pub(crate) struct DrivenRun<P: Started> {
    pub(crate) machine: Machine,
    pub(crate) fleet: Fleet<P>,
    pub(crate) mode: Mode,
    pub(crate) served: u8,
    pub(crate) text: Vec<u8>,
}

impl<P: Started> DrivenRun<P> {
    /// Writes the lines that the machine keeps, and then hands its messages to the drivers.
    pub(crate) fn pass_on<K: Sink>(&mut self, sink: &mut K) -> Result<(), Unwritten>
        requires places { MayHand self.old.fleet self.old.machine.messages }
        requires served { HasChannel self.old.fleet self.old.served }
        ensures written { TakeAnswers (held_by (K.held sink.old) (K.faulted sink.old) (K.sure_room sink.old)) (held_by (K.held sink.new) (K.faulted sink.new) (K.sure_room sink.new))
            (text_of_lines self.old.machine.lines) result }
        ensures machine { OnOk result (self.new.machine ≡ record self.old.machine { lines = []; messages = [] }) }
        ensures hands { OnOk result (Hands self.old.fleet self.old.machine.messages self.new.fleet []) }
        ensures unhanded { OnErr result (self.new.fleet ≡ self.old.fleet) }
        ensures served { HasChannel self.new.fleet self.new.served }
        ensures mode { self.new.mode ≡ self.old.mode }
    {
        let lines = self.machine.take_lines();
        write_lines(&lines, &mut self.text, sink)?;
        let messages = self.machine.take_messages();
        self.served = hand_all(&mut self.fleet, messages, self.served);
        Ok(())
    }

    /// Offers an ending that came out of an outbox to the machine. What follows of it is passed on.
    fn take_in<K: Sink>(&mut self, ending: Ending, sink: &mut K) -> Result<(), Unwritten>
        requires going { IsGoing self.old.machine.script self.old.machine.mode self.old.machine.budget (Some ending) 1 self.old.machine self.old.fleet }
        requires served { HasChannel self.old.fleet self.old.served }
        ensures answers { (so : SoFar) → Going self.old.machine.script self.old.machine.mode self.old.machine.budget so (Some ending) 1 self.old.machine self.old.fleet →
            StepAnswers self.old.machine.script self.old.machine.mode self.old.machine.budget so self.new.machine self.new.fleet
            (held_by (K.held sink.old) (K.faulted sink.old) (K.sure_room sink.old)) (held_by (K.held sink.new) (K.faulted sink.new) (K.sure_room sink.new)) result }
        ensures served { HasChannel self.new.fleet self.new.served }
        ensures mode { self.new.mode ≡ self.old.mode }
    {
        match offer(&mut self.fleet, &mut self.machine, ending) {
            Ok(true) => self.pass_on(sink),
            Ok(false) => Ok(()),
            Err(_) => Err(Unwritten::NoMemory),
        }
    }

    /// Waits for an ending: in sync mode for the one of the device that has the request, else for the next one of any device.
    fn wait<R: Wait>(&mut self, rt: &R) -> Ending
        requires some { 1 ≤ length self.old.fleet.channels }
        requires served { HasChannel self.old.fleet self.old.served }
        ensures waited { Waited self.old.fleet self.new.fleet (Some result) }
        ensures of_fleet { IsOfFleet self.old.fleet (Some result) }
        ensures machine { self.new.machine ≡ self.old.machine }
        ensures served { self.new.served ≡ self.old.served }
        ensures mode { self.new.mode ≡ self.old.mode }
    {
        match self.mode {
            Mode::Free => self.fleet.wait_any(rt),
            Mode::Sync => self.fleet.wait_of(rt, self.served),
        }
    }

    /// One turn of a run: an ending that is there is offered, or else a step is done; and where the machine needs an ending the turn
    /// waits for one and offers it. The lines of each event are written before the turn waits.
    pub(crate) fn turn<R: Wait, K: Sink>(
        &mut self,
        rt: &R,
        sink: &mut K,
    ) -> Result<Option<End>, Unwritten>
        requires going { IsGoing self.old.machine.script self.old.machine.mode self.old.machine.budget None 0 self.old.machine self.old.fleet }
        requires served { HasChannel self.old.fleet self.old.served }
        ensures answers { (so : SoFar) → Going self.old.machine.script self.old.machine.mode self.old.machine.budget so None 0 self.old.machine self.old.fleet →
            TurnAnswers self.old.machine.script self.old.machine.mode self.old.machine.budget so self.new.machine self.new.fleet
            (held_by (K.held sink.old) (K.faulted sink.old) (K.sure_room sink.old)) (held_by (K.held sink.new) (K.faulted sink.new) (K.sure_room sink.new)) result }
        ensures served { HasChannel self.new.fleet self.new.served }
        ensures mode { self.new.mode ≡ self.old.mode }
    {
        if let Some(ending) = self.fleet.poll() {
            self.take_in(ending, sink)?;
            return Ok(None);
        }
        let Ok(pace) = self.machine.step() else {
            return Err(Unwritten::NoMemory);
        };
        self.pass_on(sink)?;
        match pace {
            Pace::Went => Ok(None),
            Pace::Over(end) => Ok(Some(end)),
            Pace::NeedsEnding => {
                let ending = self.wait(rt);
                self.take_in(ending, sink)?;
                Ok(None)
            }
        }
    }
}

//! The machine that runs a script.

ghost use Rattle.std.specs.Prelude.{◌≡◌, ◌<◌, ◌≤◌, ◌++◌, ◌⊎◌, IfOk, IsErr, OnErr, OnOk, Err, None, Some, [], true};
ghost use Rattle.device_model.specs.Devices.Endings.{expected};
ghost use Rattle.dev_layer.specs.Tables.{AreDevices};
ghost use Rattle.kernel_model.specs.Bodies.Statements.{IsRunnable};
ghost use Rattle.machine_model.specs.Runs.Machine.{Machine as MachineView, after_arrive, after_step, new_machine};
ghost use Rattle.tk_kernel.specs.Pace.{pace_after};

use crate::arriving::arrive;
use crate::kernel::Kernel;
use crate::pacing::{Output, Pace, advance, over_of};
use device_model::messages::{Ending, Message};
use std::alloc::Global;
use std::marker::Model;
use std::mem;
use tk_types::{End, How, Line, Mode, OutOfMemory, Script};

/// Why a call of `arrive` took no ending.
#[derive(Clone, Copy, Debug, PartialEq, Eq)]
pub enum Arrival {
    /// The ending isn't fit now, or the run is over. Nothing changed.
    Unfit,
    /// The host's memory ran out.
    OutOfMemory,
}

/// A machine that runs a script step by step, and keeps the lines of the trace and the messages to drivers until they are
/// taken.
#[derive(Drop)]
pub struct Machine {
    alloc: Global,
    script: Script,
    mode: Mode,
    budget: u32,
    kernel: Kernel,
    over: Option<End>,
    failed: bool,
    out: Output,
}

impl Model for Machine {
    ghost use Rattle.machine_model.specs.Runs.Machine.{Machine as MachineView};
    ghost use Rattle.step_lemmas.specs.Budgets.{IsGoing};

    ghost Value = { MachineView };

    ghost view = { λ m. record { script = m.script; mode = m.mode; budget = m.budget; state = m.kernel; over = m.over; failed = m.failed; lines = m.out.lines.items; messages = m.out.messages.items } };

    ghost invariant = { λ m. IsGoing m.script m.mode m.budget m.kernel m.over m.failed };
}

impl Machine {
    /// A machine at the start of a script, which keeps the line of its first dispatch. The script is one that some text
    /// spells, and the budget of steps is from 1 to 1,000,000.
    #[tactic(auto, unfolding(machine_model::specs::Runs::Trace::start))]
    pub fn new(
        alloc: Global,
        script: Script,
        mode: Mode,
        budget: u32,
    ) -> Result<Machine, OutOfMemory>
        requires runnable { IsRunnable script }
        requires devices { AreDevices script.devices }
        requires low { 1 ≤ budget }
        requires high { budget ≤ 1000000 }
        ensures { IfOk result (λ machine. machine ≡ new_machine script mode budget) }
    {
        let mut kernel = Kernel::new(alloc, &script)?;
        let mut lines = Vec::new(alloc);
        kernel.dispatch(0, &mut lines)?;
        Ok(Machine {
            alloc,
            script,
            mode,
            budget,
            kernel,
            over: None,
            failed: false,
            out: Output {
                lines,
                messages: Vec::new(alloc),
            },
        })
    }

    /// Does one step and keeps its lines and messages, or answers again how the run ended. Where an ending has to arrive first
    /// no step is done, and it answers so again, with nothing changed, until one has arrived. Once the host's memory ran out
    /// in a call, each later call answers so too.
    pub fn step(&mut self) -> Result<Pace, OutOfMemory>
        ensures stepped { OnOk result (self.new ≡ after_step self.old) }
        ensures pace { IfOk result (λ pace. pace ≡ pace_after self.old) }
        ensures failing { OnErr result (self.new.failed ≡ true) }
        ensures fails_on { self.old.failed ≡ true → IsErr result }
    {
        if self.failed {
            return Err(OutOfMemory);
        }
        if let Some(end) = self.over {
            return Ok(Pace::Over(end));
        }
        self.kernel.known_of_tasks();
        match advance(
            &mut self.kernel,
            &self.script,
            self.mode,
            self.budget,
            &mut self.out,
        ) {
            Ok(pace) => {
                self.over = over_of(pace);
                Ok(pace)
            }
            Err(_) => {
                self.failed = true;
                Err(OutOfMemory)
            }
        }
    }

    /// The ending of a request arrives before the next step, and its lines and messages are kept. `Unfit`, with nothing
    /// changed, comes exactly where the ending isn't fit now, or the run is over. Once the host's memory ran out in a call,
    /// each later call answers so too.
    pub fn arrive(&mut self, ending: Ending) -> Result<(), Arrival>
        ensures arrived { OnOk result (after_arrive self.old ending ≡ Some self.new) }
        ensures unfit { result ≡ Err Arrival.Unfit → (after_arrive self.old ending ≡ None) × (self.new ≡ self.old) }
        ensures failing { result ≡ Err Arrival.OutOfMemory → self.new.failed ≡ true }
        ensures fails_on { self.old.failed ≡ true → result ≡ Err Arrival.OutOfMemory }
    {
        if self.failed {
            return Err(Arrival::OutOfMemory);
        }
        if self.over.is_some() {
            return Err(Arrival::Unfit);
        }
        self.kernel.known_of_tasks();
        match arrive(
            &mut self.kernel,
            &self.script,
            self.mode,
            &ending,
            &mut self.out,
        ) {
            Ok(true) => Ok(()),
            Ok(false) => Err(Arrival::Unfit),
            Err(_) => {
                self.failed = true;
                Err(Arrival::OutOfMemory)
            }
        }
    }

    /// The ending of that kind that is fit now for what is with a device's driver, where no message was taken. `None` comes
    /// exactly where none is fit.
    pub fn expected(&self, device: u8, how: How) -> Result<Option<Ending>, OutOfMemory>
        ensures { IfOk result (λ ending. ending ≡ expected self.now.state.objects.devices device how) }
    {
        Ok(dev_layer::expected(&self.kernel.devices, device, how)?)
    }

    /// How many steps are done.
    pub fn steps_done(&self) -> u32
        ensures { result ≡ self.now.state.steps }
    {
        self.kernel.steps()
    }

    /// Moves out the lines that weren't taken yet. It takes no memory.
    pub fn take_lines(&mut self) -> Vec<Line>
        ensures taken { result.items ≡ self.old.lines }
        ensures left { self.new ≡ record self.old { lines = [] } }
    {
        mem::replace(&mut self.out.lines, Vec::new(self.alloc))
    }

    /// Moves out the messages to drivers that weren't taken yet. It takes no memory.
    pub fn take_messages(&mut self) -> Vec<Message>
        ensures taken { result.items ≡ self.old.messages }
        ensures left { self.new ≡ record self.old { messages = [] } }
    {
        mem::replace(&mut self.out.messages, Vec::new(self.alloc))
    }
}

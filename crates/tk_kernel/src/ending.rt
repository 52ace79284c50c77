//! What a task leaves that a call has ended.

ghost use Rattle.std.specs.Prelude.{◌≡◌, ◌<◌, ◌≤◌, ◌-◌, OnOk};
ghost use Rattle.machine_model.specs.Events.Calls.{ended_by, ended_in, without_holdings};
ghost use Rattle.std.specs.Option.{is_some};
ghost use Rattle.object_model.specs.Mutexes.Tables.{free_last};
ghost use Rattle.machine_model.specs.Events.Settle.{freed};
ghost use Rattle.step_lemmas.specs.Freeing.{freed_by};
ghost use Rattle.step_lemmas.specs.Sound.{IsSound};
ghost use Rattle.machine_model.specs.States.State.{parts_of, with_parts};

use crate::kernel::Kernel;
use std::alloc::AllocError;
use tk_types::{Call, Mode, Outcome, TaskCall};

/// The most mutexes that a task can hold: all that there may be.
const MOST_MUTEXES: usize = 64;

/// The task that a call on tasks ends, or 0. A number below 0 is no task.
fn ended_in(actor: u8, call: &TaskCall) -> u32
    ensures { result ≡ ended_in actor call.now }
{
    match *call {
        TaskCall::ExtTsk | TaskCall::ExdTsk => actor as u32,
        TaskCall::TerTsk { task } => task.max(0) as u32,
        _ => 0,
    }
}

/// The task that a call which answered a value has ended, or 0.
fn ended_by(actor: u8, call: &Call, outcome: Outcome) -> u32
    ensures { result ≡ ended_by actor call.now outcome }
{
    match (call, outcome) {
        (Call::Task(call), Outcome::Returned(answer)) => {
            if answer.value == 0 {
                ended_in(actor, call)
            } else {
                0
            }
        }
        _ => 0,
    }
}

impl Kernel {
    /// A task that ended frees the mutex that it locked last. False, with nothing changed, comes exactly where it holds none.
    fn free_last(&mut self, task: u8) -> bool
        ensures freed { result ≡ is_some (free_last self.old.base self.old.objects.mutexes task) }
        ensures left { self.new ≡ freed_by task self.old }
    {
        mutex_prio::free_last(&self.base, &mut self.mutexes, task)
    }

    /// The same; what waits still stands in its order and has asked for something that fits.
    fn free_one(&mut self, task: u8) -> bool
        requires sound { IsSound self.old.base self.old.objects }
        ensures freed { result ≡ is_some (free_last self.old.base self.old.objects.mutexes task) }
        ensures left { self.new ≡ freed_by task self.old }
        ensures sound { IsSound self.new.base self.new.objects }
    {
        self.known_of_tasks();
        self.free_last(task)
    }

    /// A task that ended frees its mutexes, the one locked last first, and all settles after each.
    fn free_all(&mut self, mode: Mode, task: u8) -> Result<(), AllocError>
        requires sound { IsSound self.old.base self.old.objects }
        ensures { OnOk result (self.new ≡ with_parts self.old (freed mode task (parts_of self.old))) }
    {
        'mutexes: for _freed in 0..MOST_MUTEXES {
            if !self.free_one(task) {
                return Ok(());
            }
            self.settle(mode)?;
        }
        Ok(())
    }

    /// A task that ended leaves all its services, and frees its mutexes.
    fn drop_holdings(&mut self, mode: Mode, task: u8) -> Result<(), AllocError>
        requires sound { IsSound self.old.base self.old.objects }
        ensures { OnOk result (self.new ≡ without_holdings mode self.old task) }
    {
        if task == 0 {
            return Ok(());
        }
        contexts::left(&mut self.contexts, task, true);
        self.free_all(mode, task)?;
        Ok(())
    }

    /// What a task leaves that a call has ended.
    pub(crate) fn end_holdings(
        &mut self,
        mode: Mode,
        actor: u8,
        call: &Call,
        outcome: Outcome,
    ) -> Result<(), AllocError>
        requires sound { IsSound self.old.base self.old.objects }
        requires task { ended_by actor call.now outcome < 256 }
        ensures { OnOk result (self.new ≡ without_holdings mode self.old (ended_by actor call.now outcome)) }
    {
        let task = ended_by(actor, call, outcome);
        self.drop_holdings(mode, task as u8)?;
        Ok(())
    }
}

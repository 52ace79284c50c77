//! What follows each event: settling, the lines of the waits that ended, and the dispatch.

ghost use Rattle.std.specs.Prelude.{◌≡◌, ◌≤◌, ◌++◌, OnOk, true};
ghost use Rattle.tk_types.specs.declared.call_name.CallName.{CallName};
ghost use Rattle.machine_model.specs.Events.Rest.{IsAtRest};
ghost use Rattle.machine_model.specs.Events.Settle.{handed, refreshed, served_within};
ghost use Rattle.machine_model.specs.Events.Follow.{delays, dispatched, follow_release, followed, release_line, settled, with_releases};
ghost use Rattle.machine_model.specs.States.State.{parts_of, with_parts};
ghost use Rattle.step_lemmas.specs.Sound.{IsSound};

use crate::hooking::push_hooked;
use crate::kernel::Kernel;
use kernel_base::Release;
use std::alloc::AllocError;
use task_machine::{call_before, give};
use tk_types::{CallName, Hook, Line, Mode, Script};

/// The most servings of one settling: each ends a wait, or moves one, and no more tasks wait than have a slot.
const MOST_SERVINGS: usize = 512;

/// Adds the line of a wait that ended, where its call is known.
fn push_release_line(
    lines: &mut Vec<Line>,
    step: u32,
    ended: Release,
    call: Option<CallName>,
) -> Result<(), AllocError>
    ensures { OnOk result (lines.new.items ≡ lines.old.items ++ release_line step ended call) }
{
    let Release { task, answer } = ended;
    match call {
        None => Ok(()),
        Some(call) => {
            lines.push(Line::Released {
                step,
                task,
                call,
                answer,
            })?;
            Ok(())
        }
    }
}

impl Kernel {
    /// Changed priorities are taken over.
    fn take_priorities(&mut self)
        ensures { self.new ≡ with_parts self.old (refreshed (parts_of self.old)) }
    {
        mutex_prio::resettle(&mut self.base, &self.mutexes);
    }

    /// The same; what waits still stands in its order and has asked for something that fits.
    fn refresh(&mut self)
        requires sound { IsSound self.old.base self.old.objects }
        ensures taken { self.new ≡ with_parts self.old (refreshed (parts_of self.old)) }
        ensures sound { IsSound self.new.base self.new.objects }
    {
        self.known_of_tasks();
        self.take_priorities();
    }

    /// In free mode requests go to the drivers that have none.
    fn hand_over(&mut self, mode: Mode) -> Result<(), AllocError>
        requires sound { IsSound self.old.base self.old.objects }
        ensures { OnOk result (self.new ≡ with_parts self.old (handed mode (parts_of self.old))) }
    {
        dev_layer::hand_over(&self.base, &mut self.devices, mode, false)?;
        Ok(())
    }

    /// Changed priorities are taken over, and waiters are served one after another until none can be.
    fn serve_all(&mut self) -> Result<(), AllocError>
        requires sound { IsSound self.old.base self.old.objects }
        ensures served { OnOk result (self.new ≡ with_parts self.old (served_within 512 (refreshed (parts_of self.old)))) }
        ensures sound { OnOk result (IsSound self.new.base self.new.objects) }
    {
        self.refresh();
        'servings: for _served in 0..MOST_SERVINGS {
            let served = self.serve_first()?;
            if !served {
                return Ok(());
            }
            self.refresh();
        }
        Ok(())
    }

    /// Settling: changed priorities are taken over, waiters are served until none can be, and requests go to drivers.
    #[tactic(auto, unfolding(machine_model::specs::Events::Settle::settle))]
    fn settle_parts(&mut self, mode: Mode) -> Result<(), AllocError>
        requires sound { IsSound self.old.base self.old.objects }
        ensures { OnOk result (self.new ≡ settled mode self.old) }
    {
        self.serve_all()?;
        self.hand_over(mode)?;
        Ok(())
    }

    /// The same; what waits still stands in its order and has asked for something that fits.
    pub(crate) fn settle(&mut self, mode: Mode) -> Result<(), AllocError>
        requires sound { IsSound self.old.base self.old.objects }
        ensures settled { OnOk result (self.new ≡ settled mode self.old) }
        ensures sound { OnOk result (IsSound self.new.base self.new.objects) }
    {
        self.known_of_tasks();
        self.settle_parts(mode)?;
        Ok(())
    }

    /// A wait that ended has its line, and its answer goes into the registers of its task.
    #[tactic(auto, unfolding(machine_model::specs::Events::Follow::follow_release))]
    fn follow_release(
        &mut self,
        script: &Script,
        step: u32,
        ended: Release,
        lines: &mut Vec<Line>,
    ) -> Result<(), AllocError>
        ensures state { OnOk result (self.new ≡ (follow_release script.now step self.old ended).state) }
        ensures lines { OnOk result (lines.new.items ≡ lines.old.items ++ (follow_release script.now step self.old ended).lines) }
    {
        let mut frame = self.frame(ended.task);
        let call = call_before(script, &frame);
        give(&mut frame, &ended.answer);
        self.set_frame(ended.task, frame);
        push_release_line(lines, step, ended, call)
    }

    /// The waits that ended are followed in order, and none is left to take.
    #[tactic(auto, unfolding(machine_model::specs::Events::Follow::with_releases))]
    fn follow_releases(
        &mut self,
        script: &Script,
        step: u32,
        lines: &mut Vec<Line>,
    ) -> Result<(), AllocError>
        ensures state { OnOk result (self.new ≡ (with_releases script.now step self.old).state) }
        ensures lines { OnOk result (lines.new.items ≡ lines.old.items ++ (with_releases script.now step self.old).lines) }
    {
        'releases: while let Some(ended) = self.base.next_release() {
            self.follow_release(script, step, ended, lines)?;
        }
        Ok(())
    }

    /// Whether dispatching is delayed: a handler runs, one that is due waits to start, or dispatching or interrupts are
    /// disabled.
    fn is_delayed(&self) -> bool
        ensures { result ≡ delays self.now }
    {
        let flags = self.base.flags();
        flags.handler || !self.due.is_empty() || flags.dispatch_off || flags.di
    }

    /// Dispatching, with a line where the chosen task isn't the current one.
    #[tactic(auto, unfolding(machine_model::specs::Events::Follow::dispatched))]
    pub(crate) fn dispatch(&mut self, step: u32, lines: &mut Vec<Line>) -> Result<(), AllocError>
        ensures state { OnOk result (self.new ≡ (dispatched step self.old).state) }
        ensures lines { OnOk result (lines.new.items ≡ lines.old.items ++ (dispatched step self.old).lines) }
    {
        if self.is_delayed() {
            return Ok(());
        }
        let task = self.base.chosen();
        if self.base.is_current(task) {
            return Ok(());
        }
        self.base.dispatch();
        let is_hooked = self.hooks().dsp;
        let line = Line::Dispatch { step, task };
        push_hooked(lines, is_hooked, step, Hook::Dispatch { task }, line)
    }

    /// What follows an event: settling, the waits that ended, the dispatch.
    #[tactic(auto, unfolding(machine_model::specs::Events::Follow::followed))]
    pub(crate) fn follow(
        &mut self,
        script: &Script,
        mode: Mode,
        step: u32,
        lines: &mut Vec<Line>,
    ) -> Result<(), AllocError>
        requires sound { IsSound self.old.base self.old.objects }
        ensures state { OnOk result (self.new ≡ (followed script.now mode step self.old).state) }
        ensures lines { OnOk result (lines.new.items ≡ lines.old.items ++ (followed script.now mode step self.old).lines) }
    {
        self.settle(mode)?;
        self.follow_releases(script, step, lines)?;
        self.dispatch(step, lines)?;
        Ok(())
    }
}

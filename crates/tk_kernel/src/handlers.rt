//! Interrupts that become pending, and the starts of handlers.

ghost use Rattle.std.specs.Prelude.{◌≡◌, ◌≤◌, ◌++◌, OnOk, Some, length, slice_get};
ghost use Rattle.step_lemmas.specs.Places.{InFront};
ghost use Rattle.machine_model.specs.Events.Handlers.{due_begun, handler_begun, insert_once, interrupt_begun, requested, with_requests};

use crate::hooking::push_hooked;
use crate::kernel::Kernel;
use kernel_base::{Event, Flags};
use std::alloc::AllocError;
use task_machine::start_frame;
use tk_types::{HandlerKind, Hook, Line, Script};

/// The place of a number in a rising list: that of the first number that isn't less.
fn place_of(pending: &[u8], number: u8) -> usize
    ensures front { InFront number result pending.now }
    ensures bound { result ≤ length pending.now }
    ensures stops { (first : _) → slice_get pending.now result ≡ Some first → number ≤ first }
{
    'places: for place in 0..pending.len() {
        if pending[place] >= number {
            return place;
        }
    }
    pending.len()
}

/// A number takes its place in a rising list, unless it stands there.
fn insert_once(pending: &mut Vec<u8>, number: u8) -> Result<(), AllocError>
    ensures { OnOk result (pending.new.items ≡ insert_once number pending.old.items) }
{
    let place = place_of(pending.as_slice(), number);
    if place < pending.len() && pending[place] == number {
        return Ok(());
    }
    pending.insert(place, number)?;
    Ok(())
}

impl Kernel {
    /// An interrupt becomes pending, once, where a handler is defined for it; else it is dropped.
    fn request(&mut self, number: u8) -> Result<(), AllocError>
        ensures { OnOk result (self.new ≡ requested self.old number) }
    {
        if contexts::handler(&self.contexts, number).is_none() {
            return Ok(());
        }
        insert_once(&mut self.pending, number)
    }

    /// The interrupts of a step become pending.
    #[tactic(auto, unfolding(machine_model::specs::Events::Handlers::with_requests))]
    pub(crate) fn request_all(&mut self, script: &Script, step: u32) -> Result<(), AllocError>
        ensures { OnOk result (self.new ≡ with_requests script.now step self.old) }
    {
        'interrupts: for irq in script.irqs.as_slice() {
            if irq.step == step {
                self.request(irq.number)?;
            }
        }
        Ok(())
    }

    /// A handler starts, with its number in r1.
    #[tactic(auto, unfolding(machine_model::specs::Events::Handlers::handler_begun))]
    fn begin_handler(
        &mut self,
        step: u32,
        kind: HandlerKind,
        number: u8,
        body: u8,
        lines: &mut Vec<Line>,
    ) -> Result<(), AllocError>
        ensures state { OnOk result (self.new ≡ (handler_begun step self.old kind number body).state) }
        ensures lines { OnOk result (lines.new.items ≡ lines.old.items ++ (handler_begun step self.old kind number body).lines) }
    {
        self.set_frame(0, start_frame(body, number as i32, 0));
        let flags = self.base.flags();
        self.base.set_flags(Flags {
            handler: true,
            ..flags
        });
        let is_hooked = self.hooks().int;
        let hook = Hook::Handler {
            handler: kind,
            number,
        };
        let line = Line::Started {
            step,
            handler: kind,
            number,
        };
        push_hooked(lines, is_hooked, step, hook, line)
    }

    /// The first handler that is due starts. The end of a wait is none.
    #[tactic(auto, unfolding(machine_model::specs::Events::Handlers::due_begun))]
    pub(crate) fn begin_due(
        &mut self,
        step: u32,
        what: Event,
        lines: &mut Vec<Line>,
    ) -> Result<(), AllocError>
        ensures state { OnOk result (self.new ≡ (due_begun step self.old what).state) }
        ensures lines { OnOk result (lines.new.items ≡ lines.old.items ++ (due_begun step self.old what).lines) }
    {
        let body = time_events::body_of(&self.clocks, what).unwrap_or(0);
        match what {
            Event::Cyclic(id) => self.begin_handler(step, HandlerKind::Cyclic, id, body, lines),
            Event::Alarm(id) => self.begin_handler(step, HandlerKind::Alarm, id, body, lines),
            Event::Wait(_) => Ok(()),
        }
    }

    /// The handler of a pending interrupt starts, and the interrupt is no longer pending.
    #[tactic(auto, unfolding(machine_model::specs::Events::Handlers::interrupt_begun))]
    pub(crate) fn begin_interrupt(
        &mut self,
        step: u32,
        number: u8,
        lines: &mut Vec<Line>,
    ) -> Result<(), AllocError>
        ensures state { OnOk result (self.new ≡ (interrupt_begun step self.old number).state) }
        ensures lines { OnOk result (lines.new.items ≡ lines.old.items ++ (interrupt_begun step self.old number).lines) }
    {
        self.pending.retain(|pending: &u8| *pending != number);
        let body = contexts::handler(&self.contexts, number).unwrap_or(0);
        self.begin_handler(step, HandlerKind::Interrupt, number, body, lines)
    }
}

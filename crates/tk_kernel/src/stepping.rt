//! What is done at a step.

ghost use Rattle.std.specs.Prelude.{◌≡◌, ◌<◌, ◌≤◌, ◌+◌, ◌^◌, ◌++◌, IfOk, OnOk, length, nat_le};
ghost use Rattle.std.specs.Bool.{◌==◌};
ghost use Rattle.std.specs.List.{list_any};
ghost use Rattle.kernel_model.specs.Bodies.Statements.{IsRunnable};
ghost use Rattle.machine_model.specs.Events.Rest.{IsAtRest};
ghost use Rattle.machine_model.specs.Runs.Step.{end_after, has_event, is_paced, is_quiet, made_pending, paced, worked};
ghost use Rattle.step_lemmas.specs.Pace.{end_lines};
ghost use Rattle.step_lemmas.specs.Sound.{IsSound};

use crate::kernel::Kernel;
use std::alloc::AllocError;
use tk_types::{End, LastLine, Line, Mode, Script};

/// Whether a tick becomes pending at a step: the script's pace divides its number.
fn is_paced(pace: Option<u32>, step: u32) -> bool
    ensures { result ≡ is_paced pace step }
{
    match pace {
        None => false,
        Some(pace) => pace > 0 && step % pace == 0,
    }
}

/// The end after a step: `halt` comes before the budget.
fn end_after(halted: bool, at_budget: bool) -> Option<End>
    ensures { result ≡ end_after halted at_budget }
{
    if halted {
        return Some(End::Halt);
    }
    if at_budget {
        return Some(End::Budget);
    }
    None
}

/// Adds the line of an end.
pub(crate) fn push_end(
    lines: &mut Vec<Line>,
    step: u32,
    over: Option<End>,
) -> Result<(), AllocError>
    ensures { OnOk result (lines.new.items ≡ lines.old.items ++ end_lines step over) }
{
    let end = match over {
        None => return Ok(()),
        Some(End::Idle) => LastLine::Idle,
        Some(End::Halt) => LastLine::Halt,
        Some(End::Budget) => LastLine::Budget,
    };
    lines.push(Line::End { step, end })?;
    Ok(())
}

/// Whether an interrupt of a step or a later one is to come.
fn has_interrupt(script: &Script, step: u32) -> bool
    ensures { result ≡ list_any (λ irq. nat_le step irq.step) script.now.irqs }
{
    'interrupts: for irq in script.irqs.as_slice() {
        if step <= irq.step {
            return true;
        }
    }
    false
}

impl Kernel {
    /// Whether nothing can be done now: no handler runs or is due, no tick and no interrupt is pending, and no task is
    /// ready.
    pub(crate) fn is_quiet(&self) -> bool
        ensures { result ≡ is_quiet self.now }
    {
        !self.base.flags().handler
            && self.due.is_empty()
            && self.ticks == 0
            && self.pending.is_empty()
            && self.base.chosen() == 0
    }

    /// Whether something is set for a time, or an interrupt of a step or a later one is to come.
    pub(crate) fn has_event(&self, script: &Script, step: u32) -> bool
        ensures { result ≡ has_event script.now step self.now }
    {
        self.base.has_event() || has_interrupt(script, step)
    }

    /// A tick becomes pending where the step is one of the pace.
    fn set_pace(&mut self, script: &Script, step: u32)
        requires { self.old.ticks < 2 ^ 31 }
        ensures { self.new ≡ paced script.now step self.old }
    {
        if is_paced(script.pace, step) {
            self.ticks += 1;
        }
    }

    /// What a step makes pending: its interrupts, and a tick where it is one of the pace.
    fn make_pending(&mut self, script: &Script, step: u32) -> Result<(), AllocError>
        requires { self.old.ticks < 2 ^ 31 }
        ensures { OnOk result (self.new ≡ made_pending script.now step self.old) }
    {
        self.request_all(script, step)?;
        self.set_pace(script, step);
        Ok(())
    }

    /// What is done at a step, with all that follows it: where it was a statement from which nothing follows, nothing does.
    #[tactic(auto, unfolding(machine_model::specs::Runs::Step::worked))]
    pub(crate) fn work(
        &mut self,
        script: &Script,
        mode: Mode,
        step: u32,
        lines: &mut Vec<Line>,
    ) -> Result<(), AllocError>
        requires runnable { IsRunnable script.now }
        requires few { self.old.base.made + length self.old.base.events < 2 ^ 63 }
        requires early { self.old.base.time + 1 < 2 ^ 63 }
        requires ticks { self.old.ticks < 2 ^ 31 }
        requires sound { IsSound self.old.base self.old.objects }
        requires rest { IsAtRest mode self.old }
        ensures state { OnOk result (self.new ≡ (worked script.now mode step self.old).state) }
        ensures lines { OnOk result (lines.new.items ≡ lines.old.items ++ (worked script.now mode step self.old).lines) }
    {
        self.known_of_tasks();
        self.make_pending(script, step)?;
        let turn = self.turn();
        let follows = self.do_turn(script, mode, step, turn, lines)?;
        if !follows {
            return Ok(());
        }
        self.follow(script, mode, step, lines)?;
        Ok(())
    }

    /// Counts a step, and ends the run after `halt` or at its budget.
    pub(crate) fn count(
        &mut self,
        budget: u32,
        step: u32,
        lines: &mut Vec<Line>,
    ) -> Result<Option<End>, AllocError>
        ensures state { OnOk result (self.new ≡ record self.old { steps = step }) }
        ensures ending { IfOk result (λ over. over ≡ end_after self.old.halted (step == budget)) }
        ensures lines { OnOk result (lines.new.items ≡ lines.old.items ++ end_lines step (end_after self.old.halted (step == budget))) }
    {
        self.steps = step;
        let over = end_after(self.halted, step == budget);
        push_end(lines, step, over)?;
        Ok(over)
    }
}

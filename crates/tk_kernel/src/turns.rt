//! Whose turn it is at a step, and what is done then.

ghost use Rattle.std.specs.Prelude.{◌≡◌, ◌<◌, ◌≤◌, ◌+◌, ◌^◌, ◌++◌, IfOk, OnOk, false, length};
ghost use Rattle.kernel_model.specs.Bodies.Statements.{IsRunnable};
ghost use Rattle.machine_model.specs.Events.Rest.{IsAtRest};
ghost use Rattle.machine_model.specs.Runs.Turns.{done_turn, turn_of, turn_of_events};
ghost use Rattle.step_lemmas.specs.Sound.{IsSound};

use crate::kernel::Kernel;
use machine_model::turns::Turn;
use std::alloc::AllocError;
use tk_types::{Line, Mode, Script};

impl Kernel {
    /// Whose turn it is where no handler runs or is due: a pending tick's, that of the pending interrupt with the least
    /// number, the current task's, or an idle tick's. While interrupts are disabled the first two have none.
    fn turn_of_events(&self) -> Turn
        ensures { result ≡ turn_of_events self.now.base.flags.di self.now }
    {
        if !self.base.flags().di {
            if self.ticks > 0 {
                return Turn::Tick;
            }
            if let Some(number) = self.pending.first() {
                return Turn::Interrupt(*number);
            }
        }
        match self.running() {
            0 => Turn::Idle,
            task => Turn::Task(task),
        }
    }

    /// Whose turn it is: the running handler's, the first due handler's, and else that of the other events.
    #[tactic(auto, unfolding(machine_model::specs::Runs::Turns::turn_of))]
    pub(crate) fn turn(&self) -> Turn
        ensures { result ≡ turn_of self.now }
    {
        if self.base.flags().handler {
            return Turn::Handler;
        }
        if let Some(what) = self.due.front() {
            return Turn::Due(*what);
        }
        self.turn_of_events()
    }

    /// What is done at a turn. The answer is whether something may follow from it.
    #[tactic(auto, unfolding(machine_model::specs::Runs::Turns::done_turn))]
    pub(crate) fn do_turn(
        &mut self,
        script: &Script,
        mode: Mode,
        step: u32,
        turn: Turn,
        lines: &mut Vec<Line>,
    ) -> Result<bool, AllocError>
        requires runnable { IsRunnable script.now }
        requires few { self.old.base.made + length self.old.base.events < 2 ^ 63 }
        requires early { self.old.base.time + 1 < 2 ^ 63 }
        requires sound { IsSound self.old.base self.old.objects }
        requires rest { IsAtRest mode self.old }
        ensures state { OnOk result (self.new ≡ (done_turn script.now mode step self.old turn).state) }
        ensures lines { OnOk result (lines.new.items ≡ lines.old.items ++ (done_turn script.now mode step self.old turn).lines) }
        ensures rest { IfOk result (λ follows. follows ≡ false → IsAtRest mode self.new) }
    {
        match turn {
            Turn::Handler => self.run(script, mode, step, 0, lines),
            Turn::Task(task) => self.run(script, mode, step, task, lines),
            Turn::Due(what) => {
                self.due.pop_front();
                self.begin_due(step, what, lines)?;
                Ok(true)
            }
            Turn::Interrupt(number) => {
                self.begin_interrupt(step, number, lines)?;
                Ok(true)
            }
            Turn::Tick => {
                self.ticks = self.ticks.saturating_sub(1);
                self.tick(mode, step, lines)?;
                Ok(true)
            }
            Turn::Idle => {
                self.tick(mode, step, lines)?;
                Ok(true)
            }
        }
    }
}

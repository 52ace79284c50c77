//! Statements of tasks, services and the running handler.

ghost use Rattle.std.specs.Prelude.{◌≡◌, ◌<◌, ◌^◌, ◌∷◌, ◌++◌, IfOk, OnOk, [], false, true};
ghost use Rattle.kernel_model.specs.Bodies.Statements.{IsRunnable};
ghost use Rattle.machine_model.specs.Events.Rest.{IsAtRest};
ghost use Rattle.machine_model.specs.Runs.Turns.{acted, fell, ran, said_line};
ghost use Rattle.step_lemmas.specs.Sound.{IsSound};

use crate::kernel::Kernel;
use std::alloc::AllocError;
use task_machine::fetch;
use tk_types::{Act, Call, Line, Mode, SayText, Script, TaskCall};

/// The line of what a body says.
fn said_line(step: u32, who: u8, text: SayText) -> Line
    ensures { result ≡ said_line step who text }
{
    match text {
        SayText::Name(name) => Line::SaidName { step, who, name },
        SayText::Number(number) => Line::SaidNumber { step, who, number },
    }
}

/// Adds the line of what a body says.
fn say(lines: &mut Vec<Line>, step: u32, who: u8, text: SayText) -> Result<(), AllocError>
    ensures { OnOk result (lines.new.items ≡ lines.old.items ++ said_line step who text ∷ []) }
{
    lines.push(said_line(step, who, text))?;
    Ok(())
}

impl Kernel {
    /// The end of a body: that of a task's body is the call that ends the task, and that of any other body returns 0.
    fn fall_off(
        &mut self,
        mode: Mode,
        step: u32,
        actor: u8,
        lines: &mut Vec<Line>,
    ) -> Result<(), AllocError>
        requires few { self.old.base.made < 2 ^ 63 }
        requires early { self.old.base.time < 2 ^ 63 }
        requires sound { IsSound self.old.base self.old.objects }
        ensures state { OnOk result (self.new ≡ (fell mode step self.old actor).state) }
        ensures lines { OnOk result (lines.new.items ≡ lines.old.items ++ (fell mode step self.old actor).lines) }
    {
        if actor == 0 || contexts::depth_in(&self.contexts, actor) > 0 {
            return self.return_body(step, actor, 0, lines);
        }
        self.make_call(mode, step, actor, &Call::Task(TaskCall::ExtTsk), lines)
    }

    /// What a statement asked for. The answer is whether something may follow from it: nothing does where it was no call, no
    /// return and no end of a body.
    #[tactic(auto, unfolding(machine_model::specs::Runs::Turns::acted))]
    fn act(
        &mut self,
        mode: Mode,
        step: u32,
        actor: u8,
        act: &Act,
        lines: &mut Vec<Line>,
    ) -> Result<bool, AllocError>
        requires few { self.old.base.made < 2 ^ 63 }
        requires early { self.old.base.time < 2 ^ 63 }
        requires sound { IsSound self.old.base self.old.objects }
        requires rest { IsAtRest mode self.old }
        ensures state { OnOk result (self.new ≡ (acted mode step self.old actor act.now).state) }
        ensures lines { OnOk result (lines.new.items ≡ lines.old.items ++ (acted mode step self.old actor act.now).lines) }
        ensures rest { IfOk result (λ follows. follows ≡ false → IsAtRest mode self.new) }
    {
        match act {
            Act::Call(call) => {
                self.make_call(mode, step, actor, call, lines)?;
                Ok(true)
            }
            Act::Fell => {
                self.fall_off(mode, step, actor, lines)?;
                Ok(true)
            }
            Act::Return(value) => {
                self.return_body(step, actor, *value, lines)?;
                Ok(true)
            }
            Act::Say(text) => {
                say(lines, step, actor, *text)?;
                Ok(false)
            }
            Act::Halt => {
                self.halted = true;
                Ok(false)
            }
            Act::Computed => Ok(false),
        }
    }

    /// A statement in the frame with a number. The answer is whether something may follow from it.
    #[tactic(auto, unfolding(machine_model::specs::Runs::Turns::ran))]
    pub(crate) fn run(
        &mut self,
        script: &Script,
        mode: Mode,
        step: u32,
        actor: u8,
        lines: &mut Vec<Line>,
    ) -> Result<bool, AllocError>
        requires runnable { IsRunnable script.now }
        requires few { self.old.base.made < 2 ^ 63 }
        requires early { self.old.base.time < 2 ^ 63 }
        requires sound { IsSound self.old.base self.old.objects }
        requires rest { IsAtRest mode self.old }
        ensures state { OnOk result (self.new ≡ (ran script.now mode step self.old actor).state) }
        ensures lines { OnOk result (lines.new.items ≡ lines.old.items ++ (ran script.now mode step self.old actor).lines) }
        ensures rest { IfOk result (λ follows. follows ≡ false → IsAtRest mode self.new) }
    {
        self.known_of_tasks();
        let mut frame = self.frame(actor);
        let act = fetch(&mut frame, &mut self.memory, script);
        self.set_frame(actor, frame);
        self.act(mode, step, actor, &act, lines)
    }
}

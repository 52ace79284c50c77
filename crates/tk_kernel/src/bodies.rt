//! What calls mean for the bodies of the script: the starts of tasks, services and their returns, and what doesn't start any
//! more.

ghost use Rattle.std.specs.Prelude.{◌≡◌, ◌<◌, ◌++◌, ◌∷◌, OnOk, [], filter, not, pos};
ghost use Rattle.std.specs.Ordering.{int_eq};
ghost use Rattle.tk_types.specs.declared.task.Event.TheVariants.{Alarm, Cyclic};
ghost use Rattle.context_model.specs.Clocks.Tables.{is_event};
ghost use Rattle.kernel_model.specs.Words.Checks.{natural};
ghost use Rattle.kernel_model.specs.Words.Orders.{without};
ghost use Rattle.machine_model.specs.States.State.{save_place, saved_frame};
ghost use Rattle.context_model.specs.Contexts.Tables.{depth_in};
ghost use Rattle.machine_model.specs.Events.Bodies.{begun, body_returned, entered, handler_ended, noted, returned, undefined, with_body, with_start, withdrawn};

use crate::hooking::push_hooked;
use crate::kernel::Kernel;
use kernel_base::answers::plain;
use kernel_base::{Event, Flags};
use std::alloc::AllocError;
use task_machine::{give, start_frame};
use tk_types::{Call, CallName, ContextCall, Frame, Hook, Line, TaskCall, TimeCall};

/// Whether an event is the start of the cyclic handler with an ID.
fn is_cyclic(id: u32, what: Event) -> bool
    ensures { result ≡ is_event (Cyclic id) what }
{
    match what {
        Event::Cyclic(other) => other as u32 == id,
        _ => false,
    }
}

/// Whether an event is the start of the alarm handler with an ID.
fn is_alarm(id: u32, what: Event) -> bool
    ensures { result ≡ is_event (Alarm id) what }
{
    match what {
        Event::Alarm(other) => other as u32 == id,
        _ => false,
    }
}

/// A number as a natural one; below 0 it counts as 0.
fn natural(number: i32) -> u32
    ensures { result ≡ natural number }
{
    if number < 0 {
        return 0;
    }
    number.cast_unsigned()
}

impl Kernel {
    /// A created task gets its body. An error is no task.
    fn set_body(&mut self, task: i32, body: u8)
        ensures { self.new ≡ with_body self.old task body }
    {
        if task > 0 && task < 256 {
            self.bodies[task as usize] = body;
        }
    }

    /// A started task is at the start of its body.
    fn start_body(&mut self, task: i32, code: i32)
        ensures { self.new ≡ with_start self.old task code }
    {
        if task >= 0 && task < 256 {
            let body = self.bodies[task as usize];
            self.frames[task as usize] = start_frame(body, code, 0);
        }
    }

    /// What follows for the bodies from a call on tasks that answered a value.
    fn begin(&mut self, task: u8, call: &TaskCall, value: i32)
        ensures { self.new ≡ begun self.old task call.now value }
    {
        match *call {
            TaskCall::CreTsk { body, .. } => self.set_body(value, body),
            TaskCall::StaTsk { task, code } => {
                if value == 0 {
                    self.start_body(task, code);
                }
            }
            TaskCall::ExdTsk => self.base.delete(task),
            _ => {}
        }
    }
}

impl Kernel {
    /// A handler that was deleted doesn't start any more.
    fn withdraw(&mut self, call: &TimeCall)
        ensures { self.new ≡ withdrawn self.old call.now }
    {
        match *call {
            TimeCall::DelCyc { id } => {
                let id = natural(id);
                self.due.retain(|what: &Event| !is_cyclic(id, *what));
            }
            TimeCall::DelAlm { id } => {
                let id = natural(id);
                self.due.retain(|what: &Event| !is_alarm(id, *what));
            }
            _ => {}
        }
    }

    /// An interrupt whose handler was taken away is no longer pending.
    fn undefine(&mut self, call: &ContextCall)
        ensures { self.new ≡ undefined self.old call.now }
    {
        if let ContextCall::DefInt { number, body: 0 } = *call {
            let number = natural(number);
            self.pending
                .retain(|pending: &u8| *pending as u32 != number);
        }
    }

    /// What follows from a call that answered a value, beyond the parts of the kernel.
    pub(crate) fn note(&mut self, task: u8, call: &Call, value: i32)
        ensures { self.new ≡ noted self.old task call.now value }
    {
        match call {
            Call::Task(call) => self.begin(task, call, value),
            Call::Time(call) => {
                if value == 0 {
                    self.withdraw(call);
                }
            }
            Call::Context(call) => {
                if value == 0 {
                    self.undefine(call);
                }
            }
            _ => {}
        }
    }

    /// A service begins in the frame of its task, whose own frame is saved. The nesting counts already.
    #[tactic(auto, unfolding(machine_model::specs::Events::Bodies::entered))]
    pub(crate) fn enter(&mut self, task: u8, body: u8, value: i32)
        ensures { self.new ≡ entered self.old task body value }
    {
        let place = self.save_place(task);
        self.saved[place] = self.frame(task);
        self.set_frame(task, start_frame(body, value, task as i32));
    }

    /// Where the frame is saved that called the innermost service of a task.
    fn save_place(&self, task: u8) -> usize
        ensures place { result ≡ save_place task (depth_in self.now.objects.contexts task) }
        ensures inside { result < 2048 }
    {
        let depth = contexts::depth_in(&self.contexts, task) as usize;
        8 * task as usize + depth.saturating_sub(1)
    }

    /// A service returns a value: the frame that called it goes on, with the value as the answer of its call.
    #[tactic(auto, unfolding(machine_model::specs::Events::Bodies::returned))]
    fn leave(
        &mut self,
        step: u32,
        task: u8,
        value: i32,
        lines: &mut Vec<Line>,
    ) -> Result<(), AllocError>
        ensures state { OnOk result (self.new ≡ (returned step self.old task value).state) }
        ensures lines { OnOk result (lines.new.items ≡ lines.old.items ++ (returned step self.old task value).lines) }
    {
        let answer = plain(value);
        let mut frame = self.saved[self.save_place(task)];
        give(&mut frame, &answer);
        self.set_frame(task, frame);
        contexts::left(&mut self.contexts, task, false);
        let is_hooked = self.hooks().svc;
        let hook = Hook::Service {
            who: task,
            call: CallName::Svc,
        };
        let line = Line::Returned {
            step,
            who: task,
            call: CallName::Svc,
            answer,
        };
        push_hooked(lines, is_hooked, step, hook, line)
    }

    /// The handler that runs has ended.
    fn end_handler(&mut self)
        ensures { self.new ≡ handler_ended self.old }
    {
        let flags = self.base.flags();
        self.base.set_flags(Flags {
            handler: false,
            ..flags
        });
    }

    /// A body returns: a handler ends, and a service goes back to its caller. No task's body has a `return`.
    #[tactic(auto, unfolding(machine_model::specs::Events::Bodies::body_returned))]
    pub(crate) fn return_body(
        &mut self,
        step: u32,
        actor: u8,
        value: i32,
        lines: &mut Vec<Line>,
    ) -> Result<(), AllocError>
        ensures state { OnOk result (self.new ≡ (body_returned step self.old actor value).state) }
        ensures lines { OnOk result (lines.new.items ≡ lines.old.items ++ (body_returned step self.old actor value).lines) }
    {
        if actor == 0 {
            self.end_handler();
            return Ok(());
        }
        if contexts::depth_in(&self.contexts, actor) == 0 {
            return Ok(());
        }
        self.leave(step, actor, value, lines)
    }
}

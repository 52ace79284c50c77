//! Calls of tasks and of the running handler.

ghost use Rattle.std.specs.Prelude.{◌≡◌, ◌<◌, ◌^◌, ◌++◌, IfOk, OnOk};
ghost use Rattle.machine_model.specs.Events.Bodies.{service_value};
ghost use Rattle.machine_model.specs.Events.Calls.{after_hook_call, answered, call_lines, called, family_call, views_of};
ghost use Rattle.context_model.specs.Hooks.Calls.{hook_call};
ghost use Rattle.machine_model.specs.States.State.{who_of};
ghost use Rattle.step_lemmas.specs.Sound.{IsSound};

use crate::hooking::push_hooked;
use crate::kernel::Kernel;
use std::alloc::AllocError;
use task_machine::give;
use td_hooks::Views;
use tk_types::{Call, CallName, ContextCall, Hook, HookCall, Line, Mode, Outcome, Who};

/// Who acts in the frame with a number: the running handler in 0, and a task in each other one.
fn who_of(actor: u8) -> Who
    ensures { result ≡ who_of actor }
{
    if actor == 0 {
        Who::Handler
    } else {
        Who::Task(actor)
    }
}

/// The argument of an extended call.
fn service_value(call: &Call) -> i32
    ensures { result ≡ service_value call.now }
{
    match call {
        Call::Context(ContextCall::Svc { value, .. }) => *value,
        _ => 0,
    }
}

/// Adds the line of a call: it returned, or its task waits. The entry of an extended call has none. Where the hook of calls is
/// set, its line stands before.
fn push_call_line(
    lines: &mut Vec<Line>,
    is_hooked: bool,
    step: u32,
    who: u8,
    call: CallName,
    outcome: Outcome,
) -> Result<(), AllocError>
    ensures { OnOk result (lines.new.items ≡ lines.old.items ++ call_lines is_hooked step who call outcome) }
{
    let line = match outcome {
        Outcome::Returned(answer) => Line::Returned {
            step,
            who,
            call,
            answer,
        },
        Outcome::Blocked => Line::Blocked {
            step,
            task: who,
            call,
        },
        Outcome::Entered(_) => return Ok(()),
    };
    push_hooked(lines, is_hooked, step, Hook::Service { who, call }, line)
}

impl Kernel {
    /// A call of a debugger, which looks at all tables.
    fn debugger_call(&mut self, who: Who, call: &HookCall) -> Outcome
        ensures { after_hook_call self.old (hook_call (views_of self.old) self.old.hooks self.old.memory who call.now) ≡ record { state = self.new; outcome = result } }
    {
        let views = Views {
            sem_flags: &self.sem_flags,
            mutexes: &self.mutexes,
            mails: &self.mails,
            pools: &self.pools,
            clocks: &self.clocks,
            contexts: &self.contexts,
        };
        td_hooks::call(
            &self.base,
            &mut self.hooks,
            &views,
            &mut self.memory,
            who,
            call,
        )
    }

    /// A call of a task or of the running handler, by the family of the call.
    #[tactic(auto, unfolding(machine_model::specs::Events::Calls::family_call))]
    fn family_call(&mut self, actor: u8, call: &Call) -> Result<Outcome, AllocError>
        requires few { self.old.base.made < 2 ^ 63 }
        requires early { self.old.base.time < 2 ^ 63 }
        requires sound { IsSound self.old.base self.old.objects }
        ensures { IfOk result (λ outcome. family_call self.old actor call.now ≡ record { state = self.new; outcome = outcome }) }
    {
        let who = who_of(actor);
        match call {
            Call::Task(call) => Ok(task_calls::call(&mut self.base, &self.mutexes, who, call)),
            Call::SemFlag(call) => {
                Ok(sem_flag::call(&mut self.base, &mut self.sem_flags, who, call))
            }
            Call::Mutex(call) => Ok(mutex_prio::call(&mut self.base, &mut self.mutexes, who, call)),
            Call::Mail(call) => mail_buffer::call(
                &mut self.base,
                &mut self.mails,
                &mut self.memory,
                who,
                call,
            ),
            Call::Pool(call) => mem_pools::call(&mut self.base, &mut self.pools, who, call),
            Call::Time(call) => Ok(time_events::call(&mut self.base, &mut self.clocks, call)),
            Call::Context(call) => Ok(contexts::call(
                &mut self.base,
                &mut self.contexts,
                who,
                call,
            )),
            Call::Hook(call) => Ok(self.debugger_call(who, call)),
            Call::Device(call) => dev_layer::call(
                &mut self.base,
                &mut self.devices,
                &mut self.mails,
                &mut self.memory,
                who,
                call,
            ),
        }
    }

    /// What became of a call: an answer goes into the registers of the caller, and an extended call begins its service.
    #[tactic(auto, unfolding(machine_model::specs::Events::Calls::answered))]
    fn take_answer(&mut self, actor: u8, call: &Call, outcome: Outcome)
        ensures { self.new ≡ answered self.old actor call.now outcome }
    {
        match outcome {
            Outcome::Returned(answer) => {
                let mut frame = self.frame(actor);
                give(&mut frame, &answer);
                self.set_frame(actor, frame);
                self.note(actor, call, answer.value);
            }
            Outcome::Blocked => {}
            Outcome::Entered(body) => self.enter(actor, body, service_value(call)),
        }
    }

    /// A task or the running handler makes a call. The hook that was set before it decides on its line.
    #[tactic(auto, unfolding(machine_model::specs::Events::Calls::called))]
    pub(crate) fn make_call(
        &mut self,
        mode: Mode,
        step: u32,
        actor: u8,
        call: &Call,
        lines: &mut Vec<Line>,
    ) -> Result<(), AllocError>
        requires few { self.old.base.made < 2 ^ 63 }
        requires early { self.old.base.time < 2 ^ 63 }
        requires sound { IsSound self.old.base self.old.objects }
        ensures state { OnOk result (self.new ≡ (called mode step self.old actor call.now).state) }
        ensures lines { OnOk result (lines.new.items ≡ lines.old.items ++ (called mode step self.old actor call.now).lines) }
    {
        self.known_of_tasks();
        let is_hooked = self.hooks().svc;
        let outcome = self.family_call(actor, call)?;
        self.end_holdings(mode, actor, call, outcome)?;
        self.take_answer(actor, call, outcome);
        push_call_line(lines, is_hooked, step, actor, call.name(), outcome)?;
        Ok(())
    }
}

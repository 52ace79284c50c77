//! One step of a run that goes on: where nothing can be done now, it may need an ending first, or be over.

ghost use Rattle.std.specs.Prelude.{◌≡◌, ◌<◌, ◌≤◌, ◌+◌, ◌++◌, ◌&&◌, IfOk, OnOk, not, unwrap_or};
ghost use Rattle.std.specs.Option.{is_some};
ghost use Rattle.count_lemmas.specs.Counts.{IsCounted};
ghost use Rattle.kernel_model.specs.Bodies.Statements.{IsRunnable};
ghost use Rattle.machine_model.specs.Events.Rest.{IsAtRest};
ghost use Rattle.machine_model.specs.Runs.Reached.{after_pace};
ghost use Rattle.machine_model.specs.Runs.Step.{any_unfinished, needed, quiet_step, step, went};
ghost use Rattle.step_lemmas.specs.Pace.{lines_with, messages_with};
ghost use Rattle.step_lemmas.specs.Sound.{IsSound};
ghost use Rattle.tk_kernel.specs.Pace.{over_of, pace_of, pace_with};

use crate::kernel::Kernel;
use crate::stepping::push_end;
use device_model::messages::Message;
use std::alloc::AllocError;
use tk_types::{End, Line, Mode, Script};

/// What a call of `step` came to.
#[derive(Clone, Copy, Debug, PartialEq, Eq)]
pub enum Pace {
    /// The run goes on.
    Went,
    /// No step can be done before the ending of a request arrives.
    NeedsEnding,
    /// The run is over.
    Over(End),
}

/// Lines of the trace, and messages to drivers, that weren't taken yet.
#[derive(Drop)]
pub(crate) struct Output {
    pub(crate) lines: Vec<Line>,
    pub(crate) messages: Vec<Message>,
}

/// Whether the run goes on after a step, or is over.
fn pace_of(over: Option<End>) -> Pace
    ensures { result ≡ pace_of over }
{
    match over {
        None => Pace::Went,
        Some(end) => Pace::Over(end),
    }
}

/// How the run ended, where it did.
pub(crate) fn over_of(pace: Pace) -> Option<End>
    ensures { result ≡ over_of pace }
{
    match pace {
        Pace::Over(end) => Some(end),
        _ => None,
    }
}

impl Kernel {
    /// Whether an ending has to arrive first, where nothing can be done now. In sync mode a request goes to its driver for
    /// that, unless one is there.
    fn needs_ending(&mut self, mode: Mode, event: bool) -> Result<bool, AllocError>
        requires sound { IsSound self.old.base self.old.objects }
        ensures needs { IfOk result (λ needs. needs ≡ is_some (needed mode event self.old)) }
        ensures state { OnOk result (self.new ≡ unwrap_or (needed mode event self.old) self.old) }
    {
        let given = self.devices.any_given();
        match mode {
            Mode::Free => Ok(!event && given),
            Mode::Sync => {
                if given {
                    return Ok(true);
                }
                if !self.devices.any_queued() {
                    return Ok(false);
                }
                dev_layer::hand_over(&self.base, &mut self.devices, Mode::Sync, true)?;
                Ok(true)
            }
        }
    }

    /// Whether a request hasn't ended yet.
    fn any_unfinished(&self) -> bool
        ensures { result ≡ any_unfinished self.now.objects.devices }
    {
        self.devices.any_given() || self.devices.any_queued()
    }
}

/// Does the step that comes next.
#[tactic(auto, unfolding(machine_model::specs::Runs::Step::counted))]
fn go_on(
    kernel: &mut Kernel,
    script: &Script,
    mode: Mode,
    budget: u32,
    out: &mut Output,
) -> Result<Pace, AllocError>
    requires runnable { IsRunnable script.now }
    requires limit { budget ≤ 1000000 }
    requires left { kernel.old.steps < budget }
    requires counts { IsCounted kernel.old }
    requires sound { IsSound kernel.old.base kernel.old.objects }
    requires rest { IsAtRest mode kernel.old }
    ensures state { OnOk result (kernel.new ≡ after_pace kernel.old (went script.now mode budget kernel.old)) }
    ensures pace { IfOk result (λ pace. pace ≡ pace_with (went script.now mode budget kernel.old)) }
    ensures lines { OnOk result (out.new.lines.items ≡ out.old.lines.items ++ lines_with kernel.old.steps (went script.now mode budget kernel.old)) }
    ensures messages { OnOk result (out.new.messages.items ≡ out.old.messages.items ++ messages_with (went script.now mode budget kernel.old)) }
{
    let step = kernel.steps() + 1;
    kernel.work(script, mode, step, &mut out.lines)?;
    let over = kernel.count(budget, step, &mut out.lines)?;
    kernel.gather(&mut out.messages)?;
    Ok(pace_of(over))
}

/// The same where nothing can be done now, unless an ending has to arrive first or the run is over.
fn pass(
    kernel: &mut Kernel,
    script: &Script,
    mode: Mode,
    budget: u32,
    event: bool,
    out: &mut Output,
) -> Result<Pace, AllocError>
    requires runnable { IsRunnable script.now }
    requires limit { budget ≤ 1000000 }
    requires left { kernel.old.steps < budget }
    requires counts { IsCounted kernel.old }
    requires sound { IsSound kernel.old.base kernel.old.objects }
    requires rest { IsAtRest mode kernel.old }
    ensures state { OnOk result (kernel.new ≡ after_pace kernel.old (quiet_step event script.now mode budget kernel.old)) }
    ensures pace { IfOk result (λ pace. pace ≡ pace_with (quiet_step event script.now mode budget kernel.old)) }
    ensures lines { OnOk result (out.new.lines.items ≡ out.old.lines.items ++ lines_with kernel.old.steps (quiet_step event script.now mode budget kernel.old)) }
    ensures messages { OnOk result (out.new.messages.items ≡ out.old.messages.items ++ messages_with (quiet_step event script.now mode budget kernel.old)) }
{
    if kernel.needs_ending(mode, event)? {
        kernel.gather(&mut out.messages)?;
        return Ok(Pace::NeedsEnding);
    }
    if !event && !kernel.any_unfinished() {
        push_end(&mut out.lines, kernel.steps(), Some(End::Idle))?;
        return Ok(Pace::Over(End::Idle));
    }
    go_on(kernel, script, mode, budget, out)
}

/// A step of a run that goes on.
#[tactic(auto, unfolding(machine_model::specs::Runs::Step::step))]
pub(crate) fn advance(
    kernel: &mut Kernel,
    script: &Script,
    mode: Mode,
    budget: u32,
    out: &mut Output,
) -> Result<Pace, AllocError>
    requires runnable { IsRunnable script.now }
    requires limit { budget ≤ 1000000 }
    requires left { kernel.old.steps < budget }
    requires counts { IsCounted kernel.old }
    requires sound { IsSound kernel.old.base kernel.old.objects }
    requires rest { IsAtRest mode kernel.old }
    ensures state { OnOk result (kernel.new ≡ after_pace kernel.old (step script.now mode budget kernel.old)) }
    ensures pace { IfOk result (λ pace. pace ≡ pace_with (step script.now mode budget kernel.old)) }
    ensures lines { OnOk result (out.new.lines.items ≡ out.old.lines.items ++ lines_with kernel.old.steps (step script.now mode budget kernel.old)) }
    ensures messages { OnOk result (out.new.messages.items ≡ out.old.messages.items ++ messages_with (step script.now mode budget kernel.old)) }
{
    if kernel.is_quiet() {
        let event = kernel.has_event(script, kernel.steps() + 1);
        return pass(kernel, script, mode, budget, event, out);
    }
    go_on(kernel, script, mode, budget, out)
}

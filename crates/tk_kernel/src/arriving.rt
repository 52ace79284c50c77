//! The ending of a request arrives.

ghost use Rattle.std.specs.Prelude.{◌≡◌, ◌<◌, ◌≤◌, ◌+◌, ◌^◌, ◌∷◌, ◌++◌, [], IfOk, OnOk, Some, None, true, false, unwrap_or};
ghost use Rattle.std.specs.Option.{is_some, option_map};
ghost use Rattle.device_model.specs.Devices.Endings.{arrive};
ghost use Rattle.device_model.specs.Devices.Handing.{messages};
ghost use Rattle.machine_model.specs.Events.Arrivals.{arrived, ending_line};
ghost use Rattle.machine_model.specs.Events.Follow.{Event};
ghost use Rattle.machine_model.specs.States.Objects.{dev_parts, with_devices};
ghost use Rattle.machine_model.specs.States.State.{parts_of, taken, with_parts};
ghost use Rattle.step_lemmas.specs.Arrivals.{HasArrived, arrival_of};
ghost use Rattle.step_lemmas.specs.Sound.{IsSound};

use crate::kernel::Kernel;
use crate::pacing::Output;
use device_model::messages::Ending;
use std::alloc::AllocError;
use tk_types::{How, Line, LineEnding, Mode, Script};

/// The line of an ending that arrives before a step.
fn ending_line(step: u32, ending: &Ending) -> Line
    ensures { result ≡ ending_line step ending.now }
{
    let shown = match ending.how {
        How::Done => LineEnding::Done {
            error: ending.error.main_code(),
            size: ending.size,
        },
        How::Cut(moved) => LineEnding::Cut(moved),
    };
    Line::Ending {
        step,
        device: ending.device,
        request: ending.request,
        ending: shown,
    }
}

impl Kernel {
    /// An ending takes its effect on the devices and the script's memory. False, with nothing changed, comes exactly where it
    /// isn't fit.
    fn take_ending(&mut self, ending: &Ending) -> bool
        requires sound { IsSound self.old.base self.old.objects }
        ensures taken { result ≡ is_some (arrival_of self.old ending.now) }
        ensures left { self.new ≡ unwrap_or (arrival_of self.old ending.now) self.old }
    {
        dev_layer::arrive(&self.base, &mut self.devices, &mut self.memory, ending)
    }

    /// The same; what waits still stands in its order and has asked for something that fits.
    fn accept_ending(&mut self, ending: &Ending) -> bool
        requires sound { IsSound self.old.base self.old.objects }
        ensures taken { result ≡ is_some (arrival_of self.old ending.now) }
        ensures left { self.new ≡ unwrap_or (arrival_of self.old ending.now) self.old }
        ensures sound { IsSound self.new.base self.new.objects }
    {
        self.known_of_tasks();
        self.take_ending(ending)
    }
}

/// An ending arrives before the next step, with its line and all that follows it. False, with nothing changed, comes exactly
/// where it isn't fit.
#[tactic(auto, unfolding(machine_model::specs::Events::Arrivals::arrived))]
pub(crate) fn arrive(
    kernel: &mut Kernel,
    script: &Script,
    mode: Mode,
    ending: &Ending,
    out: &mut Output,
) -> Result<bool, AllocError>
    requires sound { IsSound kernel.old.base kernel.old.objects }
    requires steps { kernel.old.steps + 1 < 2 ^ 32 }
    ensures some { IfOk result (λ some. some ≡ true → HasArrived (arrived script.now mode kernel.old ending.now) kernel.new out.old.lines.items out.new.lines.items out.old.messages.items out.new.messages.items) }
    ensures none { IfOk result (λ some. some ≡ false → (arrived script.now mode kernel.old ending.now ≡ None) × (kernel.new ≡ kernel.old) × (out.new ≡ out.old)) }
{
    if !kernel.accept_ending(ending) {
        return Ok(false);
    }
    let step = kernel.steps() + 1;
    out.lines.push(ending_line(step, ending))?;
    kernel.follow(script, mode, step, &mut out.lines)?;
    kernel.gather(&mut out.messages)?;
    Ok(true)
}

//! Lines before which a hook may stand.

ghost use Rattle.std.specs.Prelude.{◌≡◌, ◌++◌, OnOk};
ghost use Rattle.machine_model.specs.Events.Follow.{hooked};

use crate::kernel::Kernel;
use context_model::hook_set::HookSet;
use std::alloc::AllocError;
use tk_types::{Hook, Line};

/// Adds a line, and directly before it that of its hook where the hook is set.
pub(crate) fn push_hooked(
    lines: &mut Vec<Line>,
    is_set: bool,
    step: u32,
    hook: Hook,
    line: Line,
) -> Result<(), AllocError>
    ensures { OnOk result (lines.new.items ≡ lines.old.items ++ hooked is_set step hook line) }
{
    if is_set {
        lines.push(Line::Hook { step, hook })?;
    }
    lines.push(line)?;
    Ok(())
}

impl Kernel {
    /// The hooks that are set.
    pub(crate) fn hooks(&self) -> HookSet
        ensures { result ≡ self.now.hooks }
    {
        td_hooks::hooked(&self.hooks)
    }
}

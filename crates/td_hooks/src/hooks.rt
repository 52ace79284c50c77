//! The hooks that are set, and the calls that set them.

ghost use Rattle.std.specs.Prelude.{◌≡◌, List, ℕ};
ghost use Rattle.context_model.specs.Hooks.Calls.{set_hook, sets};
ghost use Rattle.context_model.specs.Hooks.Tables.{hooks_start};
ghost use Rattle.td_hooks.specs.Hooks.{with_hook};

use context_model::hook_set::HookSet;
use kernel_base::answers::{done, failed};
use std::marker::Model;
use tk_types::{Er, Outcome};

/// Which hooks are set.
#[derive(Drop)]
pub struct Hooks {
    set: HookSet,
}

impl Model for Hooks {
    ghost use Rattle.context_model.specs.declared.hook_set.HookSet.{HookSet as Set};

    ghost Value = { Set };

    ghost view = { λ hooks. hooks.set };
}

impl Hooks {
    /// No hook is set.
    pub fn new() -> Hooks
        ensures { result ≡ hooks_start }
    {
        Hooks {
            set: HookSet {
                svc: false,
                dsp: false,
                int: false,
            },
        }
    }
}

/// The hooks that are set.
pub fn hooked(hooks: &Hooks) -> HookSet
    ensures { result ≡ hooks.now }
{
    hooks.set
}

/// The hook of a debugger that a call sets or takes off.
#[derive(Clone, Copy)]
pub(crate) enum Hook {
    /// That of calls.
    Calls,
    /// That of dispatches.
    Dispatches,
    /// That of handlers.
    Handlers,
}

/// The hooks with one of them set or not.
fn with_hook(set: HookSet, hook: Hook, is_set: bool) -> HookSet
    ensures { result ≡ with_hook set hook is_set }
{
    match hook {
        Hook::Calls => HookSet { svc: is_set, ..set },
        Hook::Dispatches => HookSet { dsp: is_set, ..set },
        Hook::Handlers => HookSet { int: is_set, ..set },
    }
}

/// `td_hok_svc`, `td_hok_dsp`, `td_hok_int`: 1 sets a hook, and 0 takes it off.
#[tactic(auto, unfolding(context_model::specs::Hooks::Calls::set_hook))]
pub(crate) fn set_hook(hooks: &mut Hooks, hook: Hook, value: i32) -> Outcome
    ensures { (memory : List ℕ) → set_hook hooks.old memory value (with_hook hooks.old hook (sets value)) ≡ record { hooks = hooks.new; memory = memory; outcome = result } }
{
    if value < 0 || value > 1 {
        return failed(Er::Par);
    }
    hooks.set = with_hook(hooks.set, hook, value == 1);
    done(0)
}

//! Calls on what delays dispatching.

ghost use Rattle.std.specs.Prelude.{◌≡◌, ◌≤◌, ◌∷◌, [], pos, true, false};
ghost use Rattle.kernel_model.specs.Words.Checks.{answer};
ghost use Rattle.context_model.specs.Contexts.Calls.{context_number, disable_dispatch, disable_interrupts, enable_dispatch, enable_interrupts, flags_changed, refer_system};

use crate::table::Contexts;
use kernel_base::answers::{done, failed};
use kernel_base::{Base, Flags};
use kernel_model::marks::Mark;
use tk_types::{Answer, Er, Outcome, Who};

/// A task changes what delays dispatching. A handler may not.
fn change_flags(base: &mut Base, table: &Contexts, who: Who, flags: Flags) -> Outcome
    ensures { flags_changed base.old table.now who flags ≡ record { base = base.new; table = table.now; outcome = result } }
{
    if !base.allows(who, Mark::NeedsTask) {
        return failed(Er::Ctx);
    }
    base.set_flags(flags);
    done(0)
}

/// `tk_dis_dsp`: dispatching is disabled.
#[tactic(auto, unfolding(context_model::specs::Contexts::Calls::disable_dispatch))]
pub(crate) fn disable_dispatch(base: &mut Base, table: &Contexts, who: Who) -> Outcome
    ensures { disable_dispatch base.old table.now who ≡ record { base = base.new; table = table.now; outcome = result } }
{
    let flags = Flags {
        dispatch_off: true,
        ..base.flags()
    };
    change_flags(base, table, who, flags)
}

/// `tk_ena_dsp`: dispatching is enabled. Interrupts that are disabled stay so, and still delay it.
#[tactic(auto, unfolding(context_model::specs::Contexts::Calls::enable_dispatch))]
pub(crate) fn enable_dispatch(base: &mut Base, table: &Contexts, who: Who) -> Outcome
    ensures { enable_dispatch base.old table.now who ≡ record { base = base.new; table = table.now; outcome = result } }
{
    let flags = Flags {
        dispatch_off: false,
        ..base.flags()
    };
    change_flags(base, table, who, flags)
}

/// `DI`: interrupts are disabled, and dispatching with them.
#[tactic(auto, unfolding(context_model::specs::Contexts::Calls::disable_interrupts))]
pub(crate) fn disable_interrupts(base: &mut Base, table: &Contexts, who: Who) -> Outcome
    ensures { disable_interrupts base.old table.now who ≡ record { base = base.new; table = table.now; outcome = result } }
{
    let flags = Flags {
        di: true,
        ..base.flags()
    };
    change_flags(base, table, who, flags)
}

/// `EI`: interrupts are enabled.
#[tactic(auto, unfolding(context_model::specs::Contexts::Calls::enable_interrupts))]
pub(crate) fn enable_interrupts(base: &mut Base, table: &Contexts, who: Who) -> Outcome
    ensures { enable_interrupts base.old table.now who ≡ record { base = base.new; table = table.now; outcome = result } }
{
    let flags = Flags {
        di: false,
        ..base.flags()
    };
    change_flags(base, table, who, flags)
}

/// The number of the context: 3 while a handler runs, else 2 while interrupts are disabled, else 1 while dispatching is,
/// else 0.
fn context_number(flags: Flags) -> u8
    ensures { result ≡ context_number flags }
{
    if flags.handler {
        return 3;
    }
    if flags.di {
        return 2;
    }
    flags.dispatch_off as u8
}

/// What the system shows: the number of the context, the current task or 0, and the task that dispatching would choose or
/// 0.
fn shown(context: u8, current: u8, chosen: u8) -> Answer
    ensures { result ≡ answer (pos 0) (pos context ∷ pos current ∷ pos chosen ∷ []) }
{
    Answer {
        value: 0,
        fields: [context as i32, current as i32, chosen as i32, 0, 0],
        used: 3,
    }
}

/// `tk_ref_sys`: the context, the current task, and the one that dispatching would choose.
#[tactic(auto, unfolding(context_model::specs::Contexts::Calls::refer_system))]
pub(crate) fn refer_system(base: &Base, table: &Contexts) -> Outcome
    ensures { refer_system base.now table.now ≡ record { base = base.now; table = table.now; outcome = result } }
{
    let context = context_number(base.flags());
    Outcome::Returned(shown(context, base.cur().unwrap_or(0), base.chosen()))
}

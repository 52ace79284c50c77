//! The definition of subsystems, and the entry of their services.

ghost use Rattle.std.specs.Prelude.{◌≡◌};
ghost use Rattle.context_model.specs.Contexts.Calls.{define_service, enter_service, refer_service};

use crate::interrupts::slot_number;
use crate::table::{Contexts, MOST_NESTINGS, depth_in};
use kernel_base::Base;
use kernel_base::answers::{caller, done, failed};
use kernel_model::marks::Mark;
use tk_types::{Er, Outcome, Who};

/// `tk_def_ssy`: the body becomes the service of a subsystem that isn't defined yet; body 0 undefines one that is.
#[tactic(auto, unfolding(context_model::specs::Contexts::Calls::define_service))]
pub(crate) fn define_service(base: &Base, table: &mut Contexts, number: i32, body: u8) -> Outcome
    ensures { define_service base.now table.old number body ≡ record { base = base.now; table = table.new; outcome = result } }
{
    let Some(id) = slot_number(number) else {
        return failed(Er::Id);
    };
    if body == 0 && !table.has_ssy(id) {
        return failed(Er::NoExs);
    }
    if body != 0 && table.has_ssy(id) {
        return failed(Er::Obj);
    }
    table.set_service(id, body);
    done(0)
}

/// `tk_ref_ssy`: answers 0 where a subsystem is defined.
#[tactic(auto, unfolding(context_model::specs::Contexts::Calls::refer_service))]
pub(crate) fn refer_service(base: &Base, table: &Contexts, number: i32) -> Outcome
    ensures { refer_service base.now table.now number ≡ record { base = base.now; table = table.now; outcome = result } }
{
    let Some(id) = slot_number(number) else {
        return failed(Er::Id);
    };
    if !table.has_ssy(id) {
        return failed(Er::NoExs);
    }
    done(0)
}

/// `svc`: the calling task enters the service of a subsystem, unless it is in eight already.
#[tactic(auto, unfolding(context_model::specs::Contexts::Calls::enter_service))]
pub(crate) fn enter_service(
    base: &Base,
    table: &mut Contexts,
    who: Who,
    number: i32,
    value: i32,
) -> Outcome
    ensures { enter_service base.now table.old who number value ≡ record { base = base.now; table = table.new; outcome = result } }
{
    if number < 0 || value < 0 {
        return failed(Er::Par);
    }
    if !base.allows(who, Mark::NeedsTask) {
        return failed(Er::Ctx);
    }
    let body = table.service(number as usize);
    if body == 0 {
        return failed(Er::RsFn);
    }
    let task = caller(who);
    if depth_in(table, task) >= MOST_NESTINGS {
        return failed(Er::Limit);
    }
    table.enter(task);
    Outcome::Entered(body)
}

//! The definition of interrupt handlers.

ghost use Rattle.std.specs.Prelude.{◌≡◌, ◌≤◌, IfSome, Some, None, if◌then◌else◌};
ghost use Rattle.kernel_model.specs.Words.Checks.{natural, within};
ghost use Rattle.context_model.specs.Contexts.Calls.{define_handler};

use crate::table::Contexts;
use kernel_base::Base;
use kernel_base::answers::{done, failed};
use tk_types::{Er, Outcome};

/// The interrupt or the subsystem that a number from 1 to 255 names.
pub(crate) fn slot_number(number: i32) -> Option<u8>
    ensures { result ≡ (if within 1 255 number then Some (natural number) else None) }
{
    if number < 1 || number > 255 {
        return None;
    }
    Some(number as u8)
}

/// `tk_def_int`: the body becomes the handler of an interrupt, in place of the one that it has; body 0 undefines it.
#[tactic(auto, unfolding(context_model::specs::Contexts::Calls::define_handler))]
pub(crate) fn define_handler(base: &Base, table: &mut Contexts, number: i32, body: u8) -> Outcome
    ensures { define_handler base.now table.old number body ≡ record { base = base.now; table = table.new; outcome = result } }
{
    let Some(number) = slot_number(number) else {
        return failed(Er::Par);
    };
    table.set_handler(number, body);
    done(0)
}

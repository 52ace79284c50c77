//! Calls on the system time and the operating time.

ghost use Rattle.std.specs.Prelude.{◌≡◌, ◌<◌, ◌^◌};
ghost use Rattle.context_model.specs.Clocks.Calls.{get_operating_time, get_time, set_time};

use crate::shown::{HALF, halves};
use crate::table::Clocks;
use kernel_base::Base;
use kernel_base::answers::{done, failed};
use tk_types::{Er, Outcome};

/// `tk_set_tim`: the system time is set, its low half being a number of 32 bits.
#[tactic(auto, unfolding(context_model::specs::Clocks::Calls::set_time))]
pub(crate) fn set_time(base: &Base, table: &mut Clocks, high: i32, low: i32) -> Outcome
    ensures { set_time base.now table.old high low ≡ record { base = base.now; table = table.new; outcome = result } }
{
    if high < 0 {
        return failed(Er::Par);
    }
    table.set_system_time(HALF * high as u64 + low.cast_unsigned() as u64, base.now());
    done(0)
}

/// `tk_get_tim`: the system time, its high half and its low half.
#[tactic(auto, unfolding(context_model::specs::Clocks::Calls::get_time))]
pub(crate) fn get_time(base: &Base, table: &Clocks) -> Outcome
    requires early { base.now.time < 2 ^ 63 }
    ensures { get_time base.now table.now ≡ record { base = base.now; table = table.now; outcome = result } }
{
    halves(table.system_time(base.now()))
}

/// `tk_get_otm`: the operating time in the same form.
#[tactic(auto, unfolding(context_model::specs::Clocks::Calls::get_operating_time))]
pub(crate) fn get_operating_time(base: &Base, table: &Clocks) -> Outcome
    ensures { get_operating_time base.now table.now ≡ record { base = base.now; table = table.now; outcome = result } }
{
    halves(base.now())
}

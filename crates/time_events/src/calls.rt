//! The calls on time, cyclic and alarm handlers.

ghost use Rattle.std.specs.Prelude.{◌≡◌, ◌<◌, ◌^◌};
ghost use Rattle.context_model.specs.Clocks.Calls.{time_call};

use crate::table::Clocks;
use crate::{alarms, cyclics, times};
use kernel_base::Base;
use tk_types::{Outcome, TimeCall};

/// A call on time, by its row of the table of calls: the error of the first check that fails, with nothing changed, or its
/// effect up to the first settling. Anybody may make it, and it takes no memory.
#[tactic(auto, unfolding(context_model::specs::Clocks::Calls::time_call))]
pub fn call(base: &mut Base, table: &mut Clocks, call: &TimeCall) -> Outcome
    requires few { base.old.made < 2 ^ 63 }
    requires early { base.old.time < 2 ^ 63 }
    ensures { time_call base.old table.old call.now ≡ record { base = base.new; table = table.new; outcome = result } }
{
    match *call {
        TimeCall::SetTim { high, low } => times::set_time(base, table, high, low),
        TimeCall::GetTim => times::get_time(base, table),
        TimeCall::GetOtm => times::get_operating_time(base, table),
        TimeCall::CreCyc {
            attributes,
            body,
            period,
            phase,
        } => cyclics::create_cyclic(base, table, attributes, body, period, phase),
        TimeCall::StaCyc { id } => cyclics::start_cyclic(base, table, id),
        TimeCall::StpCyc { id } => cyclics::stop_cyclic(base, table, id),
        TimeCall::DelCyc { id } => cyclics::delete_cyclic(base, table, id),
        TimeCall::RefCyc { id } => cyclics::refer_cyclic(base, table, id),
        TimeCall::CreAlm { attributes, body } => {
            alarms::create_alarm(base, table, attributes, body)
        }
        TimeCall::StaAlm { id, delay } => alarms::start_alarm(base, table, id, delay),
        TimeCall::StpAlm { id } => alarms::stop_alarm(base, table, id),
        TimeCall::DelAlm { id } => alarms::delete_alarm(base, table, id),
        TimeCall::RefAlm { id } => alarms::refer_alarm(base, table, id),
    }
}

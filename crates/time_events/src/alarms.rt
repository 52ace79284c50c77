//! Calls on alarm handlers.

ghost use Rattle.std.specs.Prelude.{◌≡◌, ◌<◌, ◌^◌};
ghost use Rattle.context_model.specs.Clocks.Calls.{create_alarm, delete_alarm, refer_alarm, start_alarm, stop_alarm};

use crate::attributes::{handler_id, has_only_free};
use crate::shown::handler_shown;
use crate::table::Clocks;
use kernel_base::Base;
use kernel_base::answers::{done, failed};
use tk_types::{Attributes, Er, Event, Outcome};

/// `tk_cre_alm`: an alarm handler with the least free ID, which isn't set.
#[tactic(auto, unfolding(context_model::specs::Clocks::Calls::create_alarm))]
pub(crate) fn create_alarm(
    base: &Base,
    table: &mut Clocks,
    attributes: Attributes,
    body: u8,
) -> Outcome
    ensures { create_alarm base.now table.old attributes body ≡ record { base = base.now; table = table.new; outcome = result } }
{
    if !has_only_free(attributes) {
        return failed(Er::RsAtr);
    }
    let id = table.free_alarm();
    if id == 0 {
        return failed(Er::Limit);
    }
    table.set_alarm(id, Some(body));
    done(id as i32)
}

/// `tk_sta_alm`: an alarm handler is set for a time so many milliseconds from now, in place of the one that it was set for.
#[tactic(auto, unfolding(context_model::specs::Clocks::Calls::start_alarm))]
pub(crate) fn start_alarm(base: &mut Base, table: &Clocks, id: i32, delay: i32) -> Outcome
    requires few { base.old.made < 2 ^ 63 }
    requires early { base.old.time < 2 ^ 63 }
    ensures { start_alarm base.old table.now id delay ≡ record { base = base.new; table = table.now; outcome = result } }
{
    let Some(id) = handler_id(id) else {
        return failed(Er::Id);
    };
    if delay < 0 {
        return failed(Er::Par);
    }
    if !table.has_alm(id) {
        return failed(Er::NoExs);
    }
    let due = base.now() + delay as u64 + 1;
    base.set_handler(due, Event::Alarm(id));
    done(0)
}

/// `tk_stp_alm`: an alarm handler is no longer set; where it fell due already, it starts still.
#[tactic(auto, unfolding(context_model::specs::Clocks::Calls::stop_alarm))]
pub(crate) fn stop_alarm(base: &mut Base, table: &Clocks, id: i32) -> Outcome
    ensures { stop_alarm base.old table.now id ≡ record { base = base.new; table = table.now; outcome = result } }
{
    let Some(id) = handler_id(id) else {
        return failed(Er::Id);
    };
    if !table.has_alm(id) {
        return failed(Er::NoExs);
    }
    let what = Event::Alarm(id);
    base.cancel_handler(what);
    done(0)
}

/// `tk_del_alm`: an alarm handler is gone.
#[tactic(auto, unfolding(context_model::specs::Clocks::Calls::delete_alarm))]
pub(crate) fn delete_alarm(base: &mut Base, table: &mut Clocks, id: i32) -> Outcome
    ensures { delete_alarm base.old table.old id ≡ record { base = base.new; table = table.new; outcome = result } }
{
    let Some(id) = handler_id(id) else {
        return failed(Er::Id);
    };
    if !table.has_alm(id) {
        return failed(Er::NoExs);
    }
    table.set_alarm(id, None);
    base.cancel_handler(Event::Alarm(id));
    done(0)
}

/// `tk_ref_alm`: the time to its start, and whether it is set.
#[tactic(auto, unfolding(context_model::specs::Clocks::Calls::refer_alarm))]
pub(crate) fn refer_alarm(base: &Base, table: &Clocks, id: i32) -> Outcome
    ensures { refer_alarm base.now table.now id ≡ record { base = base.now; table = table.now; outcome = result } }
{
    let Some(id) = handler_id(id) else {
        return failed(Er::Id);
    };
    if !table.has_alm(id) {
        return failed(Er::NoExs);
    }
    handler_shown(base, Event::Alarm(id))
}

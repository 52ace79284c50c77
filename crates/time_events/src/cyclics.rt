//! Calls on cyclic handlers.

ghost use Rattle.std.specs.Prelude.{◌≡◌, ◌<◌, ◌≤◌, ◌^◌, ◌+◌, Some};
ghost use Rattle.context_model.specs.Clocks.Calls.{create_cyclic, delete_cyclic, refer_cyclic, start_cyclic, started_cyclic, stop_cyclic};
ghost use Rattle.context_model.specs.Clocks.Tables.{next_due};

use crate::attributes::{handler_id, has_cyclic_attributes};
use crate::shown::handler_shown;
use crate::table::Clocks;
use context_model::cyclic_row::CyclicRow;
use kernel_base::Base;
use kernel_base::answers::{done, failed};
use tk_types::{Attributes, Er, Event, Outcome};

/// `tk_cre_cyc`: a cyclic handler with the least free ID, which is set for its first time at once where its attributes say
/// so. Period and phase are milliseconds.
#[tactic(auto, unfolding(context_model::specs::Clocks::Calls::create_cyclic))]
pub(crate) fn create_cyclic(
    base: &mut Base,
    table: &mut Clocks,
    attributes: Attributes,
    body: u8,
    period: i32,
    phase: i32,
) -> Outcome
    requires few { base.old.made < 2 ^ 63 }
    requires early { base.old.time < 2 ^ 63 }
    ensures { create_cyclic base.old table.old attributes body period phase ≡ record { base = base.new; table = table.new; outcome = result } }
{
    if !has_cyclic_attributes(attributes) {
        return failed(Er::RsAtr);
    }
    if period < 1 {
        return failed(Er::Par);
    }
    if phase < 0 {
        return failed(Er::Par);
    }
    let id = table.free_cyclic();
    if id == 0 {
        return failed(Er::Limit);
    }
    let first = base.now() + phase as u64 + 1;
    table.set_cyclic(
        id,
        Some(CyclicRow {
            body,
            phased: attributes.ta_phs,
            period: period as u32,
            first,
        }),
    );
    if attributes.ta_sta {
        base.set_handler(first, Event::Cyclic(id));
    }
    done(id as i32)
}

/// The first time, where that is still to come; else the least one later than now that lies a whole number of periods behind
/// it.
#[tactic(auto, unfolding(context_model::specs::Clocks::Tables::next_due))]
fn next_due(first: u64, period: u32, now: u64) -> u64
    requires period { 1 ≤ period }
    requires early { now < 2 ^ 63 }
    ensures { result ≡ next_due first period now }
{
    if now < first {
        return first;
    }
    let periods = (now - first) / period as u64 + 1;
    first + periods * period as u64
}

/// A cyclic handler starts: one that keeps its phase goes on where it is set, and else is set for the next time of its
/// phase; another one is set for its period from now on.
fn start(base: &mut Base, id: u8, row: CyclicRow)
    requires few { base.old.made < 2 ^ 63 }
    requires early { base.old.time < 2 ^ 63 }
    requires low { 1 ≤ id }
    requires high { id ≤ 64 }
    requires period { 1 ≤ row.period }
    ensures { base.new ≡ started_cyclic base.old id (Some row) }
{
    let now = base.now();
    let what = Event::Cyclic(id);
    if !row.phased {
        base.set_handler(now + row.period as u64 + 1, what);
        return;
    }
    if base.handler_due(what).is_none() {
        base.set_handler(next_due(row.first, row.period, now), what);
    }
}

/// `tk_sta_cyc`: a cyclic handler is started.
#[tactic(auto, unfolding(context_model::specs::Clocks::Calls::start_cyclic))]
pub(crate) fn start_cyclic(base: &mut Base, table: &Clocks, id: i32) -> Outcome
    requires few { base.old.made < 2 ^ 63 }
    requires early { base.old.time < 2 ^ 63 }
    ensures { start_cyclic base.old table.now id ≡ record { base = base.new; table = table.now; outcome = result } }
{
    let Some(id) = handler_id(id) else {
        return failed(Er::Id);
    };
    let Some(row) = table.cyclic(id) else {
        return failed(Er::NoExs);
    };
    start(base, id, row);
    done(0)
}

/// `tk_stp_cyc`: a cyclic handler is no longer set; where it fell due already, it starts still.
#[tactic(auto, unfolding(context_model::specs::Clocks::Calls::stop_cyclic))]
pub(crate) fn stop_cyclic(base: &mut Base, table: &Clocks, id: i32) -> Outcome
    ensures { stop_cyclic base.old table.now id ≡ record { base = base.new; table = table.now; outcome = result } }
{
    let Some(id) = handler_id(id) else {
        return failed(Er::Id);
    };
    if !table.has_cyc(id) {
        return failed(Er::NoExs);
    }
    let what = Event::Cyclic(id);
    base.cancel_handler(what);
    done(0)
}

/// `tk_del_cyc`: a cyclic handler is gone.
#[tactic(auto, unfolding(context_model::specs::Clocks::Calls::delete_cyclic))]
pub(crate) fn delete_cyclic(base: &mut Base, table: &mut Clocks, id: i32) -> Outcome
    ensures { delete_cyclic base.old table.old id ≡ record { base = base.new; table = table.new; outcome = result } }
{
    let Some(id) = handler_id(id) else {
        return failed(Er::Id);
    };
    if !table.has_cyc(id) {
        return failed(Er::NoExs);
    }
    table.set_cyclic(id, None);
    base.cancel_handler(Event::Cyclic(id));
    done(0)
}

/// `tk_ref_cyc`: the time to its next start, and whether it is started.
#[tactic(auto, unfolding(context_model::specs::Clocks::Calls::refer_cyclic))]
pub(crate) fn refer_cyclic(base: &Base, table: &Clocks, id: i32) -> Outcome
    ensures { refer_cyclic base.now table.now id ≡ record { base = base.now; table = table.now; outcome = result } }
{
    let Some(id) = handler_id(id) else {
        return failed(Er::Id);
    };
    if !table.has_cyc(id) {
        return failed(Er::NoExs);
    }
    handler_shown(base, Event::Cyclic(id))
}

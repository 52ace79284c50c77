//! Mutexes are locked.

ghost use Rattle.std.specs.Prelude.{◌≡◌, ◌<◌, ◌^◌};
ghost use Rattle.object_model.specs.Mutexes.Calls.{lock_mutex};
ghost use Rattle.mutex_prio.specs.Parts.{AreQueued};

use crate::attributes::object_id;
use crate::ceilings::is_under;
use crate::serving::FIRST_MUTEX;
use crate::table::Mutexes;
use kernel_base::Base;
use kernel_base::answers::{caller, done, failed};
use kernel_model::marks::Mark;
use tk_types::{Er, Outcome, Who};

/// `tk_loc_mtx`: the caller becomes the owner, or waits.
#[tactic(auto, unfolding(object_model::specs::Mutexes::Calls::lock_mutex))]
pub(crate) fn lock_mutex(
    base: &mut Base,
    table: &mut Mutexes,
    who: Who,
    id: i32,
    timeout: i32,
) -> Outcome
    requires few { base.old.made < 2 ^ 63 }
    requires early { base.old.time < 2 ^ 63 }
    requires queued { AreQueued base.old table.old }
    ensures { lock_mutex base.old table.old who id timeout ≡ record { base = base.new; table = table.new; outcome = result } }
{
    let Some(id) = object_id(id) else {
        return failed(Er::Id);
    };
    if timeout < -1 {
        return failed(Er::Par);
    }
    if !base.allows(who, Mark::MayWait) {
        return failed(Er::Ctx);
    }
    let Some(row) = table.mutex(id) else {
        return failed(Er::NoExs);
    };
    let task = caller(who);
    if row.owner == task {
        return failed(Er::IlUse);
    }
    if !is_under(row.ceiling, base.base_of(task)) {
        return failed(Er::IlUse);
    }
    if row.owner == 0 {
        table.lock(id, row, task);
        return done(0);
    }
    if timeout == 0 {
        return failed(Er::TmOut);
    }
    base.make_wait(task, FIRST_MUTEX - 1 + id as u32, row.order, timeout);
    Outcome::Blocked
}

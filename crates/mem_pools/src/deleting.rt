//! Pools are deleted.

ghost use Rattle.std.specs.Prelude.{◌≡◌};
ghost use Rattle.object_model.specs.Pools.Calls.{delete_fixed, delete_variable};
ghost use Rattle.mem_pools.specs.Parts.{AreQueued, done_of, parts_of};

use crate::attributes::object_id;
use crate::queues::{FIRST_FIXED, FIRST_VARIABLE, end_waits};
use crate::table::Pools;
use kernel_base::Base;
use kernel_base::answers::{done, failed};
use tk_types::{Er, Outcome};

/// `tk_del_mpf`: the pool is gone, its waiters' waits end, and its bytes are given back.
#[tactic(auto, unfolding(object_model::specs::Pools::Calls::delete_fixed))]
pub(crate) fn delete_fixed(base: &mut Base, table: &mut Pools, id: i32) -> Outcome
    requires queued { AreQueued base.old table.old }
    ensures { delete_fixed (parts_of base.old table.old) id ≡ done_of base.new table.new result }
{
    let Some(id) = object_id(id) else {
        return failed(Er::Id);
    };
    let Some(pool) = table.fixed(id) else {
        return failed(Er::NoExs);
    };
    let bytes = pool.bytes();
    end_waits(base, pool.order(), FIRST_FIXED - 1 + id as u32);
    base.give_bytes(bytes);
    table.set_fixed(id, None);
    done(0)
}

/// `tk_del_mpl`: the pool is gone, its waiters' waits end, and its bytes are given back.
#[tactic(auto, unfolding(object_model::specs::Pools::Calls::delete_variable))]
pub(crate) fn delete_variable(base: &mut Base, table: &mut Pools, id: i32) -> Outcome
    requires queued { AreQueued base.old table.old }
    ensures { delete_variable (parts_of base.old table.old) id ≡ done_of base.new table.new result }
{
    let Some(id) = object_id(id) else {
        return failed(Er::Id);
    };
    let Some(pool) = table.variable(id) else {
        return failed(Er::NoExs);
    };
    let bytes = pool.size();
    end_waits(base, pool.order(), FIRST_VARIABLE - 1 + id as u32);
    base.give_bytes(bytes);
    table.set_variable(id, None);
    done(0)
}

//! The calls on memory pools.

ghost use Rattle.std.specs.Prelude.{◌≡◌, ◌<◌, ◌^◌, IfOk, OnErr, true};
ghost use Rattle.object_model.specs.Pools.Calls.{pool_call};
ghost use Rattle.mem_pools.specs.Parts.{AreQueued, done_of, makes_pool, parts_of};

use crate::table::Pools;
use crate::{deleting, fixed_pools, variable_pools};
use kernel_base::Base;
use std::alloc::AllocError;
use tk_types::{Outcome, PoolCall, Who};

/// A call on memory pools, by its row of the table of calls: the error of the first check that fails, with nothing changed,
/// or its effect up to the first settling. Want of the host's memory leaves base and table as they were. Only `tk_cre_mpf`
/// and `tk_cre_mpl` take memory: a pool has the room that its blocks ever need from then on.
#[tactic(auto, unfolding(object_model::specs::Pools::Calls::pool_call))]
pub fn call(
    base: &mut Base,
    table: &mut Pools,
    who: Who,
    call: &PoolCall,
) -> Result<Outcome, AllocError>
    requires few { base.old.made < 2 ^ 63 }
    requires early { base.old.time < 2 ^ 63 }
    requires queued { AreQueued base.old table.old }
    ensures done { IfOk result (λ outcome. pool_call (parts_of base.old table.old) who call.now ≡ done_of base.new table.new outcome) }
    ensures kept { OnErr result (parts_of base.new table.new ≡ parts_of base.old table.old) }
    ensures memory { OnErr result (makes_pool call.now ≡ true) }
{
    match *call {
        PoolCall::CreMpf {
            attributes,
            count,
            size,
        } => fixed_pools::create_fixed(base, table, attributes, count, size),
        PoolCall::CreMpl { attributes, size } => {
            variable_pools::create_variable(base, table, attributes, size)
        }
        PoolCall::GetMpf { id, timeout } => {
            Ok(fixed_pools::get_fixed(base, table, who, id, timeout))
        }
        PoolCall::GetMpl { id, size, timeout } => Ok(variable_pools::get_variable(
            base, table, who, id, size, timeout,
        )),
        PoolCall::RelMpf { id, block } => Ok(fixed_pools::release_fixed(base, table, id, block)),
        PoolCall::RelMpl { id, offset } => {
            Ok(variable_pools::release_variable(base, table, id, offset))
        }
        PoolCall::RefMpf { id } => Ok(fixed_pools::refer_fixed(base, table, id)),
        PoolCall::RefMpl { id } => Ok(variable_pools::refer_variable(base, table, id)),
        PoolCall::DelMpf { id } => Ok(deleting::delete_fixed(base, table, id)),
        PoolCall::DelMpl { id } => Ok(deleting::delete_variable(base, table, id)),
    }
}

//! The calls on mutexes.

ghost use Rattle.std.specs.Prelude.{◌≡◌, ◌<◌, ◌^◌};
ghost use Rattle.object_model.specs.Mutexes.Calls.{mutex_call};
ghost use Rattle.mutex_prio.specs.Parts.{AreQueued};

use crate::table::Mutexes;
use crate::{deleting, locking, making};
use kernel_base::Base;
use tk_types::{MutexCall, Outcome, Who};

/// A call on mutexes, by its row of the table of calls: the error of the first check that fails, with nothing changed, or its
/// effect up to the first settling. It takes no memory.
#[tactic(auto, unfolding(object_model::specs::Mutexes::Calls::mutex_call))]
pub fn call(base: &mut Base, table: &mut Mutexes, who: Who, call: &MutexCall) -> Outcome
    requires few { base.old.made < 2 ^ 63 }
    requires early { base.old.time < 2 ^ 63 }
    requires queued { AreQueued base.old table.old }
    ensures { mutex_call base.old table.old who call.now ≡ record { base = base.new; table = table.new; outcome = result } }
{
    match *call {
        MutexCall::CreMtx {
            attributes,
            ceiling,
        } => making::create_mutex(base, table, attributes, ceiling),
        MutexCall::LocMtx { id, timeout } => locking::lock_mutex(base, table, who, id, timeout),
        MutexCall::UnlMtx { id } => making::unlock_mutex(base, table, who, id),
        MutexCall::RefMtx { id } => making::refer_mutex(base, table, id),
        MutexCall::DelMtx { id } => deleting::delete_mutex(base, table, id),
    }
}

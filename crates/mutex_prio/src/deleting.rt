//! Mutexes are deleted.

ghost use Rattle.std.specs.Prelude.{◌≡◌, ◌<◌};
ghost use Rattle.kernel_model.specs.Tasks.Queues.{AreOfOrder};
ghost use Rattle.kernel_model.specs.SemFlags.Calls.{end_waits};
ghost use Rattle.object_model.specs.Mutexes.Calls.{delete_mutex};
ghost use Rattle.mutex_prio.specs.Parts.{AreQueued};

use crate::attributes::object_id;
use crate::serving::FIRST_MUTEX;
use crate::table::Mutexes;
use kernel_base::answers::{done, failed, plain};
use kernel_base::{Base, Order};
use tk_types::{Er, Outcome};

/// The waits for an object end with E_DLT, in the order of its queue.
fn end_waits(base: &mut Base, order: Order, obj: u32)
    requires object { obj < 1024 }
    requires order { AreOfOrder order base.old obj }
    ensures { base.new ≡ end_waits order obj base.old }
{
    let count = base.waiter_count(order, obj);
    'waiters: for _ended in 0..count {
        let Some(task) = base.waiter(order, obj, 0) else {
            return;
        };
        base.release(task, plain(Er::Dlt.main_code()));
    }
}

/// `tk_del_mtx`: the owner loses the mutex, and then its waiters' waits end.
#[tactic(auto, unfolding(object_model::specs::Mutexes::Calls::delete_mutex))]
pub(crate) fn delete_mutex(base: &mut Base, table: &mut Mutexes, id: i32) -> Outcome
    requires queued { AreQueued base.old table.old }
    ensures { delete_mutex base.old table.old id ≡ record { base = base.new; table = table.new; outcome = result } }
{
    let Some(id) = object_id(id) else {
        return failed(Er::Id);
    };
    let Some(row) = table.mutex(id) else {
        return failed(Er::NoExs);
    };
    table.delete(id);
    end_waits(base, row.order, FIRST_MUTEX - 1 + id as u32);
    done(0)
}

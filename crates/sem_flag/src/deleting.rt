//! Semaphores and event flags are deleted.

ghost use Rattle.std.specs.Prelude.{◌≡◌, ◌<◌};
ghost use Rattle.kernel_model.specs.Tasks.Queues.{AreOfOrder};
ghost use Rattle.kernel_model.specs.SemFlags.Calls.{delete_flag, delete_sem, end_waits};
ghost use Rattle.sem_flag.specs.Parts.{AreQueued};

use crate::attributes::object_id;
use crate::serving::{FIRST_FLAG, FIRST_SEM};
use crate::table::SemFlags;
use kernel_base::answers::{done, failed, plain};
use kernel_base::{Base, Order};
use tk_types::{Er, Outcome};

/// The waits for an object end with E_DLT, in the order of its queue.
fn end_waits(base: &mut Base, order: Order, obj: u32)
    requires object { obj < 1024 }
    requires order { AreOfOrder order base.old obj }
    ensures { base.new ≡ end_waits order obj base.old }
{
    let count = base.waiter_count(order, obj);
    'waiters: for _ended in 0..count {
        let Some(task) = base.waiter(order, obj, 0) else {
            return;
        };
        base.release(task, plain(Er::Dlt.main_code()));
    }
}

/// `tk_del_sem`: the semaphore is gone, and its waiters' waits end.
#[tactic(auto, unfolding(kernel_model::specs::SemFlags::Calls::delete_sem))]
pub(crate) fn delete_sem(base: &mut Base, table: &mut SemFlags, id: i32) -> Outcome
    requires queued { AreQueued base.old table.old }
    ensures { delete_sem base.old table.old id ≡ record { base = base.new; table = table.new; outcome = result } }
{
    let Some(id) = object_id(id) else {
        return failed(Er::Id);
    };
    let Some(row) = table.sem(id) else {
        return failed(Er::NoExs);
    };
    end_waits(base, row.order, FIRST_SEM - 1 + id as u32);
    table.set_sem(id, None);
    done(0)
}

/// `tk_del_flg`: the event flag is gone, and its waiters' waits end.
#[tactic(auto, unfolding(kernel_model::specs::SemFlags::Calls::delete_flag))]
pub(crate) fn delete_flag(base: &mut Base, table: &mut SemFlags, id: i32) -> Outcome
    requires queued { AreQueued base.old table.old }
    ensures { delete_flag base.old table.old id ≡ record { base = base.new; table = table.new; outcome = result } }
{
    let Some(id) = object_id(id) else {
        return failed(Er::Id);
    };
    let Some(row) = table.flag(id) else {
        return failed(Er::NoExs);
    };
    end_waits(base, row.order, FIRST_FLAG - 1 + id as u32);
    table.set_flag(id, None);
    done(0)
}

//! The queues of pools: their objects, who stands first, and how all waits of one end.

ghost use Rattle.std.specs.Prelude.{◌≡◌, ◌<◌};
ghost use Rattle.kernel_model.specs.Tasks.Base.{queue};
ghost use Rattle.kernel_model.specs.Tasks.Queues.{AreOfOrder};
ghost use Rattle.kernel_model.specs.SemFlags.Calls.{end_waits, would_be_first};

use kernel_base::answers::plain;
use kernel_base::{Base, Order};
use tk_types::Er;

/// The number of the object of the first fixed pool, and of the first variable pool.
pub(crate) const FIRST_FIXED: u32 = 448;

pub(crate) const FIRST_VARIABLE: u32 = 512;

/// Whether a task that joined the queue of an object would stand first.
pub(crate) fn would_be_first(base: &Base, order: Order, task: u8, obj: u32) -> bool
    requires object { obj < 1024 }
    requires order { AreOfOrder order base.now obj }
    ensures { result ≡ would_be_first order base.now task (queue order base.now obj) }
{
    match base.waiter(order, obj, 0) {
        None => true,
        Some(first) => match order {
            Order::Fifo => false,
            Order::Priority => base.current(task) < base.current(first),
        },
    }
}

/// The waits for an object end with E_DLT, in the order of its queue.
pub(crate) fn end_waits(base: &mut Base, order: Order, obj: u32)
    requires object { obj < 1024 }
    requires order { AreOfOrder order base.old obj }
    ensures { base.new ≡ end_waits order obj base.old }
{
    let count = base.waiter_count(order, obj);
    'waiters: for _ended in 0..count {
        let Some(task) = base.waiter(order, obj, 0) else {
            return;
        };
        base.release(task, plain(Er::Dlt.main_code()));
    }
}

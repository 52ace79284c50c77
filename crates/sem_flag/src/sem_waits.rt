//! Waits for semaphores.

ghost use Rattle.std.specs.Prelude.{◌≡◌, ◌<◌, ◌≤◌, ◌^◌, Some};
ghost use Rattle.kernel_model.specs.Tasks.Base.{queue};
ghost use Rattle.kernel_model.specs.Tasks.Queues.{AreOfOrder};
ghost use Rattle.kernel_model.specs.SemFlags.Calls.{serves_at_once, wait_sem, would_be_first};
ghost use Rattle.kernel_model.specs.SemFlags.Tables.{sem_at};
ghost use Rattle.sem_flag.specs.Parts.{AreQueued};

use crate::attributes::object_id;
use crate::serving::{FIRST_SEM, take_count};
use crate::table::SemFlags;
use kernel_base::answers::{caller, done, failed};
use kernel_base::{Base, Order};
use kernel_model::marks::Mark;
use kernel_model::objects::Semaphore;
use tk_types::{Er, Outcome, Who};

/// Whether a task that joined the queue of an object would stand first.
fn would_be_first(base: &Base, order: Order, task: u8, obj: u32) -> bool
    requires object { obj < 1024 }
    requires order { AreOfOrder order base.now obj }
    ensures { result ≡ would_be_first order base.now task (queue order base.now obj) }
{
    match base.waiter(order, obj, 0) {
        None => true,
        Some(first) => match order {
            Order::Fifo => false,
            Order::Priority => base.current(task) < base.current(first),
        },
    }
}

/// Whether a semaphore serves a task at once.
fn serves_at_once(
    base: &Base,
    table: &SemFlags,
    row: Semaphore,
    id: u8,
    task: u8,
    count: u16,
) -> bool
    requires low { 1 ≤ id }
    requires high { id ≤ 64 }
    requires there { sem_at table.now id ≡ Some row }
    requires queued { AreQueued base.now table.now }
    ensures { result ≡ serves_at_once base.now row id task count }
{
    count <= row.count
        && (row.any_place || would_be_first(base, row.order, task, FIRST_SEM - 1 + id as u32))
}

/// `tk_wai_sem`: takes from the count, or waits.
#[tactic(auto, unfolding(kernel_model::specs::SemFlags::Calls::wait_sem))]
pub(crate) fn wait_sem(
    base: &mut Base,
    table: &mut SemFlags,
    who: Who,
    id: i32,
    count: i32,
    timeout: i32,
) -> Outcome
    requires few { base.old.made < 2 ^ 63 }
    requires early { base.old.time < 2 ^ 63 }
    requires queued { AreQueued base.old table.old }
    ensures { wait_sem base.old table.old who id count timeout ≡ record { base = base.new; table = table.new; outcome = result } }
{
    let Some(id) = object_id(id) else {
        return failed(Er::Id);
    };
    if count < 1 {
        return failed(Er::Par);
    }
    if timeout < -1 {
        return failed(Er::Par);
    }
    if !base.allows(who, Mark::MayWait) {
        return failed(Er::Ctx);
    }
    let Some(row) = table.sem(id) else {
        return failed(Er::NoExs);
    };
    if count > row.most as i32 {
        return failed(Er::Par);
    }
    let task = caller(who);
    if serves_at_once(base, table, row, id, task, count as u16) {
        take_count(table, id, row, count as u16);
        return done(0);
    }
    if timeout == 0 {
        return failed(Er::TmOut);
    }
    table.ask_count(task, count as u16);
    base.make_wait(task, FIRST_SEM - 1 + id as u32, row.order, timeout);
    Outcome::Blocked
}

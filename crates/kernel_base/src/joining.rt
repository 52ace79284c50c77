//! The queue of the tasks that wait, by calls whose steps nobody counts.

ghost use Rattle.std.specs.Prelude.{◌≡◌, true};
ghost use Rattle.kernel_base.specs.Ready.{fits_slot, is_priority};
ghost use Rattle.kernel_base.specs.Waiting.{MayQueue, renewed, restamped, rewaited};
ghost use Rattle.wait_queue.specs.Queues.{WaitTable, reordered, without_waiter};

use std::marker::Brand;
use std::sync::ledger::{Blank, Ledger};
use step_counter::Steps;
use tk_types::{Order, Phase, Task};
use wait_queue::Waits;

/// A task is taken out, where it is inside.
fn take_out<L: Ledger>(waits: &mut Waits, task: u8, steps: &mut Steps<L>)
    ensures { waits.new ≡ record waits.old { waiters = without_waiter task waits.old.waiters } }
{
    if waits.waits(task) {
        waits.leave(task, steps);
    }
}

/// The same as `leave`, with a counter that is made of this blank.
fn leave_counted<L: Ledger>(waits: &mut Waits, task: u8, blank: Blank)
    requires name { blank.name ≡ L.name }
    requires parts { blank.parts ≡ L.parts }
    requires one_part { blank.parts ≡ 1 }
    ensures { waits.new ≡ record waits.old { waiters = without_waiter task waits.old.waiters } }
{
    let mut steps = Steps::<L>::new(blank);
    take_out(waits, task, &mut steps);
}

/// A task that doesn't wait any longer leaves its queue.
pub(crate) fn leave(waits: &mut Waits, task: u8)
    ensures { waits.new ≡ record waits.old { waiters = without_waiter task waits.old.waiters } }
{
    leave_counted::<Brand>(waits, task, Blank::new(1));
}

/// The same as `rejoin`, with a counter that is made of this blank.
fn rejoin_counted<L: Ledger>(waits: &mut Waits, task: u8, slot: Option<Task>, blank: Blank)
    requires priorities { fits_slot slot ≡ true }
    requires queue { MayQueue slot waits.old }
    requires name { blank.name ≡ L.name }
    requires parts { blank.parts ≡ L.parts }
    requires one_part { blank.parts ≡ 1 }
    ensures { waits.new ≡ record waits.old { waiters = rewaited task slot waits.old.waiters } }
{
    let mut steps = Steps::<L>::new(blank);
    take_out(waits, task, &mut steps);
    let Some(row) = slot else {
        return;
    };
    match row.phase {
        Phase::Waiting(object) => waits.join(object, task, row.queue, row.current, &mut steps),
        Phase::Dormant => {}
        Phase::Ready => {}
    }
}

/// A task whose slot is written leaves its queue, and joins the one that it waits in now.
pub(crate) fn rejoin(waits: &mut Waits, task: u8, slot: Option<Task>)
    requires priorities { fits_slot slot ≡ true }
    requires queue { MayQueue slot waits.old }
    ensures { waits.new ≡ record waits.old { waiters = rewaited task slot waits.old.waiters } }
{
    rejoin_counted::<Brand>(waits, task, slot, Blank::new(1));
}

/// The same as `reorder`, with a counter that is made of this blank.
fn reorder_counted<L: Ledger>(waits: &mut Waits, task: u8, pri: u8, blank: Blank)
    requires name { blank.name ≡ L.name }
    requires parts { blank.parts ≡ L.parts }
    requires one_part { blank.parts ≡ 1 }
    ensures { waits.new ≡ record waits.old { waiters = reordered task pri waits.old.waiters } }
{
    let mut steps = Steps::<L>::new(blank);
    if waits.waits(task) {
        waits.reorder(task, pri, &mut steps);
    }
}

/// A task gets another priority, where it is inside.
fn reorder(waits: &mut Waits, task: u8, pri: u8)
    ensures { waits.new ≡ record waits.old { waiters = reordered task pri waits.old.waiters } }
{
    reorder_counted::<Brand>(waits, task, pri, Blank::new(1));
}

/// A task takes the last place by the beginning of its wait: in a queue in that order it becomes the last.
pub(crate) fn renew(waits: &mut Waits, task: u8, slot: Option<Task>)
    requires priorities { fits_slot slot ≡ true }
    requires queue { MayQueue slot waits.old }
    ensures { waits.new ≡ record waits.old { waiters = renewed task slot waits.old.waiters } }
{
    let Some(row) = slot else {
        return leave(waits, task);
    };
    match row.queue {
        Order::Fifo => rejoin(waits, task, slot),
        Order::Priority => {}
    }
}

/// A task takes a new stamp, and maybe another priority: in a queue by priority it becomes the last of its equals.
pub(crate) fn restamp(waits: &mut Waits, task: u8, slot: Option<Task>)
    requires priorities { fits_slot slot ≡ true }
    requires queue { MayQueue slot waits.old }
    ensures { waits.new ≡ record waits.old { waiters = restamped task slot waits.old.waiters } }
{
    let Some(row) = slot else {
        return leave(waits, task);
    };
    match row.queue {
        Order::Fifo => reorder(waits, task, row.current),
        Order::Priority => rejoin(waits, task, slot),
    }
}

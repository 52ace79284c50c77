//! The queue of the ready tasks, by calls whose steps nobody counts.

ghost use Rattle.std.specs.Prelude.{◌≡◌, true};
ghost use Rattle.kernel_base.specs.Ready.{fits_slot, requeued};
ghost use Rattle.ready_queue.specs.Queue.{first_task, without_task};

use crate::reading::is_ready_phase;
use ready_queue::Ready;
use std::marker::Brand;
use std::sync::ledger::{Blank, Ledger};
use step_counter::Steps;
use tk_types::Task;

/// A task is taken out, where it is inside.
fn take_out<L: Ledger>(ready: &mut Ready, task: u8, steps: &mut Steps<L>)
    ensures { ready.new ≡ without_task task ready.old }
{
    if ready.holds(task) {
        ready.remove(task, steps);
    }
}

/// The same as `requeue`, with a counter that is made of this blank.
fn requeue_counted<L: Ledger>(ready: &mut Ready, task: u8, slot: Option<Task>, blank: Blank)
    requires priorities { fits_slot slot ≡ true }
    requires name { blank.name ≡ L.name }
    requires parts { blank.parts ≡ L.parts }
    requires one_part { blank.parts ≡ 1 }
    ensures { ready.new ≡ requeued task slot ready.old }
{
    let mut steps = Steps::<L>::new(blank);
    take_out(ready, task, &mut steps);
    let Some(row) = slot else {
        return;
    };
    if is_ready_phase(row.phase) && row.suspensions == 0 {
        ready.put_back(task, row.current, &mut steps);
    }
}

/// A task whose slot is written: it is put behind its equals where it may run, else it is no longer inside.
pub(crate) fn requeue(ready: &mut Ready, task: u8, slot: Option<Task>)
    requires { fits_slot slot ≡ true }
    ensures { ready.new ≡ requeued task slot ready.old }
{
    requeue_counted::<Brand>(ready, task, slot, Blank::new(1));
}

/// The same as `first`, with a counter that is made of this blank.
fn first_counted<L: Ledger>(ready: &Ready, blank: Blank) -> Option<u8>
    requires name { blank.name ≡ L.name }
    requires parts { blank.parts ≡ L.parts }
    requires one_part { blank.parts ≡ 1 }
    ensures { result ≡ first_task ready.now }
{
    let mut steps = Steps::<L>::new(blank);
    ready.highest(&mut steps)
}

/// The task that runs first, if any is ready.
pub(crate) fn first(ready: &Ready) -> Option<u8>
    ensures { result ≡ first_task ready.now }
{
    first_counted::<Brand>(ready, Blank::new(1))
}

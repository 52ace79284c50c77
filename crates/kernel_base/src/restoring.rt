//! A task that waits gets another wait, and keeps its places in the orders.

ghost use Rattle.std.specs.Prelude.{◌≡◌, ◌<◌, ◌≤◌, take, true};
ghost use Rattle.kernel_model.specs.Tasks.Base.{task_at, waits_somewhere, with_task};
ghost use Rattle.kernel_model.specs.Words.Orders.{to_back};
ghost use Rattle.kernel_model.specs.Tasks.Queues.{AreOfOrder};
ghost use Rattle.tk_types.specs.declared.task.Phase.TheVariants.{Waiting};
ghost use Rattle.kernel_base.specs.Ready.{has_priorities};
ghost use Rattle.kernel_base.specs.Waiting.{moved_back};

use crate::base::Base;
use crate::ids::Listed;
use crate::joining::renew;
use tk_types::{Order, Task};

impl Base {
    /// A task takes the last place by the beginning of its wait.
    fn renew_wait(&mut self, task: u8)
        ensures { self.new ≡ record self.old { since = to_back task self.old.since } }
    {
        let slot = self.slot(task);
        renew(&mut self.waits, task, slot);
        self.since.move_to_back(task);
    }

    /// The tasks of a list take the last places of the order of stamps, one after another.
    fn restore_order(&mut self, listed: &Listed)
        requires { listed.now.count ≤ 256 }
        ensures { self.new ≡ record self.old { order = moved_back (take listed.now.count listed.now.ids) self.old.order } }
    {
        'places: for place in 0..listed.count {
            self.move_to_back(listed.ids[place]);
        }
    }

    /// The same in the order by the beginning of the last waits.
    fn restore_since(&mut self, listed: &Listed)
        requires { listed.now.count ≤ 256 }
        ensures { self.new ≡ record self.old { since = moved_back (take listed.now.count listed.now.ids) self.old.since } }
    {
        'places: for place in 0..listed.count {
            self.renew_wait(listed.ids[place]);
        }
    }

    /// The row of a task that waits is written with another wait, and its task keeps its places.
    pub(crate) fn write_moved(&mut self, task: u8, row: Task, obj: u32, order: Order)
        requires priorities { has_priorities row ≡ true }
        requires object { obj < 1024 }
        requires order { AreOfOrder order self.old obj }
        requires waits { waits_somewhere (task_at self.old task) ≡ true }
        ensures { self.new ≡ with_task self.old task (record row { phase = Waiting obj; queue = order }) }
    {
        let stamps = self.order.listed();
        let waits = self.since.listed();
        self.write_waiting(task, row, obj, order);
        self.restore_order(&stamps);
        self.restore_since(&waits);
    }
}

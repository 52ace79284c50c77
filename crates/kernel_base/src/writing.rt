//! A task's slot is written, its place in the orders with it, and the queues of the ready tasks and of those that wait are
//! kept by both.

ghost use Rattle.std.specs.Prelude.{◌≡◌, ◌<◌, None, Some, false, true, slice_set};
ghost use Rattle.kernel_model.specs.Tasks.Base.{current, is_ready, may_run, task_at, waits_somewhere, with_task};
ghost use Rattle.kernel_model.specs.Tasks.Queues.{AreOfOrder, queue_in};
ghost use Rattle.tk_types.specs.declared.task.Phase.TheVariants.{Waiting};
ghost use Rattle.kernel_base.specs.Waiting.{phase_in};
ghost use Rattle.kernel_model.specs.Words.Orders.{to_back, without};
ghost use Rattle.kernel_base.specs.Ready.{fits_slot, has_priorities};

use crate::base::Base;
use crate::joining::{leave, rejoin, restamp};
use crate::queueing::requeue;
use crate::rows::waiting;
use tk_types::{Order, Task};

impl Base {
    /// What stands in a task's slot: its priorities are from 1 to 140.
    pub(crate) fn slot(&self, task: u8) -> Option<Task>
        ensures slot { result ≡ task_at self.now task }
        ensures priorities { fits_slot result ≡ true }
    {
        self.tasks[task as usize]
    }

    /// A row of a task that doesn't wait is written, and its task takes the last place: where it may run, it is the last
    /// among its equals.
    pub(crate) fn write_last(&mut self, task: u8, row: Task)
        requires priorities { has_priorities row ≡ true }
        requires idle { waits_somewhere (Some row) ≡ false }
        ensures { self.new ≡ record (with_task self.old task row) { order = to_back task self.old.order } }
    {
        requeue(&mut self.ready, task, Some(row));
        leave(&mut self.waits, task);
        self.order.move_to_back(task);
        self.tasks[task as usize] = Some(row);
    }

    /// A row with another current priority is written, and its task takes the last place, also in a queue by priority.
    pub(crate) fn write_current(&mut self, task: u8, row: Task)
        requires priorities { has_priorities row ≡ true }
        requires phase { row.phase ≡ phase_in (task_at self.old task) }
        requires queue { row.queue ≡ queue_in (task_at self.old task) }
        ensures { self.new ≡ record (with_task self.old task row) { order = to_back task self.old.order } }
    {
        requeue(&mut self.ready, task, Some(row));
        restamp(&mut self.waits, task, Some(row));
        self.order.move_to_back(task);
        self.tasks[task as usize] = Some(row);
    }

    /// The row of a task that begins to wait for an object is written, and its task takes the last places.
    pub(crate) fn write_waiting(&mut self, task: u8, row: Task, obj: u32, order: Order)
        requires priorities { has_priorities row ≡ true }
        requires object { obj < 1024 }
        requires order { AreOfOrder order self.old obj }
        ensures { self.new ≡ record (with_task self.old task (record row { phase = Waiting obj; queue = order })) { order = to_back task self.old.order; since = to_back task self.old.since } }
    {
        let slot = Some(waiting(row, obj, order));
        requeue(&mut self.ready, task, slot);
        rejoin(&mut self.waits, task, slot);
        self.order.move_to_back(task);
        self.since.move_to_back(task);
        self.tasks[task as usize] = slot;
    }

    /// A row that neither may run nor waits is written, and its task keeps its place.
    pub(crate) fn write_idle(&mut self, task: u8, row: Task)
        requires priorities { has_priorities row ≡ true }
        requires stopped { may_run (Some row) ≡ false }
        requires idle { waits_somewhere (Some row) ≡ false }
        ensures { self.new ≡ with_task self.old task row }
    {
        requeue(&mut self.ready, task, Some(row));
        leave(&mut self.waits, task);
        self.tasks[task as usize] = Some(row);
    }

    /// A row that may not run, and waits as before, is written, and its task keeps its place.
    pub(crate) fn write_stopped(&mut self, task: u8, row: Task)
        requires priorities { has_priorities row ≡ true }
        requires stopped { may_run (Some row) ≡ false }
        requires phase { row.phase ≡ phase_in (task_at self.old task) }
        requires queue { row.queue ≡ queue_in (task_at self.old task) }
        requires current { row.current ≡ current self.old task }
        ensures { self.new ≡ with_task self.old task row }
    {
        requeue(&mut self.ready, task, Some(row));
        self.tasks[task as usize] = Some(row);
    }

    /// A row that may run and waits as before, with the current priority of before, is written, and its task keeps its place.
    pub(crate) fn write_alike(&mut self, task: u8, row: Task)
        requires priorities { has_priorities row ≡ true }
        requires runs { may_run (Some row) ≡ is_ready self.old task }
        requires phase { row.phase ≡ phase_in (task_at self.old task) }
        requires queue { row.queue ≡ queue_in (task_at self.old task) }
        requires current { row.current ≡ current self.old task }
        ensures { self.new ≡ with_task self.old task row }
    {
        self.tasks[task as usize] = Some(row);
    }

    /// A task's slot is free again, and the task has no place.
    pub(crate) fn erase(&mut self, task: u8)
        ensures { self.new ≡ record self.old { tasks = slice_set self.old.tasks task None; order = without task self.old.order } }
    {
        requeue(&mut self.ready, task, None);
        leave(&mut self.waits, task);
        self.order.take_out(task);
        self.tasks[task as usize] = None;
    }

    /// A task takes the last place: where it may run or waits by priority, it is the last among its equals.
    pub(crate) fn move_to_back(&mut self, task: u8)
        ensures { self.new ≡ record self.old { order = to_back task self.old.order } }
    {
        let slot = self.slot(task);
        requeue(&mut self.ready, task, slot);
        restamp(&mut self.waits, task, slot);
        self.order.move_to_back(task);
    }
}

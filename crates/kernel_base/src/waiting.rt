//! Waits begin, move and end, and who waits.

ghost use Rattle.std.specs.Prelude.{◌≡◌, ◌<◌, ◌^◌, length, slice_get, true};
ghost use Rattle.kernel_model.specs.Tasks.Base.{back_unless_suspended, is_waiting, make_wait, move_wait, queue, release, with_task};
ghost use Rattle.tk_types.specs.declared.task.Phase.TheVariants.{Ready};
ghost use Rattle.kernel_model.specs.Words.Orders.{head_or_zero};
ghost use Rattle.kernel_model.specs.Tasks.Queues.{AreOfOrder, queue_at};
ghost use Rattle.kernel_model.specs.LawWords.Once.{IsOnce};
ghost use Rattle.kernel_model.specs.Tasks.Waits.{HavePlaces};
ghost use Rattle.kernel_base.specs.Waiting.{next_waiting};
ghost use Rattle.kernel_base.specs.Ready.{has_priorities};

use crate::base::Base;
use crate::ending::gone;
use crate::reading::is_waiting_phase;
use crate::rows::readied;
use tk_types::{Answer, Event, Order, Task};

impl Base {
    /// A row becomes READY: its task takes the last place, unless it is suspended.
    fn write_readied(&mut self, task: u8, row: Task)
        requires { has_priorities row ≡ true }
        ensures { self.new ≡ record (with_task self.old task (record row { phase = Ready })) { order = back_unless_suspended task row.suspensions self.old.order } }
    {
        if row.suspensions == 0 {
            self.write_last(task, readied(row));
        } else {
            self.write_idle(task, readied(row));
        }
    }

    /// A task begins to wait for an object, in the order of its queue, without a limit or for `tmout` milliseconds: it
    /// is due in the tick that makes the time one more than that. Where it was the current one, that is gone. The object's
    /// number is below 1,024, and its waiters queue in this order.
    pub fn make_wait(&mut self, task: u8, obj: u32, order: Order, tmout: i32)
        requires few { self.old.made < 2 ^ 63 }
        requires early { self.old.time < 2 ^ 63 }
        requires object { obj < 1024 }
        requires order { AreOfOrder order self.old obj }
        ensures { self.new ≡ make_wait self.old task obj order tmout }
    {
        let Some(row) = self.slot(task) else {
            return;
        };
        self.write_waiting(task, row, obj, order);
        self.due.drop_wait(task);
        self.cur = gone(task, self.cur);
        if tmout >= 0 {
            self.due
                .add(self.time + tmout as u64 + 1, Event::Wait(task));
        }
    }

    /// A task that waits waits for another object from now on, without a limit, at the place that its stamp or the
    /// beginning of its wait gives it there. The object's number is below 1,024, and its waiters queue in this order.
    pub fn move_wait(&mut self, task: u8, obj: u32, order: Order)
        requires object { obj < 1024 }
        requires order { AreOfOrder order self.old obj }
        ensures { self.new ≡ move_wait self.old task obj order }
    {
        let Some(row) = self.slot(task) else {
            return;
        };
        if !is_waiting_phase(row.phase) {
            return;
        }
        self.write_moved(task, row, obj, order);
        self.due.drop_wait(task);
    }

    /// A task's wait ends with an answer: it becomes READY, the last among its equals, or stays suspended. The end is
    /// recorded until `next_release` takes it.
    pub fn release(&mut self, task: u8, answer: Answer)
        ensures { self.new ≡ release self.old task answer }
    {
        let Some(row) = self.slot(task) else {
            return;
        };
        if !is_waiting_phase(row.phase) {
            return;
        }
        self.write_readied(task, row);
        self.due.drop_wait(task);
        self.released.record(task, answer);
    }

    /// The first task in the queue of an object, whose number is below 1,024, or `None` where none waits for it.
    pub fn head(&self, obj: u32) -> Option<u8>
        requires { obj < 1024 }
        ensures { result ≡ slice_get (queue_at self.now obj) 0 }
    {
        self.waits.head(obj)
    }

    /// States, at no cost, what the base keeps of its tasks: there is a slot for each ID, and each task that waits has its
    /// places among the stamps and by the beginning of its wait.
    pub fn known_of_tasks(&self)
        ensures slots { length self.now.tasks ≡ 256 }
        ensures places { HavePlaces self.now }
    {
        let _waits = &self.waits;
    }

    /// States, at no cost, that each task stands once at most among the stamps, and once at most by the beginning of its wait.
    pub fn known_of_orders(&self)
        ensures ranks { IsOnce self.now.order }
        ensures begins { IsOnce self.now.since }
    {
        self.order.known();
        self.since.known();
    }

    /// How many tasks wait for an object, whose number is below 1,024 and whose waiters queue in that order.
    pub fn waiter_count(&self, order: Order, obj: u32) -> usize
        requires object { obj < 1024 }
        requires order { AreOfOrder order self.now obj }
        ensures { result ≡ length (queue order self.now obj) }
    {
        self.waits.count(obj)
    }

    /// The task in that place of an object's queue, from 0 on, or `None` behind the last.
    pub fn waiter(&self, order: Order, obj: u32, place: usize) -> Option<u8>
        requires object { obj < 1024 }
        requires order { AreOfOrder order self.now obj }
        ensures { result ≡ slice_get (queue order self.now obj) place }
    {
        self.waits.in_place(obj, place)
    }

    /// The first task in the queue of an object, or 0 where none waits for it.
    pub fn first_waiter(&self, order: Order, obj: u32) -> u8
        requires object { obj < 1024 }
        requires order { AreOfOrder order self.now obj }
        ensures { result ≡ head_or_zero (queue order self.now obj) }
    {
        match self.waiter(order, obj, 0) {
            None => 0,
            Some(task) => task,
        }
    }

    /// The task behind one that waits, in the queue of the object that it waits for, or `None` where it is the last.
    pub fn next_after(&self, task: u8) -> Option<u8>
        requires { is_waiting self.now task ≡ true }
        ensures { result ≡ next_waiting self.now task }
    {
        if !self.waits.waits(task) {
            return None;
        }
        self.waits.next_after(task)
    }
}

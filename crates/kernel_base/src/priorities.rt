//! Priorities, and precedence among equals.

ghost use Rattle.std.specs.Prelude.{◌≡◌, ◌≤◌, slice_get};
ghost use Rattle.kernel_model.specs.Tasks.Base.{is_ready_with, ready_of, rotate, set_base, set_current};
ghost use Rattle.kernel_model.specs.Words.Orders.{to_back};
ghost use Rattle.kernel_base.specs.Queues.{next_ready};

use crate::base::Base;
use crate::rows::{with_base, with_current};

impl Base {
    /// Sets a task's base priority, from 1 to 140. It takes no new stamp.
    pub fn set_base(&mut self, task: u8, pri: u8)
        requires low { 1 ≤ pri }
        requires high { pri ≤ 140 }
        ensures { self.new ≡ set_base self.old task pri }
    {
        let Some(row) = self.slot(task) else {
            return;
        };
        self.write_alike(task, with_base(row, pri));
    }

    /// Sets a task's current priority, from 1 to 140: it is the last among its equals.
    pub fn set_current(&mut self, task: u8, pri: u8)
        requires low { 1 ≤ pri }
        requires high { pri ≤ 140 }
        ensures { self.new ≡ set_current self.old task pri }
    {
        let Some(row) = self.slot(task) else {
            return;
        };
        self.write_current(task, with_current(row, pri));
    }

    /// A task takes a new stamp: it is the last among its equals.
    pub fn restamp(&mut self, task: u8)
        ensures { self.new ≡ record self.old { order = to_back task self.old.order } }
    {
        self.move_to_back(task);
    }

    /// Whether a task is ready and has that priority.
    fn is_ready_with(&self, pri: u8, task: u8) -> bool
        ensures { result ≡ is_ready_with self.now pri task }
    {
        self.is_ready(task) && self.current(task) == pri
    }

    /// The first ready task of a priority becomes the last of it. Without one nothing changes.
    pub fn rotate(&mut self, pri: u8)
        ensures { self.new ≡ rotate self.old pri }
    {
        if let Some(task) = self.first_ready(pri) {
            self.move_to_back(task);
        }
    }

    /// The first ready task of a priority, or `None` where none has it.
    pub fn first_ready(&self, pri: u8) -> Option<u8>
        ensures { result ≡ slice_get (ready_of self.now pri) 0 }
    {
        self.ready.first_of(pri)
    }

    /// The ready task behind a ready one among those of its priority, or `None` where it is the last.
    pub fn next_ready(&self, task: u8) -> Option<u8>
        ensures { result ≡ next_ready self.now task }
    {
        if self.ready.holds(task) {
            return self.ready.next_of(task);
        }
        self.next_in_order(task)
    }

    /// The ready task behind one that isn't in the queue, among those of its priority, by the order of all tasks.
    fn next_in_order(&self, task: u8) -> Option<u8>
        ensures { result ≡ next_ready self.now task }
    {
        let pri = self.current(task);
        let mut passed = false;
        'tasks: for other in self.order.as_slice() {
            if passed && self.is_ready_with(pri, *other) {
                return Some(*other);
            }
            if *other == task {
                passed = true;
            }
        }
        None
    }
}

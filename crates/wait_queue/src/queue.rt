//! The waiters of all objects.

ghost use Rattle.std.specs.Prelude.{◌≡◌, ◌<◌, ◌≤◌, IfOk, [], false, length, true};
ghost use Rattle.wait_queue.specs.Queues.{
  first_task,
  joined,
  next_waiter,
  queue_of,
  reordered,
  task_in_place,
  waits,
  without_waiter,
};
ghost use Rattle.wait_queue.specs.Facts.{AreOfOrder};

use crate::waiters::{
    Sought, Waiter, count_of, first_of, first_place, index_of, put, task_in_place, with_priority,
};
use std::alloc::{AllocError, Global};
use std::marker::Model;
use std::sync::ledger::Ledger;
use step_counter::Steps;
use tk_types::Order;

/// The waiters of all objects, which are numbered from 0. The waiters of one object stand in their queue's order, and
/// each task waits at most once. Only `new` takes memory.
#[derive(Drop)]
pub struct Waits {
    objects: u32,
    waiters: Vec<Waiter>,
}

impl Model for Waits {
    ghost use Rattle.std.specs.Prelude.{vec_capacity};
    ghost use Rattle.wait_queue.specs.Queues.{WaitTable};
    ghost use Rattle.wait_queue.specs.Facts.{IsWaitTable};

    ghost Value = { WaitTable };

    ghost view = { λ waits. record { objects = waits.objects; waiters = waits.waiters.items } };

    ghost invariant = { λ waits. IsWaitTable waits.objects waits.waiters.items (vec_capacity waits.waiters) };
}

impl Waits {
    /// No task waits yet. There is room for one waiter of each task.
    pub fn new(alloc: Global, objects: u32) -> Result<Waits, AllocError>
        ensures { IfOk result (λ waits. waits ≡ record { objects = objects; waiters = [] }) }
    {
        Ok(Waits {
            objects,
            waiters: Vec::with_capacity(alloc, 256)?,
        })
    }

    /// How many objects there are.
    pub fn objects(&self) -> u32
        ensures { result ≡ self.now.objects }
    {
        self.objects
    }

    /// A task that waits nowhere begins to wait for an object whose queue has this order, with a priority from 1 to
    /// 140: as the last, or in a queue by priority as the last of its equals.
    pub fn join<L: Ledger>(
        &mut self,
        obj: u32,
        task: u8,
        order: Order,
        pri: u8,
        steps: &mut Steps<L>,
    )
        requires object { obj < self.old.objects }
        requires same_order { AreOfOrder order (queue_of obj self.old.waiters) }
        requires outside { waits task self.old.waiters ≡ false }
        requires lowest { 1 ≤ pri }
        requires highest { pri ≤ 140 }
        ensures waiters { self.new ≡ record self.old { waiters = joined (record { object = obj; task = task; order = order; priority = pri }) self.old.waiters } }
        ensures forward { steps.old ≤ steps.new }
    {
        let waiter = Waiter {
            object: obj,
            task,
            order,
            priority: pri,
        };
        put(&mut self.waiters, waiter, steps);
    }

    /// A task that waits doesn't wait any longer.
    pub fn leave<L: Ledger>(&mut self, task: u8, steps: &mut Steps<L>)
        requires { waits task self.old.waiters ≡ true }
        ensures waiters { self.new ≡ record self.old { waiters = without_waiter task self.old.waiters } }
        ensures forward { steps.old ≤ steps.new }
    {
        let place = first_place(self.waiters.as_slice(), Sought::Task(task), steps);
        self.waiters.remove(place);
    }

    /// A task that waits gets another priority: in a queue by priority it becomes the last of its equals, in another
    /// one it stays where it is.
    pub fn reorder<L: Ledger>(&mut self, task: u8, pri: u8, steps: &mut Steps<L>)
        requires { waits task self.old.waiters ≡ true }
        ensures waiters { self.new ≡ record self.old { waiters = reordered task pri self.old.waiters } }
        ensures forward { steps.old ≤ steps.new }
    {
        let index = first_place(self.waiters.as_slice(), Sought::Task(task), steps);
        let waiter = self.waiters[index];
        match waiter.order {
            Order::Fifo => {
                self.waiters[index] = with_priority(waiter, pri);
            }
            Order::Priority => {
                self.waiters.remove(index);
                put(&mut self.waiters, with_priority(waiter, pri), steps);
            }
        }
    }

    /// The first task that waits for an object, if there is one.
    pub fn head(&self, obj: u32) -> Option<u8>
        requires { obj < self.now.objects }
        ensures { result ≡ first_task (queue_of obj self.now.waiters) }
    {
        first_of(self.waiters.as_slice(), obj)
    }

    /// The first task behind one that waits, in the queue of its object, if there is one.
    pub fn next_after(&self, task: u8) -> Option<u8>
        requires { waits task self.now.waiters ≡ true }
        ensures { result ≡ next_waiter task self.now.waiters }
    {
        match index_of(self.waiters.as_slice(), Sought::Task(task)) {
            None => None,
            Some(index) => first_of(&self.waiters[index + 1..], self.waiters[index].object),
        }
    }

    /// How many tasks wait for an object.
    pub fn count(&self, obj: u32) -> usize
        requires { obj < self.now.objects }
        ensures { result ≡ length (queue_of obj self.now.waiters) }
    {
        count_of(self.waiters.as_slice(), obj)
    }

    /// The task in a place of an object's queue, from 0 on, if there is one.
    pub fn in_place(&self, obj: u32, place: usize) -> Option<u8>
        requires { obj < self.now.objects }
        ensures { result ≡ task_in_place obj place self.now.waiters }
    {
        task_in_place(self.waiters.as_slice(), obj, place)
    }

    /// Whether a task waits.
    pub fn waits(&self, task: u8) -> bool
        ensures { result ≡ waits task self.now.waiters }
    {
        self.waiters.iter().any(|waiter| waiter.task == task)
    }
}

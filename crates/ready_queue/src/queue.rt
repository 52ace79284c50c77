//! The queue of the ready tasks.

ghost use Rattle.std.specs.Prelude.{◌≡◌, ◌+◌, ◌≤◌, IfOk, [], false, true};
ghost use Rattle.ready_queue.specs.Queue.{
  first_task,
  holds_task,
  next_task,
  places_of,
  put_behind,
  rotated,
  without_task,
};

use crate::places::{ReadyTask, Sought, equal_in_front, first_place, index_of, put};
use std::alloc::{AllocError, Global};
use std::marker::Model;
use std::sync::ledger::Ledger;
use step_counter::Steps;

/// The ready tasks by priority, the highest first, and of one priority by precedence: each task stands at most once.
/// Only `new` takes memory.
#[derive(Drop)]
pub struct Ready {
    places: Vec<ReadyTask>,
}

impl Model for Ready {
    ghost use Rattle.std.specs.Prelude.{List, vec_capacity};
    ghost use Rattle.ready_queue.specs.declared.places.ReadyTask.{ReadyTask};
    ghost use Rattle.ready_queue.specs.Facts.{IsReadyQueue};

    ghost Value = { List ReadyTask };

    ghost view = { λ ready. ready.places.items };

    ghost invariant = { λ ready. IsReadyQueue ready.places.items (vec_capacity ready.places) };
}

impl Ready {
    /// No task is ready yet. There is room for one place of each task.
    pub fn new(alloc: Global) -> Result<Ready, AllocError>
        ensures { IfOk result (λ ready. ready ≡ []) }
    {
        Ok(Ready {
            places: Vec::with_capacity(alloc, 256)?,
        })
    }

    /// A task that isn't ready becomes ready with a priority from 1 to 140, as the last of its equals.
    pub fn put_back<L: Ledger>(&mut self, task: u8, pri: u8, steps: &mut Steps<L>)
        requires outside { holds_task task self.old ≡ false }
        requires lowest { 1 ≤ pri }
        requires highest { pri ≤ 140 }
        ensures places { self.new ≡ put_behind (record { task = task; priority = pri }) self.old }
        ensures forward { steps.old ≤ steps.new }
    {
        put(
            &mut self.places,
            ReadyTask {
                task,
                priority: pri,
            },
            steps,
        );
    }

    /// A ready task is no longer ready.
    pub fn remove<L: Ledger>(&mut self, task: u8, steps: &mut Steps<L>)
        requires { holds_task task self.old ≡ true }
        ensures places { self.new ≡ without_task task self.old }
        ensures forward { steps.old ≤ steps.new }
    {
        let index = first_place(self.places.as_slice(), Sought::Task(task), steps);
        self.places.remove(index);
    }

    /// The first task of a priority from 1 to 140 goes behind the last one of it; where there is none, nothing changes.
    pub fn rotate<L: Ledger>(&mut self, pri: u8, steps: &mut Steps<L>)
        requires lowest { 1 ≤ pri }
        requires highest { pri ≤ 140 }
        ensures places { self.new ≡ rotated pri self.old }
        ensures forward { steps.old ≤ steps.new }
    {
        let index = first_place(self.places.as_slice(), Sought::Priority(pri), steps);
        if index < self.places.len() {
            let place = self.places.remove(index);
            put(&mut self.places, place, steps);
        }
    }

    /// The task that runs first, if any is ready. It looks at one place, which is a step.
    pub fn highest<L: Ledger>(&self, steps: &mut Steps<L>) -> Option<u8>
        ensures task { result ≡ first_task self.now }
        ensures one_step { steps.new ≡ steps.old + 1 }
        ensures forward { steps.old ≤ steps.new }
    {
        steps.tick();
        if self.places.is_empty() {
            return None;
        }
        Some(self.places[0].task)
    }

    /// The first task of a priority, if there is one.
    pub fn first_of(&self, pri: u8) -> Option<u8>
        ensures { result ≡ first_task (places_of pri self.now) }
    {
        match index_of(self.places.as_slice(), Sought::Priority(pri)) {
            None => None,
            Some(index) => Some(self.places[index].task),
        }
    }

    /// The first task behind a ready one among those of its priority, if there is one.
    pub fn next_of(&self, task: u8) -> Option<u8>
        requires { holds_task task self.now ≡ true }
        ensures { result ≡ next_task task self.now }
    {
        match index_of(self.places.as_slice(), Sought::Task(task)) {
            None => None,
            Some(index) => equal_in_front(self.places[index], &self.places[index + 1..]),
        }
    }

    /// Whether a task is ready.
    pub fn holds(&self, task: u8) -> bool
        ensures { result ≡ holds_task task self.now }
    {
        self.places.iter().any(|place| place.task == task)
    }
}

//! What the base tells of its tasks.

ghost use Rattle.std.specs.Prelude.{◌≡◌, ◌≤◌, ◌&&◌, ◌==◌, None, drop, length, true};
ghost use Rattle.kernel_model.specs.Tasks.Base.{base_of, chosen, current, free_task, has_room, initial_of, is_dormant, is_dormant_phase, is_ready, is_ready_phase, is_waiting, is_waiting_phase, suspensions_of, task_at, waits_for, waits_in, wakeups_of};
ghost use Rattle.kernel_model.specs.Words.Orders.{free_from};
ghost use Rattle.kernel_model.specs.Tasks.Views.{is_current};
ghost use Rattle.std.specs.Option.{is_some};

use crate::base::Base;
use crate::queueing::first;
use tk_types::{Phase, Task};

/// Whether a task is ready or suspended out of being ready.
pub(crate) fn is_ready_phase(phase: Phase) -> bool
    ensures { result ≡ is_ready_phase phase }
{
    match phase {
        Phase::Ready => true,
        Phase::Dormant => false,
        Phase::Waiting(_) => false,
    }
}

fn is_dormant_phase(phase: Phase) -> bool
    ensures { result ≡ is_dormant_phase phase }
{
    match phase {
        Phase::Dormant => true,
        Phase::Ready => false,
        Phase::Waiting(_) => false,
    }
}

pub(crate) fn is_waiting_phase(phase: Phase) -> bool
    ensures { result ≡ is_waiting_phase phase }
{
    match phase {
        Phase::Waiting(_) => true,
        Phase::Dormant => false,
        Phase::Ready => false,
    }
}

fn waits_in(object: u32, phase: Phase) -> bool
    ensures { result ≡ waits_in object phase }
{
    match phase {
        Phase::Waiting(other) => other == object,
        Phase::Dormant => false,
        Phase::Ready => false,
    }
}

/// Whether a task is the current one.
pub(crate) fn is_task(task: u8, cur: Option<u8>) -> bool
    ensures { result ≡ is_current task cur }
{
    match cur {
        None => false,
        Some(other) => other == task,
    }
}

impl Base {
    /// The row of the task with that ID, or `None` where there is no such task.
    pub fn task(&self, task: u8) -> Option<Task>
        ensures { result ≡ task_at self.now task }
    {
        self.slot(task)
    }

    /// How many IDs there are: 256, with 0, which no task has.
    pub fn ids(&self) -> usize
        ensures slots { result ≡ length self.now.tasks }
        ensures all { result ≡ 256 }
    {
        self.tasks.len()
    }

    /// Whether the task exists.
    pub fn exists(&self, task: u8) -> bool
        ensures { result ≡ is_some (task_at self.now task) }
    {
        self.task(task).is_some()
    }

    /// Whether a task may run: it is ready and not suspended.
    pub fn is_ready(&self, task: u8) -> bool
        ensures { result ≡ is_ready self.now task }
    {
        match self.task(task) {
            None => false,
            Some(row) => is_ready_phase(row.phase) && row.suspensions == 0,
        }
    }

    /// Whether a task exists and is DORMANT.
    pub fn is_dormant(&self, task: u8) -> bool
        ensures { result ≡ is_dormant self.now task }
    {
        match self.task(task) {
            None => false,
            Some(row) => is_dormant_phase(row.phase),
        }
    }

    /// Whether a task waits.
    pub fn is_waiting(&self, task: u8) -> bool
        ensures { result ≡ is_waiting self.now task }
    {
        match self.task(task) {
            None => false,
            Some(row) => is_waiting_phase(row.phase),
        }
    }

    /// Whether a task waits for the object with that number.
    pub fn waits_for(&self, object: u32, task: u8) -> bool
        ensures { result ≡ waits_for self.now object task }
    {
        match self.task(task) {
            None => false,
            Some(row) => waits_in(object, row.phase),
        }
    }

    /// The wake-up requests of a task, at most 65,535, 0 where it doesn't exist.
    pub fn wakeups_of(&self, task: u8) -> u16
        ensures { result ≡ wakeups_of self.now task }
    {
        match self.task(task) {
            None => 0,
            Some(row) => row.wakeups,
        }
    }

    /// The suspensions of a task, at most 65,535, 0 where it doesn't exist.
    pub fn suspensions_of(&self, task: u8) -> u16
        ensures { result ≡ suspensions_of self.now task }
    {
        match self.task(task) {
            None => 0,
            Some(row) => row.suspensions,
        }
    }

    /// The current priority of a task, from 1 to 140, or 0 where it doesn't exist.
    pub fn current(&self, task: u8) -> u8
        ensures priority { result ≡ current self.now task }
        ensures low { is_some (task_at self.now task) ≡ true → 1 ≤ result }
        ensures high { result ≤ 140 }
    {
        match self.slot(task) {
            None => 0,
            Some(row) => row.current,
        }
    }

    /// The base priority of a task, from 1 to 140, or 0 where it doesn't exist.
    pub fn base_of(&self, task: u8) -> u8
        ensures priority { result ≡ base_of self.now task }
        ensures low { is_some (task_at self.now task) ≡ true → 1 ≤ result }
        ensures high { result ≤ 140 }
    {
        match self.slot(task) {
            None => 0,
            Some(row) => row.base,
        }
    }

    /// The priority of a task's creation, from 1 to 140, or 0 where it doesn't exist.
    pub fn initial_of(&self, task: u8) -> u8
        ensures priority { result ≡ initial_of self.now task }
        ensures low { is_some (task_at self.now task) ≡ true → 1 ≤ result }
        ensures high { result ≤ 140 }
    {
        match self.slot(task) {
            None => 0,
            Some(row) => row.initial,
        }
    }

    /// Whether a task is the current one.
    pub fn is_current(&self, task: u8) -> bool
        ensures { result ≡ is_current task self.now.cur }
    {
        is_task(task, self.cur)
    }

    /// The current task, 0 for idle, or `None` where it is gone: where its task is no longer READY or RUNNING.
    pub fn cur(&self) -> Option<u8>
        ensures { result ≡ self.now.cur }
    {
        self.cur
    }

    /// The least free ID, or 0 where none is free.
    #[tactic(auto, unfolding(kernel_model::specs::Tasks::Base::free_task))]
    pub fn free_task(&self) -> u8
        ensures { result ≡ free_task self.now }
    {
        least_free(&self.tasks)
    }

    /// The task that dispatching chooses, or 0 where none is ready.
    pub fn chosen(&self) -> u8
        ensures { result ≡ chosen self.now }
    {
        match first(&self.ready) {
            None => 0,
            Some(task) => task,
        }
    }
}

/// The least free ID of a table, or 0.
#[tactic(auto, unfolding(kernel_model::specs::Words::Orders::free_from))]
fn least_free(slots: &[Option<Task>]) -> u8
    requires { length slots.now ≡ 256 }
    ensures { result ≡ free_from 1 (drop 1 slots.now) }
{
    'slots: for id in 1..256usize {
        if slots[id].is_none() {
            return id as u8;
        }
    }
    0
}

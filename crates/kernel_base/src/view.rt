//! What a task shows of itself, in one record.

ghost use Rattle.std.specs.Prelude.{◌≡◌, Some, None, position, ◌==◌};
ghost use Rattle.std.specs.Option.{option_map};
ghost use Rattle.kernel_model.specs.Tasks.Base.{task_at};
ghost use Rattle.kernel_model.specs.Words.Events.{limit_of};
ghost use Rattle.kernel_model.specs.Tasks.Views.{is_suspended, object_in, state_in, state_number};
ghost use Rattle.kernel_base.specs.Views.{view_of};

use crate::base::Base;
use crate::reading::is_task;
use tk_types::{Phase, Task};

/// What a task shows of itself. `state` is 1 RUNNING, 2 READY, 3 WAITING, 4 SUSPENDED, 5 WAITING-SUSPENDED or
/// 6 DORMANT; `obj` is the number of the object that it waits for, `since` its place among all tasks by the beginning of
/// their last waits, and `due` the time at which its wait ends, where that has a limit.
#[derive(Clone, Copy, Debug, PartialEq, Eq)]
pub struct TaskView {
    pub state: u8,
    pub current: u8,
    pub base: u8,
    pub initial: u8,
    pub wakeups: u32,
    pub suspensions: u32,
    pub obj: Option<u32>,
    pub since: Option<u64>,
    pub due: Option<u64>,
}

/// The number of a task's state.
fn state_number(runs: bool, phase: Phase, suspended: bool) -> u8
    ensures { result ≡ state_number runs phase suspended }
{
    match phase {
        Phase::Dormant => 6,
        Phase::Ready => if suspended {
            4
        } else {
            if runs { 1 } else { 2 }
        },
        Phase::Waiting(_) => if suspended { 5 } else { 3 },
    }
}

/// The object that a task waits for.
fn object_in(phase: Phase) -> Option<u32>
    ensures { result ≡ object_in phase }
{
    match phase {
        Phase::Waiting(object) => Some(object),
        Phase::Dormant => None,
        Phase::Ready => None,
    }
}

/// Whether a task is suspended.
fn is_suspended(row: Task) -> bool
    ensures { result ≡ is_suspended row }
{
    row.suspensions != 0
}

/// The place of an ID in an order.
fn place_of(ids: &[u8], id: u8) -> Option<usize>
    ensures { result ≡ position (λ other. other == id) ids.now }
{
    ids.iter().position(|other| *other == id)
}

impl Base {
    /// The state of a task by its number.
    pub fn state_of(&self, task: u8, row: Task) -> u8
        ensures { result ≡ state_in self.now task row }
    {
        state_number(is_task(task, self.cur), row.phase, is_suspended(row))
    }

    /// The place of a task among all by the beginning of their last waits.
    fn place_since(&self, task: u8) -> Option<u64>
        ensures { result ≡ position (λ other. other == task) self.now.since }
    {
        match place_of(self.since.as_slice(), task) {
            None => None,
            Some(place) => Some(place as u64),
        }
    }

    /// What a task shows of itself, or `None` where it doesn't exist.
    pub fn view(&self, task: u8) -> Option<TaskView>
        ensures { result ≡ view_of self.now task }
    {
        let row = self.task(task)?;
        Some(TaskView {
            state: self.state_of(task, row),
            current: row.current,
            base: row.base,
            initial: row.initial,
            wakeups: row.wakeups as u32,
            suspensions: row.suspensions as u32,
            obj: object_in(row.phase),
            since: self.place_since(task),
            due: self.due.limit_of(task),
        })
    }
}

//! Places of ready tasks, and where one is looked for.

ghost use Rattle.std.specs.Prelude.{◌≡◌, ◌+◌, ◌<◌, ◌≤◌, length, vec_capacity, vec_len};
ghost use Rattle.std.specs.List.{position, position_or_len};
ghost use Rattle.ready_queue.specs.Queue.{equal_in_front, is_below, put_behind};
ghost use Rattle.ready_queue.specs.Sought.{is_sought};

use std::sync::ledger::Ledger;
use step_counter::Steps;

/// A ready task with its priority, from 1 to 140; the least number is the highest priority.
#[derive(Clone, Copy, Debug, PartialEq, Eq)]
pub struct ReadyTask {
    pub task: u8,
    pub priority: u8,
}

/// Which place is looked for.
#[derive(Clone, Copy)]
pub enum Sought {
    /// That of the task.
    Task(u8),
    /// One of the priority.
    Priority(u8),
    /// One of a lower priority than this, which is a greater number.
    Below(u8),
}

/// Whether it is such a place.
pub fn is_sought(sought: Sought, place: ReadyTask) -> bool
    ensures { result ≡ is_sought sought place }
{
    match sought {
        Sought::Task(task) => place.task == task,
        Sought::Priority(priority) => place.priority == priority,
        Sought::Below(priority) => priority < place.priority,
    }
}

/// The index of the first such place, or the length where there is none. Each place that is looked at is a step.
pub fn first_place<L: Ledger>(places: &[ReadyTask], sought: Sought, steps: &mut Steps<L>) -> usize
    ensures index { result ≡ position_or_len (is_sought sought) places.now }
    ensures within { result ≤ length places.now }
    ensures forward { steps.old ≤ steps.new }
{
    'places: for index in 0..places.len() {
        steps.tick();
        if is_sought(sought, places[index]) {
            return index;
        }
    }
    places.len()
}

/// The index of the first such place, if there is one.
pub fn index_of(places: &[ReadyTask], sought: Sought) -> Option<usize>
    ensures { result ≡ position (is_sought sought) places.now }
{
    places.iter().position(|place| is_sought(sought, *place))
}

/// Puts a place in front of the first one of a lower priority, where there is room for it.
pub fn put<L: Ledger>(places: &mut Vec<ReadyTask>, place: ReadyTask, steps: &mut Steps<L>)
    requires { vec_len places.old < vec_capacity places.old }
    ensures places { places.new.items ≡ put_behind place places.old.items }
    ensures room { vec_capacity places.old ≤ vec_capacity places.new }
    ensures forward { steps.old ≤ steps.new }
{
    let index = first_place(places.as_slice(), Sought::Below(place.priority), steps);
    let _ = places.insert(index, place);
}

/// The task in front of these places, where it has the priority of the place.
pub fn equal_in_front(place: ReadyTask, rest: &[ReadyTask]) -> Option<u8>
    ensures { result ≡ equal_in_front place rest.now }
{
    match rest {
        [next, ..] => {
            if next.priority == place.priority {
                Some(next.task)
            } else {
                None
            }
        }
        [] => None,
    }
}

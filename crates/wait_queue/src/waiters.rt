//! Waiters, and where one is looked for.

ghost use Rattle.std.specs.Prelude.{◌≡◌, ◌<◌, ◌≤◌, length, vec_capacity, vec_len};
ghost use Rattle.std.specs.List.{position, position_or_len};
ghost use Rattle.wait_queue.specs.Queues.{first_task, is_ahead, joined, queue_of, task_in_place, with_priority};
ghost use Rattle.wait_queue.specs.Sought.{is_sought};

use std::sync::ledger::Ledger;
use step_counter::Steps;
use tk_types::Order;

/// A task that waits for an object, with the order of the object's queue and the task's priority, from 1 to 140; the
/// least number is the highest priority.
#[derive(Clone, Copy, Debug, PartialEq, Eq)]
pub struct Waiter {
    pub object: u32,
    pub task: u8,
    pub order: Order,
    pub priority: u8,
}

/// Which waiter is looked for.
#[derive(Clone, Copy)]
pub enum Sought {
    /// The task.
    Task(u8),
    /// One of the object.
    Object(u32),
    /// One that this waiter goes in front of.
    Behind(Waiter),
}

/// A waiter with another priority.
pub fn with_priority(waiter: Waiter, priority: u8) -> Waiter
    ensures { result ≡ with_priority priority waiter }
{
    Waiter { priority, ..waiter }
}

/// Whether a waiter goes in front of another one.
fn is_ahead(waiter: Waiter, other: Waiter) -> bool
    ensures { result ≡ is_ahead waiter other }
{
    match waiter.order {
        Order::Fifo => false,
        Order::Priority => other.object == waiter.object && waiter.priority < other.priority,
    }
}

/// Whether it is such a waiter.
fn is_sought(sought: Sought, waiter: Waiter) -> bool
    ensures { result ≡ is_sought sought waiter }
{
    match sought {
        Sought::Task(task) => waiter.task == task,
        Sought::Object(object) => waiter.object == object,
        Sought::Behind(other) => is_ahead(other, waiter),
    }
}

/// The index of the first such waiter, or the length where there is none. Each waiter that is looked at is a step.
pub fn first_place<L: Ledger>(waiters: &[Waiter], sought: Sought, steps: &mut Steps<L>) -> usize
    ensures index { result ≡ position_or_len (is_sought sought) waiters.now }
    ensures within { result ≤ length waiters.now }
    ensures forward { steps.old ≤ steps.new }
{
    'places: for index in 0..waiters.len() {
        steps.tick();
        if is_sought(sought, waiters[index]) {
            return index;
        }
    }
    waiters.len()
}

/// The index of the first such waiter, if there is one.
pub fn index_of(waiters: &[Waiter], sought: Sought) -> Option<usize>
    ensures { result ≡ position (is_sought sought) waiters.now }
{
    waiters.iter().position(|waiter| is_sought(sought, *waiter))
}

/// The first task that waits for an object, if there is one.
pub fn first_of(waiters: &[Waiter], object: u32) -> Option<u8>
    ensures { result ≡ first_task (queue_of object waiters.now) }
{
    match index_of(waiters, Sought::Object(object)) {
        None => None,
        Some(index) => Some(waiters[index].task),
    }
}

/// The index at which a waiter joins.
fn place_for<L: Ledger>(waiters: &[Waiter], waiter: Waiter, steps: &mut Steps<L>) -> usize
    ensures index { result ≡ position_or_len (is_ahead waiter) waiters.now }
    ensures within { result ≤ length waiters.now }
    ensures forward { steps.old ≤ steps.new }
{
    match waiter.order {
        Order::Fifo => waiters.len(),
        Order::Priority => first_place(waiters, Sought::Behind(waiter), steps),
    }
}

/// A waiter joins the queue of its object, where there is room for it.
pub fn put<L: Ledger>(waiters: &mut Vec<Waiter>, waiter: Waiter, steps: &mut Steps<L>)
    requires { vec_len waiters.old < vec_capacity waiters.old }
    ensures waiters { waiters.new.items ≡ joined waiter waiters.old.items }
    ensures room { vec_capacity waiters.old ≤ vec_capacity waiters.new }
    ensures forward { steps.old ≤ steps.new }
{
    let index = place_for(waiters.as_slice(), waiter, steps);
    let _ = waiters.insert(index, waiter);
}

/// How many of the waiters wait for an object.
pub fn count_of(waiters: &[Waiter], object: u32) -> usize
    ensures count { result ≡ length (queue_of object waiters.now) }
    ensures within { result ≤ length waiters.now }
{
    let mut count = 0;
    'places: for waiter in waiters {
        if waiter.object == object {
            count += 1;
        }
    }
    count
}

/// The task in a place of an object's queue, from 0 on, if there is one.
pub fn task_in_place(waiters: &[Waiter], object: u32, place: usize) -> Option<u8>
    ensures { result ≡ task_in_place object place waiters.now }
{
    let mut left = place;
    'places: for waiter in waiters {
        if waiter.object == object {
            if left == 0 {
                return Some(waiter.task);
            }
            left -= 1;
        }
    }
    None
}

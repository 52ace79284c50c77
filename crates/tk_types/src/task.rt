//! What the kernel keeps of a task.

use crate::answer::Answer;

/// Where a task is in its life. A ready task that is the current one is RUNNING. A suspended task keeps its
/// phase and counts its suspensions.
#[derive(Clone, Copy, Debug, PartialEq, Eq)]
pub enum Phase {
    /// Not started, or ended.
    Dormant,
    /// Ready to run, or running.
    Ready,
    /// Waiting for the object with that number.
    Waiting(u32),
}

/// How the tasks that wait for an object stand in its queue: in the order in which they began to wait, or by
/// priority.
#[derive(Clone, Copy, Debug, PartialEq, Eq)]
pub enum Order {
    Fifo,
    Priority,
}

/// A task as the kernel's tables have it. Priorities are from 1 to 140, the least is the highest.
#[derive(Clone, Copy, Debug, PartialEq, Eq)]
pub struct Task {
    pub phase: Phase,
    /// How it stands among the waiters of its object, where it waits; else how it last stood.
    pub queue: Order,
    /// The priority that calls set.
    pub base: u8,
    /// The priority of its creation, which a start begins with.
    pub initial: u8,
    /// The priority that counts for dispatching and for queues.
    pub current: u8,
    /// Wake-up requests that no sleep has taken yet.
    pub wakeups: u16,
    /// Suspensions that aren't taken off yet.
    pub suspensions: u16,
    /// The bytes of simulated system memory that its stack takes.
    pub stack: u32,
}

/// The end of a wait: the task, and the answer of the call in which it waited.
#[derive(Clone, Copy, Debug, PartialEq, Eq)]
pub struct Release {
    pub task: u8,
    pub answer: Answer,
}

/// What falls due at a time: the end of a task's wait, or the start of a cyclic or an alarm handler.
#[derive(Clone, Copy, Debug, PartialEq, Eq)]
pub enum Event {
    Wait(u8),
    Cyclic(u8),
    Alarm(u8),
}

/// An event that is set: the time at which it falls due, and its key, which no other event ever has.
#[derive(Clone, Copy, Debug, PartialEq, Eq)]
pub struct DueEvent {
    pub time: u64,
    pub key: u64,
    pub what: Event,
}

/// What delays dispatching: dispatch is disabled, interrupts are disabled, or a handler runs.
#[derive(Clone, Copy, Debug, PartialEq, Eq)]
pub struct Flags {
    pub dispatch_off: bool,
    pub di: bool,
    pub handler: bool,
}

//! Whose turn it is at a step.

use tk_types::Event;

/// What a step does. The first of these that applies is done, in this order.
#[derive(Clone, Copy, Debug, PartialEq, Eq)]
pub enum Turn {
    /// A statement of the handler that runs.
    Handler,
    /// The start of the first cyclic or alarm handler that is due.
    Due(Event),
    /// A pending tick.
    Tick,
    /// The start of the handler of a pending interrupt.
    Interrupt(u8),
    /// A statement of the current task.
    Task(u8),
    /// A tick, since nothing else is to be done.
    Idle,
}

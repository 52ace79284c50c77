//! Words of a run: modes, frames, what a statement does, and how a run ends.

use crate::calls::Call;
use crate::name::Name;

/// When requests go to drivers: as they come, or only when the machine is idle, one at a time.
#[derive(Clone, Copy, Debug, PartialEq, Eq)]
pub enum Mode {
    Free,
    Sync,
}

/// Where a body is being done: the number of the body, how many of its statements were passed, and its
/// registers of 32 bits.
#[derive(Clone, Copy, Debug, PartialEq, Eq)]
pub struct Frame {
    pub body: u8,
    pub place: usize,
    pub registers: [u32; 16],
}

/// What `say` and `show` print.
#[derive(Clone, Copy, Debug, PartialEq, Eq)]
pub enum SayText {
    Name(Name),
    Number(i32),
}

/// What a statement asks of the machine beyond its own frame and memory.
#[derive(Clone, Copy)]
pub enum Act {
    /// Nothing.
    Computed,
    /// A system call, its arguments read.
    Call(Call),
    /// A line of the trace.
    Say(SayText),
    /// The return of a handler or a service, with its value.
    Return(i32),
    /// The end of the body was reached.
    Fell,
    /// The end of the run.
    Halt,
}

/// How a run ends by itself: with nothing left to do, by `halt`, or at its budget of steps.
#[derive(Clone, Copy, Debug, PartialEq, Eq)]
pub enum End {
    Idle,
    Halt,
    Budget,
}

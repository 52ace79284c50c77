//! The lines of a trace.

use crate::answer::Answer;
use crate::call_name::CallName;
use crate::name::Name;

/// A line of the trace. `step` is the number of the step that it belongs to. A task is its ID; `who` is a
/// task's ID, or 0 for a handler.
#[derive(Clone, Copy, Debug, PartialEq, Eq)]
pub enum Line {
    /// `D`: dispatch to a task, 0 for idle.
    Dispatch {
        step: u32,
        task: u8,
    },
    /// `C`: a call returned without waiting, or an extended call returned.
    Returned {
        step: u32,
        who: u8,
        call: CallName,
        answer: Answer,
    },
    /// `B`: a task waits in a call.
    Blocked {
        step: u32,
        task: u8,
        call: CallName,
    },
    /// `W`: a task's wait ended.
    Released {
        step: u32,
        task: u8,
        call: CallName,
        answer: Answer,
    },
    /// `K`: a tick, with the operating time after it.
    Tick {
        step: u32,
        time: u64,
    },
    /// `I`: a handler starts.
    Started {
        step: u32,
        handler: HandlerKind,
        number: u8,
    },
    /// `J`: the ending of a request arrives before the step.
    Ending {
        step: u32,
        device: u8,
        request: u8,
        ending: LineEnding,
    },
    /// `O`: a hook, directly before the line that it belongs to.
    Hook {
        step: u32,
        hook: Hook,
    },
    /// `S`: what `say` printed.
    SaidName {
        step: u32,
        who: u8,
        name: Name,
    },
    /// `S`: what `show` printed.
    SaidNumber {
        step: u32,
        who: u8,
        number: i32,
    },
    /// `END`: the last line; `step` is the number of steps done.
    End {
        step: u32,
        end: LastLine,
    },
}

/// Which handler starts.
#[derive(Clone, Copy, Debug, PartialEq, Eq)]
pub enum HandlerKind {
    Interrupt,
    Cyclic,
    Alarm,
}

/// How a request ended: done, with its error's number and its size, or cut after so many bytes.
#[derive(Clone, Copy, Debug, PartialEq, Eq)]
pub enum LineEnding {
    Done { error: i32, size: u32 },
    Cut(u32),
}

/// What a hook stands before: the line of a call, a dispatch, or the start of a handler.
#[derive(Clone, Copy, Debug, PartialEq, Eq)]
pub enum Hook {
    Service { who: u8, call: CallName },
    Dispatch { task: u8 },
    Handler { handler: HandlerKind, number: u8 },
}

/// How a trace ends: by the run itself, for want of an ending, or at the entry of the journal that isn't fit.
#[derive(Clone, Copy, Debug, PartialEq, Eq)]
pub enum LastLine {
    Idle,
    Halt,
    Budget,
    Starved,
    Unfit(u32),
}

/// How a request ended, as a journal has it: done, or cut after so many bytes.
#[derive(Clone, Copy, Debug, PartialEq, Eq)]
pub enum How {
    Done,
    Cut(u32),
}

/// An entry of a journal: at which place which ending arrived. `place` is the number of the step before which
/// it arrived; the request of the device with that number ended in the way that `how` says.
#[derive(Clone, Copy, Debug, PartialEq, Eq)]
pub struct Entry {
    pub place: u32,
    pub device: u8,
    pub request: u8,
    pub how: How,
}

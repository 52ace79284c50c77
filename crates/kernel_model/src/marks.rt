//! The marks of the calls, of which the table of calls speaks.

/// What a call asks of its caller's context.
#[derive(Clone, Copy, Debug, PartialEq, Eq)]
pub enum Mark {
    /// It may make its caller wait: no handler, and neither disabled dispatch nor disabled interrupts.
    MayWait,
    /// Its caller has to be a task.
    NeedsTask,
    /// Nothing.
    Free,
}

//! What a system call answers, and to whom.

/// The answer of a system call: its value, and up to five fields that stand in the registers after it. Of
/// `fields` the first `used` count, and the others are 0.
#[derive(Clone, Copy, Debug, PartialEq, Eq)]
pub struct Answer {
    pub value: i32,
    pub fields: [i32; 5],
    pub used: u8,
}

/// Who makes a call: the task with that ID, or a running handler.
#[derive(Clone, Copy, Debug, PartialEq, Eq)]
pub enum Who {
    Task(u8),
    Handler,
}

/// What became of a call: it returned with an answer, it left its task waiting, or it entered the service of
/// an extended call with that body.
#[derive(Clone, Copy, Debug, PartialEq, Eq)]
pub enum Outcome {
    Returned(Answer),
    Blocked,
    Entered(u8),
}

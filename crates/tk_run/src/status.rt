//! How a call of the program as a whole ends.

ghost use Rattle.std.specs.Prelude.{◌≡◌};
ghost use Rattle.tk_run.specs.Outcomes.{number_of};

use tk_types::Why;

/// How a call ended. `Starved` and `Unfit` are ends of a replay and verdicts on a trace, `Differs` is a verdict on a trace, and `NoThread` an
/// end of a run with devices.
#[derive(Clone, Copy, Debug, PartialEq, Eq)]
pub enum Status {
    /// The run ended by itself, with nothing left to do or by `halt`; the script was printed; the given trace is that of the run.
    Done,
    /// The run ended at its budget of steps.
    Budget,
    /// The input is refused at that line, for that reason.
    Refused { line: u32, why: Why },
    /// The source failed.
    ReadFault,
    /// The sink failed.
    WriteFault,
    /// The host's memory ran out.
    NoMemory,
    /// The driver of a device couldn't be started.
    NoThread,
    /// The run needs the ending of a request, and no entry is left that gives it.
    Starved,
    /// The entry with that number, from 1 on, gives an ending that isn't fit at its place.
    Unfit { entry: u32 },
    /// The given trace isn't that of the run: that line is the first that differs, counted from 1.
    Differs { line: u32 },
    /// The words are no command.
    Usage,
}

impl Status {
    /// The number with which the process ends.
    pub fn number(self) -> u8
        ensures { result ≡ number_of self }
    {
        match self {
            Status::Done => 0,
            Status::Budget => 1,
            Status::Refused { .. } => 2,
            Status::ReadFault => 3,
            Status::WriteFault => 4,
            Status::NoMemory => 5,
            Status::NoThread => 6,
            Status::Starved => 7,
            Status::Unfit { .. } => 8,
            Status::Differs { .. } => 9,
            Status::Usage => 64,
        }
    }
}

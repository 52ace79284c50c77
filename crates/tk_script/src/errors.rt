//! Why the second pass stops.

ghost use Rattle.std.specs.Prelude.{◌≡◌};

use tk_types::{OutOfMemory, Why};

/// Why a step of the second pass stops: memory ran out, or a name stands for nothing that may stand there.
#[derive(Clone, Copy, Debug, PartialEq, Eq)]
pub(crate) enum StepError {
    Memory,
    Refused(Why),
}

/// Why the second pass stops: memory ran out, or that line is wrong.
#[derive(Clone, Copy, Debug, PartialEq, Eq)]
pub(crate) enum LineError {
    Memory,
    Refused { line: u32, why: Why },
}

impl From<Why> for StepError {
    ghost use Rattle.tk_script.specs.declared.errors.StepError.{StepError};

    ghost from_gives = { λ why e. e ≡ StepError.Refused why };

    fn from(why: Why) -> StepError {
        StepError::Refused(why)
    }
}

impl From<OutOfMemory> for StepError {
    ghost use Rattle.tk_script.specs.declared.errors.StepError.{StepError};

    ghost from_gives = { λ _ e. e ≡ StepError.Memory };

    fn from(_error: OutOfMemory) -> StepError {
        StepError::Memory
    }
}

impl From<OutOfMemory> for LineError {
    ghost use Rattle.tk_script.specs.declared.errors.LineError.{LineError};

    ghost from_gives = { λ _ e. e ≡ LineError.Memory };

    fn from(_error: OutOfMemory) -> LineError {
        LineError::Memory
    }
}

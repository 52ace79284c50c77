//! Why the reading of a text stops.

ghost use Rattle.std.specs.Prelude.{◌≡◌};

use std::alloc::{AllocError, AllocFailed};
use tk_types::{OutOfMemory, Why};

/// Why the reading of a line stops: memory ran out, or the line is wrong.
#[derive(Clone, Copy, Debug, PartialEq, Eq)]
pub(crate) enum ReadError {
    Memory,
    Refused(Why),
}

/// Why the reading of a text stops: memory ran out, or that line is wrong.
#[derive(Clone, Copy, Debug, PartialEq, Eq)]
pub(crate) enum TextError {
    Memory,
    Refused { line: u32, why: Why },
}

impl From<Why> for ReadError {
    ghost use Rattle.tk_raw.specs.declared.errors.ReadError.{ReadError};

    ghost from_gives = { λ why e. e ≡ ReadError.Refused why };

    fn from(why: Why) -> ReadError {
        ReadError::Refused(why)
    }
}

impl From<OutOfMemory> for ReadError {
    ghost use Rattle.tk_raw.specs.declared.errors.ReadError.{ReadError};

    ghost from_gives = { λ _ e. e ≡ ReadError.Memory };

    fn from(_error: OutOfMemory) -> ReadError {
        ReadError::Memory
    }
}

//! Why a fleet isn't started.

use thiserror::Error;

/// Why no fleet was started. No driver is running for it then.
#[derive(Clone, Copy, Debug, PartialEq, Eq, Error)]
pub enum Start {
    /// A driver couldn't be started.
    #[error("a driver could not be started")]
    Refused,
    /// The host's memory ran out.
    #[error("out of memory")]
    OutOfMemory,
}

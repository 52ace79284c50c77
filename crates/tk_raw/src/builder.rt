//! What was read of a script so far.

use crate::open_body::OpenBody;
use crate::raw::{RawBody, RawBoot};
use tk_types::{Device, Interrupt, Sequence};

/// What was read of a script so far. It moves from line to line.
#[derive(Drop, Debug)]
pub(crate) struct Builder {
    pub(crate) devices: Sequence<Device>,
    pub(crate) pace: Option<u32>,
    pub(crate) irqs: Sequence<Interrupt>,
    pub(crate) boot: Option<RawBoot>,
    /// The bodies that are at their end.
    pub(crate) bodies: Sequence<RawBody>,
    /// The body that isn't at its end yet.
    pub(crate) current: Option<OpenBody>,
}

/// What was read so far, and the number of each line that counts.
#[derive(Drop, Debug)]
pub(crate) struct Reached {
    pub(crate) builder: Builder,
    pub(crate) lines: Sequence<u32>,
}

/// The word of a kind of unit.
#[derive(Clone, Copy, Debug, PartialEq, Eq)]
pub(crate) enum UnitWord {
    Ram,
    Log,
    Flaky,
    Slow,
}

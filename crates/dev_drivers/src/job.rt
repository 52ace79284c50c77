//! What a driver is started with.

ghost use Rattle.dev_drivers.specs.Logs.{IsFresh};

use crate::log::DriverLog;
use crossbeam_utils::sync::{Parker, Unparker};
use tk_types::Kind;

/// What a driver is started with: its device and the kind of its unit, the driver as it is at first, where it sleeps, and how it
/// wakes the kernel.
#[derive(Drop)]
pub struct DriverJob {
    pub(crate) device: u8,
    pub(crate) kind: Kind,
    pub(crate) start: DriverLog,
    pub(crate) parker: Parker,
    pub(crate) kernel: Unparker,
    ghost fresh: { IsFresh device kind start },
}

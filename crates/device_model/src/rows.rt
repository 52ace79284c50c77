//! What the kernel keeps of descriptors, requests and the tasks that wait for them.

use tk_types::{Er, OpenMode};

/// Where a request is in its life: it waits for its device's driver, it is with the driver, or it has ended, with the number
/// of bytes that were moved and its error.
#[derive(Clone, Copy, Debug, PartialEq, Eq)]
pub enum Life {
    Queued,
    AtDriver,
    Ended { size: u32, error: Er },
}

/// A descriptor: its device, how the device was opened, and whether it is being closed.
#[derive(Clone, Copy, Debug, PartialEq, Eq)]
pub struct Opened {
    pub device: u8,
    pub mode: OpenMode,
    pub closing: bool,
}

/// What a call asks of a device: its descriptor, whether it writes, where it starts (none is the device's event buffer), and
/// where in the script's memory the bytes are, and how many.
#[derive(Clone, Copy, Debug, PartialEq, Eq)]
pub struct Transfer {
    pub descriptor: u8,
    pub write: bool,
    pub start: Option<u32>,
    pub address: u32,
    pub size: u32,
}

/// What a task asked for when it last waited for a device.
#[derive(Clone, Copy, Debug, PartialEq, Eq)]
pub enum Wish {
    /// Nothing: it never waited for one.
    Nothing,
    /// That its request be accepted; it stays for the ending where `stays` holds.
    Acceptance { transfer: Transfer, stays: bool },
    /// The ending of the request with that ID and serial; `own` holds where the task stayed for that of its own request.
    Ending { request: u8, serial: u64, own: bool },
    /// The earliest ending of any request of the descriptor.
    AnyEnding,
}

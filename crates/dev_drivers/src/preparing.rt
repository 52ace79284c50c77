//! The two sides of a device, before its driver is started.

ghost use Rattle.std.specs.Prelude.{◌≡◌, IfOk};
ghost use Rattle.dev_units.specs.Views.{IsRightKind};
ghost use Rattle.fleet_model.specs.Channels.{channel_start};
ghost use Rattle.dev_drivers.specs.Links.{IsLinkOf, channel_of};

use crate::job::DriverJob;
use crate::link::Link;
use crate::log::DriverLog;
use crossbeam_utils::sync::{Parker, Unparker};
use dev_units::{DriverCore, Unit};
use rtrb::RingBuffer;
use std::alloc::Global;
use tk_types::{Device, OutOfMemory};

/// How many messages an inbox has room for, and as many wait before it.
const INBOX: usize = 4;

/// How many endings an outbox has room for.
const OUTBOX: usize = 2;

/// The kernel's side of a device with its number, and the job of its driver, over two rings. `kernel` wakes the kernel.
pub(crate) fn prepare(
    alloc: Global,
    number: u8,
    device: &Device,
    kernel: Unparker,
) -> Result<(Link, DriverJob), OutOfMemory>
    requires { IsRightKind device.now.kind }
    ensures linked { IfOk result (λ sides. IsLinkOf sides.1 sides.0) }
    ensures number { IfOk result (λ sides. sides.0.device ≡ number) }
    ensures channel { IfOk result (λ sides. channel_of sides.0 ≡ channel_start device.now) }
{
    let core = DriverCore::new(alloc, number, Unit::new(alloc, device.kind)?)?;
    let (to, inbox) = RingBuffer::with_protocol(alloc, INBOX)?;
    let (outbox, from) = RingBuffer::new(alloc, OUTBOX)?;
    let waiting = Vec::with_capacity(alloc, INBOX)?;
    let parker = Parker::new(alloc)?;
    let driver = parker.unparker().clone()?;
    let start = DriverLog {
        core,
        inbox,
        outbox,
        blocks: 0,
    };
    let job = DriverJob {
        device: number,
        kind: device.kind,
        start,
        parker,
        kernel,
    };
    let link = Link {
        device: number,
        kind: device.kind,
        to,
        gone: 0,
        waiting,
        from,
        count: 0,
        dropped: false,
        driver,
    };
    Ok((link, job))
}

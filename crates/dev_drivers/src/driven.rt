//! A driver that was started, with the kernel's side of its device.

use crate::link::Link;

/// The kernel's side of a device, and the driver that was started for it.
#[derive(Drop)]
pub(crate) struct Driven<H> {
    pub(crate) link: Link,
    pub(crate) driver: H,
}

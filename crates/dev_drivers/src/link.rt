//! The kernel's side of what passes between it and the driver of a device.

ghost use Rattle.std.specs.Prelude.{◌≡◌, ◌≤◌, true, vec_capacity};
ghost use Rattle.rtrb.specs.Ring.{received as popped, sent as pushed};
ghost use Rattle.fleet_model.specs.Fleets.{counted};
ghost use Rattle.dev_drivers.specs.Wholes.{all_whole};
ghost use Rattle.std.specs.Prelude.{length};

use crate::protocol::WholeServes;
use crossbeam_utils::sync::Unparker;
use device_model::messages::{Ending, Message};
use rtrb::{Consumer, Producer};
use std::alloc::Global;
use tk_types::Kind;

/// The kernel's ends of the two rings of a device, the messages that haven't gone into the inbox, for which there are four places,
/// how many endings came out of the outbox, and how the kernel wakes the driver.
#[derive(Drop)]
pub(crate) struct Link {
    pub(crate) device: u8,
    pub(crate) kind: Kind,
    pub(crate) to: Producer<Message, Global, WholeServes>,
    /// How many messages have gone into the inbox; the count stays at the greatest `u64`.
    pub(crate) gone: u64,
    pub(crate) waiting: Vec<Message>,
    pub(crate) from: Consumer<Ending>,
    pub(crate) count: u64,
    pub(crate) dropped: bool,
    pub(crate) driver: Unparker,
    ghost whole: { all_whole waiting.items ≡ true },
    ghost room: { 4 ≤ vec_capacity waiting },
    ghost went: { gone ≡ counted (length (pushed to)) },
    ghost counted: { count ≡ counted (length (popped from)) },
}

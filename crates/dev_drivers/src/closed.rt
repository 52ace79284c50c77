//! A device whose driver was joined.

ghost use Rattle.std.specs.Prelude.{◌≡◌, length};
ghost use Rattle.rtrb.specs.Ring.{received as popped, sent as pushed};
ghost use Rattle.fleet_model.specs.Fleets.{counted};

use crate::protocol::WholeServes;
use device_model::messages::{Ending, Message};
use rtrb::{Consumer, Producer};
use std::alloc::Global;
use tk_types::Kind;

/// How many messages were handed to a driver and were taken, and how many endings were sent and were received by the kernel. A count
/// stays at the greatest `u64`.
#[derive(Clone, Copy, Debug, PartialEq, Eq)]
pub struct Counts {
    pub handed: u64,
    pub taken: u64,
    pub sent: u64,
    pub received: u64,
}

/// Both ends of both rings of a device whose driver was joined, and how much went through them.
#[derive(Drop)]
pub(crate) struct Closed {
    pub(crate) device: u8,
    pub(crate) kind: Kind,
    pub(crate) to: Producer<Message, Global, WholeServes>,
    pub(crate) inbox: Consumer<Message, Global, WholeServes>,
    pub(crate) outbox: Producer<Ending>,
    pub(crate) from: Consumer<Ending>,
    pub(crate) counts: Counts,
    ghost handed: { counts.handed ≡ counted (length (pushed to)) },
    ghost taken: { counts.taken ≡ counted (length (popped inbox)) },
    ghost sent: { counts.sent ≡ counted (length (pushed outbox)) },
    ghost received: { counts.received ≡ counted (length (popped from)) },
}

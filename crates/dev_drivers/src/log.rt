//! A driver on its thread.

use crate::protocol::WholeServes;
use dev_units::DriverCore;
use device_model::messages::{Ending, Message};
use rtrb::{Consumer, Producer};
use std::alloc::Global;

/// A driver between the two rings of its device: the inbox, which it takes messages from, and the outbox, which it puts its endings
/// into. Contracts see in it what it has taken and what it has sent.
#[derive(Drop)]
pub struct DriverLog {
    pub(crate) core: DriverCore,
    pub(crate) inbox: Consumer<Message, Global, WholeServes>,
    pub(crate) outbox: Producer<Ending>,
    /// How many blocks of its request are done, until its ending has gone out.
    pub(crate) blocks: u32,
}

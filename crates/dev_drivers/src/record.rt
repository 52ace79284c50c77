//! The record of a fleet that was closed.

ghost use Rattle.std.specs.Prelude.{◌≡◌, ◌≤◌, length, Some};
ghost use Rattle.fleet_model.specs.Fleets.{counted};
ghost use Rattle.fleet_model.specs.Records.{Joined, joined_in};

use crate::closed::{Closed, Counts};
use std::marker::Model;

/// What a fleet has come to once its drivers were joined. Contracts see in it, by device, the messages that were handed and that were
/// taken, and the endings that were sent and that the kernel received.
#[derive(Drop)]
pub struct FleetRecord {
    pub(crate) kept: Vec<Closed>,
    pub(crate) dropped: u64,
    pub(crate) polls: u64,
}

impl Model for FleetRecord {
    ghost use Rattle.std.specs.Prelude.{map};
    ghost use Rattle.fleet_model.specs.Records.{Record};

    ghost Value = { Record };

    ghost use Rattle.dev_drivers.specs.Closings.{joined_of};

    ghost view = { λ record_of. record { channels = map joined_of record_of.kept.items; dropped = record_of.dropped; polls = record_of.polls } };
}

impl FleetRecord {
    /// How many messages and endings went over the channel of a device of the fleet.
    pub fn counts(&self, device: u8) -> Counts
        requires first { 1 ≤ device }
        requires last { device ≤ length self.now.channels }
        ensures handed { (joined : Joined) → joined_in self.now.channels device ≡ Some joined → result.handed ≡ counted (length joined.handed) }
        ensures taken { (joined : Joined) → joined_in self.now.channels device ≡ Some joined → result.taken ≡ counted (length joined.taken) }
        ensures sent { (joined : Joined) → joined_in self.now.channels device ≡ Some joined → result.sent ≡ counted (length joined.sent) }
        ensures received { (joined : Joined) → joined_in self.now.channels device ≡ Some joined → result.received ≡ counted (length joined.received) }
    {
        self.kept[usize::from(device) - 1].counts
    }

    /// How many endings were dropped.
    pub fn dropped(&self) -> u64
        ensures { result ≡ self.now.dropped }
    {
        self.dropped
    }

    /// How often the fleet was polled.
    pub fn polls(&self) -> u64
        ensures { result ≡ self.now.polls }
    {
        self.polls
    }
}

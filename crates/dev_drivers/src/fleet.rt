//! The fleet of drivers that the kernel drives.

use crate::closed::Closed;
use crate::driven::Driven;
use crate::spawner::Started;
use crossbeam_utils::sync::Parker;
use std::marker::Model;

/// The drivers of all devices on their threads. Contracts see in it, by device, the messages that were handed, those that haven't gone
/// into the inbox, the endings that came out and whether one was dropped, and how many endings were dropped and how many polls there
/// were. A fleet ends by `close` alone.
pub struct Fleet<P: Started> {
    pub(crate) lines: Vec<Driven<P::Handle>>,
    pub(crate) kept: Vec<Closed>,
    pub(crate) dropped: u64,
    pub(crate) polls: u64,
    pub(crate) parker: Parker,
}

impl<P: Started> Model for Fleet<P> {
    ghost use Rattle.std.specs.Prelude.{vec_capacity};
    ghost use Rattle.fleet_model.specs.Fleets.{Fleet as FleetView};

    ghost Value = { FleetView };

    ghost use Rattle.dev_drivers.specs.FleetFacts.{IsFleet};
    ghost use Rattle.dev_drivers.specs.Lines.{channels_of};

    ghost view = { λ fleet. record { channels = channels_of fleet.lines.items; dropped = fleet.dropped; polls = fleet.polls } };

    ghost invariant = { λ fleet. IsFleet P.job_of fleet.lines.items fleet.kept.items (vec_capacity fleet.kept) };
}

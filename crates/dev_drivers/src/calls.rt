//! The calls of a fleet.

ghost use Rattle.std.specs.Prelude.{◌≡◌, ◌<◌, ◌-◌, ◌≤◌, Some, length};
ghost use Rattle.fleet_model.specs.Fleets.{EachHasPlace, HasChannel, HasPlace, Handed, IsOfFleet, Polled, Waited, after_drop, device_of, may_accept};
ghost use Rattle.fleet_model.specs.Records.{Closes};
ghost use Rattle.dev_drivers.specs.Wholes.{HasWhole};

use crate::closing::close_all;
use crate::fleet::Fleet;
use crate::record::FleetRecord;
use crate::rows::{accepts_at, await_first, await_of, flush_all, hand_at, mark_at, pop_first};
use crate::spawner::{Spawner, Started};
use device_model::messages::{Ending, Message};
use std::sync::Wait;
use std::thread::Threads;

impl<P: Started> Fleet<P> {
    /// How many devices there are; their numbers are 1, 2 and so on.
    pub fn devices(&self) -> usize
        ensures { result ≡ length self.now.channels }
    {
        self.lines.len()
    }

    /// Hands a message to the driver of its device. Fewer than four messages wait there, and the request of a Serve is whole. What the
    /// inbox has no room for waits, and goes with a later call. It takes no memory and doesn't wait.
    pub fn hand(&mut self, m: Message)
        requires place { HasPlace self.old (device_of m) }
        requires whole { HasWhole m }
        ensures { Handed self.old self.new m }
    {
        hand_at(&mut self.lines, m);
    }

    /// Puts the messages that wait into the inboxes, as far as they have room, and takes an ending out of the first outbox in which
    /// the kernel finds one. It takes no memory and doesn't wait.
    pub fn poll(&mut self) -> Option<Ending>
        ensures polled { Polled self.old self.new result }
        ensures of_fleet { IsOfFleet self.old result }
    {
        flush_all(&mut self.lines);
        let ending = pop_first(&mut self.lines);
        self.polls = self.polls.saturating_add(1);
        ending
    }

    /// Waits for an ending of any device. There is at least one device.
    pub fn wait_any<R: Wait>(&mut self, rt: &R) -> Ending
        requires some { 0 < length self.old.channels }
        ensures waited { Waited self.old self.new (Some result) }
        ensures of_fleet { IsOfFleet self.old (Some result) }
    {
        await_first(rt, &self.parker, &mut self.lines)
    }

    /// Waits for an ending of a device.
    pub fn wait_of<R: Wait>(&mut self, rt: &R, device: u8) -> Ending
        requires device { HasChannel self.old device }
        ensures waited { Waited self.old self.new (Some result) }
        ensures of_fleet { IsOfFleet self.old (Some result) }
        ensures device { result.device ≡ device }
    {
        await_of(rt, &self.parker, &mut self.lines, device)
    }

    /// Whether an ending may go to the machine: the kernel has put as many messages into the inbox of its device as the driver had
    /// taken, no request waits to go there, and no earlier ending of the device was dropped.
    pub fn may_accept(&self, ending: &Ending) -> bool
        ensures { result ≡ may_accept self.now ending.now }
    {
        accepts_at(&self.lines, ending)
    }

    /// Counts an ending that is dropped, and marks its device, if it is one of the fleet.
    pub fn drop_ending(&mut self, device: u8)
        ensures { self.new ≡ after_drop self.old device }
    {
        mark_at(&mut self.lines, device);
        self.dropped = self.dropped.saturating_add(1);
    }

    /// Stops and joins all drivers. Fewer than four messages wait for each device. It takes no memory, and no ending comes out.
    pub fn close<R: Threads + Wait + Copy + Send + Sync + 'static>(
        self,
        rt: &R,
        spawner: &mut P,
    ) -> FleetRecord
    where
        P: Spawner<R>,
        requires { EachHasPlace self.channels }
        ensures closed { Closes self result }
        ensures running { P.running spawner.new ≡ P.running spawner.old - length self.channels }
        ensures starts_stay { P.start_count spawner.old ≤ P.start_count spawner.new }
        ensures refusals_stay { P.refusal_count spawner.old ≤ P.refusal_count spawner.new }
    {
        let Fleet {
            lines,
            kept,
            dropped,
            polls,
            parker,
        } = self;
        let kept = close_all(rt, spawner, &parker, lines, kept);
        FleetRecord {
            kept,
            dropped,
            polls,
        }
    }
}

//! A device is closed.

ghost use Rattle.std.specs.Prelude.{◌≡◌, ◌<◌, ◌-◌, ◌≤◌, [], map, vec_len, vec_capacity};
ghost use Rattle.fleet_model.specs.Fleets.{EachHasPlace};
ghost use Rattle.dev_drivers.specs.Closings.{AllStop, ClosesTo, IsEnded, StopsTo, joined_of};
ghost use Rattle.dev_drivers.specs.FleetFacts.{IsFleet};
ghost use Rattle.dev_drivers.specs.Lines.{channels_of};
ghost use Rattle.dev_drivers.specs.Links.{Flushed, IsLinkOf, channel_of};

use crate::closed::{Closed, Counts};
use crate::driven::Driven;
use crate::link::Link;
use crate::log::DriverLog;
use crate::spawner::Spawner;
use crossbeam_utils::sync::Parker;
use device_model::messages::Message;
use std::sync::Wait;
use std::thread::Threads;

/// Puts the ends of the rings of a device together, once its driver was joined.
pub(crate) fn close_link(link: Link, log: DriverLog) -> Closed
    requires ended { IsEnded link log }
    requires none { link.waiting.items ≡ [] }
    ensures { ClosesTo (channel_of link) link.device (joined_of result) }
{
    let Link {
        device,
        kind,
        mut to,
        gone: _,
        waiting: _,
        mut from,
        count,
        dropped: _,
        driver: _,
    } = link;
    let DriverLog {
        core,
        mut inbox,
        mut outbox,
        blocks: _,
    } = log;
    let left = inbox.slots_beside(&mut to) as u64;
    let unseen = from.slots_beside(&mut outbox) as u64;
    let taken = core.taken_so_far();
    let counts = Counts {
        handed: taken.saturating_add(left),
        taken,
        sent: count.saturating_add(unseen),
        received: count,
    };
    Closed {
        device,
        kind,
        to,
        inbox,
        outbox,
        from,
        counts,
    }
}

/// Puts the messages that wait into the inbox, and sleeps while it has no room.
#[tactic(auto, using(crate::proofs::Links::flushed_none, crate::proofs::Links::flushed_on))]
fn drain<R: Wait>(rt: &R, parker: &Parker, link: &mut Link)
    ensures flushed { Flushed link.old link.new }
    ensures none { link.new.waiting.items ≡ [] }
{
    'turns: for _ in rt.forever() {
        link.flush();
        if link.waiting.is_empty() {
            return;
        }
        parker.park(rt);
    }
    unreachable!()
}

/// Stops a driver and joins it.
fn close_one<R: Threads + Wait + Copy + Send + Sync + 'static, P: Spawner<R>>(
    rt: &R,
    spawner: &mut P,
    parker: &Parker,
    driven: Driven<P::Handle>,
) -> Closed
    requires linked { IsLinkOf (P.job_of driven.driver) driven.link }
    requires few { vec_len driven.link.waiting < 4 }
    ensures stops { StopsTo (channel_of driven.link) driven.link.device (joined_of result) }
    ensures running { P.running spawner.new ≡ P.running spawner.old - 1 }
    ensures starts_stay { P.start_count spawner.old ≤ P.start_count spawner.new }
    ensures refusals_stay { P.refusal_count spawner.old ≤ P.refusal_count spawner.new }
{
    let Driven { mut link, driver } = driven;
    let device = link.device;
    link.hand(Message::Stop { device });
    drain(rt, parker, &mut link);
    let log = spawner.join(rt, driver);
    close_link(link, log)
}

/// Stops all drivers and joins them, and puts what they came to where there is room for it.
pub(crate) fn close_all<R: Threads + Wait + Copy + Send + Sync + 'static, P: Spawner<R>>(
    rt: &R,
    spawner: &mut P,
    parker: &Parker,
    lines: Vec<Driven<P::Handle>>,
    kept: Vec<Closed>,
) -> Vec<Closed>
    requires fleet { IsFleet P.job_of lines.items kept.items (vec_capacity kept) }
    requires places { EachHasPlace (channels_of lines.items) }
    ensures closed { AllStop 1 (channels_of lines.items) (map joined_of result.items) }
    ensures running { P.running spawner.new ≡ P.running spawner.old - vec_len lines }
    ensures starts_stay { P.start_count spawner.old ≤ P.start_count spawner.new }
    ensures refusals_stay { P.refusal_count spawner.old ≤ P.refusal_count spawner.new }
{
    let mut left = lines;
    let mut kept = kept;
    'devices: while !left.is_empty() {
        let driven = left.remove(0);
        let closed = close_one(rt, spawner, parker, driven);
        kept.push_reserved(closed);
    }
    kept
}

//! The table of handlers, and what the system time was set to.

ghost use Rattle.std.specs.Prelude.{◌≡◌, ◌<◌, ◌≤◌, ◌^◌, ◌+◌, ◌-◌, IfOk, IfSome, None, drop, length, replicate};
ghost use Rattle.kernel_model.specs.Words.Orders.{free_from};
ghost use Rattle.context_model.specs.Clocks.Calls.{free_alarm, free_cyclic};
ghost use Rattle.context_model.specs.Clocks.Tables.{alarm_at, body_of, clocks_start, cyclic_at, has_alm, has_cyc, with_alarm, with_cyclic};

use context_model::cyclic_row::CyclicRow;
use std::alloc::{AllocError, Global};
use std::marker::Model;
use tk_types::Event;

/// The cyclic handlers by ID, the bodies of the alarm handlers by ID, and the system time: what it was last set to, in
/// milliseconds, and the operating time when it was.
#[derive(Drop)]
pub struct Clocks {
    cyclics: Vec<Option<CyclicRow>>,
    alarms: Vec<Option<u8>>,
    set_to: u64,
    set_at: u64,
}

impl Model for Clocks {
    ghost use Rattle.context_model.specs.Clocks.Tables.{Clocks as ClocksView};
    ghost use Rattle.time_events.specs.Tables.{AreClocks};

    ghost Value = { ClocksView };

    ghost view = { λ c. record { cyclics = c.cyclics.items; alarms = c.alarms.items; set_to = c.set_to; set_at = c.set_at } };

    ghost invariant = { λ c. AreClocks c.cyclics.items c.alarms.items c.set_to };
}

/// Free slots for 64 handlers.
fn free_slots<T: Copy>(alloc: Global) -> Result<Vec<Option<T>>, AllocError>
    ensures { IfOk result (λ slots. slots.items ≡ replicate 65 None) }
{
    let mut slots = Vec::with_capacity(alloc, 65)?;
    'slots: for _id in 0..65usize {
        slots.push(None)?;
    }
    Ok(slots)
}

/// The least free ID of a table, or 0.
#[tactic(auto, unfolding(kernel_model::specs::Words::Orders::free_from))]
fn least_free<T: Copy>(slots: &[Option<T>]) -> u8
    requires { length slots.now ≡ 65 }
    ensures free { result ≡ free_from 1 (drop 1 slots.now) }
    ensures within { result ≤ 64 }
{
    'slots: for id in 1..65usize {
        if slots[id].is_none() {
            return id as u8;
        }
    }
    0
}

impl Clocks {
    /// No handler, room for 64 cyclic and 64 alarm handlers, and a system time that is the operating time.
    #[tactic(auto, using(crate::proofs::Tables::fit_at_start))]
    pub fn new(alloc: Global) -> Result<Clocks, AllocError>
        ensures { IfOk result (λ table. table ≡ clocks_start) }
    {
        Ok(Clocks {
            cyclics: free_slots(alloc)?,
            alarms: free_slots(alloc)?,
            set_to: 0,
            set_at: 0,
        })
    }

    /// Whether the cyclic handler with that ID exists.
    pub fn has_cyc(&self, id: u8) -> bool
        ensures { result ≡ has_cyc self.now id }
    {
        self.cyclic(id).is_some()
    }

    /// Whether the alarm handler with that ID exists.
    pub fn has_alm(&self, id: u8) -> bool
        ensures { result ≡ has_alm self.now id }
    {
        self.alarm(id).is_some()
    }

    /// The cyclic handler with that ID. It has one from 1 to 64, and a period.
    pub(crate) fn cyclic(&self, id: u8) -> Option<CyclicRow>
        ensures row { result ≡ cyclic_at self.now id }
        ensures low { IfSome result (λ k. 1 ≤ id) }
        ensures high { IfSome result (λ k. id ≤ 64) }
        ensures periodic { IfSome result (λ k. 1 ≤ k.period) }
    {
        if id as usize >= self.cyclics.len() {
            return None;
        }
        self.cyclics[id as usize]
    }

    /// The body of the alarm handler with that ID.
    pub(crate) fn alarm(&self, id: u8) -> Option<u8>
        ensures { result ≡ alarm_at self.now id }
    {
        if id as usize >= self.alarms.len() {
            return None;
        }
        self.alarms[id as usize]
    }

    /// Writes the slot of a cyclic handler.
    #[tactic(auto, using(crate::proofs::Tables::fit_written))]
    pub(crate) fn set_cyclic(&mut self, id: u8, slot: Option<CyclicRow>)
        requires low { 1 ≤ id }
        requires high { id ≤ 64 }
        requires periodic { IfSome slot (λ k. 1 ≤ k.period) }
        ensures { self.new ≡ with_cyclic self.old id slot }
    {
        self.cyclics[id as usize] = slot;
    }

    /// Writes the slot of an alarm handler.
    pub(crate) fn set_alarm(&mut self, id: u8, slot: Option<u8>)
        requires { id ≤ 64 }
        ensures { self.new ≡ with_alarm self.old id slot }
    {
        self.alarms[id as usize] = slot;
    }

    /// The system time, in milliseconds, when the operating time is `now`.
    pub(crate) fn system_time(&self, now: u64) -> u64
        requires { now < 2 ^ 63 }
        ensures { result ≡ self.now.set_to + (now - self.now.set_at) }
    {
        self.set_to + now.saturating_sub(self.set_at)
    }

    /// Sets the system time when the operating time is `now`.
    pub(crate) fn set_system_time(&mut self, time: u64, now: u64)
        requires { time < 2 ^ 63 }
        ensures { self.new ≡ record self.old { set_to = time; set_at = now } }
    {
        self.set_to = time;
        self.set_at = now;
    }

    /// The least free ID of a cyclic handler, or 0.
    pub(crate) fn free_cyclic(&self) -> u8
        ensures free { result ≡ free_cyclic self.now }
        ensures within { result ≤ 64 }
    {
        least_free(&self.cyclics)
    }

    /// The least free ID of an alarm handler, or 0.
    pub(crate) fn free_alarm(&self) -> u8
        ensures free { result ≡ free_alarm self.now }
        ensures within { result ≤ 64 }
    {
        least_free(&self.alarms)
    }
}

/// The body that starts at an event: that of its handler, where this exists. The end of a wait has none.
#[tactic(auto, unfolding(context_model::specs::Clocks::Tables::body_of))]
pub fn body_of(table: &Clocks, event: Event) -> Option<u8>
    ensures { result ≡ body_of table.now event }
{
    match event {
        Event::Wait(_) => None,
        Event::Cyclic(id) => match table.cyclic(id) {
            Some(row) => Some(row.body),
            None => None,
        },
        Event::Alarm(id) => table.alarm(id),
    }
}

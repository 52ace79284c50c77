//! The requests by ID, in the orders in which they wait for drivers and in which they have ended.

ghost use Rattle.std.specs.Prelude.{◌≡◌, ◌≤◌, ◌+◌, ◌<◌, ◌^◌, ◌&&◌, IfOk, IfSome, None, Some, [], count_by, drop, length, option_copied, replicate, true};
ghost use Rattle.std.specs.List.{find, list_any};
ghost use Rattle.std.specs.Option.{is_some};
ghost use Rattle.kernel_model.specs.Words.Orders.{entry, free_from};
ghost use Rattle.device_model.specs.Devices.Requests.{has_ended_of, is_unfinished_on};
ghost use Rattle.device_model.specs.Devices.Servings.{is_of_descriptor};
ghost use Rattle.device_model.specs.Devices.Tables.{Row as RowView, is_at_driver, is_queued, queues_on, request_of};
ghost use Rattle.device_model.specs.Units.Function.{IsWhole};
ghost use Rattle.dev_layer.specs.Requests.{first_waiting, queues_some, request_accepted, request_dropped, request_ended, request_handed};

use crate::ids::{join, take_out};
use crate::rows::{Handed, Row};
use std::alloc::{AllocError, Global};
use std::marker::Model;
use tk_types::Er;

/// The requests by ID; those that wait for a driver, in the order of their acceptance, and those that have ended, in that
/// order; and the serial of the next one. Room for all IDs is taken once.
#[derive(Drop)]
pub(crate) struct Requests {
    alloc: Global,
    rows: Vec<Option<Row>>,
    queued: Vec<u8>,
    ended: Vec<u8>,
    serial: u64,
}

impl Model for Requests {
    ghost use Rattle.std.specs.Prelude.{vec_capacity};
    ghost use Rattle.dev_layer.specs.Requests.{AreRequests, Requests as RequestsView};

    ghost Value = { RequestsView };

    ghost view = { λ r. record { rows = r.rows.items; queued = r.queued.items; ended = r.ended.items; serial = r.serial } };

    ghost invariant = { λ r. AreRequests r.rows.items r.queued.items r.ended.items (vec_capacity r.queued) (vec_capacity r.ended) };
}

/// Free slots for requests.
fn free_rows(alloc: Global) -> Result<Vec<Option<Row>>, AllocError>
    ensures { IfOk result (λ slots. slots.items ≡ replicate 65 None) }
{
    let mut slots = Vec::with_capacity(alloc, 65)?;
    'slots: for _id in 0..65usize {
        slots.push(None)?;
    }
    Ok(slots)
}

/// The least free ID of a table of requests, or 0.
#[tactic(auto, unfolding(kernel_model::specs::Words::Orders::free_from))]
fn least_free(slots: &[Option<Row>]) -> u8
    requires { length slots.now ≡ 65 }
    ensures free { result ≡ free_from 1 (drop 1 slots.now) }
    ensures within { result ≤ 64 }
{
    'slots: for id in 1..65usize {
        if slots[id].is_none() {
            return id as u8;
        }
    }
    0
}

/// Whether there is a request in a slot that a device hasn't done yet.
fn is_unfinished_on(slot: &Option<Row>, device: u8) -> bool
    ensures { result ≡ is_unfinished_on device slot.now }
{
    match slot {
        None => false,
        Some(row) => row.device() == device && !row.has_ended(),
    }
}

/// How many requests a device hasn't done yet.
fn count_unfinished(slots: &[Option<Row>], device: u8) -> usize
    ensures { result ≡ count_by (is_unfinished_on device) slots.now }
{
    slots
        .iter()
        .filter(|slot| is_unfinished_on(slot, device))
        .count()
}

/// Whether there is a request of a descriptor in a slot.
fn is_of_descriptor(slot: &Option<Row>, descriptor: u8) -> bool
    ensures { result ≡ is_of_descriptor descriptor slot.now }
{
    match slot {
        None => false,
        Some(row) => row.descriptor() == descriptor,
    }
}

/// Whether any slot has a request of a descriptor.
fn any_of_descriptor(slots: &[Option<Row>], descriptor: u8) -> bool
    ensures { result ≡ list_any (is_of_descriptor descriptor) slots.now }
{
    slots.iter().any(|slot| is_of_descriptor(slot, descriptor))
}

impl Requests {
    /// No request, and slots for 64.
    #[tactic(auto, using(crate::proofs::Listed::none_listed))]
    pub(crate) fn new(alloc: Global) -> Result<Requests, AllocError>
        ensures { IfOk result (λ r. r ≡ record { rows = replicate 65 None; queued = []; ended = []; serial = 0 }) }
    {
        Ok(Requests {
            alloc,
            rows: free_rows(alloc)?,
            queued: Vec::with_capacity(alloc, 65)?,
            ended: Vec::with_capacity(alloc, 65)?,
            serial: 0,
        })
    }

    /// How many slots there are: 65, with that of 0, which stays free.
    pub(crate) fn slots(&self) -> usize
        ensures slots { result ≡ length self.now.rows }
        ensures all { result ≡ 65 }
    {
        self.rows.len()
    }

    /// The request with that ID.
    pub(crate) fn row(&self, id: u8) -> Option<&Row>
        ensures { option_copied result ≡ entry self.now.rows id }
    {
        if id as usize >= self.rows.len() {
            return None;
        }
        self.rows[id as usize].as_ref()
    }

    /// Whether there is a request with that ID.
    fn is_taken(&self, id: u8) -> bool
        ensures { result ≡ is_some (entry self.now.rows id) }
    {
        self.row(id).is_some()
    }

    /// The serial of the next request.
    pub(crate) fn serial(&self) -> u64
        ensures { result ≡ self.now.serial }
    {
        self.serial
    }

    /// The least free ID, or 0.
    pub(crate) fn free(&self) -> u8
        ensures free { result ≡ free_from 1 (drop 1 self.now.rows) }
        ensures within { result ≤ 64 }
    {
        least_free(&self.rows)
    }

    /// How many requests a device hasn't done yet.
    pub(crate) fn unfinished(&self, device: u8) -> usize
        ensures { result ≡ count_by (is_unfinished_on device) self.now.rows }
    {
        count_unfinished(&self.rows, device)
    }

    /// Whether there is a request of a descriptor.
    pub(crate) fn any_of(&self, descriptor: u8) -> bool
        ensures { result ≡ list_any (is_of_descriptor descriptor) self.now.rows }
    {
        any_of_descriptor(&self.rows, descriptor)
    }

    /// The IDs of those that wait for a driver, in order.
    pub(crate) fn queued(&self) -> &[u8]
        ensures { result.now ≡ self.now.queued }
    {
        self.queued.as_slice()
    }

    /// The IDs of those that have ended, in order.
    pub(crate) fn ended(&self) -> &[u8]
        ensures { result.now ≡ self.now.ended }
    {
        self.ended.as_slice()
    }

    /// Whether the request with that ID waits for the driver of a device.
    fn queues_on(&self, id: u8, device: u8) -> bool
        ensures { result ≡ queues_on device (entry self.now.rows id) }
    {
        match self.row(id) {
            None => false,
            Some(row) => row.device() == device && row.is_queued(),
        }
    }

    /// The first request that waits for the driver of a device.
    pub(crate) fn first_waiting(&self, device: u8) -> Option<u8>
        ensures first { result ≡ first_waiting self.now device }
        ensures waits { IfSome result (λ id. queues_on device (entry self.now.rows id) ≡ true) }
    {
        let queued = self.queued();
        'queued: for place in 0..queued.len() {
            let id = queued[place];
            if self.queues_on(id, device) {
                return Some(id);
            }
        }
        None
    }

    /// Whether the request with that ID is one of a descriptor that has ended.
    fn has_ended_of(&self, id: u8, descriptor: u8) -> bool
        ensures { result ≡ has_ended_of descriptor (entry self.now.rows id) }
    {
        match self.row(id) {
            None => false,
            Some(row) => row.descriptor() == descriptor && row.has_ended(),
        }
    }

    /// The request of a descriptor that ended first.
    pub(crate) fn first_ended(&self, descriptor: u8) -> Option<u8>
        ensures { result ≡ find (λ id. has_ended_of descriptor (entry self.now.rows id)) self.now.ended }
    {
        let ended = self.ended();
        'ended: for place in 0..ended.len() {
            let id = ended[place];
            if self.has_ended_of(id, descriptor) {
                return Some(id);
            }
        }
        None
    }

    /// A request takes an ID that is free, and the next serial. It goes behind all that wait for a driver, or that have
    /// ended. Where the ID is taken nothing changes.
    pub(crate) fn accept(&mut self, id: u8, mut row: Row)
        requires within { id ≤ 64 }
        requires few { self.old.serial + 1 < 2 ^ 64 }
        ensures { self.new ≡ request_accepted self.old id row }
    {
        if self.is_taken(id) {
            return;
        }
        let waits = row.is_queued();
        let done = row.has_ended();
        row.set_serial(self.serial);
        join(&mut self.queued, waits, id);
        join(&mut self.ended, done, id);
        self.rows[id as usize] = Some(row);
        self.serial += 1;
    }

    /// A request is let go, unless it is with a driver.
    pub(crate) fn drop_request(&mut self, id: u8)
        ensures { self.new ≡ request_dropped self.old id }
    {
        let Some(row) = self.row(id) else {
            return;
        };
        if row.is_at_driver() {
            return;
        }
        self.rows[id as usize] = None;
        take_out(&mut self.queued, id);
        take_out(&mut self.ended, id);
    }

    /// A request that waits for its driver goes there, with a number: what the driver gets.
    pub(crate) fn hand(&mut self, id: u8, number: u64) -> Option<Handed>
        requires { queues_some (entry self.old.rows id) ≡ true }
        ensures some { is_some result ≡ true }
        ensures request { (row : RowView) → entry self.old.rows id ≡ Some row → IfSome result (λ handed. handed.request ≡ request_of id number row) }
        ensures copy { IfSome result (λ handed. handed.copy ≡ handed.request.bytes) }
        ensures whole { IfSome result (λ handed. IsWhole handed.request) }
        ensures small { IfSome result (λ handed. handed.request.size ≤ 65536) }
        ensures left { self.new ≡ request_handed self.old id }
    {
        if id as usize >= self.rows.len() {
            return None;
        }
        let alloc = self.alloc;
        let handed = match &mut self.rows[id as usize] {
            None => return None,
            Some(row) => row.hand(alloc, id, number),
        };
        take_out(&mut self.queued, id);
        Some(handed)
    }

    /// A request that is with its driver has ended; where it isn't, nothing changes.
    pub(crate) fn end(&mut self, id: u8, size: u32, error: Er)
        requires { size ≤ 65536 }
        ensures { self.new ≡ request_ended self.old id size error }
    {
        if id as usize >= self.rows.len() {
            return;
        }
        match &mut self.rows[id as usize] {
            None => return,
            Some(row) => {
                if !row.is_at_driver() {
                    return;
                }
                row.end(size, error);
            }
        }
        self.ended.push_reserved(id);
    }
}

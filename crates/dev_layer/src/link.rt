//! What the kernel has to do with one device: its own copy of the unit's store, and the request that is with the driver.

ghost use Rattle.std.specs.Prelude.{◌≡◌, ◌≤◌, ◌+◌, ◌<◌, ◌^◌, IfOk, IfSome, None, Some, [], bytes_eq, if◌then◌else◌, length, option_copied, replicate, take, true, vec_capacity};
ghost use Rattle.std.specs.Option.{is_some, option_map};
ghost use Rattle.device_model.specs.Devices.Endings.{expected_given, is_allowed, says, served_of};
ghost use Rattle.device_model.specs.Devices.Tables.{Given as GivenView, link_start, request_in};
ghost use Rattle.device_model.specs.Units.Function.{IsWhole, Served, available, content_of};
ghost use Rattle.device_model.specs.Units.Stores.{first_bytes, is_log};
ghost use Rattle.dev_layer.specs.Messages.{abort_given};
ghost use Rattle.dev_layer.specs.Links.{IsGiven, IsKind, IsServed, allows_end, count_by_end, fits_given, given_asked, link_ended, link_hands, stored};

use crate::rows::bytes_within;
use crate::units::{LOG_LIMIT, Moved, begun_with, content_of, is_allowed, is_log, served};
use device_model::messages::{Ending, Request};
use std::alloc::{AllocError, Global};
use std::marker::Model;
use tk_types::{Device, Er, How, Kind};

/// The request that is with a driver, and whether it was asked to abort it.
#[derive(Drop)]
pub(crate) struct Given {
    request: Request,
    asked: bool,
}

impl Model for Given {
    ghost use Rattle.device_model.specs.Devices.Tables.{Given as GivenView};
    ghost use Rattle.dev_layer.specs.Links.{IsGiven};

    ghost Value = { GivenView };

    ghost view = { λ g. record { request = g.request; asked = g.asked } };

    ghost invariant = { λ g. IsGiven g.request };
}

impl Given {
    /// The request.
    pub(crate) fn request(&self) -> &Request
        ensures request { result.now ≡ self.now.request }
        ensures whole { IsGiven self.now.request }
    {
        &self.request
    }

    /// Whether its abort was asked.
    pub(crate) fn is_asked(&self) -> bool
        ensures { result ≡ self.now.asked }
    {
        self.asked
    }

    /// Its abort is asked.
    pub(crate) fn ask(&mut self)
        ensures { self.new ≡ record self.old { asked = true } }
    {
        self.asked = true;
    }
}

/// A device's kind and store, the request that is with its driver, and how many were handed over so far. Its messages
/// stand with those of all devices.
#[derive(Drop)]
pub(crate) struct Link {
    kind: Kind,
    bytes: Vec<u8>,
    begun: u64,
    given: Option<Given>,
    number: u64,
}

impl Model for Link {
    ghost use Rattle.std.specs.Prelude.{[], vec_capacity};
    ghost use Rattle.device_model.specs.Devices.Tables.{Link as LinkView};
    ghost use Rattle.dev_layer.specs.Links.{IsLink};

    ghost Value = { LinkView };

    ghost view = { λ l. record { kind = l.kind; store = record { bytes = l.bytes.items; begun = l.begun }; given = l.given; number = l.number; out = [] } };

    ghost invariant = { λ l. IsLink l.kind l.bytes.items (vec_capacity l.bytes) l.begun l.given l.number };
}

/// So many zeros.
fn zeros(alloc: Global, count: usize) -> Result<Vec<u8>, AllocError>
    ensures { IfOk result (λ bytes. bytes.items ≡ replicate count 0) }
{
    vec![in alloc; 0u8; count]
}

/// What a unit holds at first; a log has its room.
fn first_bytes(alloc: Global, kind: Kind) -> Result<Vec<u8>, AllocError>
    requires { IsKind kind }
    ensures bytes { IfOk result (λ bytes. bytes.items ≡ first_bytes kind) }
    ensures short { IfOk result (λ bytes. length bytes.items ≤ 65536) }
    ensures room { IfOk result (λ bytes. is_log kind ≡ true → 65536 ≤ vec_capacity bytes) }
{
    match kind {
        Kind::Log => Vec::with_capacity(alloc, LOG_LIMIT),
        Kind::Ram(size) => zeros(alloc, size as usize),
        Kind::Flaky(size, _) => zeros(alloc, size as usize),
        Kind::Slow(size, _) => zeros(alloc, size as usize),
    }
}

impl Link {
    /// What the kernel has to do with a device at first. The whole store is reserved.
    pub(crate) fn new(alloc: Global, device: &Device) -> Result<Link, AllocError>
        requires { IsKind device.now.kind }
        ensures { IfOk result (λ link. Some link ≡ link_start device.now) }
    {
        Ok(Link {
            kind: device.kind,
            bytes: first_bytes(alloc, device.kind)?,
            begun: 0,
            given: None,
            number: 0,
        })
    }

    /// The request that is with the driver.
    pub(crate) fn given(&self) -> Option<&Given>
        ensures { option_copied result ≡ self.now.given }
    {
        self.given.as_ref()
    }

    /// Whether the driver has a request.
    pub(crate) fn has_given(&self) -> bool
        ensures { result ≡ is_some self.now.given }
    {
        self.given.is_some()
    }

    /// The ID of the request that is with the driver.
    pub(crate) fn given_id(&self) -> Option<u8>
        ensures { result ≡ request_in self.now.given }
    {
        match self.given() {
            None => None,
            Some(given) => Some(given.request().id),
        }
    }

    /// How many requests were handed over so far.
    pub(crate) fn number(&self) -> u64
        ensures { result ≡ self.now.number }
    {
        self.number
    }

    /// The number of the request whose abort wasn't asked yet.
    pub(crate) fn to_abort(&self) -> Option<u64>
        ensures { result ≡ abort_given self.now.given }
    {
        match self.given() {
            None => None,
            Some(given) => if given.is_asked() {
                None
            } else {
                Some(given.request().number)
            },
        }
    }

    /// The abort of the request that is with the driver is asked.
    pub(crate) fn ask(&mut self)
        ensures { self.new ≡ record self.old { given = option_map given_asked self.old.given } }
    {
        if let Some(given) = &mut self.given {
            given.ask();
        }
    }

    /// A request goes to the driver, which has none.
    pub(crate) fn hand(&mut self, request: Request)
        requires free { self.old.given ≡ None }
        requires few { self.old.number + 1 < 2 ^ 64 }
        requires whole { IsWhole request }
        requires small { request.size ≤ 65536 }
        ensures { self.new ≡ link_hands self.old request }
    {
        self.given = Some(Given {
            request,
            asked: false,
        });
        self.number += 1;
    }

    /// Whether the request that is with the driver may end so.
    fn may_end(&self, given: &Given, how: How) -> bool
        requires { self.now.given ≡ Some given.now }
        ensures { result ≡ is_allowed self.now.kind self.now.store given.now how }
    {
        is_allowed(
            self.kind,
            self.bytes.len(),
            self.begun,
            given.request(),
            given.is_asked(),
            how,
        )
    }

    /// What the unit does with the request that is with the driver, where that ends so.
    fn moved(&self, given: &Given, how: How) -> Moved
        requires { self.now.given ≡ Some given.now }
        ensures served { IsServed (served_of self.now.kind self.now.store given.now.request how) result.size result.error }
        ensures count { result.count ≡ count_by_end self.now.kind self.now.store given.now.request how }
    {
        served(
            self.kind,
            self.bytes.len(),
            self.begun,
            given.request(),
            how,
        )
    }

    /// The bytes that the request reads, of so many.
    fn content(&self, given: &Given, count: usize) -> &[u8]
        ensures { result.now ≡ content_of self.now.store given.now.request count }
    {
        content_of(&self.bytes, given.request(), count)
    }

    /// The ending of that kind that is fit now, with no message taken; `None` where none is fit.
    pub(crate) fn expected(
        &self,
        alloc: Global,
        device: u8,
        how: How,
    ) -> Result<Option<Ending>, AllocError>
        ensures { IfOk result (λ ending. ending ≡ expected_given device how self.now self.now.given) }
    {
        let Some(given) = self.given() else {
            return Ok(None);
        };
        if !self.may_end(given, how) {
            return Ok(None);
        }
        let moved = self.moved(given, how);
        let content = self.content(given, moved.count);
        let request = given.request();
        let bytes = bytes_within(alloc, room_back(request), content)?;
        Ok(Some(Ending {
            device,
            request: request.id,
            number: request.number,
            how,
            size: moved.size,
            error: moved.error,
            taken: 0,
            bytes,
        }))
    }

    /// Whether an ending says of the request that is with the driver what the unit does with it, and may end it so.
    pub(crate) fn fits(&self, ending: &Ending) -> bool
        ensures { result ≡ fits_given ending.now self.now self.now.given }
    {
        let Some(given) = self.given() else {
            return false;
        };
        if !self.may_end(given, ending.how) {
            return false;
        }
        let moved = self.moved(given, ending.how);
        let content = self.content(given, moved.count);
        says(ending, given.request(), moved.size, moved.error, content)
    }

    /// The request that is with the driver has ended, as it may: the store is that of the unit, and the driver has none.
    /// What the unit answers.
    pub(crate) fn finish(&mut self, how: How) -> Moved
        requires { allows_end self.old how ≡ true }
        ensures left { self.new ≡ link_ended self.old how }
        ensures served { (given : GivenView) → self.old.given ≡ Some given → IsServed (served_of self.old.kind self.old.store given.request how) result.size result.error }
        ensures few { result.size ≤ 65536 }
    {
        let Some(given) = std::mem::replace(&mut self.given, None) else {
            return Moved::NOTHING;
        };
        let request = given.request();
        let moved = served(self.kind, self.bytes.len(), self.begun, request, how);
        write(&mut self.bytes, self.kind, request, moved.count);
        self.begun = begun_with(self.begun, request);
        moved
    }
}

/// For how many bytes an ending of a request has a place: for those that it reads.
fn room_back(request: &Request) -> usize
    ensures { result ≡ (if request.now.write then 0 else request.now.bytes.room) }
{
    if request.write {
        0
    } else {
        request.bytes.room()
    }
}

/// Whether two runs of bytes are the same.
fn same_bytes(bytes: &[u8], others: &[u8]) -> bool
    ensures { result ≡ bytes_eq bytes.now others.now }
{
    bytes == others
}

/// Whether an ending names a request, and says of it that it moved these bytes with that size and error.
fn says(ending: &Ending, request: &Request, size: u32, error: Er, content: &[u8]) -> bool
    ensures { (served : Served) → IsServed served size error → served.content ≡ content.now → result ≡ says ending.now request.now served }
{
    if ending.request != request.id {
        return false;
    }
    if ending.number != request.number {
        return false;
    }
    if ending.size != size {
        return false;
    }
    if ending.error.main_code() != error.main_code() {
        return false;
    }
    same_bytes(ending.bytes.as_slice(), content)
}

/// The bytes that are written, of so many.
fn written_of(request: &Request, count: usize) -> &[u8]
    ensures written { result.now ≡ take count request.now.bytes.items }
    ensures few { length result.now ≤ count }
{
    let all = request.bytes.as_slice();
    &all[..count.min(all.len())]
}

/// So many bytes of a write go into a store, which has room for them; a read leaves it.
fn write(bytes: &mut Vec<u8>, kind: Kind, request: &Request, count: usize)
    requires short { length bytes.old.items ≤ 65536 }
    requires room { is_log kind ≡ true → 65536 ≤ vec_capacity bytes.old }
    requires fits { count ≤ available kind bytes.old.items request.now }
    ensures written { bytes.new.items ≡ stored kind bytes.old.items request.now count }
    ensures short { length bytes.new.items ≤ 65536 }
    ensures capacity { vec_capacity bytes.old ≤ vec_capacity bytes.new }
{
    if !request.write {
        return;
    }
    let new = written_of(request, count);
    if new.is_empty() {
        return;
    }
    if is_log(kind) {
        let _grown = bytes.extend_from_slice(new);
        return;
    }
    let start = request.start as usize;
    bytes[start..start + new.len()].copy_from_slice(new);
}

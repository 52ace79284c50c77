//! What a unit does with a request, as numbers: how many bytes it moves, and what it answers.

ghost use Rattle.std.specs.Prelude.{◌≡◌, ◌≤◌, ◌+◌, ◌<◌, ◌^◌, ℕ, List, length, true, take};
ghost use Rattle.device_model.specs.Devices.Endings.{is_allowed, served_of};
ghost use Rattle.device_model.specs.Units.Function.{available, begin, cause_of, content_of, count_of, may_cut, unit};
ghost use Rattle.device_model.specs.Units.Stores.{Store, is_log, is_spoilt};
ghost use Rattle.dev_layer.specs.Links.{HoldsAs, IsKind, IsServed, count_by_end};

use device_model::messages::Request;
use tk_types::{Er, How, Kind};

/// The most bytes of a log.
pub(crate) const LOG_LIMIT: usize = 65_536;

/// How many bytes a block has at most.
const BLOCK_SIZE: u32 = 64;

/// What a unit answers to a request, and how many bytes it moved.
#[derive(Clone, Copy)]
pub(crate) struct Moved {
    pub(crate) count: usize,
    pub(crate) size: u32,
    pub(crate) error: Er,
}

impl Moved {
    /// Nothing was moved.
    pub(crate) const NOTHING: Moved = Moved {
        count: 0,
        size: 0,
        error: Er::Ok,
    };
}

/// Whether a store only grows.
pub(crate) fn is_log(kind: Kind) -> bool
    ensures { result ≡ is_log kind }
{
    matches!(kind, Kind::Log)
}

/// Whether the last of so many requests fails.
fn is_spoilt(kind: Kind, begun: u64) -> bool
    requires { IsKind kind }
    ensures { result ≡ is_spoilt kind begun }
{
    match kind {
        Kind::Flaky(_, each) => begun % each as u64 == 0,
        Kind::Ram(_) => false,
        Kind::Log => false,
        Kind::Slow(_, _) => false,
    }
}

/// How many requests of some size a unit has begun, with this one.
pub(crate) fn begun_with(begun: u64, request: &Request) -> u64
    requires { begun + 1 < 2 ^ 64 }
    ensures { (store : Store) → store.begun ≡ begun → result ≡ (begin store request.now).begun }
{
    if request.size == 0 { begun } else { begun + 1 }
}

/// How much there is to move, where a unit holds so many bytes.
fn available(kind: Kind, held: usize, request: &Request) -> usize
    requires { held ≤ 65536 }
    ensures there { (bytes : List ℕ) → length bytes ≡ held → result ≡ available kind bytes request.now }
    ensures few { result ≤ 65536 }
{
    if is_log(kind) && request.write {
        return LOG_LIMIT - held;
    }
    held.saturating_sub(request.start as usize)
}

/// How many bytes a request moves that was begun, where a unit holds so many.
fn count_of(kind: Kind, held: usize, begun: u64, request: &Request) -> usize
    requires held { held ≤ 65536 }
    requires kind { IsKind kind }
    ensures counted { (store : Store) → HoldsAs store held begun → result ≡ count_of kind store request.now }
    ensures few { result ≤ 65536 }
{
    if request.size == 0 {
        return 0;
    }
    if is_spoilt(kind, begun) {
        return 0;
    }
    available(kind, held, request).min(request.size as usize)
}

/// Whether a request may be cut off after so many bytes: at its beginning, or between two blocks before its end.
#[tactic(auto, unfolding(device_model::specs::Units::Function::may_cut))]
fn may_cut(kind: Kind, held: usize, begun: u64, request: &Request, count: u32) -> bool
    requires held { held ≤ 65536 }
    requires kind { IsKind kind }
    requires few { begun + 1 < 2 ^ 64 }
    ensures { (store : Store) → HoldsAs store held begun → result ≡ may_cut kind store request.now count }
{
    if count == 0 {
        return true;
    }
    if count % BLOCK_SIZE != 0 {
        return false;
    }
    let whole = count_of(kind, held, begun_with(begun, request), request);
    (count as usize) < whole
}

/// Whether a request may end so: whole, or cut off where its abort was asked, and only there where it may be.
pub(crate) fn is_allowed(
    kind: Kind,
    held: usize,
    begun: u64,
    request: &Request,
    asked: bool,
    how: How,
) -> bool
    requires held { held ≤ 65536 }
    requires kind { IsKind kind }
    requires few { begun + 1 < 2 ^ 64 }
    ensures { (store : Store) → HoldsAs store held begun → result ≡ is_allowed kind store (record { request = request.now; asked = asked }) how }
{
    match how {
        How::Done => true,
        How::Cut(count) => asked && may_cut(kind, held, begun, request, count),
    }
}

/// Why a unit moved nothing of a request that was begun.
fn cause_of(kind: Kind, begun: u64, request: &Request) -> Er
    requires { IsKind kind }
    ensures { (store : Store) → store.begun ≡ begun → result ≡ cause_of kind store request.now }
{
    if is_spoilt(kind, begun) || is_log(kind) && request.write {
        return Er::Io;
    }
    Er::Par
}

/// What a unit does with a whole request.
#[tactic(auto, unfolding(device_model::specs::Units::Function::unit))]
fn done_whole(kind: Kind, held: usize, begun: u64, request: &Request) -> Moved
    requires held { held ≤ 65536 }
    requires kind { IsKind kind }
    requires few { begun + 1 < 2 ^ 64 }
    ensures served { (store : Store) → HoldsAs store held begun → IsServed (unit kind store request.now) result.size result.error }
    ensures count { (store : Store) → HoldsAs store held begun → result.count ≡ count_of kind (begin store request.now) request.now }
    ensures few { result.size ≤ 65536 }
{
    let begun = begun_with(begun, request);
    if request.size == 0 {
        return Moved {
            count: 0,
            size: available(kind, held, request) as u32,
            error: Er::Ok,
        };
    }
    let count = count_of(kind, held, begun, request);
    let error = if count == 0 {
        cause_of(kind, begun, request)
    } else {
        Er::Ok
    };
    Moved {
        count,
        size: count as u32,
        error,
    }
}

/// What a unit does with a request that ends so.
#[tactic(auto, unfolding(device_model::specs::Units::Function::cut))]
pub(crate) fn served(kind: Kind, held: usize, begun: u64, request: &Request, how: How) -> Moved
    requires held { held ≤ 65536 }
    requires kind { IsKind kind }
    requires few { begun + 1 < 2 ^ 64 }
    ensures served { (store : Store) → HoldsAs store held begun → IsServed (served_of kind store request.now how) result.size result.error }
    ensures count { (store : Store) → HoldsAs store held begun → result.count ≡ count_by_end kind store request.now how }
{
    match how {
        How::Done => done_whole(kind, held, begun, request),
        How::Cut(count) => Moved {
            count: count as usize,
            size: count,
            error: Er::Abort,
        },
    }
}

/// The bytes that a request reads, of so many, as far as there are any.
pub(crate) fn content_of<'a>(bytes: &'a [u8], request: &Request, count: usize) -> &'a [u8]
    ensures { (store : Store) → store.bytes ≡ bytes.now → result.now ≡ content_of store request.now count }
{
    if request.write {
        return &bytes[..0];
    }
    let start = (request.start as usize).min(bytes.len());
    let rest = &bytes[start..];
    &rest[..count.min(rest.len())]
}

//! The unit of a device.

ghost use Rattle.std.specs.Prelude.{◌≡◌, ◌==◌, ◌≤◌, ◌<◌, ◌+◌, ◌*◌, ◌^◌, ◌++◌, ℕ, not, true, false, [], IfOk, drop, length, take, vec_capacity};
ghost use Rattle.device_model.specs.Units.Stores.{Store, first_bytes, is_log, is_spoilt, log_limit, store_start};
ghost use Rattle.device_model.specs.Units.Function.{IsWhole, appends, available, begin, block_size};
ghost use Rattle.device_model.specs.Units.Blocks.{block as after_block, count_at, piece, written_on};
ghost use Rattle.dev_units.specs.declared.block_end.BlockEnd.TheVariants.{More};
ghost use Rattle.driver_model.specs.Cores.{empty_turns};
ghost use Rattle.driver_model.specs.Ends.{error_at};
ghost use Rattle.dev_units.specs.Ends.{block_end};
ghost use Rattle.dev_units.specs.Progress.{CameTo, IsUnderWay, brought, partial};
ghost use Rattle.dev_units.specs.Turns.{turn_of};
ghost use Rattle.dev_units.specs.Views.{GoesOn, HasBytes, HasRoom, IsRightKind, HasTurns, most_bytes};

use crate::block_end::BlockEnd;
use crate::count::Count;
use crate::lists::overwrite;
use device_model::bytes::{Bytes, append};
use device_model::messages::Request;
use std::alloc::{AllocError, Global};
use std::marker::Model;
use tk_types::{Er, Kind, OutOfMemory};

/// How many bytes a block has at most.
const BLOCK_SIZE: usize = 64;

/// The most bytes of a store.
const MOST_BYTES: u32 = 65_536;

/// The unit of a device: its kind, what it holds, and how many requests of some size it has begun. All memory that it ever
/// needs is taken when it is made.
#[derive(Drop)]
pub struct Unit {
    kind: Kind,
    bytes: Vec<u8>,
    begun: Count,
    /// How many requests of a flaky unit were begun since the last one that failed, 0 where that was the last.
    turn: u32,
}

impl Model for Unit {
    ghost use Rattle.std.specs.Prelude.{vec_capacity};
    ghost use Rattle.dev_units.specs.Views.{IsUnit, UnitState};

    ghost Value = { UnitState };

    ghost view = { λ unit. record { kind = unit.kind; store = record { bytes = unit.bytes.items; begun = unit.begun }; capacity = vec_capacity unit.bytes } };

    ghost invariant = { λ unit. IsUnit unit.kind unit.bytes.items unit.begun unit.turn (vec_capacity unit.bytes) };
}

/// What a unit of a kind holds at first, with room for all that it ever holds.
fn first_bytes(alloc: Global, kind: Kind) -> Result<Vec<u8>, AllocError>
    ensures bytes { IfOk result (λ bytes. bytes.items ≡ first_bytes kind) }
    ensures room { IfOk result (λ bytes. most_bytes kind ≤ vec_capacity bytes) }
{
    let size = match kind {
        Kind::Log => return Vec::with_capacity(alloc, MOST_BYTES as usize),
        Kind::Ram(size) => size,
        Kind::Flaky(size, _) => size,
        Kind::Slow(size, _) => size,
    };
    let mut bytes = Vec::with_capacity(alloc, size as usize)?;
    bytes.resize(size as usize, 0u8)?;
    Ok(bytes)
}

/// How many bytes the next block has.
fn piece(count: usize, moved: usize) -> usize
    ensures { result ≡ piece count moved }
{
    BLOCK_SIZE.min(count.saturating_sub(moved))
}

impl Unit {
    /// A unit as it is at first: it holds zeros, and a log nothing. All memory that it ever needs is taken here. The kind has
    /// at most 65,536 bytes, and a flaky one fails each k-th request, where k is 1 or more.
    pub fn new(alloc: Global, kind: Kind) -> Result<Unit, OutOfMemory>
        requires { IsRightKind kind }
        ensures kind { IfOk result (λ unit. unit.kind ≡ kind) }
        ensures store { IfOk result (λ unit. unit.store ≡ store_start kind) }
        ensures reserved { IfOk result (λ unit. most_bytes kind ≤ unit.capacity) }
    {
        Ok(Unit {
            kind,
            bytes: first_bytes(alloc, kind)?,
            begun: Count::zero(),
            turn: 0,
        })
    }

    /// Begins a request, once and before its first block. It counts for a flaky unit, unless it is for no bytes. From then on it
    /// is under way: it may be cut off at once, or served block by block. It takes no memory.
    pub fn begin(&mut self, request: &Request)
        ensures begun { self.new ≡ record self.old { store = begin self.old.store request.now } }
        ensures under_way { IsUnderWay self.old.kind self.old.store request.now 0 self.new.store [] }
        ensures memory { self.new.capacity ≡ self.old.capacity }
    {
        if request.size == 0 {
            return;
        }
        self.turn = self.next_turn();
        self.begun = self.begun.next();
    }

    /// The turn once one more request is begun.
    fn next_turn(&self) -> u32
        ensures { result ≡ turn_of self.now.kind (self.now.store.begun + 1) }
    {
        match self.kind {
            Kind::Flaky(_, each) => {
                if self.turn + 1 == each {
                    0
                } else {
                    self.turn + 1
                }
            }
            _ => 0,
        }
    }

    /// Whether the last request that was begun fails.
    fn is_spoilt(&self) -> bool
        ensures { result ≡ is_spoilt self.now.kind self.now.store.begun }
    {
        match self.kind {
            Kind::Flaky(_, _) => self.turn == 0,
            _ => false,
        }
    }

    /// Whether a request goes behind the last byte.
    fn appends(&self, request: &Request) -> bool
        ensures { result ≡ appends self.now.kind request.now }
    {
        matches!(self.kind, Kind::Log) && request.write
    }

    /// How much there is to move now: the bytes from the start on, or the room of a log.
    fn available(&self, request: &Request) -> u32
        ensures available { result ≡ available self.now.kind self.now.store.bytes request.now }
        ensures few { result ≤ 65536 }
    {
        let length = self.bytes.len() as u32;
        if self.appends(request) {
            return MOST_BYTES - length;
        }
        length.saturating_sub(request.start)
    }

    /// How many bytes a request moves in all, seen from the block with that number: by then a log has taken the bytes of the
    /// blocks before it.
    fn count_at(&self, request: &Request, block: u32) -> usize
        ensures count { result ≡ count_at self.now.kind self.now.store request.now (block_size * block) }
        ensures within { result ≤ request.now.size }
        ensures few { result < 2 ^ 32 }
    {
        if request.size == 0 || self.is_spoilt() {
            return 0;
        }
        let before = if self.appends(request) {
            BLOCK_SIZE * block as usize
        } else {
            0
        };
        let room = self.available(request) as usize + before;
        (request.size as usize).min(room)
    }

    /// How many empty turns the driver makes before each block.
    pub(crate) fn empty_turns(&self) -> u32
        ensures { result ≡ empty_turns self.now.kind }
    {
        match self.kind {
            Kind::Slow(_, turns) => turns,
            _ => 0,
        }
    }

    /// Whether a request has any block that moves bytes, seen from the block with that number.
    pub(crate) fn has_block(&self, request: &Request, block: u32) -> bool
        ensures { result ≡ not (count_at self.now.kind self.now.store request.now (block_size * block) == 0) }
    {
        self.count_at(request, block) != 0
    }

    /// The error of a request that moves so many bytes.
    fn error_of(&self, request: &Request, count: usize) -> Er
        ensures { (moved : ℕ) → count ≡ count_at self.now.kind self.now.store request.now moved → result ≡ error_at self.now.kind self.now.store request.now moved }
    {
        if request.size == 0 || count > 0 {
            return Er::Ok;
        }
        if self.is_spoilt() || self.appends(request) {
            Er::Io
        } else {
            Er::Par
        }
    }

    /// What the block with that number answers, of a request that moves so many bytes.
    #[tactic(auto, unfolding(device_model::specs::Units::Blocks::is_last))]
    fn end_of(&self, request: &Request, block: u32, count: usize) -> BlockEnd
        requires { count ≡ count_at self.now.kind self.now.store request.now (block_size * block) }
        ensures end { result ≡ block_end self.now.kind self.now.store request.now block }
        ensures more { result ≡ More → block_size * block + block_size < count }
    {
        if count > BLOCK_SIZE * block as usize + BLOCK_SIZE {
            return BlockEnd::More;
        }
        let size = if request.size == 0 {
            self.available(request)
        } else {
            count as u32
        };
        BlockEnd::Ended(size, self.error_of(request, count))
    }

    /// The next bytes of a write, so many, go into the store, behind those that were moved.
    fn write_on(&mut self, request: &Request, moved: usize, count: usize)
        requires source { moved + count ≤ length request.now.bytes.items }
        requires place { is_log self.old.kind ≡ false → request.now.start + moved + count ≤ length self.old.store.bytes }
        requires room { is_log self.old.kind ≡ true → length self.old.store.bytes + count ≤ log_limit }
        ensures { self.new ≡ record self.old { store = record self.old.store { bytes = written_on self.old.kind self.old.store.bytes request.now moved count } } }
    {
        let source = &request.bytes.as_slice()[moved..moved + count];
        if matches!(self.kind, Kind::Log) {
            append(&mut self.bytes, source);
        } else {
            overwrite(&mut self.bytes, request.start as usize + moved, source);
        }
    }

    /// The next bytes of a read, so many, go behind those that it has brought.
    fn read_on(&self, request: &Request, moved: usize, count: usize, out: &mut Bytes)
        requires place { request.now.start + moved + count ≤ length self.now.store.bytes }
        requires room { count ≤ out.old.room }
        ensures items { out.new.items ≡ out.old.items ++ take count (drop (request.now.start + moved) self.now.store.bytes) }
        ensures room { out.new.room + count ≡ out.old.room }
        ensures count { length out.new.items ≡ length out.old.items + count }
    {
        let bytes = self.bytes.as_slice();
        let start = request.start as usize + moved;
        out.append(&bytes[start..start + count]);
    }

    /// Moves the bytes of the block with that number, of a request that moves so many bytes in all.
    #[tactic(auto, unfolding(device_model::specs::Units::Blocks::block))]
    fn move_block(&mut self, request: &Request, block: u32, count: usize, out: &mut Bytes)
        requires bytes { HasBytes request.now }
        requires count { count ≡ count_at self.old.kind self.old.store request.now (block_size * block) }
        requires room { request.now.write ≡ false → HasRoom request.now block out.old }
        ensures served { partial self.new.store out.new.items ≡ after_block self.old.kind (partial self.old.store out.old.items) request.now block }
        ensures kind { self.new.kind ≡ self.old.kind }
        ensures memory { self.new.capacity ≡ self.old.capacity }
        ensures room { length out.new.items + out.new.room ≡ length out.old.items + out.old.room }
        ensures kept { request.now.write ≡ true → out.new ≡ out.old }
        ensures brought { request.now.write ≡ false → length out.new.items ≡ length out.old.items + piece count (block_size * block) }
    {
        let moved = BLOCK_SIZE * block as usize;
        let next = piece(count, moved);
        if next == 0 {
            return;
        }
        if request.write {
            self.write_on(request, moved, next);
        } else {
            self.read_on(request, moved, next, out);
        }
    }

    /// Does the block with that number, from 0 on, of a request that was begun, once all blocks before it were done. A write
    /// has its bytes, which go into the store, and leaves `out` as it is; of a read `out` has the bytes of the blocks before, and
    /// room for all that was asked for. It takes no memory. A request that moves nothing has one block, with the number 0.
    ///
    /// Answers `More` while blocks are left, and then how the request ended, which is what the unit does with it as a whole.
    /// Where a request stops before, it is cut off behind the bytes of the blocks that were done.
    pub fn serve_block(&mut self, request: &Request, block: u32, out: &mut Bytes) -> BlockEnd
        requires bytes { HasBytes request.now }
        requires room { request.now.write ≡ false → HasRoom request.now block out.old }
        ensures served { partial self.new.store out.new.items ≡ after_block self.old.kind (partial self.old.store out.old.items) request.now block }
        ensures result { result ≡ block_end self.old.kind self.old.store request.now block }
        ensures came_to { (found : Store) → IsWhole request.now → IsUnderWay self.old.kind found request.now block self.old.store (brought request.now out.old.items) → CameTo self.old.kind found request.now (block + 1) result self.new.store (brought request.now out.new.items) }
        ensures kind { self.new.kind ≡ self.old.kind }
        ensures memory { self.new.capacity ≡ self.old.capacity }
        ensures room { length out.new.items + out.new.room ≡ length out.old.items + out.old.room }
        ensures kept { request.now.write ≡ true → out.new ≡ out.old }
        ensures more { result ≡ More → GoesOn request.now (block + 1) out.new }
    {
        let count = self.count_at(request, block);
        let end = self.end_of(request, block, count);
        self.move_block(request, block, count, out);
        end
    }
}

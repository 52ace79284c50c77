//! One variable pool: its live blocks.

ghost use Rattle.std.specs.Prelude.{◌≡◌, ◌+◌, ◌-◌, ◌*◌, ◌/◌, ◌≤◌, ◌<◌, ◌==◌, [], IfOk, IfSome, filter, fold, length, max, nat_lt, not, position, vec_capacity};
ghost use Rattle.std.specs.List.{position_or_len};
ghost use Rattle.object_model.specs.Pools.Variable.{begins_block, free_bytes, gaps_from, insert_block, largest_gap, live_bytes, place_from, place_in};
ghost use Rattle.mem_pools.specs.Blocks.{LieBetween};
ghost use Rattle.mem_pools.specs.Taking.{live_at};

use kernel_base::Order;
use object_model::pools::Block;
use std::alloc::{AllocError, Global};
use std::marker::Model;

/// A variable pool: how its waiters queue, its size in bytes, and its live blocks in rising offset.
#[derive(Drop)]
pub(crate) struct VariablePool {
    order: Order,
    size: u32,
    blocks: Vec<Block>,
}

impl Model for VariablePool {
    ghost use Rattle.std.specs.Prelude.{vec_capacity};
    ghost use Rattle.object_model.specs.Pools.Tables.{VariablePool as VariablePoolView};
    ghost use Rattle.mem_pools.specs.Blocks.{AreVariable};

    ghost Value = { VariablePoolView };

    ghost view = { λ k. record { order = k.order; size = k.size; blocks = k.blocks.items } };

    ghost invariant = { λ k. AreVariable k.size k.blocks.items (vec_capacity k.blocks) };
}

/// The least offset at which so many bytes fit between blocks that lie apart in front of an end.
fn place_in(blocks: &[Block], end: u32, size: u32) -> Option<u32>
    requires { LieBetween 0 end blocks.now }
    ensures { result ≡ place_from 0 end size blocks.now }
{
    let mut start = 0u32;
    'live: for index in 0..blocks.len() {
        let block = blocks[index];
        if start as u64 + size as u64 <= block.offset as u64 {
            return Some(start);
        }
        start = block.offset + block.size;
    }
    if start as u64 + size as u64 <= end as u64 {
        return Some(start);
    }
    None
}

/// The place of the first block of a greater offset.
fn first_behind(blocks: &[Block], offset: u32) -> Option<usize>
    ensures { result ≡ position (λ block. nat_lt offset block.offset) blocks.now }
{
    blocks.iter().position(|block| offset < block.offset)
}

/// The place behind all blocks that begin at an offset or in front of it.
#[tactic(auto, using(crate::proofs::Placing::placing))]
fn place_behind(blocks: &[Block], offset: u32) -> usize
    ensures place { result ≡ position_or_len (λ block. nat_lt offset block.offset) blocks.now }
    ensures within { result ≤ length blocks.now }
{
    match first_behind(blocks, offset) {
        Some(place) => place,
        None => blocks.len(),
    }
}

/// Puts a block in front of the first one of a greater offset.
fn insert_block(blocks: &mut Vec<Block>, block: Block)
    requires { length blocks.old.items < vec_capacity blocks.old }
    ensures inserted { blocks.new.items ≡ insert_block block blocks.old.items }
    ensures room { vec_capacity blocks.old ≤ vec_capacity blocks.new }
{
    let place = place_behind(blocks, block.offset);
    match blocks.insert(place, block) {
        Ok(()) => {}
        Err(_) => prove!(false),
    }
}

/// Takes out the block that begins at an offset.
fn take_out(blocks: &mut Vec<Block>, offset: u32)
    ensures left { blocks.new.items ≡ filter (λ block. not (block.offset == offset)) blocks.old.items }
    ensures room { vec_capacity blocks.new ≡ vec_capacity blocks.old }
{
    blocks.retain(|block| block.offset != offset);
}

/// The bytes of a size that blocks leave.
fn free_bytes(blocks: &[Block], size: u32) -> u32
    ensures free { result ≡ size - live_bytes blocks.now }
    ensures within { result ≤ size }
{
    let mut free = size;
    'live: for index in 0..blocks.len() {
        free = free.saturating_sub(blocks[index].size);
    }
    free
}

/// The size of the largest gap between blocks that lie apart in front of an end.
fn largest_gap(blocks: &[Block], end: u32) -> u32
    requires { LieBetween 0 end blocks.now }
    ensures largest { result ≡ fold max 0 (gaps_from 0 end blocks.now) }
    ensures within { result ≤ end }
{
    let mut start = 0u32;
    let mut largest = 0u32;
    'live: for index in 0..blocks.len() {
        let block = blocks[index];
        largest = largest.max(block.offset.saturating_sub(start));
        start = block.offset + block.size;
    }
    largest.max(end.saturating_sub(start))
}

impl VariablePool {
    /// A pool of a size from 8 to 65,536 bytes, a multiple of 8, with no live block and room for as many as fit.
    pub(crate) fn new(alloc: Global, order: Order, size: u32) -> Result<VariablePool, AllocError>
        requires small { size ≤ 65536 }
        requires whole { size ≡ 8 * (size / 8) }
        ensures { IfOk result (λ k. k ≡ record { order = order; size = size; blocks = [] }) }
    {
        Ok(VariablePool {
            order,
            size,
            blocks: Vec::with_capacity(alloc, size as usize / 8)?,
        })
    }

    /// How its waiters queue.
    pub(crate) fn order(&self) -> Order
        ensures { result ≡ self.now.order }
    {
        self.order
    }

    /// Its size in bytes, at most 65,536.
    pub(crate) fn size(&self) -> u32
        ensures size { result ≡ self.now.size }
        ensures small { result ≤ 65536 }
    {
        self.size
    }

    /// The bytes that no live block takes.
    pub(crate) fn free_bytes(&self) -> u32
        ensures free { result ≡ free_bytes self.now }
        ensures small { result ≤ 65536 }
    {
        free_bytes(&self.blocks, self.size)
    }

    /// The size of the largest gap.
    pub(crate) fn largest_gap(&self) -> u32
        ensures largest { result ≡ largest_gap self.now }
        ensures small { result ≤ 65536 }
    {
        largest_gap(&self.blocks, self.size)
    }

    /// Whether a live block begins at an offset.
    pub(crate) fn begins_block(&self, offset: u32) -> bool
        ensures { result ≡ begins_block offset self.now }
    {
        self.blocks.iter().any(|block| block.offset == offset)
    }

    /// Takes the least offset at which so many bytes fit, 8 at least; `None`, with nothing changed, where they fit nowhere.
    pub(crate) fn take(&mut self, size: u32) -> Option<u32>
        requires { 8 ≤ size }
        ensures place { result ≡ place_in self.old size }
        ensures low { IfSome result (λ offset. offset ≤ 65536) }
        ensures taken { self.new ≡ live_at (place_in self.old size) size self.old }
    {
        let offset = place_in(&self.blocks, self.size, size)?;
        insert_block(&mut self.blocks, Block { offset, size });
        Some(offset)
    }

    /// The block that begins at an offset is free again.
    pub(crate) fn put_back(&mut self, offset: u32)
        ensures { self.new ≡ record self.old { blocks = filter (λ block. not (block.offset == offset)) self.old.blocks } }
    {
        take_out(&mut self.blocks, offset);
    }
}

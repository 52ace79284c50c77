//! One fixed pool: which of its blocks are out.

ghost use Rattle.std.specs.Prelude.{◌≡◌, ℕ, ◌+◌, ◌*◌, ◌<◌, ◌≤◌, IfOk, false, length, replicate, slice_set, true};
ghost use Rattle.std.specs.List.{slice_index_or};
ghost use Rattle.object_model.specs.Pools.Fixed.{free_block, free_blocks, is_out};
ghost use Rattle.mem_pools.specs.Taking.{block_out};

use kernel_base::Order;
use std::alloc::{AllocError, Global};
use std::marker::Model;

/// A fixed pool: how its waiters queue, the bytes that its blocks take together, and for each block, by its number from 1
/// on, whether it is out.
#[derive(Drop)]
pub(crate) struct FixedPool {
    order: Order,
    bytes: u32,
    out: Vec<bool>,
    /// A number from 1 on in front of which all blocks are out.
    least: usize,
    /// How many blocks are free.
    free: usize,
}

impl Model for FixedPool {
    ghost use Rattle.object_model.specs.Pools.Tables.{FixedPool as FixedPoolView};
    ghost use Rattle.mem_pools.specs.Blocks.{AreFixed};

    ghost Value = { FixedPoolView };

    ghost view = { λ k. record { order = k.order; bytes = k.bytes; out = k.out.items } };

    ghost invariant = { λ k. AreFixed k.out.items k.least k.free };
}

/// Places for that many blocks and for the number 0, none of which is out.
fn free_places(alloc: Global, count: usize) -> Result<Vec<bool>, AllocError>
    requires { count ≤ 1024 }
    ensures { IfOk result (λ out. out.items ≡ replicate (count + 1) false) }
{
    let mut out = Vec::with_capacity(alloc, count + 1)?;
    'places: for _place in 0..count + 1 {
        out.push(false)?;
    }
    Ok(out)
}

/// The first number from one on whose block isn't out, or the number behind the last.
fn free_from(out: &[bool], least: usize) -> usize
    requires { least ≤ length out.now }
    ensures low { least ≤ result }
    ensures high { result ≤ length out.now }
    ensures passed { (number : ℕ) → least ≤ number → number < result → slice_index_or out.now number false ≡ true }
    ensures stops { result < length out.now → slice_index_or out.now result true ≡ false }
{
    'places: for number in least..out.len() {
        if !out[number] {
            return number;
        }
    }
    out.len()
}

impl FixedPool {
    /// A pool of 1 to 1,024 blocks of 1 to 65,536 bytes each, none of which is out.
    pub(crate) fn new(
        alloc: Global,
        order: Order,
        count: usize,
        size: u32,
    ) -> Result<FixedPool, AllocError>
        requires some { 1 ≤ count }
        requires few { count ≤ 1024 }
        requires small { size ≤ 65536 }
        ensures { IfOk result (λ k. k ≡ record { order = order; bytes = count * size; out = replicate (count + 1) false }) }
    {
        Ok(FixedPool {
            order,
            bytes: count as u32 * size,
            out: free_places(alloc, count)?,
            least: 1,
            free: count,
        })
    }

    /// How its waiters queue.
    pub(crate) fn order(&self) -> Order
        ensures { result ≡ self.now.order }
    {
        self.order
    }

    /// The bytes that its blocks take together.
    pub(crate) fn bytes(&self) -> u32
        ensures { result ≡ self.now.bytes }
    {
        self.bytes
    }

    /// How many blocks are free, at most 1,024.
    pub(crate) fn free_blocks(&self) -> usize
        ensures free { result ≡ free_blocks self.now }
        ensures few { result ≤ 1024 }
    {
        self.free
    }

    /// Whether the block with that number is out.
    pub(crate) fn is_out(&self, number: usize) -> bool
        ensures { result ≡ is_out number self.now }
    {
        number < self.out.len() && self.out[number]
    }

    /// Takes the least free block, and answers its number from 1 to 1,024; 0, with nothing changed, where all are out.
    pub(crate) fn take(&mut self) -> usize
        ensures number { result ≡ free_block self.old }
        ensures few { result ≤ 1024 }
        ensures taken { self.new ≡ block_out (free_block self.old) self.old }
    {
        let number = free_from(&self.out, self.least);
        self.least = number;
        if number == self.out.len() {
            return 0;
        }
        self.out[number] = true;
        self.least = number + 1;
        self.free -= 1;
        number
    }

    /// Puts back a block that is out.
    pub(crate) fn put_back(&mut self, number: usize)
        requires { is_out number self.old ≡ true }
        ensures { self.new ≡ record self.old { out = slice_set self.old.out number false } }
    {
        self.out[number] = false;
        self.least = self.least.min(number);
        self.free += 1;
    }
}

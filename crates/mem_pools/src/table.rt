//! The table of memory pools.

ghost use Rattle.std.specs.Prelude.{◌≡◌, ◌<◌, ◌≤◌, ◌+◌, ◌*◌, ◌/◌, IfOk, IfSome, OnErr, None, Some, [], drop, false, length, replicate, slice_set, true};
ghost use Rattle.std.specs.Option.{is_some, option_copied, option_map_or};
ghost use Rattle.kernel_model.specs.Words.Orders.{free_from};
ghost use Rattle.object_model.specs.Pools.Fixed.{is_out};
ghost use Rattle.object_model.specs.Pools.Calls.{block_back, block_freed, free_fixed, free_variable};
ghost use Rattle.object_model.specs.Pools.Tables.{fixed_at, has_mpf, has_mpl, pools_start, size_of, variable_at, with_fixed, with_variable};
ghost use Rattle.mem_pools.specs.Tables.{AreFreeFrom};
ghost use Rattle.mem_pools.specs.Taking.{block_given, block_of, bytes_given, place_of};

use crate::fixed_pool::FixedPool;
use crate::variable_pool::VariablePool;
use kernel_base::Order;
use std::alloc::{AllocError, Global};
use std::marker::Model;

/// The fixed and the variable pools by ID, and the size that each task asked for when it last waited for a variable pool.
#[derive(Drop)]
pub struct Pools {
    fixed: Vec<Option<FixedPool>>,
    variable: Vec<Option<VariablePool>>,
    sizes: Vec<u32>,
    /// One more than the greatest ID whose slot for a fixed pool was ever written, and 1 at first.
    fixed_used: u8,
    /// The same for variable pools.
    variable_used: u8,
    alloc: Global,
}

impl Model for Pools {
    ghost use Rattle.object_model.specs.Pools.Tables.{Pools as PoolsView};
    ghost use Rattle.mem_pools.specs.Tables.{AreTables};

    ghost Value = { PoolsView };

    ghost view = { λ m. record { fixed = m.fixed.items; variable = m.variable.items; sizes = m.sizes.items } };

    ghost invariant = { λ m. AreTables m.fixed.items m.variable.items m.sizes.items m.fixed_used m.variable_used };
}

/// Free slots for fixed pools.
fn no_fixed(alloc: Global) -> Result<Vec<Option<FixedPool>>, AllocError>
    ensures { IfOk result (λ slots. slots.items ≡ replicate 65 None) }
{
    let mut slots = Vec::with_capacity(alloc, 65)?;
    'slots: for _id in 0..65usize {
        slots.push(None)?;
    }
    Ok(slots)
}

/// Free slots for variable pools.
fn no_variable(alloc: Global) -> Result<Vec<Option<VariablePool>>, AllocError>
    ensures { IfOk result (λ slots. slots.items ≡ replicate 65 None) }
{
    let mut slots = Vec::with_capacity(alloc, 65)?;
    'slots: for _id in 0..65usize {
        slots.push(None)?;
    }
    Ok(slots)
}

/// A size of 0 for each task.
fn no_sizes(alloc: Global) -> Result<Vec<u32>, AllocError>
    ensures { IfOk result (λ sizes. sizes.items ≡ replicate 256 0) }
{
    let mut sizes = Vec::with_capacity(alloc, 256)?;
    'tasks: for _task in 0..256usize {
        sizes.push(0u32)?;
    }
    Ok(sizes)
}

/// The least free ID of a table of fixed pools, or 0.
#[tactic(auto, unfolding(kernel_model::specs::Words::Orders::free_from))]
fn least_free_fixed(slots: &[Option<FixedPool>]) -> u8
    requires { length slots.now ≡ 65 }
    ensures free { result ≡ free_from 1 (drop 1 slots.now) }
    ensures within { result ≤ 64 }
{
    'slots: for id in 1..65usize {
        if slots[id].is_none() {
            return id as u8;
        }
    }
    0
}

/// The least free ID of a table of variable pools, or 0.
#[tactic(auto, unfolding(kernel_model::specs::Words::Orders::free_from))]
fn least_free_variable(slots: &[Option<VariablePool>]) -> u8
    requires { length slots.now ≡ 65 }
    ensures free { result ≡ free_from 1 (drop 1 slots.now) }
    ensures within { result ≤ 64 }
{
    'slots: for id in 1..65usize {
        if slots[id].is_none() {
            return id as u8;
        }
    }
    0
}

impl Pools {
    /// No pool, and room for the slots of 64 fixed and of 64 variable ones.
    #[tactic(auto, using(crate::proofs::Tables::fit_at_start))]
    pub fn new(alloc: Global) -> Result<Pools, AllocError>
        ensures { IfOk result (λ table. table ≡ pools_start) }
    {
        Ok(Pools {
            fixed: no_fixed(alloc)?,
            variable: no_variable(alloc)?,
            sizes: no_sizes(alloc)?,
            fixed_used: 1,
            variable_used: 1,
            alloc,
        })
    }

    /// States, at no cost, that the table has a place for each task.
    pub fn known_of_tasks(&self)
        ensures { length self.now.sizes ≡ 256 }
    {
        let _sizes = &self.sizes;
    }

    /// How many slots there are for fixed pools, and as many for variable ones: one for each ID, and one for 0.
    #[cfg(test)]
    pub(crate) fn slots(&self) -> u8
        ensures fixed { result ≡ length self.now.fixed }
        ensures variable { result ≡ length self.now.variable }
        ensures all { result ≡ 65 }
    {
        self.fixed.len() as u8
    }

    /// How far the slots for fixed pools are used: no fixed pool has that ID or a greater one.
    pub(crate) fn fixed_used(&self) -> u8
        ensures within { result ≤ length self.now.fixed }
        ensures few { result ≤ 65 }
        ensures free { AreFreeFrom result self.now.fixed }
    {
        self.fixed_used
    }

    /// How far the slots for variable pools are used: no variable pool has that ID or a greater one.
    pub(crate) fn variable_used(&self) -> u8
        ensures within { result ≤ length self.now.variable }
        ensures few { result ≤ 65 }
        ensures free { AreFreeFrom result self.now.variable }
    {
        self.variable_used
    }

    /// Whether the fixed pool with that ID exists.
    pub fn has_mpf(&self, id: u8) -> bool
        ensures { result ≡ has_mpf self.now id }
    {
        self.fixed(id).is_some()
    }

    /// Whether the variable pool with that ID exists.
    pub fn has_mpl(&self, id: u8) -> bool
        ensures { result ≡ has_mpl self.now id }
    {
        self.variable(id).is_some()
    }

    /// The fixed pool with that ID.
    pub(crate) fn fixed(&self, id: u8) -> Option<&FixedPool>
        ensures { option_copied result ≡ fixed_at self.now id }
    {
        if id as usize >= self.fixed.len() {
            return None;
        }
        self.fixed[id as usize].as_ref()
    }

    /// The variable pool with that ID.
    pub(crate) fn variable(&self, id: u8) -> Option<&VariablePool>
        ensures { option_copied result ≡ variable_at self.now id }
    {
        if id as usize >= self.variable.len() {
            return None;
        }
        self.variable[id as usize].as_ref()
    }

    /// Writes the slot of a fixed pool.
    #[tactic(auto, using(crate::proofs::Tables::free_written))]
    pub(crate) fn set_fixed(&mut self, id: u8, slot: Option<FixedPool>)
        requires { id ≤ 64 }
        ensures { self.new ≡ with_fixed self.old id slot }
    {
        self.fixed[id as usize] = slot;
        self.fixed_used = self.fixed_used.max(id + 1);
    }

    /// Writes the slot of a variable pool.
    #[tactic(auto, using(crate::proofs::Tables::free_written))]
    pub(crate) fn set_variable(&mut self, id: u8, slot: Option<VariablePool>)
        requires { id ≤ 64 }
        ensures { self.new ≡ with_variable self.old id slot }
    {
        self.variable[id as usize] = slot;
        self.variable_used = self.variable_used.max(id + 1);
    }

    /// A fixed pool of 1 to 1,024 blocks of 1 to 65,536 bytes each stands in a slot. The room that its blocks ever need is
    /// taken here. Want of memory leaves the table as it was.
    pub(crate) fn make_fixed(
        &mut self,
        id: u8,
        order: Order,
        count: usize,
        size: u32,
    ) -> Result<(), AllocError>
        requires id { id ≤ 64 }
        requires some { 1 ≤ count }
        requires few { count ≤ 1024 }
        requires small { size ≤ 65536 }
        ensures made { IfOk result (λ _. self.new ≡ with_fixed self.old id (Some (record { order = order; bytes = count * size; out = replicate (count + 1) false }))) }
        ensures kept { OnErr result (self.new ≡ self.old) }
    {
        let pool = FixedPool::new(self.alloc, order, count, size)?;
        self.set_fixed(id, Some(pool));
        Ok(())
    }

    /// A variable pool of a size from 8 to 65,536 bytes, a multiple of 8, stands in a slot. The room that its blocks ever
    /// need is taken here. Want of memory leaves the table as it was.
    pub(crate) fn make_variable(
        &mut self,
        id: u8,
        order: Order,
        size: u32,
    ) -> Result<(), AllocError>
        requires id { id ≤ 64 }
        requires small { size ≤ 65536 }
        requires whole { size ≡ 8 * (size / 8) }
        ensures made { IfOk result (λ _. self.new ≡ with_variable self.old id (Some (record { order = order; size = size; blocks = [] }))) }
        ensures kept { OnErr result (self.new ≡ self.old) }
    {
        let pool = VariablePool::new(self.alloc, order, size)?;
        self.set_variable(id, Some(pool));
        Ok(())
    }

    /// A fixed pool gives its least free block, whose number from 1 to 1,024 is answered; 0, with nothing changed, where it
    /// has none.
    pub(crate) fn take_block(&mut self, id: u8) -> usize
        requires { id ≤ 64 }
        ensures number { result ≡ block_of (fixed_at self.old id) }
        ensures few { result ≤ 1024 }
        ensures given { self.new ≡ block_given self.old id (fixed_at self.old id) }
    {
        let slot = &mut self.fixed[id as usize];
        let Some(pool) = slot else {
            return 0;
        };
        pool.take()
    }

    /// A fixed pool takes a block back that is out.
    pub(crate) fn put_block_back(&mut self, id: u8, number: usize)
        requires id { id ≤ 64 }
        requires out { option_map_or (is_out number) (fixed_at self.old id) false ≡ true }
        ensures { self.new ≡ block_back self.old id number (fixed_at self.old id) }
    {
        let slot = &mut self.fixed[id as usize];
        let Some(pool) = slot else {
            return;
        };
        pool.put_back(number);
    }

    /// A variable pool gives so many bytes, 8 at least, at the least offset at which they fit, which is answered; `None`,
    /// with nothing changed, where they fit nowhere.
    pub(crate) fn take_bytes(&mut self, id: u8, size: u32) -> Option<u32>
        requires id { id ≤ 64 }
        requires some { 8 ≤ size }
        ensures place { result ≡ place_of size (variable_at self.old id) }
        ensures low { IfSome result (λ offset. offset ≤ 65536) }
        ensures given { self.new ≡ bytes_given self.old id size (variable_at self.old id) }
    {
        let slot = &mut self.variable[id as usize];
        let Some(pool) = slot else {
            return None;
        };
        pool.take(size)
    }

    /// A variable pool takes the block back that begins at an offset.
    pub(crate) fn put_bytes_back(&mut self, id: u8, offset: u32)
        requires { id ≤ 64 }
        ensures { self.new ≡ block_freed self.old id offset (variable_at self.old id) }
    {
        let slot = &mut self.variable[id as usize];
        let Some(pool) = slot else {
            return;
        };
        pool.put_back(offset);
    }

    /// The size that a task asked for when it last waited for a variable pool: 0 where it never did, else 8 bytes at least.
    pub(crate) fn size_of(&self, task: u8) -> u32
        ensures size { result ≡ size_of self.now task }
        ensures least { 0 < result → 8 ≤ result }
    {
        self.sizes[task as usize]
    }

    /// Notes the size that a task asks for, 8 bytes at least.
    pub(crate) fn ask_size(&mut self, task: u8, size: u32)
        requires { 8 ≤ size }
        ensures { self.new ≡ record self.old { sizes = slice_set self.old.sizes task size } }
    {
        self.sizes[task as usize] = size;
    }

    /// The least free ID of a fixed pool, or 0.
    pub(crate) fn free_fixed(&self) -> u8
        ensures free { result ≡ free_fixed self.now }
        ensures within { result ≤ 64 }
    {
        least_free_fixed(&self.fixed)
    }

    /// The least free ID of a variable pool, or 0.
    pub(crate) fn free_variable(&self) -> u8
        ensures free { result ≡ free_variable self.now }
        ensures within { result ≤ 64 }
    {
        least_free_variable(&self.variable)
    }
}

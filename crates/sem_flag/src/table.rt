//! The table of semaphores and event flags.

ghost use Rattle.std.specs.Prelude.{◌≡◌, ◌<◌, ◌≤◌, IfOk, None, drop, length, replicate, slice_set};
ghost use Rattle.std.specs.Option.{is_some};
ghost use Rattle.kernel_model.specs.Words.Orders.{free_from};
ghost use Rattle.kernel_model.specs.SemFlags.Calls.{free_flag, free_sem};
ghost use Rattle.kernel_model.specs.SemFlags.Tables.{count_of, flag_at, no_wish, sem_at, sem_flags_start, wish_of, with_flag, with_sem};
ghost use Rattle.sem_flag.specs.Tables.{AreFreeFrom};

use kernel_model::objects::{EventFlag, FlagWish, Semaphore};
use std::alloc::{AllocError, Global};
use std::marker::Model;
use tk_types::FlagMode;

/// The semaphores and the event flags by ID, and what each task asked for when it last waited for one.
#[derive(Drop)]
pub struct SemFlags {
    sems: Vec<Option<Semaphore>>,
    flags: Vec<Option<EventFlag>>,
    counts: Vec<u16>,
    wishes: Vec<FlagWish>,
    /// One more than the greatest ID whose slot for a semaphore was ever written, and 1 at first.
    sems_used: u8,
    /// The same for event flags.
    flags_used: u8,
}

impl Model for SemFlags {
    ghost use Rattle.kernel_model.specs.SemFlags.Tables.{SemFlags as SemFlagsView};
    ghost use Rattle.sem_flag.specs.Tables.{AreTables};

    ghost Value = { SemFlagsView };

    ghost view = { λ s. record { sems = s.sems.items; flags = s.flags.items; counts = s.counts.items; wishes = s.wishes.items } };

    ghost invariant = { λ s. AreTables s.sems.items s.flags.items s.counts.items s.wishes.items s.sems_used s.flags_used };
}

/// The empty wish.
fn no_wish() -> FlagWish
    ensures { result ≡ no_wish }
{
    FlagWish {
        bits: 0,
        mode: FlagMode {
            twf_andw: false,
            twf_orw: false,
            twf_clr: false,
            twf_bitclr: false,
        },
    }
}

/// Free slots for semaphores.
fn free_sems(alloc: Global) -> Result<Vec<Option<Semaphore>>, AllocError>
    ensures { IfOk result (λ slots. slots.items ≡ replicate 65 None) }
{
    let mut slots = Vec::with_capacity(alloc, 65)?;
    'slots: for _id in 0..65usize {
        slots.push(None)?;
    }
    Ok(slots)
}

/// Free slots for event flags.
fn free_flags(alloc: Global) -> Result<Vec<Option<EventFlag>>, AllocError>
    ensures { IfOk result (λ slots. slots.items ≡ replicate 65 None) }
{
    let mut slots = Vec::with_capacity(alloc, 65)?;
    'slots: for _id in 0..65usize {
        slots.push(None)?;
    }
    Ok(slots)
}

/// A count of 0 for each task.
fn no_counts(alloc: Global) -> Result<Vec<u16>, AllocError>
    ensures { IfOk result (λ counts. counts.items ≡ replicate 256 0) }
{
    let mut counts = Vec::with_capacity(alloc, 256)?;
    'tasks: for _task in 0..256usize {
        counts.push(0u16)?;
    }
    Ok(counts)
}

/// The empty wish for each task.
fn no_wishes(alloc: Global) -> Result<Vec<FlagWish>, AllocError>
    ensures { IfOk result (λ wishes. wishes.items ≡ replicate 256 no_wish) }
{
    let mut wishes = Vec::with_capacity(alloc, 256)?;
    'tasks: for _task in 0..256usize {
        wishes.push(no_wish())?;
    }
    Ok(wishes)
}

impl SemFlags {
    /// No semaphore and no event flag, and room for 64 of each.
    #[tactic(auto, using(crate::proofs::Tables::fit_at_start))]
    pub fn new(alloc: Global) -> Result<SemFlags, AllocError>
        ensures { IfOk result (λ table. table ≡ sem_flags_start) }
    {
        Ok(SemFlags {
            sems: free_sems(alloc)?,
            flags: free_flags(alloc)?,
            counts: no_counts(alloc)?,
            wishes: no_wishes(alloc)?,
            sems_used: 1,
            flags_used: 1,
        })
    }

    /// How many slots there are for semaphores, and as many for event flags: one for each ID, and one for 0.
    #[cfg(test)]
    pub(crate) fn slots(&self) -> u8
        ensures sems { result ≡ length self.now.sems }
        ensures flags { result ≡ length self.now.flags }
        ensures within { result ≤ 65 }
    {
        self.sems.len() as u8
    }

    /// How far the slots for semaphores are used: no semaphore has that ID or a greater one.
    pub(crate) fn sems_used(&self) -> u8
        ensures within { result ≤ length self.now.sems }
        ensures few { result ≤ 65 }
        ensures free { AreFreeFrom result self.now.sems }
    {
        self.sems_used
    }

    /// How far the slots for event flags are used: no event flag has that ID or a greater one.
    pub(crate) fn flags_used(&self) -> u8
        ensures within { result ≤ length self.now.flags }
        ensures few { result ≤ 65 }
        ensures free { AreFreeFrom result self.now.flags }
    {
        self.flags_used
    }

    /// Whether the semaphore with that ID exists.
    pub fn has_sem(&self, id: u8) -> bool
        ensures { result ≡ is_some (sem_at self.now id) }
    {
        self.sem(id).is_some()
    }

    /// Whether the event flag with that ID exists.
    pub fn has_flg(&self, id: u8) -> bool
        ensures { result ≡ is_some (flag_at self.now id) }
    {
        self.flag(id).is_some()
    }

    /// The semaphore with that ID.
    pub(crate) fn sem(&self, id: u8) -> Option<Semaphore>
        ensures { result ≡ sem_at self.now id }
    {
        if id as usize >= self.sems.len() {
            return None;
        }
        self.sems[id as usize]
    }

    /// The event flag with that ID.
    pub(crate) fn flag(&self, id: u8) -> Option<EventFlag>
        ensures { result ≡ flag_at self.now id }
    {
        if id as usize >= self.flags.len() {
            return None;
        }
        self.flags[id as usize]
    }

    /// Writes the slot of a semaphore.
    #[tactic(auto, using(crate::proofs::Tables::free_written))]
    pub(crate) fn set_sem(&mut self, id: u8, slot: Option<Semaphore>)
        requires { id ≤ 64 }
        ensures { self.new ≡ with_sem self.old id slot }
    {
        self.sems[id as usize] = slot;
        self.sems_used = self.sems_used.max(id + 1);
    }

    /// Writes the slot of an event flag.
    #[tactic(auto, using(crate::proofs::Tables::free_written))]
    pub(crate) fn set_flag(&mut self, id: u8, slot: Option<EventFlag>)
        requires { id ≤ 64 }
        ensures { self.new ≡ with_flag self.old id slot }
    {
        self.flags[id as usize] = slot;
        self.flags_used = self.flags_used.max(id + 1);
    }

    /// The count that a task asked for when it last waited for a semaphore.
    pub(crate) fn count_of(&self, task: u8) -> u16
        ensures { result ≡ count_of self.now task }
    {
        self.counts[task as usize]
    }

    /// What a task asked for when it last waited for an event flag.
    pub(crate) fn wish_of(&self, task: u8) -> FlagWish
        ensures { result ≡ wish_of self.now task }
    {
        self.wishes[task as usize]
    }

    /// Notes the count that a task asks for.
    pub(crate) fn ask_count(&mut self, task: u8, count: u16)
        ensures { self.new ≡ record self.old { counts = slice_set self.old.counts task count } }
    {
        self.counts[task as usize] = count;
    }

    /// Notes what a task asks a flag for.
    pub(crate) fn ask_wish(&mut self, task: u8, wish: FlagWish)
        ensures { self.new ≡ record self.old { wishes = slice_set self.old.wishes task wish } }
    {
        self.wishes[task as usize] = wish;
    }

    /// The least free ID of a semaphore, or 0.
    pub(crate) fn free_sem(&self) -> u8
        ensures free { result ≡ free_sem self.now }
        ensures within { result ≤ 64 }
    {
        least_free_sem(&self.sems)
    }

    /// The least free ID of an event flag, or 0.
    pub(crate) fn free_flag(&self) -> u8
        ensures free { result ≡ free_flag self.now }
        ensures within { result ≤ 64 }
    {
        least_free_flag(&self.flags)
    }
}

/// The least free ID of a table of semaphores, or 0.
#[tactic(auto, unfolding(kernel_model::specs::Words::Orders::free_from))]
fn least_free_sem(slots: &[Option<Semaphore>]) -> u8
    requires { length slots.now ≡ 65 }
    ensures free { result ≡ free_from 1 (drop 1 slots.now) }
    ensures within { result ≤ 64 }
{
    'slots: for id in 1..65usize {
        if slots[id].is_none() {
            return id as u8;
        }
    }
    0
}

/// The least free ID of a table of event flags, or 0.
#[tactic(auto, unfolding(kernel_model::specs::Words::Orders::free_from))]
fn least_free_flag(slots: &[Option<EventFlag>]) -> u8
    requires { length slots.now ≡ 65 }
    ensures free { result ≡ free_from 1 (drop 1 slots.now) }
    ensures within { result ≤ 64 }
{
    'slots: for id in 1..65usize {
        if slots[id].is_none() {
            return id as u8;
        }
    }
    0
}

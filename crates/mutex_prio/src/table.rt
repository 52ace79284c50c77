//! The table of mutexes.

ghost use Rattle.std.specs.Prelude.{◌≡◌, ◌≤◌, ℕ, EachIndex, IfOk, slice_index, None, Some, drop, length, replicate, true, [], option_map};
ghost use Rattle.std.specs.Option.{is_some};
ghost use Rattle.object_model.specs.declared.mutexes.Mutex.{Mutex};
ghost use Rattle.kernel_model.specs.Words.Orders.{free_from};
ghost use Rattle.object_model.specs.Mutexes.Calls.{deleted, free_mutex};
ghost use Rattle.object_model.specs.Mutexes.Tables.{ceiling_of, freed, locked, mutex_at, mutexes_start, owner_of, with_mutex};
ghost use Rattle.mutex_prio.specs.Tables.{AreFreeFrom, fits_ceiling, fits_slot};

use crate::locks::Locks;
use object_model::mutexes::Mutex;
use std::alloc::{AllocError, Global};
use std::marker::Model;

/// The mutexes by ID, and those that are locked, the one locked first in front.
#[derive(Drop)]
pub struct Mutexes {
    slots: Vec<Option<Mutex>>,
    locks: Locks,
    /// One more than the greatest ID whose slot was ever written, and 1 at first.
    used: u8,
}

impl Model for Mutexes {
    ghost use Rattle.object_model.specs.Mutexes.Tables.{Mutexes as MutexesView};
    ghost use Rattle.mutex_prio.specs.Tables.{AreMutexes};

    ghost Value = { MutexesView };

    ghost view = { λ m. record { table = m.slots.items; locks = m.locks } };

    ghost invariant = { λ m. AreMutexes m.slots.items m.locks m.used };
}

/// Free slots.
fn free_slots(alloc: Global) -> Result<Vec<Option<Mutex>>, AllocError>
    ensures { IfOk result (λ slots. slots.items ≡ replicate 65 None) }
{
    let mut slots = Vec::with_capacity(alloc, 65)?;
    'slots: for _id in 0..65usize {
        slots.push(None)?;
    }
    Ok(slots)
}

/// A slot whose mutex, where there is one, nobody owns.
fn ownerless(slot: Option<Mutex>) -> Option<Mutex>
    requires { fits_slot slot ≡ true }
    ensures slot { result ≡ option_map {T = Mutex} (λ k. record k { owner = 0 }) slot }
    ensures fits { fits_slot result ≡ true }
{
    match slot {
        None => None,
        Some(row) => Some(Mutex { owner: 0, ..row }),
    }
}

impl Mutexes {
    /// No mutex, and room for 64. All room that the table ever needs is taken here: nothing else takes memory.
    #[tactic(auto, using(crate::proofs::Tables::fit_at_start))]
    pub fn new(alloc: Global) -> Result<Mutexes, AllocError>
        ensures { IfOk result (λ table. table ≡ mutexes_start) }
    {
        Ok(Mutexes {
            slots: free_slots(alloc)?,
            locks: Locks::none(alloc)?,
            used: 1,
        })
    }

    /// Whether the mutex with that ID exists.
    pub fn has_mtx(&self, id: u8) -> bool
        ensures { result ≡ is_some (mutex_at self.now id) }
    {
        self.mutex(id).is_some()
    }

    /// How far the slots are used: no mutex has that ID or a greater one.
    pub(crate) fn used(&self) -> u8
        ensures within { result ≤ length self.now.table }
        ensures few { result ≤ 65 }
        ensures free { AreFreeFrom result self.now.table }
    {
        self.used
    }

    /// The mutex with that ID. A ceiling is from 1 to 140.
    pub(crate) fn mutex(&self, id: u8) -> Option<Mutex>
        ensures row { result ≡ mutex_at self.now id }
        ensures ceiling { fits_slot result ≡ true }
    {
        if id as usize >= self.slots.len() {
            return None;
        }
        self.slots[id as usize]
    }

    /// The task that owns a mutex, or 0.
    pub(crate) fn owner_of(&self, id: u8) -> u8
        ensures { result ≡ owner_of self.now id }
    {
        match self.mutex(id) {
            None => 0,
            Some(row) => row.owner,
        }
    }

    /// The ceiling of a mutex, from 1 to 140, where it has one.
    pub(crate) fn ceiling_of(&self, id: u8) -> Option<u8>
        ensures ceiling { result ≡ ceiling_of self.now id }
        ensures fits { fits_ceiling result ≡ true }
    {
        match self.mutex(id) {
            None => None,
            Some(row) => row.ceiling,
        }
    }

    /// The mutexes that are locked, the one locked first in front.
    pub(crate) fn locks(&self) -> &[u8]
        ensures ids { result.now ≡ self.now.locks }
        ensures known { EachIndex self.now.locks (λ place. slice_index self.now.locks place ≤ 64) }
    {
        self.locks.as_slice()
    }

    /// Whether no mutex is locked: then nobody owns one.
    pub(crate) fn is_unlocked(&self) -> bool
        ensures none { result ≡ true → self.now.locks ≡ [] }
        ensures free { result ≡ true → (id : ℕ) → owner_of self.now id ≡ 0 }
    {
        self.locks.as_slice().is_empty()
    }

    /// The least free ID, or 0.
    pub(crate) fn free_id(&self) -> u8
        ensures free { result ≡ free_mutex self.now }
        ensures within { result ≤ 64 }
    {
        least_free(&self.slots)
    }

    /// A new mutex, which nobody owns.
    pub(crate) fn make(&mut self, id: u8, row: Mutex)
        requires known { id ≤ 64 }
        requires ceiling { fits_ceiling row.ceiling ≡ true }
        requires free { row.owner ≡ 0 }
        ensures { self.new ≡ with_mutex self.old id (Some row) }
    {
        self.slots[id as usize] = Some(row);
        self.used = self.used.max(id + 1);
    }

    /// A task becomes the owner of a mutex, the latest that it locked.
    pub(crate) fn lock(&mut self, id: u8, row: Mutex, task: u8)
        requires known { id ≤ 64 }
        requires ceiling { fits_ceiling row.ceiling ≡ true }
        ensures { self.new ≡ locked self.old id row task }
    {
        self.slots[id as usize] = Some(Mutex { owner: task, ..row });
        self.locks.move_to_back(id);
        self.used = self.used.max(id + 1);
    }

    /// Nobody owns a mutex any more.
    pub(crate) fn free(&mut self, id: u8)
        requires { id ≤ 64 }
        ensures { self.new ≡ freed self.old id }
    {
        self.slots[id as usize] = ownerless(self.mutex(id));
        self.locks.take_out(id);
        self.used = self.used.max(id + 1);
    }

    /// A mutex is gone, also for its owner.
    pub(crate) fn delete(&mut self, id: u8)
        requires { id ≤ 64 }
        ensures { self.new ≡ deleted self.old id }
    {
        self.slots[id as usize] = None;
        self.locks.take_out(id);
        self.used = self.used.max(id + 1);
    }
}

/// The least free ID of a table, or 0.
#[tactic(auto, unfolding(kernel_model::specs::Words::Orders::free_from))]
fn least_free(slots: &[Option<Mutex>]) -> u8
    requires { length slots.now ≡ 65 }
    ensures free { result ≡ free_from 1 (drop 1 slots.now) }
    ensures within { result ≤ 64 }
{
    'slots: for id in 1..65usize {
        if slots[id].is_none() {
            return id as u8;
        }
    }
    0
}

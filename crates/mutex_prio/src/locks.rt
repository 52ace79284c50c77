//! The mutexes that are locked, by whomever, the one locked first in front. Their room is taken once, for all that there can
//! be.

ghost use Rattle.std.specs.Prelude.{◌≡◌, ◌≤◌, EachIndex, IfOk, [], slice_index, vec_capacity};
ghost use Rattle.kernel_model.specs.Words.Orders.{to_back, without};

use std::alloc::{AllocError, Global};
use std::marker::Model;

/// The mutexes that are locked, each once.
#[derive(Drop)]
pub(crate) struct Locks {
    list: Vec<u8>,
}

impl Model for Locks {
    ghost use Rattle.std.specs.Prelude.{List, ℕ, vec_capacity};
    ghost use Rattle.mutex_prio.specs.Tables.{IsLocks};

    ghost Value = { List ℕ };

    ghost view = { λ locks. locks.list.items };

    ghost invariant = { λ locks. IsLocks locks.list.items (vec_capacity locks.list) };
}

/// Takes an ID out of a list.
fn take_out(list: &mut Vec<u8>, id: u8)
    ensures items { list.new.items ≡ without id list.old.items }
    ensures capacity { vec_capacity list.new ≡ vec_capacity list.old }
{
    let mut kept = 0;
    'places: for place in 0..list.len() {
        let other = list[place];
        if other != id {
            list[kept] = other;
            kept += 1;
        }
    }
    list.truncate(kept);
}

impl Locks {
    /// No mutex is locked.
    pub(crate) fn none(alloc: Global) -> Result<Locks, AllocError>
        ensures { IfOk result (λ locks. locks ≡ []) }
    {
        Ok(Locks {
            list: Vec::with_capacity(alloc, 65)?,
        })
    }

    /// A mutex is no longer locked.
    pub(crate) fn take_out(&mut self, id: u8)
        ensures { self.new ≡ without id self.old }
    {
        take_out(&mut self.list, id);
    }

    /// A mutex is locked, the latest of all.
    pub(crate) fn move_to_back(&mut self, id: u8)
        requires { id ≤ 64 }
        ensures { self.new ≡ to_back id self.old }
    {
        take_out(&mut self.list, id);
        self.list.push_reserved(id);
    }

    /// The IDs in order.
    pub(crate) fn as_slice(&self) -> &[u8]
        ensures ids { result.now ≡ self.now }
        ensures known { EachIndex self.now (λ place. slice_index self.now place ≤ 64) }
    {
        self.list.as_slice()
    }
}

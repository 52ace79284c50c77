//! An order of task IDs, the earliest first, each at most once. Its room is taken once, for all 256.

ghost use Rattle.std.specs.Prelude.{◌≡◌, ◌≤◌, ◌∷◌, IfOk, [], length, take, vec_capacity};
ghost use Rattle.kernel_model.specs.LawWords.Once.{IsOnce};
ghost use Rattle.kernel_model.specs.Words.Orders.{to_back, without};

use std::alloc::{AllocError, Global};
use std::marker::Model;

/// An order of task IDs.
#[derive(Drop)]
pub(crate) struct Ids {
    list: Vec<u8>,
}

impl Model for Ids {
    ghost use Rattle.std.specs.Prelude.{List, ℕ, vec_capacity};
    ghost use Rattle.kernel_base.specs.Room.{IsOrder};

    ghost Value = { List ℕ };

    ghost view = { λ ids. ids.list.items };

    ghost invariant = { λ ids. IsOrder ids.list.items (vec_capacity ids.list) };
}

/// What an order was at one time: so many IDs.
#[derive(Clone, Copy)]
pub(crate) struct Listed {
    pub(crate) ids: [u8; 256],
    pub(crate) count: usize,
}

/// The IDs of a list.
fn copied(list: &[u8]) -> Listed
    requires { length list.now ≤ 256 }
    ensures count { result.count ≡ length list.now }
    ensures ids { take result.count result.ids ≡ list.now }
{
    let mut ids = [0; 256];
    'places: for place in 0..list.len() {
        ids[place] = list[place];
    }
    Listed {
        ids,
        count: list.len(),
    }
}

/// Takes an ID out of a list.
fn take_out(list: &mut Vec<u8>, id: u8)
    ensures items { list.new.items ≡ without id list.old.items }
    ensures capacity { vec_capacity list.new ≡ vec_capacity list.old }
{
    let mut kept = 0;
    'places: for place in 0..list.len() {
        let other = list[place];
        if other != id {
            list[kept] = other;
            kept += 1;
        }
    }
    list.truncate(kept);
}

impl Ids {
    /// An order of one ID.
    pub(crate) fn one(alloc: Global, id: u8) -> Result<Ids, AllocError>
        ensures { IfOk result (λ ids. ids ≡ id ∷ []) }
    {
        let mut list = Vec::with_capacity(alloc, 256)?;
        list.push_reserved(id);
        Ok(Ids { list })
    }

    /// Takes an ID out.
    pub(crate) fn take_out(&mut self, id: u8)
        ensures { self.new ≡ without id self.old }
    {
        take_out(&mut self.list, id);
    }

    /// An ID takes the last place: it is the latest from now on.
    pub(crate) fn move_to_back(&mut self, id: u8)
        ensures { self.new ≡ to_back id self.old }
    {
        take_out(&mut self.list, id);
        self.list.push_reserved(id);
    }

    /// What the order is now.
    pub(crate) fn listed(&self) -> Listed
        ensures ids { take result.count result.ids ≡ self.now }
        ensures few { result.count ≤ 256 }
        ensures once { IsOnce self.now }
    {
        copied(self.list.as_slice())
    }

    /// States, at no cost, that each ID stands in the order once at most.
    pub(crate) fn known(&self)
        ensures { IsOnce self.now }
    {
        let _list = &self.list;
    }

    /// The IDs in order.
    pub(crate) fn as_slice(&self) -> &[u8]
        ensures { result.now ≡ self.now }
    {
        self.list.as_slice()
    }
}

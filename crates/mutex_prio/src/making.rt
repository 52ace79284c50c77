//! Mutexes are made, unlocked and asked about.

ghost use Rattle.std.specs.Prelude.{◌≡◌, ◌∷◌, [], pos, true};
ghost use Rattle.kernel_model.specs.Words.Checks.{answer, within};
ghost use Rattle.object_model.specs.Mutexes.Calls.{create_mutex, new_mutex, refer_mutex, unlock_mutex};
ghost use Rattle.mutex_prio.specs.Parts.{AreQueued};
ghost use Rattle.mutex_prio.specs.Tables.{fits_ceiling};

use crate::attributes::{has_mutex_attributes, mutex_queue, object_id};
use crate::serving::FIRST_MUTEX;
use crate::table::Mutexes;
use kernel_base::Base;
use kernel_base::answers::{caller, done, failed};
use kernel_model::marks::Mark;
use object_model::mutexes::Mutex;
use tk_types::{Answer, Attributes, Er, Outcome, Who};

/// A new mutex, which nobody owns.
fn new_mutex(attributes: Attributes, ceiling: i32) -> Mutex
    requires { attributes.ta_ceiling ≡ true → within 1 140 ceiling ≡ true }
    ensures row { result ≡ new_mutex attributes ceiling }
    ensures fits { fits_ceiling result.ceiling ≡ true }
{
    Mutex {
        order: mutex_queue(attributes),
        inherits: attributes.ta_inherit,
        ceiling: if attributes.ta_ceiling {
            Some(ceiling as u8)
        } else {
            None
        },
        owner: 0,
    }
}

/// `tk_cre_mtx`: a mutex with the least free ID.
#[tactic(auto, unfolding(object_model::specs::Mutexes::Calls::create_mutex))]
pub(crate) fn create_mutex(
    base: &Base,
    table: &mut Mutexes,
    attributes: Attributes,
    ceiling: i32,
) -> Outcome
    ensures { create_mutex base.now table.old attributes ceiling ≡ record { base = base.now; table = table.new; outcome = result } }
{
    if !has_mutex_attributes(attributes) {
        return failed(Er::RsAtr);
    }
    if attributes.ta_ceiling && (ceiling < 1 || ceiling > 140) {
        return failed(Er::Par);
    }
    let id = table.free_id();
    if id == 0 {
        return failed(Er::Limit);
    }
    table.make(id, new_mutex(attributes, ceiling));
    done(id as i32)
}

/// `tk_unl_mtx`: the owner frees it.
#[tactic(auto, unfolding(object_model::specs::Mutexes::Calls::unlock_mutex))]
pub(crate) fn unlock_mutex(base: &Base, table: &mut Mutexes, who: Who, id: i32) -> Outcome
    ensures { unlock_mutex base.now table.old who id ≡ record { base = base.now; table = table.new; outcome = result } }
{
    let Some(id) = object_id(id) else {
        return failed(Er::Id);
    };
    if !base.allows(who, Mark::NeedsTask) {
        return failed(Er::Ctx);
    }
    if !table.has_mtx(id) {
        return failed(Er::NoExs);
    }
    if table.owner_of(id) != caller(who) {
        return failed(Er::IlUse);
    }
    table.free(id);
    done(0)
}

/// What a mutex shows: its owner or 0, and the first waiter or 0.
fn shown(owner: u8, first: u8) -> Answer
    ensures { result ≡ answer (pos 0) (pos owner ∷ pos first ∷ []) }
{
    Answer {
        value: 0,
        fields: [owner as i32, first as i32, 0, 0, 0],
        used: 2,
    }
}

/// `tk_ref_mtx`: the owner or 0, and the first waiter or 0.
#[tactic(auto, unfolding(object_model::specs::Mutexes::Calls::refer_mutex))]
pub(crate) fn refer_mutex(base: &Base, table: &Mutexes, id: i32) -> Outcome
    requires queued { AreQueued base.now table.now }
    ensures { refer_mutex base.now table.now id ≡ record { base = base.now; table = table.now; outcome = result } }
{
    let Some(id) = object_id(id) else {
        return failed(Er::Id);
    };
    let Some(row) = table.mutex(id) else {
        return failed(Er::NoExs);
    };
    let first = base.first_waiter(row.order, FIRST_MUTEX - 1 + id as u32);
    Outcome::Returned(shown(row.owner, first))
}

//! Calls on semaphores that don't wait.

ghost use Rattle.std.specs.Prelude.{◌≡◌, ◌∷◌, [], pos};
ghost use Rattle.kernel_model.specs.Words.Checks.{answer};
ghost use Rattle.kernel_model.specs.SemFlags.Calls.{create_sem, refer_sem, signal_sem};
ghost use Rattle.sem_flag.specs.Parts.{AreQueued};

use crate::attributes::{has_sem_attributes, object_id, order_of};
use crate::serving::FIRST_SEM;
use crate::table::SemFlags;
use kernel_base::Base;
use kernel_base::answers::{done, failed};
use kernel_model::objects::Semaphore;
use tk_types::{Answer, Attributes, Er, Outcome};

/// `tk_cre_sem`: a semaphore with the least free ID.
#[tactic(auto, unfolding(kernel_model::specs::SemFlags::Calls::create_sem))]
pub(crate) fn create_sem(
    base: &Base,
    table: &mut SemFlags,
    attributes: Attributes,
    count: i32,
    most: i32,
) -> Outcome
    ensures { create_sem base.now table.old attributes count most ≡ record { base = base.now; table = table.new; outcome = result } }
{
    if !has_sem_attributes(attributes) {
        return failed(Er::RsAtr);
    }
    if most < 1 || most > 65535 {
        return failed(Er::Par);
    }
    if count < 0 || count > most {
        return failed(Er::Par);
    }
    let id = table.free_sem();
    if id == 0 {
        return failed(Er::Limit);
    }
    table.set_sem(
        id,
        Some(Semaphore {
            order: order_of(attributes),
            any_place: attributes.ta_cnt,
            count: count as u16,
            most: most as u16,
        }),
    );
    done(id as i32)
}

/// `tk_sig_sem`: adds to the count.
#[tactic(auto, unfolding(kernel_model::specs::SemFlags::Calls::signal_sem))]
pub(crate) fn signal_sem(base: &Base, table: &mut SemFlags, id: i32, count: i32) -> Outcome
    ensures { signal_sem base.now table.old id count ≡ record { base = base.now; table = table.new; outcome = result } }
{
    let Some(id) = object_id(id) else {
        return failed(Er::Id);
    };
    if count < 1 {
        return failed(Er::Par);
    }
    let Some(row) = table.sem(id) else {
        return failed(Er::NoExs);
    };
    if row.count as u32 + count as u32 > row.most as u32 {
        return failed(Er::QOvr);
    }
    table.set_sem(
        id,
        Some(Semaphore {
            count: row.count + count as u16,
            ..row
        }),
    );
    done(0)
}

/// What a semaphore shows: its count, and the first waiter or 0.
fn shown(count: u16, first: u8) -> Answer
    ensures { result ≡ answer (pos 0) (pos count ∷ pos first ∷ []) }
{
    Answer {
        value: 0,
        fields: [count as i32, first as i32, 0, 0, 0],
        used: 2,
    }
}

/// `tk_ref_sem`: the count, and the first waiter or 0.
#[tactic(auto, unfolding(kernel_model::specs::SemFlags::Calls::refer_sem))]
pub(crate) fn refer_sem(base: &Base, table: &SemFlags, id: i32) -> Outcome
    requires queued { AreQueued base.now table.now }
    ensures { refer_sem base.now table.now id ≡ record { base = base.now; table = table.now; outcome = result } }
{
    let Some(id) = object_id(id) else {
        return failed(Er::Id);
    };
    let Some(row) = table.sem(id) else {
        return failed(Er::NoExs);
    };
    let first = base.first_waiter(row.order, FIRST_SEM - 1 + id as u32);
    Outcome::Returned(shown(row.count, first))
}

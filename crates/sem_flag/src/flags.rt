//! Calls on event flags that don't wait.

ghost use Rattle.std.specs.Prelude.{◌≡◌, ◌∷◌, [], pos};
ghost use Rattle.std.specs.Int.{w32, cast_signed};
ghost use Rattle.kernel_model.specs.Words.Checks.{answer};
ghost use Rattle.kernel_model.specs.SemFlags.Calls.{clear_flag, create_flag, refer_flag, set_flag};
ghost use Rattle.sem_flag.specs.Parts.{AreQueued};

use crate::attributes::{has_flag_attributes, object_id, order_of};
use crate::serving::FIRST_FLAG;
use crate::table::SemFlags;
use kernel_base::Base;
use kernel_base::answers::{done, failed};
use kernel_model::objects::EventFlag;
use tk_types::{Answer, Attributes, Er, Outcome};

/// `tk_cre_flg`: an event flag with the least free ID.
#[tactic(auto, unfolding(kernel_model::specs::SemFlags::Calls::create_flag))]
pub(crate) fn create_flag(
    base: &Base,
    table: &mut SemFlags,
    attributes: Attributes,
    pattern: i32,
) -> Outcome
    ensures { create_flag base.now table.old attributes pattern ≡ record { base = base.now; table = table.new; outcome = result } }
{
    if !has_flag_attributes(attributes) {
        return failed(Er::RsAtr);
    }
    let id = table.free_flag();
    if id == 0 {
        return failed(Er::Limit);
    }
    table.set_flag(
        id,
        Some(EventFlag {
            order: order_of(attributes),
            many: attributes.ta_wmul,
            pattern: pattern.cast_unsigned(),
        }),
    );
    done(id as i32)
}

/// `tk_set_flg`: sets bits.
#[tactic(auto, unfolding(kernel_model::specs::SemFlags::Calls::set_flag))]
pub(crate) fn set_flag(base: &Base, table: &mut SemFlags, id: i32, pattern: i32) -> Outcome
    ensures { set_flag base.now table.old id pattern ≡ record { base = base.now; table = table.new; outcome = result } }
{
    let Some(id) = object_id(id) else {
        return failed(Er::Id);
    };
    let Some(row) = table.flag(id) else {
        return failed(Er::NoExs);
    };
    table.set_flag(
        id,
        Some(EventFlag {
            pattern: row.pattern | pattern.cast_unsigned(),
            ..row
        }),
    );
    done(0)
}

/// `tk_clr_flg`: keeps only these bits.
#[tactic(auto, unfolding(kernel_model::specs::SemFlags::Calls::clear_flag))]
pub(crate) fn clear_flag(base: &Base, table: &mut SemFlags, id: i32, pattern: i32) -> Outcome
    ensures { clear_flag base.now table.old id pattern ≡ record { base = base.now; table = table.new; outcome = result } }
{
    let Some(id) = object_id(id) else {
        return failed(Er::Id);
    };
    let Some(row) = table.flag(id) else {
        return failed(Er::NoExs);
    };
    table.set_flag(
        id,
        Some(EventFlag {
            pattern: row.pattern & pattern.cast_unsigned(),
            ..row
        }),
    );
    done(0)
}

/// What an event flag shows: its pattern, and the first waiter or 0.
fn shown(pattern: u32, first: u8) -> Answer
    ensures { result ≡ answer (pos 0) (cast_signed w32 pattern ∷ pos first ∷ []) }
{
    Answer {
        value: 0,
        fields: [pattern.cast_signed(), first as i32, 0, 0, 0],
        used: 2,
    }
}

/// `tk_ref_flg`: the pattern, and the first waiter or 0.
#[tactic(auto, unfolding(kernel_model::specs::SemFlags::Calls::refer_flag))]
pub(crate) fn refer_flag(base: &Base, table: &SemFlags, id: i32) -> Outcome
    requires queued { AreQueued base.now table.now }
    ensures { refer_flag base.now table.now id ≡ record { base = base.now; table = table.now; outcome = result } }
{
    let Some(id) = object_id(id) else {
        return failed(Er::Id);
    };
    let Some(row) = table.flag(id) else {
        return failed(Er::NoExs);
    };
    let first = base.first_waiter(row.order, FIRST_FLAG - 1 + id as u32);
    Outcome::Returned(shown(row.pattern, first))
}

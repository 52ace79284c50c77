//! Waits for event flags.

ghost use Rattle.std.specs.Prelude.{◌≡◌, ◌<◌, ◌≤◌, ◌^◌, Some};
ghost use Rattle.kernel_model.specs.SemFlags.Calls.{may_join, wait_flag, waited_for_flag};
ghost use Rattle.kernel_model.specs.SemFlags.Tables.{flag_at};
ghost use Rattle.sem_flag.specs.Parts.{AreQueued};

use crate::attributes::{is_mode, object_id};
use crate::serving::{FIRST_FLAG, clear, flag_answer, has_bits};
use crate::table::SemFlags;
use kernel_base::Base;
use kernel_base::answers::{caller, failed};
use kernel_model::marks::Mark;
use kernel_model::objects::{EventFlag, FlagWish};
use tk_types::{Er, FlagMode, Outcome, Who};

/// Whether one task more may wait for an event flag.
fn may_join(base: &Base, table: &SemFlags, row: EventFlag, id: u8) -> bool
    requires low { 1 ≤ id }
    requires high { id ≤ 64 }
    requires there { flag_at table.now id ≡ Some row }
    requires queued { AreQueued base.now table.now }
    ensures { result ≡ may_join base.now id (Some row) }
{
    row.many || base.first_waiter(row.order, FIRST_FLAG - 1 + id as u32) == 0
}

/// Answers the pattern of an event flag where it has the bits of a wish, or lets the task wait.
fn answer_or_wait(
    base: &mut Base,
    table: &mut SemFlags,
    task: u8,
    id: u8,
    row: EventFlag,
    wish: FlagWish,
    timeout: i32,
) -> Outcome
    requires few { base.old.made < 2 ^ 63 }
    requires early { base.old.time < 2 ^ 63 }
    requires low { 1 ≤ id }
    requires high { id ≤ 64 }
    requires there { flag_at table.old id ≡ Some row }
    requires queued { AreQueued base.old table.old }
    ensures { waited_for_flag base.old table.old task id wish timeout (Some row) ≡ record { base = base.new; table = table.new; outcome = result } }
{
    if has_bits(row.pattern, wish) {
        clear(table, id, row, wish);
        return Outcome::Returned(flag_answer(row));
    }
    if timeout == 0 {
        return failed(Er::TmOut);
    }
    table.ask_wish(task, wish);
    base.make_wait(task, FIRST_FLAG - 1 + id as u32, row.order, timeout);
    Outcome::Blocked
}

/// `tk_wai_flg`: answers the pattern once it has the bits, or waits.
#[tactic(auto, unfolding(kernel_model::specs::SemFlags::Calls::wait_flag))]
pub(crate) fn wait_flag(
    base: &mut Base,
    table: &mut SemFlags,
    who: Who,
    id: i32,
    bits: i32,
    mode: FlagMode,
    timeout: i32,
) -> Outcome
    requires few { base.old.made < 2 ^ 63 }
    requires early { base.old.time < 2 ^ 63 }
    requires queued { AreQueued base.old table.old }
    ensures { wait_flag base.old table.old who id bits mode timeout ≡ record { base = base.new; table = table.new; outcome = result } }
{
    let Some(id) = object_id(id) else {
        return failed(Er::Id);
    };
    if bits == 0 {
        return failed(Er::Par);
    }
    if !is_mode(mode) {
        return failed(Er::Par);
    }
    if timeout < -1 {
        return failed(Er::Par);
    }
    if !base.allows(who, Mark::MayWait) {
        return failed(Er::Ctx);
    }
    let Some(row) = table.flag(id) else {
        return failed(Er::NoExs);
    };
    if !may_join(base, table, row, id) {
        return failed(Er::Obj);
    }
    let wish = FlagWish {
        bits: bits.cast_unsigned(),
        mode,
    };
    answer_or_wait(base, table, caller(who), id, row, wish, timeout)
}

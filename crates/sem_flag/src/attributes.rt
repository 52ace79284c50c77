//! Attributes and modes.

ghost use Rattle.std.specs.Prelude.{◌≡◌, ◌≤◌, IfSome, Some, None, if◌then◌else◌};
ghost use Rattle.kernel_model.specs.Words.Checks.{natural, within};
ghost use Rattle.kernel_model.specs.SemFlags.Calls.{has_flag_attributes, has_sem_attributes, is_mode, order_of};

use kernel_base::Order;
use tk_types::{Attributes, FlagMode};

/// Whether a list has only attributes of a semaphore, and none twice of a group.
pub(crate) fn has_sem_attributes(a: Attributes) -> bool
    ensures { result ≡ has_sem_attributes a }
{
    !(a.ta_wsgl
        || a.ta_wmul
        || a.ta_mfifo
        || a.ta_mpri
        || a.ta_inherit
        || a.ta_ceiling
        || a.ta_sta
        || a.ta_phs)
        && (!(a.ta_tfifo && a.ta_tpri) && !(a.ta_first && a.ta_cnt))
}

/// Whether a list has only attributes of an event flag, and none twice of a group.
pub(crate) fn has_flag_attributes(a: Attributes) -> bool
    ensures { result ≡ has_flag_attributes a }
{
    !(a.ta_first
        || a.ta_cnt
        || a.ta_mfifo
        || a.ta_mpri
        || a.ta_inherit
        || a.ta_ceiling
        || a.ta_sta
        || a.ta_phs)
        && (!(a.ta_tfifo && a.ta_tpri) && !(a.ta_wsgl && a.ta_wmul))
}

/// How waiters queue: the first of the group is the default.
pub(crate) fn order_of(a: Attributes) -> Order
    ensures { result ≡ order_of a }
{
    if a.ta_tpri {
        return Order::Priority;
    }
    Order::Fifo
}

/// Whether a mode has one of the two conditions, and not both clears.
pub(crate) fn is_mode(mode: FlagMode) -> bool
    ensures { result ≡ is_mode mode }
{
    (mode.twf_andw || mode.twf_orw)
        && !(mode.twf_andw && mode.twf_orw)
        && !(mode.twf_clr && mode.twf_bitclr)
}

/// The object that a number from 1 to 64 names.
pub(crate) fn object_id(id: i32) -> Option<u8>
    ensures known { result ≡ (if within 1 64 id then Some (natural id) else None) }
    ensures low { IfSome result (λ id. 1 ≤ id) }
    ensures high { IfSome result (λ id. id ≤ 64) }
{
    if id < 1 || id > 64 {
        return None;
    }
    Some(id as u8)
}

//! Attributes and IDs.

ghost use Rattle.std.specs.Prelude.{◌≡◌, ◌≤◌, IfSome, Some, None, if◌then◌else◌};
ghost use Rattle.kernel_model.specs.Words.Checks.{natural, within};
ghost use Rattle.kernel_model.specs.SemFlags.Calls.{order_of};
ghost use Rattle.object_model.specs.Mails.Calls.{has_box_attributes, has_order_attributes};

use kernel_base::Order;
use tk_types::Attributes;

/// Whether a list has only attributes of a mailbox, and none twice of a group.
pub(crate) fn has_box_attributes(a: Attributes) -> bool
    ensures { result ≡ has_box_attributes a }
{
    !(a.ta_first
        || a.ta_cnt
        || a.ta_wsgl
        || a.ta_wmul
        || a.ta_inherit
        || a.ta_ceiling
        || a.ta_sta
        || a.ta_phs)
        && (!(a.ta_tfifo && a.ta_tpri) && !(a.ta_mfifo && a.ta_mpri))
}

/// Whether a list has only attributes of a message buffer, and not both orders of its senders.
pub(crate) fn has_order_attributes(a: Attributes) -> bool
    ensures { result ≡ has_order_attributes a }
{
    !(a.ta_first
        || a.ta_cnt
        || a.ta_wsgl
        || a.ta_wmul
        || a.ta_mfifo
        || a.ta_mpri
        || a.ta_inherit
        || a.ta_ceiling
        || a.ta_sta
        || a.ta_phs)
        && !(a.ta_tfifo && a.ta_tpri)
}

/// How waiters queue: the first of the group is the default.
pub(crate) fn order_of(a: Attributes) -> Order
    ensures { result ≡ order_of a }
{
    if a.ta_tpri {
        return Order::Priority;
    }
    Order::Fifo
}

/// The object that a number from 1 to 64 names.
pub(crate) fn object_id(id: i32) -> Option<u8>
    ensures known { result ≡ (if within 1 64 id then Some (natural id) else None) }
    ensures low { IfSome result (λ id. 1 ≤ id) }
    ensures high { IfSome result (λ id. id ≤ 64) }
{
    if id < 1 || id > 64 {
        return None;
    }
    Some(id as u8)
}

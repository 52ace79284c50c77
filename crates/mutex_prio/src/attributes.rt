//! Attributes and IDs.

ghost use Rattle.std.specs.Prelude.{◌≡◌, ◌≤◌, ◌∷◌, [], IfSome, Some, None, if◌then◌else◌};
ghost use Rattle.kernel_model.specs.Words.Checks.{natural, within};
ghost use Rattle.object_model.specs.Mutexes.Calls.{at_most_one, has_mutex_attributes, mutex_queue};

use kernel_base::Order;
use tk_types::Attributes;

/// Whether a list has at most one of the attributes that a mutex may have.
fn has_one_at_most(a: Attributes) -> bool
    ensures { result ≡ at_most_one (a.ta_tfifo ∷ a.ta_tpri ∷ a.ta_inherit ∷ a.ta_ceiling ∷ []) }
{
    if a.ta_tfifo {
        return !(a.ta_tpri || a.ta_inherit || a.ta_ceiling);
    }
    if a.ta_tpri {
        return !(a.ta_inherit || a.ta_ceiling);
    }
    !(a.ta_inherit && a.ta_ceiling)
}

/// Whether a list has only attributes of a mutex, and one of them at most.
pub(crate) fn has_mutex_attributes(a: Attributes) -> bool
    ensures { result ≡ has_mutex_attributes a }
{
    !(a.ta_first
        || a.ta_cnt
        || a.ta_wsgl
        || a.ta_wmul
        || a.ta_mfifo
        || a.ta_mpri
        || a.ta_sta
        || a.ta_phs)
        && has_one_at_most(a)
}

/// How waiters queue: by priority also with inheritance and with a ceiling.
pub(crate) fn mutex_queue(a: Attributes) -> Order
    ensures { result ≡ mutex_queue a }
{
    if a.ta_tpri || a.ta_inherit || a.ta_ceiling {
        return Order::Priority;
    }
    Order::Fifo
}

/// The object that a number from 1 to 64 names.
pub(crate) fn object_id(id: i32) -> Option<u8>
    ensures known { result ≡ (if within 1 64 id then Some (natural id) else None) }
    ensures low { IfSome result (λ id. 1 ≤ id) }
    ensures high { IfSome result (λ id. id ≤ 64) }
{
    if id < 1 || id > 64 {
        return None;
    }
    Some(id as u8)
}

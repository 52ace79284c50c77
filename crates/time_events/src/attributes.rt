//! Attributes and IDs.

ghost use Rattle.std.specs.Prelude.{◌≡◌, ◌≤◌, IfSome, Some, None, if◌then◌else◌};
ghost use Rattle.kernel_model.specs.Tasks.Calls.{has_only_free};
ghost use Rattle.kernel_model.specs.Words.Checks.{natural, within};
ghost use Rattle.context_model.specs.Clocks.Calls.{has_cyclic_attributes};

use tk_types::Attributes;

/// Whether a list has only attributes of a cyclic handler: those without an effect, whether it starts at once, and whether
/// it keeps its phase.
pub(crate) fn has_cyclic_attributes(a: Attributes) -> bool
    ensures { result ≡ has_cyclic_attributes a }
{
    !(a.ta_tfifo
        || a.ta_tpri
        || a.ta_first
        || a.ta_cnt
        || a.ta_wsgl
        || a.ta_wmul
        || a.ta_mfifo
        || a.ta_mpri
        || a.ta_inherit
        || a.ta_ceiling)
}

/// Whether a list has only attributes without an effect.
pub(crate) fn has_only_free(a: Attributes) -> bool
    ensures { result ≡ has_only_free a }
{
    has_cyclic_attributes(a) && !(a.ta_sta || a.ta_phs)
}

/// The handler that a number from 1 to 64 names.
pub(crate) fn handler_id(id: i32) -> Option<u8>
    ensures known { result ≡ (if within 1 64 id then Some (natural id) else None) }
    ensures low { IfSome result (λ id. 1 ≤ id) }
    ensures high { IfSome result (λ id. id ≤ 64) }
{
    if id < 1 || id > 64 {
        return None;
    }
    Some(id as u8)
}

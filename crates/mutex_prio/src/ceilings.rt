//! What ceilings allow.

ghost use Rattle.std.specs.Prelude.{◌≡◌, ◌==◌, true, if◌then◌else◌};
ghost use Rattle.std.specs.List.{list_all};
ghost use Rattle.object_model.specs.Mutexes.Tables.{awaited, awaited_in_phase, ceiling_allows, ceiling_of, held, is_under, owner_of};

use crate::serving::{FIRST_MUTEX, MUTEXES};
use crate::table::Mutexes;
use kernel_base::Base;
use tk_types::Phase;

/// Whether a priority isn't above a ceiling, where there is one: above means a smaller number.
pub(crate) fn is_under(ceiling: Option<u8>, pri: u8) -> bool
    ensures { result ≡ is_under ceiling pri }
{
    match ceiling {
        None => true,
        Some(ceiling) => ceiling <= pri,
    }
}

/// The mutex whose object a task waits for in a phase, or 0.
fn awaited_in_phase(phase: Phase) -> u8
    ensures { result ≡ awaited_in_phase phase }
{
    match phase {
        Phase::Waiting(object) => if object >= FIRST_MUTEX && object < FIRST_MUTEX + MUTEXES {
            (object - (FIRST_MUTEX - 1)) as u8
        } else {
            0
        },
        Phase::Dormant => 0,
        Phase::Ready => 0,
    }
}

/// The mutex that a task waits for, or 0.
pub(crate) fn awaited(base: &Base, task: u8) -> u8
    ensures { result ≡ awaited base.now task }
{
    match base.task(task) {
        None => 0,
        Some(row) => awaited_in_phase(row.phase),
    }
}

/// Whether a priority isn't above the ceiling of a mutex, where a task holds that.
fn one_allows(table: &Mutexes, task: u8, pri: u8, id: u8) -> bool
    ensures { result ≡ (if owner_of table.now id == task then is_under (ceiling_of table.now id) pri else true) }
{
    if table.owner_of(id) != task {
        return true;
    }
    is_under(table.ceiling_of(id), pri)
}

/// Whether a priority isn't above the ceiling of a mutex that a task holds.
fn held_allow(table: &Mutexes, task: u8, pri: u8) -> bool
    ensures { result ≡ list_all (λ id. is_under (ceiling_of table.now id) pri) (held table.now task) }
{
    'locks: for id in table.locks() {
        if !one_allows(table, task, pri, *id) {
            return false;
        }
    }
    true
}

/// Whether a base priority isn't above the ceiling of a mutex that a task holds or waits for: above means a smaller number.
#[tactic(auto, unfolding(object_model::specs::Mutexes::Tables::ceiling_allows))]
pub fn ceiling_allows(base: &Base, table: &Mutexes, task: u8, pri: u8) -> bool
    ensures { result ≡ ceiling_allows base.now table.now task pri }
{
    is_under(table.ceiling_of(awaited(base, task)), pri) && held_allow(table, task, pri)
}

//! What a task that ends gives up.

ghost use Rattle.std.specs.Prelude.{◌≡◌, ◌==◌, ◌≤◌, IfSome, None, Some, if◌then◌else◌, is_some, unwrap_or};
ghost use Rattle.std.specs.List.{last_or};
ghost use Rattle.object_model.specs.Mutexes.Tables.{free_last, held, owner_of};

use crate::table::Mutexes;
use kernel_base::Base;

/// A mutex, where a task holds that, or else an earlier one.
fn later_held(table: &Mutexes, task: u8, id: u8, last: Option<u8>) -> Option<u8>
    requires known { id ≤ 64 }
    requires one { IfSome last (λ other. other ≤ 64) }
    ensures later { result ≡ (if owner_of table.now id == task then Some id else last) }
    ensures known { IfSome result (λ other. other ≤ 64) }
{
    if table.owner_of(id) == task {
        Some(id)
    } else {
        last
    }
}

/// The mutex that a task locked last, of those that it holds.
fn last_held(table: &Mutexes, task: u8) -> Option<u8>
    ensures last { result ≡ last_or None (held table.now task) }
    ensures known { IfSome result (λ id. id ≤ 64) }
{
    let mut last = None;
    'locks: for id in table.locks() {
        last = later_held(table, task, *id, last);
    }
    last
}

/// Frees the mutex that a task locked last, where it holds one. False, with nothing changed, comes exactly where it holds none.
#[tactic(auto, unfolding(object_model::specs::Mutexes::Tables::free_last))]
pub fn free_last(base: &Base, table: &mut Mutexes, task: u8) -> bool
    ensures freed { result ≡ is_some (free_last base.now table.old task) }
    ensures left { table.new ≡ unwrap_or (free_last base.now table.old task) table.old }
{
    let Some(id) = last_held(table, task) else {
        return false;
    };
    table.free(id);
    true
}

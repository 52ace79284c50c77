//! Waiters are served, one at a time.

ghost use Rattle.std.specs.Prelude.{◌≡◌, ◌<◌, ◌≤◌, drop, unwrap_or};
ghost use Rattle.std.specs.Option.{is_some};
ghost use Rattle.kernel_model.specs.Words.Orders.{taken_from};
ghost use Rattle.object_model.specs.Mutexes.Tables.{serve_mutex, serve_mutexes};
ghost use Rattle.object_model.specs.Servings.{first_serving};
ghost use Rattle.mutex_prio.specs.Parts.{AreQueued, parts_of, serve_object};

use crate::table::Mutexes;
use kernel_base::Base;
use kernel_base::answers::plain;

/// The number of the object of the first mutex.
pub(crate) const FIRST_MUTEX: u32 = 256;

/// How many mutexes there can be.
pub(crate) const MUTEXES: u32 = 64;

/// Serves the first waiter of a mutex, where nobody owns it.
#[tactic(auto, unfolding(object_model::specs::Mutexes::Tables::serve_mutex))]
fn serve_mutex(base: &mut Base, table: &mut Mutexes, id: u8) -> bool
    requires low { 1 ≤ id }
    requires high { id ≤ 64 }
    requires queued { AreQueued base.old table.old }
    ensures served { result ≡ is_some (serve_mutex base.old table.old id) }
    ensures left { parts_of base.new table.new ≡ unwrap_or (serve_mutex base.old table.old id) (parts_of base.old table.old) }
{
    let Some(row) = table.mutex(id) else {
        return false;
    };
    if row.owner != 0 {
        return false;
    }
    let Some(task) = base.waiter(row.order, FIRST_MUTEX - 1 + id as u32, 0) else {
        return false;
    };
    base.release(task, plain(0));
    table.lock(id, row, task);
    true
}

/// Serves the first waiter of the object with that number, where it is a mutex that nobody owns: the waiter becomes its owner.
/// False, with nothing changed, comes exactly where none can be served.
pub fn serve(base: &mut Base, table: &mut Mutexes, obj: u32) -> bool
    requires queued { AreQueued base.old table.old }
    ensures served { result ≡ is_some (serve_object base.old table.old obj) }
    ensures left { parts_of base.new table.new ≡ unwrap_or (serve_object base.old table.old obj) (parts_of base.old table.old) }
{
    if obj >= FIRST_MUTEX && obj < FIRST_MUTEX + MUTEXES {
        return serve_mutex(base, table, (obj - (FIRST_MUTEX - 1)) as u8);
    }
    false
}

/// Serves one waiter at the first mutex by ID that can serve one. False, with nothing changed, comes exactly where no mutex can
/// serve one.
#[tactic(auto, unfolding(object_model::specs::Mutexes::Tables::serve_mutexes))]
pub fn serve_first(base: &mut Base, table: &mut Mutexes) -> bool
    requires queued { AreQueued base.old table.old }
    ensures served { result ≡ is_some (serve_mutexes base.old table.old) }
    ensures left { parts_of base.new table.new ≡ unwrap_or (serve_mutexes base.old table.old) (parts_of base.old table.old) }
{
    let used = table.used();
    'mutexes: for id in 1..used {
        if serve_mutex(base, table, id) {
            return true;
        }
    }
    false
}

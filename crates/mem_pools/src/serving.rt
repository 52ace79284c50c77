//! Waiters are served, one at a time.

ghost use Rattle.std.specs.Prelude.{◌≡◌, ◌<◌, ◌≤◌, unwrap_or};
ghost use Rattle.std.specs.Option.{is_some};
ghost use Rattle.object_model.specs.Pools.Fixed.{serve_fixed, serve_fixed_pools};
ghost use Rattle.object_model.specs.Pools.Variable.{serve_variable, serve_variable_pools};
ghost use Rattle.mem_pools.specs.Parts.{AreQueued, parts_of, serve_object};

use crate::queues::{FIRST_FIXED, FIRST_VARIABLE};
use crate::table::Pools;
use kernel_base::Base;
use kernel_base::answers::plain;

/// Serves the first waiter of a fixed pool, where a block is free.
#[tactic(auto, unfolding(object_model::specs::Pools::Fixed::serve_fixed))]
fn serve_fixed(base: &mut Base, table: &mut Pools, id: u8) -> bool
    requires low { 1 ≤ id }
    requires high { id ≤ 64 }
    requires queued { AreQueued base.old table.old }
    ensures served { result ≡ is_some (serve_fixed (parts_of base.old table.old) id) }
    ensures left { parts_of base.new table.new ≡ unwrap_or (serve_fixed (parts_of base.old table.old) id) (parts_of base.old table.old) }
{
    let Some(pool) = table.fixed(id) else {
        return false;
    };
    let Some(task) = base.waiter(pool.order(), FIRST_FIXED - 1 + id as u32, 0) else {
        return false;
    };
    let number = table.take_block(id);
    if number == 0 {
        return false;
    }
    base.release(task, plain(number as i32));
    true
}

/// Serves the first waiter of a variable pool, where its size fits.
#[tactic(auto, unfolding(object_model::specs::Pools::Variable::serve_variable))]
fn serve_variable(base: &mut Base, table: &mut Pools, id: u8) -> bool
    requires low { 1 ≤ id }
    requires high { id ≤ 64 }
    requires queued { AreQueued base.old table.old }
    ensures served { result ≡ is_some (serve_variable (parts_of base.old table.old) id) }
    ensures left { parts_of base.new table.new ≡ unwrap_or (serve_variable (parts_of base.old table.old) id) (parts_of base.old table.old) }
{
    let Some(pool) = table.variable(id) else {
        return false;
    };
    let Some(task) = base.waiter(pool.order(), FIRST_VARIABLE - 1 + id as u32, 0) else {
        return false;
    };
    let size = table.size_of(task);
    let Some(offset) = table.take_bytes(id, size) else {
        return false;
    };
    base.release(task, plain(offset as i32));
    true
}

/// Serves one waiter of the object with that number, where one can be served: a fixed or a variable pool. False, with
/// nothing changed, comes exactly where none can be. It takes no memory.
pub fn serve(base: &mut Base, table: &mut Pools, obj: u32) -> bool
    requires queued { AreQueued base.old table.old }
    ensures served { result ≡ is_some (serve_object (parts_of base.old table.old) obj) }
    ensures left { parts_of base.new table.new ≡ unwrap_or (serve_object (parts_of base.old table.old) obj) (parts_of base.old table.old) }
{
    if obj >= FIRST_FIXED && obj < FIRST_VARIABLE {
        return serve_fixed(base, table, (obj - (FIRST_FIXED - 1)) as u8);
    }
    if obj >= FIRST_VARIABLE && obj < FIRST_VARIABLE + 64 {
        return serve_variable(base, table, (obj - (FIRST_VARIABLE - 1)) as u8);
    }
    false
}

/// Serves one waiter at the first fixed pool by ID that can serve one. False, with nothing changed, comes exactly where none
/// can. It takes no memory.
#[tactic(auto, unfolding(object_model::specs::Pools::Fixed::serve_fixed_pools))]
pub fn serve_first_fixed(base: &mut Base, table: &mut Pools) -> bool
    requires queued { AreQueued base.old table.old }
    ensures served { result ≡ is_some (serve_fixed_pools (parts_of base.old table.old)) }
    ensures left { parts_of base.new table.new ≡ unwrap_or (serve_fixed_pools (parts_of base.old table.old)) (parts_of base.old table.old) }
{
    let used = table.fixed_used();
    'pools: for id in 1..used {
        if serve_fixed(base, table, id) {
            return true;
        }
    }
    false
}

/// Serves one waiter at the first variable pool by ID that can serve one. False, with nothing changed, comes exactly where
/// none can. It takes no memory.
#[tactic(auto, unfolding(object_model::specs::Pools::Variable::serve_variable_pools))]
pub fn serve_first_variable(base: &mut Base, table: &mut Pools) -> bool
    requires queued { AreQueued base.old table.old }
    ensures served { result ≡ is_some (serve_variable_pools (parts_of base.old table.old)) }
    ensures left { parts_of base.new table.new ≡ unwrap_or (serve_variable_pools (parts_of base.old table.old)) (parts_of base.old table.old) }
{
    let used = table.variable_used();
    'pools: for id in 1..used {
        if serve_variable(base, table, id) {
            return true;
        }
    }
    false
}

//! Calls on variable pools.

ghost use Rattle.std.specs.Prelude.{◌≡◌, ◌<◌, ◌≤◌, ◌^◌, ◌∷◌, [], IfOk, OnErr, Some, pos};
ghost use Rattle.std.specs.Option.{option_map};
ghost use Rattle.kernel_model.specs.Words.Checks.{answer};
ghost use Rattle.object_model.specs.Pools.Calls.{create_variable, get_variable, got_from_variable, refer_variable, release_variable};
ghost use Rattle.object_model.specs.Pools.Tables.{variable_at};
ghost use Rattle.mem_pools.specs.Parts.{AreQueued, done_of, parts_of};

use crate::attributes::{block_size, has_order_attributes, object_id, order_of};
use crate::queues::{FIRST_VARIABLE, would_be_first};
use crate::table::Pools;
use kernel_base::answers::{caller, done, failed};
use kernel_base::{Base, Order};
use kernel_model::marks::Mark;
use std::alloc::AllocError;
use tk_types::{Answer, Attributes, Er, Outcome, Who};

/// `tk_cre_mpl`: a variable pool with the least free ID, whose size is rounded up and counted.
#[tactic(auto, unfolding(object_model::specs::Pools::Calls::create_variable))]
pub(crate) fn create_variable(
    base: &mut Base,
    table: &mut Pools,
    attributes: Attributes,
    size: i32,
) -> Result<Outcome, AllocError>
    ensures done { IfOk result (λ outcome. create_variable (parts_of base.old table.old) attributes size ≡ done_of base.new table.new outcome) }
    ensures kept { OnErr result (parts_of base.new table.new ≡ parts_of base.old table.old) }
{
    if !has_order_attributes(attributes) {
        return Ok(failed(Er::RsAtr));
    }
    if size < 8 || size > 65536 {
        return Ok(failed(Er::Par));
    }
    let id = table.free_variable();
    if id == 0 {
        return Ok(failed(Er::Limit));
    }
    let bytes = block_size(size as u32);
    if !base.has_room(bytes) {
        return Ok(failed(Er::NoMem));
    }
    table.make_variable(id, order_of(attributes), bytes)?;
    base.take_bytes(bytes);
    Ok(done(id as i32))
}

/// A task takes a block at the least offset at which it fits, unless somebody stands before it who has to be served first;
/// else it waits. The size is 8 bytes at least.
fn place_or_wait(
    base: &mut Base,
    table: &mut Pools,
    task: u8,
    id: u8,
    order: Order,
    size: u32,
    timeout: i32,
) -> Outcome
    requires few { base.old.made < 2 ^ 63 }
    requires early { base.old.time < 2 ^ 63 }
    requires queued { AreQueued base.old table.old }
    requires low { 1 ≤ id }
    requires high { id ≤ 64 }
    requires there { option_map (λ k. k.order) (variable_at table.old id) ≡ Some order }
    requires some { 8 ≤ size }
    ensures { got_from_variable (parts_of base.old table.old) task id size timeout (variable_at table.old id) ≡ done_of base.new table.new result }
{
    let obj = FIRST_VARIABLE - 1 + id as u32;
    if would_be_first(base, order, task, obj) {
        if let Some(offset) = table.take_bytes(id, size) {
            return done(offset as i32);
        }
    }
    if timeout == 0 {
        return failed(Er::TmOut);
    }
    table.ask_size(task, size);
    base.make_wait(task, obj, order, timeout);
    Outcome::Blocked
}

/// `tk_get_mpl`: answers the offset of the block that it takes, whose size is rounded up, or waits.
#[tactic(auto, unfolding(object_model::specs::Pools::Calls::get_variable))]
pub(crate) fn get_variable(
    base: &mut Base,
    table: &mut Pools,
    who: Who,
    id: i32,
    size: i32,
    timeout: i32,
) -> Outcome
    requires few { base.old.made < 2 ^ 63 }
    requires early { base.old.time < 2 ^ 63 }
    requires queued { AreQueued base.old table.old }
    ensures { get_variable (parts_of base.old table.old) who id size timeout ≡ done_of base.new table.new result }
{
    let Some(id) = object_id(id) else {
        return failed(Er::Id);
    };
    if size < 1 {
        return failed(Er::Par);
    }
    if timeout < -1 {
        return failed(Er::Par);
    }
    if !base.allows(who, Mark::MayWait) {
        return failed(Er::Ctx);
    }
    let Some(pool) = table.variable(id) else {
        return failed(Er::NoExs);
    };
    let size = block_size(size as u32);
    if size > pool.size() {
        return failed(Er::Par);
    }
    let order = pool.order();
    place_or_wait(base, table, caller(who), id, order, size, timeout)
}

/// `tk_rel_mpl`: the live block that begins at an offset is free again.
#[tactic(auto, unfolding(object_model::specs::Pools::Calls::release_variable))]
pub(crate) fn release_variable(base: &Base, table: &mut Pools, id: i32, offset: i32) -> Outcome
    ensures { release_variable (parts_of base.now table.old) id offset ≡ done_of base.now table.new result }
{
    let Some(id) = object_id(id) else {
        return failed(Er::Id);
    };
    if offset < 0 {
        return failed(Er::Par);
    }
    let Some(pool) = table.variable(id) else {
        return failed(Er::NoExs);
    };
    if !pool.begins_block(offset as u32) {
        return failed(Er::Par);
    }
    table.put_bytes_back(id, offset as u32);
    done(0)
}

/// What a variable pool shows: the free bytes and the size of the largest gap, at most 65,536 each, and the first waiter
/// or 0.
fn shown(free: u32, largest: u32, first: u8) -> Answer
    requires free { free ≤ 65536 }
    requires largest { largest ≤ 65536 }
    ensures { result ≡ answer (pos 0) (pos free ∷ pos largest ∷ pos first ∷ []) }
{
    Answer {
        value: 0,
        fields: [free as i32, largest as i32, first as i32, 0, 0],
        used: 3,
    }
}

/// `tk_ref_mpl`: the free bytes, the size of the largest gap, and the first waiter or 0.
#[tactic(auto, unfolding(object_model::specs::Pools::Calls::refer_variable))]
pub(crate) fn refer_variable(base: &Base, table: &Pools, id: i32) -> Outcome
    requires queued { AreQueued base.now table.now }
    ensures { refer_variable (parts_of base.now table.now) id ≡ done_of base.now table.now result }
{
    let Some(id) = object_id(id) else {
        return failed(Er::Id);
    };
    let Some(pool) = table.variable(id) else {
        return failed(Er::NoExs);
    };
    let first = base.first_waiter(pool.order(), FIRST_VARIABLE - 1 + id as u32);
    Outcome::Returned(shown(pool.free_bytes(), pool.largest_gap(), first))
}

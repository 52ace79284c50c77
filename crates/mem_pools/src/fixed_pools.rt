//! Calls on fixed pools.

ghost use Rattle.std.specs.Prelude.{◌≡◌, ◌<◌, ◌≤◌, ◌^◌, ◌∷◌, [], IfOk, OnErr, pos};
ghost use Rattle.kernel_model.specs.Words.Checks.{answer};
ghost use Rattle.object_model.specs.Pools.Calls.{create_fixed, get_fixed, refer_fixed, release_fixed};
ghost use Rattle.mem_pools.specs.Parts.{AreQueued, done_of, parts_of};

use crate::attributes::{has_order_attributes, object_id, order_of};
use crate::queues::FIRST_FIXED;
use crate::table::Pools;
use kernel_base::Base;
use kernel_base::answers::{caller, done, failed};
use kernel_model::marks::Mark;
use std::alloc::AllocError;
use tk_types::{Answer, Attributes, Er, Outcome, Who};

/// `tk_cre_mpf`: a fixed pool with the least free ID, the bytes of all its blocks counted.
#[tactic(auto, unfolding(object_model::specs::Pools::Calls::create_fixed))]
pub(crate) fn create_fixed(
    base: &mut Base,
    table: &mut Pools,
    attributes: Attributes,
    count: i32,
    size: i32,
) -> Result<Outcome, AllocError>
    ensures done { IfOk result (λ outcome. create_fixed (parts_of base.old table.old) attributes count size ≡ done_of base.new table.new outcome) }
    ensures kept { OnErr result (parts_of base.new table.new ≡ parts_of base.old table.old) }
{
    if !has_order_attributes(attributes) {
        return Ok(failed(Er::RsAtr));
    }
    if count < 1 || count > 1024 {
        return Ok(failed(Er::Par));
    }
    if size < 1 || size > 65536 {
        return Ok(failed(Er::Par));
    }
    let id = table.free_fixed();
    if id == 0 {
        return Ok(failed(Er::Limit));
    }
    let bytes = count as u32 * size as u32;
    if !base.has_room(bytes) {
        return Ok(failed(Er::NoMem));
    }
    table.make_fixed(id, order_of(attributes), count as usize, size as u32)?;
    base.take_bytes(bytes);
    Ok(done(id as i32))
}

/// `tk_get_mpf`: answers the number of the block that it takes, or waits.
#[tactic(auto, unfolding(object_model::specs::Pools::Calls::get_fixed))]
pub(crate) fn get_fixed(
    base: &mut Base,
    table: &mut Pools,
    who: Who,
    id: i32,
    timeout: i32,
) -> Outcome
    requires few { base.old.made < 2 ^ 63 }
    requires early { base.old.time < 2 ^ 63 }
    requires queued { AreQueued base.old table.old }
    ensures { get_fixed (parts_of base.old table.old) who id timeout ≡ done_of base.new table.new result }
{
    let Some(id) = object_id(id) else {
        return failed(Er::Id);
    };
    if timeout < -1 {
        return failed(Er::Par);
    }
    if !base.allows(who, Mark::MayWait) {
        return failed(Er::Ctx);
    }
    let Some(pool) = table.fixed(id) else {
        return failed(Er::NoExs);
    };
    let order = pool.order();
    let number = table.take_block(id);
    if number != 0 {
        return done(number as i32);
    }
    if timeout == 0 {
        return failed(Er::TmOut);
    }
    base.make_wait(caller(who), FIRST_FIXED - 1 + id as u32, order, timeout);
    Outcome::Blocked
}

/// `tk_rel_mpf`: a block that is out is free again.
#[tactic(auto, unfolding(object_model::specs::Pools::Calls::release_fixed))]
pub(crate) fn release_fixed(base: &Base, table: &mut Pools, id: i32, block: i32) -> Outcome
    ensures { release_fixed (parts_of base.now table.old) id block ≡ done_of base.now table.new result }
{
    let Some(id) = object_id(id) else {
        return failed(Er::Id);
    };
    if block < 0 {
        return failed(Er::Par);
    }
    let Some(pool) = table.fixed(id) else {
        return failed(Er::NoExs);
    };
    if !pool.is_out(block as usize) {
        return failed(Er::Par);
    }
    table.put_block_back(id, block as usize);
    done(0)
}

/// What a fixed pool shows: how many blocks are free, at most 1,024, and the first waiter or 0.
fn shown(free: usize, first: u8) -> Answer
    requires { free ≤ 1024 }
    ensures { result ≡ answer (pos 0) (pos free ∷ pos first ∷ []) }
{
    Answer {
        value: 0,
        fields: [free as i32, first as i32, 0, 0, 0],
        used: 2,
    }
}

/// `tk_ref_mpf`: how many blocks are free, and the first waiter or 0.
#[tactic(auto, unfolding(object_model::specs::Pools::Calls::refer_fixed))]
pub(crate) fn refer_fixed(base: &Base, table: &Pools, id: i32) -> Outcome
    requires queued { AreQueued base.now table.now }
    ensures { refer_fixed (parts_of base.now table.now) id ≡ done_of base.now table.now result }
{
    let Some(id) = object_id(id) else {
        return failed(Er::Id);
    };
    let Some(pool) = table.fixed(id) else {
        return failed(Er::NoExs);
    };
    let first = base.first_waiter(pool.order(), FIRST_FIXED - 1 + id as u32);
    Outcome::Returned(shown(pool.free_blocks(), first))
}

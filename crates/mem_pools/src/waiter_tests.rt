//! Calls on pools that have waiters, with answers from the rules of the calls and of serving.

ghost use Rattle.std.specs.Prelude.{◌≡◌, ◌<◌, ◌≤◌, ℕ, Some, length, true};
ghost use Rattle.kernel_model.specs.Tasks.Base.{task_at, waits_for};
ghost use Rattle.kernel_model.specs.Tasks.Queues.{AreOfOrder, queue_in};
ghost use Rattle.object_model.specs.Pools.Tables.{FixedPool, VariablePool, fixed_at, fixed_object, size_of, variable_at, variable_object};
ghost use Rattle.mem_pools.specs.Parts.{AreQueued};

use super::*;
use crate::queues::{FIRST_FIXED, FIRST_VARIABLE};
use kernel_base::answers::plain;
use kernel_base::{Base, Order};
use std::alloc::AllocError;
use std::test::Fail;
use tk_types::{Attributes, Er, Outcome, PoolCall, Release, Who};

/// The task that calls, its call, and the value that it is answered, or none where it waits.
#[derive(Clone, Copy)]
struct Made {
    task: u8,
    call: PoolCall,
    value: Option<i32>,
}

/// Whether a task queues in that order, where it waits for the object.
fn is_of_order(base: &Base, order: Order, obj: u32, task: u8) -> bool
    ensures { result ≡ true → waits_for base.now obj task ≡ true → queue_in (task_at base.now task) ≡ order }
{
    if !base.waits_for(obj, task) {
        return true;
    }
    match base.task(task) {
        None => true,
        Some(row) => row.queue == order,
    }
}

/// Whether all tasks that wait for an object queue in that order.
fn are_of_order(base: &Base, order: Order, obj: u32) -> bool
    ensures { result ≡ true → AreOfOrder order base.now obj }
{
    let ids = base.ids();
    'tasks: for task in 0..ids {
        if !is_of_order(base, order, obj, task as u8) {
            return false;
        }
    }
    true
}

/// Whether a task asked for some bytes, where it waits for the object.
fn has_asked(base: &Base, table: &Pools, obj: u32, task: u8) -> bool
    ensures { result ≡ true → waits_for base.now obj task ≡ true → 0 < size_of table.now task }
{
    !base.waits_for(obj, task) || table.size_of(task) > 0
}

/// Whether all tasks that wait for an object asked for some bytes.
fn have_asked(base: &Base, table: &Pools, obj: u32) -> bool
    ensures { result ≡ true → (t : ℕ) → waits_for base.now obj t ≡ true → 0 < size_of table.now t }
{
    let ids = base.ids();
    'tasks: for task in 0..ids {
        if !has_asked(base, table, obj, task as u8) {
            return false;
        }
    }
    true
}

/// Whether the waiters of a fixed pool queue as its attributes say.
fn is_fixed_queued(base: &Base, table: &Pools, id: u8) -> bool
    ensures { result ≡ true → (k : FixedPool) → fixed_at table.now id ≡ Some k → AreOfOrder k.order base.now (fixed_object id) }
{
    let Some(pool) = table.fixed(id) else {
        return true;
    };
    are_of_order(base, pool.order(), FIRST_FIXED - 1 + id as u32)
}

/// Whether the waiters of a variable pool queue as its attributes say.
fn is_variable_queued(base: &Base, table: &Pools, id: u8) -> bool
    ensures { result ≡ true → (k : VariablePool) → variable_at table.now id ≡ Some k → AreOfOrder k.order base.now (variable_object id) }
{
    let Some(pool) = table.variable(id) else {
        return true;
    };
    are_of_order(base, pool.order(), FIRST_VARIABLE - 1 + id as u32)
}

/// Whether the waiters of each pool queue as its attributes say, and those of variable pools asked for some bytes.
fn are_queued(base: &Base, table: &Pools) -> bool
    ensures { result ≡ true → AreQueued base.now table.now }
{
    let slots = table.slots();
    'ids: for id in 0..slots {
        if !is_fixed_queued(base, table, id) {
            return false;
        }
        if !is_variable_queued(base, table, id) {
            return false;
        }
        if !have_asked(base, table, FIRST_VARIABLE - 1 + id as u32) {
            return false;
        }
    }
    true
}

/// The value of an answer, or none where the task waits.
fn value_of(outcome: Outcome) -> Option<i32> {
    match outcome {
        Outcome::Returned(answer) => Some(answer.value),
        Outcome::Blocked => None,
        Outcome::Entered(_) => None,
    }
}

/// Whether each of these calls, made one after another, is answered that value.
fn run(base: &mut Base, table: &mut Pools, calls: &[Made]) -> Result<bool, AllocError>
    requires few { base.old.made ≤ 0 }
    requires early { base.old.time ≤ 0 }
    requires short { length calls.now ≤ 100 }
{
    'calls: for place in 0..calls.len() {
        let Made { task, call, value } = calls[place];
        if !are_queued(base, table) {
            return Ok(false);
        }
        let outcome = crate::call(base, table, Who::Task(task), &call)?;
        if value_of(outcome) != value {
            return Ok(false);
        }
    }
    Ok(true)
}

/// Tasks 2 and 3, of priorities 10 and 5, become ready.
fn start_tasks(base: &mut Base)
    requires few { base.old.made ≤ 0 }
    requires early { base.old.time ≤ 0 }
    ensures few { base.new.made ≤ 0 }
    ensures early { base.new.time ≤ 0 }
{
    base.create(2, 10, 512);
    base.make_ready(2);
    base.create(3, 5, 512);
    base.make_ready(3);
}

/// Whether a waiter of a fixed pool is served, or none where the waiters don't queue as they should.
fn fixed_served(base: &mut Base, table: &mut Pools) -> Option<bool> {
    if !are_queued(base, table) {
        return None;
    }
    Some(serve_first_fixed(base, table))
}

/// Whether a waiter of a variable pool is served, or none where the waiters don't queue as they should.
fn variable_served(base: &mut Base, table: &mut Pools) -> Option<bool> {
    if !are_queued(base, table) {
        return None;
    }
    Some(serve_first_variable(base, table))
}

/// A call that returns.
fn answered(task: u8, call: PoolCall, value: i32) -> Made {
    Made {
        task,
        call,
        value: Some(value),
    }
}

/// A call that waits.
fn blocked(task: u8, call: PoolCall) -> Made {
    Made {
        task,
        call,
        value: None,
    }
}

/// A variable pool of 64 bytes is made.
fn variable(attributes: u32) -> PoolCall {
    PoolCall::CreMpl {
        attributes: Attributes::of_bits(attributes),
        size: 64,
    }
}

/// A wait for a block of the first fixed pool.
fn get_block() -> PoolCall {
    PoolCall::GetMpf { id: 1, timeout: -1 }
}

/// A wait for so many bytes of the first variable pool.
fn get_bytes(size: i32) -> PoolCall {
    PoolCall::GetMpl {
        id: 1,
        size,
        timeout: -1,
    }
}

/// The bytes from an offset of the first variable pool are given back.
fn free_bytes(offset: i32) -> PoolCall {
    PoolCall::RelMpl { id: 1, offset }
}

/// The end of a wait.
fn ended(task: u8, value: i32) -> Release {
    Release {
        task,
        answer: plain(value),
    }
}

#[test]
fn least_free_block_is_given(rt: HostRuntime) -> Result<(), Fail> {
    let mut base = Base::new(rt.alloc(), 10)?;
    let mut table = Pools::new(rt.alloc())?;
    start_tasks(&mut base);
    let made = PoolCall::CreMpf {
        attributes: Attributes::of_bits(0),
        count: 2,
        size: 10,
    };
    let calls = [
        answered(1, made, 1),
        answered(1, get_block(), 1),
        answered(1, get_block(), 2),
        blocked(2, get_block()),
        blocked(3, get_block()),
        answered(1, PoolCall::RelMpf { id: 1, block: 1 }, 0),
        answered(1, PoolCall::RelMpf { id: 1, block: 1 }, Er::Par.main_code()),
    ];
    assert!(rt; run(&mut base, &mut table, &calls)?);
    assert_eq!(rt; fixed_served(&mut base, &mut table), Some(true));
    assert_eq!(rt; base.next_release(), Some(ended(2, 1)));
    assert_eq!(rt; fixed_served(&mut base, &mut table), Some(false));
    assert!(rt; base.is_waiting(3));
    Ok(())
}

#[test]
fn big_head_is_served_before_a_small_one(rt: HostRuntime) -> Result<(), Fail> {
    let mut base = Base::new(rt.alloc(), 10)?;
    let mut table = Pools::new(rt.alloc())?;
    start_tasks(&mut base);
    let calls = [
        answered(1, variable(0), 1),
        answered(1, get_bytes(20), 0),
        answered(1, get_bytes(20), 24),
        blocked(2, get_bytes(40)),
        blocked(3, get_bytes(1)),
        answered(1, free_bytes(24), 0),
        answered(1, free_bytes(24), Er::Par.main_code()),
    ];
    assert!(rt; run(&mut base, &mut table, &calls)?);
    assert_eq!(rt; variable_served(&mut base, &mut table), Some(true));
    assert_eq!(rt; base.next_release(), Some(ended(2, 24)));
    assert_eq!(rt; variable_served(&mut base, &mut table), Some(false));
    assert!(rt; base.is_waiting(3));
    Ok(())
}

#[test]
fn deletion_ends_the_waits_and_gives_the_bytes_back(rt: HostRuntime) -> Result<(), Fail> {
    let mut base = Base::new(rt.alloc(), 10)?;
    let mut table = Pools::new(rt.alloc())?;
    start_tasks(&mut base);
    let before = base.system_bytes();
    let calls = [
        answered(1, variable(1 << 7), 1),
        answered(1, get_bytes(64), 0),
        blocked(2, get_bytes(1)),
        blocked(3, get_bytes(1)),
        answered(1, PoolCall::DelMpl { id: 1 }, 0),
    ];
    assert!(rt; run(&mut base, &mut table, &calls)?);
    assert_eq!(rt; base.system_bytes(), before);
    assert_eq!(rt; base.next_release(), Some(ended(3, Er::Dlt.main_code())));
    assert_eq!(rt; base.next_release(), Some(ended(2, Er::Dlt.main_code())));
    assert_eq!(rt; base.next_release(), None);
    Ok(())
}

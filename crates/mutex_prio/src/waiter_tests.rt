//! Calls on mutexes that have waiters, with answers from the rules of the calls, of serving and of priorities.

ghost use Rattle.std.specs.Prelude.{◌≡◌, ◌≤◌, Some, length, true};
ghost use Rattle.object_model.specs.declared.mutexes.Mutex.{Mutex};
ghost use Rattle.kernel_model.specs.Tasks.Base.{task_at, waits_for};
ghost use Rattle.kernel_model.specs.Tasks.Queues.{AreOfOrder, queue_in};
ghost use Rattle.object_model.specs.Mutexes.Tables.{mutex_at, mutex_object};
ghost use Rattle.mutex_prio.specs.Parts.{AreQueued};

use super::*;
use crate::serving::FIRST_MUTEX;
use kernel_base::answers::plain;
use kernel_base::{Base, Order};
use std::test::Fail;
use tk_types::{Attributes, Er, MutexCall, Outcome, Release, Who};

/// The task that calls, its call, and the value that it is answered, or none where it waits.
#[derive(Clone, Copy)]
struct Made {
    task: u8,
    call: MutexCall,
    value: Option<i32>,
}

/// Whether a task queues in that order, where it waits for the object.
fn is_of_order(base: &Base, order: Order, obj: u32, task: u8) -> bool
    ensures { result ≡ true → waits_for base.now obj task ≡ true → queue_in (task_at base.now task) ≡ order }
{
    if !base.waits_for(obj, task) {
        return true;
    }
    match base.task(task) {
        None => true,
        Some(row) => row.queue == order,
    }
}

/// Whether all tasks that wait for an object queue in that order.
fn are_of_order(base: &Base, order: Order, obj: u32) -> bool
    ensures { result ≡ true → AreOfOrder order base.now obj }
{
    let ids = base.ids();
    'tasks: for task in 0..ids {
        if !is_of_order(base, order, obj, task as u8) {
            return false;
        }
    }
    true
}

/// Whether the waiters of a mutex queue as its attributes say.
fn is_queued(base: &Base, table: &Mutexes, id: u8) -> bool
    ensures { result ≡ true → (k : Mutex) → mutex_at table.now id ≡ Some k → AreOfOrder k.order base.now (mutex_object id) }
{
    let Some(row) = table.mutex(id) else {
        return true;
    };
    are_of_order(base, row.order, FIRST_MUTEX - 1 + id as u32)
}

/// Whether the waiters of each mutex queue as its attributes say.
fn are_queued(base: &Base, table: &Mutexes) -> bool
    ensures { result ≡ true → AreQueued base.now table.now }
{
    'ids: for id in 0..65u8 {
        if !is_queued(base, table, id) {
            return false;
        }
    }
    true
}

/// The value of an answer, or none where the task waits.
fn value_of(outcome: Outcome) -> Option<i32> {
    match outcome {
        Outcome::Returned(answer) => Some(answer.value),
        Outcome::Blocked => None,
        Outcome::Entered(_) => None,
    }
}

/// Whether each of these calls, made one after another with a settling of priorities behind it, is answered that value.
fn run(base: &mut Base, table: &mut Mutexes, calls: &[Made]) -> bool
    requires few { base.old.made ≤ 0 }
    requires early { base.old.time ≤ 0 }
    requires short { length calls.now ≤ 100 }
{
    'calls: for place in 0..calls.len() {
        let Made { task, call, value } = calls[place];
        if !are_queued(base, table) {
            return false;
        }
        if value_of(crate::call(base, table, Who::Task(task), &call)) != value {
            return false;
        }
        resettle(base, table);
    }
    true
}

/// Tasks 2, 3 and 4, of priorities 8, 5 and 3, become ready.
fn start_tasks(base: &mut Base)
    requires few { base.old.made ≤ 0 }
    requires early { base.old.time ≤ 0 }
    ensures few { base.new.made ≤ 0 }
    ensures early { base.new.time ≤ 0 }
{
    base.create(2, 8, 512);
    base.make_ready(2);
    base.create(3, 5, 512);
    base.make_ready(3);
    base.create(4, 3, 512);
    base.make_ready(4);
}

/// Whether a waiter is served, with a settling of priorities behind that, or none where the waiters don't queue as they should.
fn one_served(base: &mut Base, table: &mut Mutexes) -> Option<bool> {
    if !are_queued(base, table) {
        return None;
    }
    let served = serve_first(base, table);
    resettle(base, table);
    Some(served)
}

/// A call that returns.
fn answered(task: u8, call: MutexCall, value: i32) -> Made {
    Made {
        task,
        call,
        value: Some(value),
    }
}

/// A call that waits.
fn blocked(task: u8, call: MutexCall) -> Made {
    Made {
        task,
        call,
        value: None,
    }
}

/// A mutex with inheritance is made.
fn inheriting() -> MutexCall {
    MutexCall::CreMtx {
        attributes: Attributes::of_bits(1 << 14),
        ceiling: 0,
    }
}

/// A mutex with a ceiling is made.
fn with_ceiling(ceiling: i32) -> MutexCall {
    MutexCall::CreMtx {
        attributes: Attributes::of_bits(1 << 15),
        ceiling,
    }
}

/// A mutex is locked, without a limit.
fn lock(id: i32) -> MutexCall {
    MutexCall::LocMtx { id, timeout: -1 }
}

/// The end of a wait.
fn ended(task: u8, value: i32) -> Release {
    Release {
        task,
        answer: plain(value),
    }
}

#[test]
fn priorities_go_along_the_chain(rt: HostRuntime) -> Result<(), Fail> {
    let mut base = Base::new(rt.alloc(), 10)?;
    let mut table = Mutexes::new(rt.alloc())?;
    start_tasks(&mut base);
    let calls = [
        answered(1, inheriting(), 1),
        answered(1, inheriting(), 2),
        answered(1, lock(1), 0),
        answered(2, lock(2), 0),
        blocked(2, lock(1)),
        blocked(4, lock(2)),
    ];
    assert!(rt; run(&mut base, &mut table, &calls));
    assert_eq!(rt; base.current(1), 3);
    assert_eq!(rt; base.current(2), 3);
    assert_eq!(rt; one_served(&mut base, &mut table), Some(false));
    assert!(rt; free_last(&base, &mut table, 1));
    assert_eq!(rt; one_served(&mut base, &mut table), Some(true));
    assert_eq!(rt; base.next_release(), Some(ended(2, 0)));
    assert_eq!(rt; base.current(1), 10);
    Ok(())
}

#[test]
fn ceilings_are_held_one_by_one(rt: HostRuntime) -> Result<(), Fail> {
    let mut base = Base::new(rt.alloc(), 10)?;
    let mut table = Mutexes::new(rt.alloc())?;
    start_tasks(&mut base);
    let calls = [
        answered(1, with_ceiling(4), 1),
        answered(1, with_ceiling(6), 2),
        answered(1, lock(2), 0),
        answered(1, lock(1), 0),
        answered(4, lock(1), Er::IlUse.main_code()),
        blocked(2, lock(2)),
    ];
    assert!(rt; run(&mut base, &mut table, &calls));
    assert_eq!(rt; base.current(1), 4);
    assert!(rt; !ceiling_allows(&base, &table, 1, 3));
    assert!(rt; !ceiling_allows(&base, &table, 2, 5));
    assert!(rt; free_last(&base, &mut table, 1));
    assert_eq!(rt; current_of(&base, &table, 1), 6);
    assert!(rt; free_last(&base, &mut table, 1));
    assert_eq!(rt; one_served(&mut base, &mut table), Some(true));
    assert_eq!(rt; base.next_release(), Some(ended(2, 0)));
    assert_eq!(rt; base.current(1), 10);
    Ok(())
}

#[test]
fn deletion_ends_the_waits_in_queue_order(rt: HostRuntime) -> Result<(), Fail> {
    let mut base = Base::new(rt.alloc(), 10)?;
    let mut table = Mutexes::new(rt.alloc())?;
    start_tasks(&mut base);
    let calls = [
        answered(1, inheriting(), 1),
        answered(1, lock(1), 0),
        blocked(2, lock(1)),
        blocked(3, lock(1)),
        answered(4, MutexCall::DelMtx { id: 1 }, 0),
    ];
    assert!(rt; run(&mut base, &mut table, &calls));
    assert_eq!(rt; base.next_release(), Some(ended(3, Er::Dlt.main_code())));
    assert_eq!(rt; base.next_release(), Some(ended(2, Er::Dlt.main_code())));
    assert_eq!(rt; base.next_release(), None);
    assert_eq!(rt; base.current(1), 10);
    Ok(())
}

//! Calls on semaphores and event flags that have waiters, with answers from the rules of the calls and of serving.

ghost use Rattle.std.specs.Prelude.{◌≡◌, ◌≤◌, Some, length, true};
ghost use Rattle.kernel_model.specs.declared.objects.EventFlag.{EventFlag};
ghost use Rattle.kernel_model.specs.declared.objects.Semaphore.{Semaphore};
ghost use Rattle.kernel_model.specs.Tasks.Base.{task_at, waits_for};
ghost use Rattle.kernel_model.specs.Tasks.Queues.{AreOfOrder, queue_in};
ghost use Rattle.kernel_model.specs.SemFlags.Tables.{flag_at, flag_object, sem_at, sem_object};
ghost use Rattle.sem_flag.specs.Parts.{AreQueued};

use super::*;
use crate::serving::{FIRST_FLAG, FIRST_SEM};
use kernel_base::answers::plain;
use kernel_base::{Base, Order};
use std::test::Fail;
use tk_types::{Answer, Attributes, Er, FlagMode, Outcome, Release, SemFlagCall, Who};

/// The task that calls, its call, and the value that it is answered, or none where it waits.
#[derive(Clone, Copy)]
struct Made {
    task: u8,
    call: SemFlagCall,
    value: Option<i32>,
}

/// Whether a task queues in that order, where it waits for the object.
fn is_of_order(base: &Base, order: Order, obj: u32, task: u8) -> bool
    ensures { result ≡ true → waits_for base.now obj task ≡ true → queue_in (task_at base.now task) ≡ order }
{
    if !base.waits_for(obj, task) {
        return true;
    }
    match base.task(task) {
        None => true,
        Some(row) => row.queue == order,
    }
}

/// Whether all tasks that wait for an object queue in that order.
fn are_of_order(base: &Base, order: Order, obj: u32) -> bool
    ensures { result ≡ true → AreOfOrder order base.now obj }
{
    let ids = base.ids();
    'tasks: for task in 0..ids {
        if !is_of_order(base, order, obj, task as u8) {
            return false;
        }
    }
    true
}

/// Whether the waiters of a semaphore queue as its attributes say.
fn is_sem_queued(base: &Base, table: &SemFlags, id: u8) -> bool
    ensures { result ≡ true → (k : Semaphore) → sem_at table.now id ≡ Some k → AreOfOrder k.order base.now (sem_object id) }
{
    let Some(row) = table.sem(id) else {
        return true;
    };
    are_of_order(base, row.order, FIRST_SEM - 1 + id as u32)
}

/// Whether the waiters of an event flag queue as its attributes say.
fn is_flag_queued(base: &Base, table: &SemFlags, id: u8) -> bool
    ensures { result ≡ true → (k : EventFlag) → flag_at table.now id ≡ Some k → AreOfOrder k.order base.now (flag_object id) }
{
    let Some(row) = table.flag(id) else {
        return true;
    };
    are_of_order(base, row.order, FIRST_FLAG - 1 + id as u32)
}

/// Whether the waiters of each semaphore and of each event flag queue as its attributes say.
fn are_queued(base: &Base, table: &SemFlags) -> bool
    ensures { result ≡ true → AreQueued base.now table.now }
{
    let slots = table.slots();
    'ids: for id in 0..slots {
        if !is_sem_queued(base, table, id) {
            return false;
        }
        if !is_flag_queued(base, table, id) {
            return false;
        }
    }
    true
}

/// The value of an answer, or none where the task waits.
fn value_of(outcome: Outcome) -> Option<i32> {
    match outcome {
        Outcome::Returned(answer) => Some(answer.value),
        Outcome::Blocked => None,
        Outcome::Entered(_) => None,
    }
}

/// Whether each of these calls, made one after another, is answered that value.
fn run(base: &mut Base, table: &mut SemFlags, calls: &[Made]) -> bool
    requires few { base.old.made ≤ 0 }
    requires early { base.old.time ≤ 0 }
    requires short { length calls.now ≤ 100 }
{
    'calls: for place in 0..calls.len() {
        let Made { task, call, value } = calls[place];
        if !are_queued(base, table) {
            return false;
        }
        if value_of(crate::call(base, table, Who::Task(task), &call)) != value {
            return false;
        }
    }
    true
}

/// Tasks 2 and 3, of priorities 10 and 5, become ready.
fn start_tasks(base: &mut Base)
    requires few { base.old.made ≤ 0 }
    requires early { base.old.time ≤ 0 }
    ensures few { base.new.made ≤ 0 }
    ensures early { base.new.time ≤ 0 }
{
    base.create(2, 10, 512);
    base.make_ready(2);
    base.create(3, 5, 512);
    base.make_ready(3);
}

/// Whether a waiter is served, or none where the waiters don't queue as they should.
fn one_served(base: &mut Base, table: &mut SemFlags) -> Option<bool> {
    if !are_queued(base, table) {
        return None;
    }
    Some(serve_first(base, table))
}

/// A call that returns.
fn answered(task: u8, call: SemFlagCall, value: i32) -> Made {
    Made {
        task,
        call,
        value: Some(value),
    }
}

/// A call that waits.
fn blocked(task: u8, call: SemFlagCall) -> Made {
    Made {
        task,
        call,
        value: None,
    }
}

/// A semaphore is made, with a count of 0.
fn semaphore(attributes: u32) -> SemFlagCall {
    SemFlagCall::CreSem {
        attributes: Attributes::of_bits(attributes),
        count: 0,
        most: 9,
    }
}

/// An event flag is made, with no bit.
fn flag(attributes: u32) -> SemFlagCall {
    SemFlagCall::CreFlg {
        attributes: Attributes::of_bits(attributes),
        pattern: 0,
    }
}

/// A wait for the first semaphore.
fn wait_sem(count: i32) -> SemFlagCall {
    SemFlagCall::WaiSem {
        id: 1,
        count,
        timeout: -1,
    }
}

/// A wait for the first event flag.
fn wait_flag(pattern: i32, mode: u32) -> SemFlagCall {
    SemFlagCall::WaiFlg {
        id: 1,
        pattern,
        mode: FlagMode::of_bits(mode),
        timeout: -1,
    }
}

/// The end of a wait for a flag.
fn got(task: u8, pattern: i32) -> Release {
    Release {
        task,
        answer: Answer {
            value: 0,
            fields: [pattern, 0, 0, 0, 0],
            used: 1,
        },
    }
}

/// The end of another wait.
fn ended(task: u8, value: i32) -> Release {
    Release {
        task,
        answer: plain(value),
    }
}

#[test]
fn semaphores_serve_before_flags(rt: HostRuntime) -> Result<(), Fail> {
    let mut base = Base::new(rt.alloc(), 10)?;
    let mut table = SemFlags::new(rt.alloc())?;
    start_tasks(&mut base);
    let calls = [
        answered(1, semaphore(0), 1),
        answered(1, flag(0), 1),
        blocked(1, wait_flag(4, 1)),
        blocked(2, wait_sem(2)),
        answered(3, SemFlagCall::SetFlg { id: 1, pattern: 6 }, 0),
        answered(3, SemFlagCall::SigSem { id: 1, count: 2 }, 0),
    ];
    assert!(rt; run(&mut base, &mut table, &calls));
    assert_eq!(rt; one_served(&mut base, &mut table), Some(true));
    assert_eq!(rt; base.next_release(), Some(ended(2, 0)));
    assert_eq!(rt; one_served(&mut base, &mut table), Some(true));
    assert_eq!(rt; base.next_release(), Some(got(1, 6)));
    assert_eq!(rt; one_served(&mut base, &mut table), Some(false));
    assert_eq!(rt; base.next_release(), None);
    Ok(())
}

#[test]
fn clear_acts_before_the_next_waiter(rt: HostRuntime) -> Result<(), Fail> {
    let mut base = Base::new(rt.alloc(), 10)?;
    let mut table = SemFlags::new(rt.alloc())?;
    start_tasks(&mut base);
    let calls = [
        answered(1, flag(1 << 11), 1),
        blocked(1, wait_flag(1, 2 + 4)),
        blocked(2, wait_flag(1, 2)),
        answered(3, SemFlagCall::SetFlg { id: 1, pattern: 3 }, 0),
    ];
    assert!(rt; run(&mut base, &mut table, &calls));
    assert_eq!(rt; one_served(&mut base, &mut table), Some(true));
    assert_eq!(rt; base.next_release(), Some(got(1, 3)));
    assert_eq!(rt; one_served(&mut base, &mut table), Some(false));
    assert!(rt; base.is_waiting(2));
    Ok(())
}

#[test]
fn deletion_ends_the_waits_in_queue_order(rt: HostRuntime) -> Result<(), Fail> {
    let mut base = Base::new(rt.alloc(), 10)?;
    let mut table = SemFlags::new(rt.alloc())?;
    start_tasks(&mut base);
    let calls = [
        answered(1, semaphore(1 << 7), 1),
        blocked(2, wait_sem(1)),
        blocked(3, wait_sem(1)),
        answered(1, SemFlagCall::DelSem { id: 1 }, 0),
    ];
    assert!(rt; run(&mut base, &mut table, &calls));
    assert_eq!(rt; base.next_release(), Some(ended(3, Er::Dlt.main_code())));
    assert_eq!(rt; base.next_release(), Some(ended(2, Er::Dlt.main_code())));
    assert_eq!(rt; base.next_release(), None);
    Ok(())
}

//! Priorities change, and ready tasks are rotated.

ghost use Rattle.std.specs.Prelude.{◌≡◌, ◌≤◌, ◌≤ℤ◌, pos, true};
ghost use Rattle.std.specs.Option.{is_some};
ghost use Rattle.kernel_model.specs.Tasks.Base.{task_at};
ghost use Rattle.kernel_model.specs.Tasks.Calls.{new_base, rebased, rotate_ready, rotated_priority};
ghost use Rattle.object_model.specs.Mutexes.Calls.{change_priority_beside};

use crate::names::named_task;
use kernel_base::Base;
use kernel_base::answers::{done, failed};
use mutex_prio::{Mutexes, ceiling_allows};
use tk_types::{Er, Outcome, Who};

/// The new base priority of a task that exists: 0 is the initial one.
fn new_base(base: &Base, task: u8, priority: i32) -> u8
    requires low { pos 0 ≤ℤ priority }
    requires high { priority ≤ℤ pos 140 }
    requires exists { is_some (task_at base.now task) ≡ true }
    ensures priority { result ≡ new_base base.now task priority }
    ensures lowest { 1 ≤ result }
    ensures highest { result ≤ 140 }
{
    if priority == 0 {
        return base.initial_of(task);
    }
    priority as u8
}

/// Sets a task's base priority, from 1 to 140. Where the current priority keeps its value and equals the base, the task takes a new
/// stamp; where it is to change, settling does that.
fn rebase(base: &mut Base, task: u8, priority: u8)
    requires low { 1 ≤ priority }
    requires high { priority ≤ 140 }
    ensures { base.new ≡ rebased base.old task priority }
{
    let keeps = base.current(task) == priority;
    base.set_base(task, priority);
    if keeps {
        base.restamp(task);
    }
}

/// `tk_chg_pri`: a task's base priority changes, but not above a ceiling of a mutex that it holds or waits for.
#[tactic(auto, unfolding(object_model::specs::Mutexes::Calls::change_priority_beside))]
pub(crate) fn change_priority(
    base: &mut Base,
    mutexes: &Mutexes,
    who: Who,
    task: i32,
    priority: i32,
) -> Outcome
    ensures { change_priority_beside base.old mutexes.now who task priority ≡ record { base = base.new; outcome = result } }
{
    let Some(id) = named_task(who, task) else {
        return failed(Er::Id);
    };
    if priority < 0 || priority > 140 {
        return failed(Er::Par);
    }
    if !base.exists(id) {
        return failed(Er::NoExs);
    }
    let priority = new_base(base, id, priority);
    if !ceiling_allows(base, mutexes, id, priority) {
        return failed(Er::IlUse);
    }
    rebase(base, id, priority);
    done(0)
}

/// The priority whose tasks are rotated: 0 is that of the current task, and none where there is no current task.
fn rotated_priority(base: &Base, priority: i32) -> u8
    requires low { pos 0 ≤ℤ priority }
    requires high { priority ≤ℤ pos 140 }
    ensures { result ≡ rotated_priority base.now priority }
{
    if priority == 0 {
        return base.current(base.cur().unwrap_or(0));
    }
    priority as u8
}

/// `tk_rot_rdq`: the first ready task of a priority becomes the last of it.
#[tactic(auto, unfolding(kernel_model::specs::Tasks::Calls::rotate_ready))]
pub(crate) fn rotate_ready(base: &mut Base, priority: i32) -> Outcome
    ensures { rotate_ready base.old priority ≡ record { base = base.new; outcome = result } }
{
    if priority < 0 || priority > 140 {
        return failed(Er::Par);
    }
    let priority = rotated_priority(base, priority);
    base.rotate(priority);
    done(0)
}

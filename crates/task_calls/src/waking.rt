//! Wake-up requests.

ghost use Rattle.std.specs.Prelude.{◌≡◌, true};
ghost use Rattle.kernel_model.specs.Tasks.Calls.{cancel_wakeups, takes_wakeup, wake_up, woken};

use crate::names::{named_task, task_id};
use crate::sleeping::SLEEP;
use kernel_base::Base;
use kernel_base::answers::{caller, done, failed, plain};
use tk_types::{Er, Outcome, Who};

/// The most wake-up requests of a task.
const MOST_REQUESTS: u16 = 65535;

/// Whether a task sleeps, or has room for one wake-up request more.
fn takes_wakeup(base: &Base, task: u8) -> bool
    ensures { result ≡ takes_wakeup base.now task }
{
    base.waits_for(SLEEP, task) || base.wakeups_of(task) < MOST_REQUESTS
}

/// A wake-up ends a sleep, or is kept as a request.
fn wake(base: &mut Base, task: u8)
    requires { takes_wakeup base.old task ≡ true }
    ensures { base.new ≡ woken base.old task }
{
    if base.waits_for(SLEEP, task) {
        base.release(task, plain(0));
        return;
    }
    let requests = base.wakeups_of(task);
    base.set_wakeups(task, requests as u32 + 1);
}

/// `tk_wup_tsk`: another task is woken.
#[tactic(auto, unfolding(kernel_model::specs::Tasks::Calls::wake_up))]
pub(crate) fn wake_up(base: &mut Base, who: Who, task: i32) -> Outcome
    ensures { wake_up base.old who task ≡ record { base = base.new; outcome = result } }
{
    let Some(id) = task_id(task) else {
        return failed(Er::Id);
    };
    if !base.exists(id) {
        return failed(Er::NoExs);
    }
    if id == caller(who) {
        return failed(Er::Obj);
    }
    if base.is_dormant(id) {
        return failed(Er::Obj);
    }
    if !takes_wakeup(base, id) {
        return failed(Er::QOvr);
    }
    wake(base, id);
    done(0)
}

/// `tk_can_wup`: answers the wake-up requests of a task and clears them.
#[tactic(auto, unfolding(kernel_model::specs::Tasks::Calls::cancel_wakeups))]
pub(crate) fn cancel_wakeups(base: &mut Base, who: Who, task: i32) -> Outcome
    ensures { cancel_wakeups base.old who task ≡ record { base = base.new; outcome = result } }
{
    let Some(id) = named_task(who, task) else {
        return failed(Er::Id);
    };
    if !base.exists(id) {
        return failed(Er::NoExs);
    }
    if base.is_dormant(id) {
        return failed(Er::Obj);
    }
    let requests = base.wakeups_of(id);
    base.set_wakeups(id, 0);
    done(requests as i32)
}

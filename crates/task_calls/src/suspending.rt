//! Tasks are suspended and resumed.

ghost use Rattle.std.specs.Prelude.{◌≡◌};
ghost use Rattle.kernel_model.specs.Tasks.Calls.{may_suspend, resume_task, suspend_task};

use crate::names::task_id;
use kernel_base::Base;
use kernel_base::answers::{caller, done, failed};
use tk_types::{Er, Outcome, Who};

/// The most suspensions of a task.
const MOST_SUSPENSIONS: u16 = 65535;

/// Whether a task may be suspended: the current one may not be while dispatching is disabled.
fn may_suspend(base: &Base, task: u8) -> bool
    ensures { result ≡ may_suspend base.now task }
{
    !(base.is_current(task) && base.flags().dispatch_off)
}

/// `tk_sus_tsk`: another task is suspended once more.
#[tactic(auto, unfolding(kernel_model::specs::Tasks::Calls::suspend_task))]
pub(crate) fn suspend_task(base: &mut Base, who: Who, task: i32) -> Outcome
    ensures { suspend_task base.old who task ≡ record { base = base.new; outcome = result } }
{
    let Some(id) = task_id(task) else {
        return failed(Er::Id);
    };
    if !base.exists(id) {
        return failed(Er::NoExs);
    }
    if id == caller(who) {
        return failed(Er::Obj);
    }
    if base.is_dormant(id) {
        return failed(Er::Obj);
    }
    if !may_suspend(base, id) {
        return failed(Er::Ctx);
    }
    if base.suspensions_of(id) >= MOST_SUSPENSIONS {
        return failed(Er::QOvr);
    }
    base.suspend(id);
    done(0)
}

/// `tk_rsm_tsk` and `tk_frsm_tsk`: one suspension of a task is taken off, or all.
#[tactic(auto, unfolding(kernel_model::specs::Tasks::Calls::resume_task))]
pub(crate) fn resume_task(base: &mut Base, task: i32, all: bool) -> Outcome
    ensures { resume_task base.old task all ≡ record { base = base.new; outcome = result } }
{
    let Some(id) = task_id(task) else {
        return failed(Er::Id);
    };
    if !base.exists(id) {
        return failed(Er::NoExs);
    }
    if base.suspensions_of(id) == 0 {
        return failed(Er::Obj);
    }
    base.resume(id, all);
    done(0)
}

//! Tasks end.

ghost use Rattle.std.specs.Prelude.{◌≡◌};
ghost use Rattle.kernel_model.specs.Tasks.Calls.{enabled, enabled_after, exit_task, terminate_task};

use crate::names::task_id;
use kernel_base::answers::{caller, done, failed};
use kernel_base::{Base, Flags};
use tk_types::{Er, Outcome, Who};

/// Dispatching and interrupts are enabled.
fn enable(base: &mut Base)
    ensures { base.new ≡ enabled base.old }
{
    let flags = base.flags();
    base.set_flags(Flags {
        dispatch_off: false,
        di: false,
        ..flags
    });
}

/// Dispatching is enabled where the task that is ended was the current one.
fn enable_after(base: &mut Base, ran: bool)
    ensures { base.new ≡ enabled_after ran base.old }
{
    if ran {
        let flags = base.flags();
        base.set_flags(Flags {
            dispatch_off: false,
            ..flags
        });
    }
}

/// `tk_ext_tsk` and `tk_exd_tsk`: the caller becomes DORMANT. What `tk_exd_tsk` deletes is gone once the task's mutexes
/// are free.
#[tactic(auto, unfolding(kernel_model::specs::Tasks::Calls::exit_task))]
pub(crate) fn exit_task(base: &mut Base, who: Who) -> Outcome
    ensures { exit_task base.old who ≡ record { base = base.new; outcome = result } }
{
    base.make_dormant(caller(who));
    enable(base);
    done(0)
}

/// `tk_ter_tsk`: another task becomes DORMANT.
#[tactic(auto, unfolding(kernel_model::specs::Tasks::Calls::terminate_task))]
pub(crate) fn terminate_task(base: &mut Base, who: Who, task: i32) -> Outcome
    ensures { terminate_task base.old who task ≡ record { base = base.new; outcome = result } }
{
    let Some(id) = task_id(task) else {
        return failed(Er::Id);
    };
    if !base.exists(id) {
        return failed(Er::NoExs);
    }
    if id == caller(who) {
        return failed(Er::Obj);
    }
    if base.is_dormant(id) {
        return failed(Er::Obj);
    }
    let ran = base.is_current(id);
    base.make_dormant(id);
    enable_after(base, ran);
    done(0)
}

//! Waits are ended from outside.

ghost use Rattle.std.specs.Prelude.{◌≡◌};
ghost use Rattle.kernel_model.specs.Tasks.Calls.{release_wait};

use crate::names::task_id;
use kernel_base::Base;
use kernel_base::answers::{done, failed, plain};
use tk_types::{Er, Outcome};

/// `tk_rel_wai`: the wait of a task ends with E_RLWAI.
#[tactic(auto, unfolding(kernel_model::specs::Tasks::Calls::release_wait))]
pub(crate) fn release_wait(base: &mut Base, task: i32) -> Outcome
    ensures { release_wait base.old task ≡ record { base = base.new; outcome = result } }
{
    let Some(id) = task_id(task) else {
        return failed(Er::Id);
    };
    if !base.exists(id) {
        return failed(Er::NoExs);
    }
    if !base.is_waiting(id) {
        return failed(Er::Obj);
    }
    base.release(id, plain(Er::RlWai.main_code()));
    done(0)
}

//! Calls that ask and change nothing.

ghost use Rattle.std.specs.Prelude.{◌≡◌, ◌∷◌, [], pos};
ghost use Rattle.kernel_model.specs.Words.Checks.{answer};
ghost use Rattle.kernel_model.specs.Tasks.Calls.{get_task, refer_task, shown};
ghost use Rattle.kernel_model.specs.Tasks.Views.{state_in};

use crate::names::named_task;
use kernel_base::Base;
use kernel_base::answers::{done, failed};
use tk_types::{Answer, Er, Outcome, Task, Who};

/// `tk_get_tid`: the current task, or 0.
#[tactic(auto, unfolding(kernel_model::specs::Tasks::Calls::get_task))]
pub(crate) fn get_task(base: &Base) -> Outcome
    ensures { get_task base.now ≡ record { base = base.now; outcome = result } }
{
    done(base.cur().unwrap_or(0) as i32)
}

/// What a task shows: its state by its number, its current and base priority, wake-up requests and suspensions.
fn shown(state: u8, row: Task) -> Answer
    ensures { result ≡ answer (pos 0) (pos state ∷ pos row.current ∷ pos row.base ∷ pos row.wakeups ∷ pos row.suspensions ∷ []) }
{
    Answer {
        value: 0,
        fields: [
            state as i32,
            row.current as i32,
            row.base as i32,
            row.wakeups as i32,
            row.suspensions as i32,
        ],
        used: 5,
    }
}

/// `tk_ref_tsk`: what a task shows.
#[tactic(auto, unfolding(kernel_model::specs::Tasks::Calls::refer_task))]
pub(crate) fn refer_task(base: &Base, who: Who, task: i32) -> Outcome
    ensures { refer_task base.now who task ≡ record { base = base.now; outcome = result } }
{
    let Some(id) = named_task(who, task) else {
        return failed(Er::Id);
    };
    let Some(row) = base.task(id) else {
        return failed(Er::NoExs);
    };
    Outcome::Returned(shown(base.state_of(id, row), row))
}

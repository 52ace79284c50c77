//! The system calls on tasks and on sleep: the checks of each in their order, and its effect up to the first settling.
#![tactic(auto)]

mod asking;
mod ending;
mod making;
mod names;
mod priorities;
mod releasing;
mod sleeping;
mod suspending;
#[cfg(test)]
mod tests;
mod waking;

ghost use Rattle.std.specs.Prelude.{◌≡◌, ◌<◌, ◌^◌};
ghost use Rattle.kernel_model.specs.Tasks.Queues.{AreOfOrder};
ghost use Rattle.tk_types.specs.declared.task.Order.TheVariants.{Fifo};
ghost use Rattle.object_model.specs.Mutexes.Calls.{task_call_beside};

use kernel_base::Base;
use mutex_prio::Mutexes;
use tk_types::{Outcome, TaskCall, Who};

/// A call on tasks, by its row of the table of calls: the error of the first check that fails, with nothing changed,
/// or its effect. It takes no memory. `mutexes` say whether a ceiling allows a new base priority. The tasks that sleep, and
/// those in a delay, queue by the beginning of their waits.
#[tactic(auto, unfolding(kernel_model::specs::Tasks::Calls::task_call, object_model::specs::Mutexes::Calls::task_call_beside))]
pub fn call(base: &mut Base, mutexes: &Mutexes, who: Who, call: &TaskCall) -> Outcome
    requires few { base.old.made < 2 ^ 63 }
    requires early { base.old.time < 2 ^ 63 }
    requires sleepers { AreOfOrder Fifo base.old 0 }
    requires delayed { AreOfOrder Fifo base.old 1 }
    ensures { task_call_beside base.old mutexes.now who call.now ≡ record { base = base.new; outcome = result } }
{
    match *call {
        TaskCall::CreTsk {
            attributes,
            priority,
            stack,
            ..
        } => making::create_task(base, attributes, priority, stack),
        TaskCall::DelTsk { task } => making::delete_task(base, task),
        TaskCall::StaTsk { task, code } => making::start_task(base, task, code),
        TaskCall::ExtTsk => ending::exit_task(base, who),
        TaskCall::ExdTsk => ending::exit_task(base, who),
        TaskCall::TerTsk { task } => ending::terminate_task(base, who, task),
        TaskCall::ChgPri { task, priority } => priorities::change_priority(
            base, mutexes, who, task, priority,
        ),
        TaskCall::RotRdq { priority } => priorities::rotate_ready(base, priority),
        TaskCall::GetTid => asking::get_task(base),
        TaskCall::RefTsk { task } => asking::refer_task(base, who, task),
        TaskCall::SlpTsk { timeout } => sleeping::sleep(base, who, timeout),
        TaskCall::WupTsk { task } => waking::wake_up(base, who, task),
        TaskCall::CanWup { task } => waking::cancel_wakeups(base, who, task),
        TaskCall::RelWai { task } => releasing::release_wait(base, task),
        TaskCall::SusTsk { task } => suspending::suspend_task(base, who, task),
        TaskCall::RsmTsk { task } => suspending::resume_task(base, task, false),
        TaskCall::FrsmTsk { task } => suspending::resume_task(base, task, true),
        TaskCall::DlyTsk { delay } => sleeping::delay(base, who, delay),
    }
}

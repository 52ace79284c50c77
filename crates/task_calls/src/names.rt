//! Numbers that name tasks.

ghost use Rattle.std.specs.Prelude.{◌≡◌, Some, None, if◌then◌else◌};
ghost use Rattle.kernel_model.specs.Words.Checks.{natural, within};
ghost use Rattle.kernel_model.specs.Tasks.Marks.{is_task};
ghost use Rattle.kernel_model.specs.Tasks.Calls.{named, names_task};

use kernel_base::answers::caller;
use tk_types::Who;

/// The task that a number from 1 to 255 names.
pub(crate) fn task_id(task: i32) -> Option<u8>
    ensures { result ≡ (if within 1 255 task then Some (natural task) else None) }
{
    if task < 1 || task > 255 {
        return None;
    }
    Some(task as u8)
}

/// Whether a task makes the call.
fn is_task(who: Who) -> bool
    ensures { result ≡ is_task who }
{
    match who {
        Who::Task(_) => true,
        Who::Handler => false,
    }
}

/// The task that a number from 0 to 255 names, where 0 names the caller, which has to be a task.
pub(crate) fn named_task(who: Who, task: i32) -> Option<u8>
    ensures { result ≡ (if names_task who task then Some (named who task) else None) }
{
    if task < 0 || task > 255 {
        return None;
    }
    if task != 0 {
        return Some(task as u8);
    }
    if !is_task(who) {
        return None;
    }
    Some(caller(who))
}

//! The lists of tasks in their order, one task after another.

ghost use Rattle.std.specs.Prelude.{◌≡◌, ◌≤◌, slice_get};
ghost use Rattle.kernel_base.specs.Queues.{behind};
ghost use Rattle.kernel_model.specs.LawWords.Once.{times};
ghost use Rattle.td_hooks.specs.Tasks.{IsList, in_list};

use kernel_base::Base;

/// A list of tasks.
#[derive(Clone, Copy)]
pub(crate) enum TaskList {
    /// The ready tasks of a priority, that of the highest precedence first.
    Ready(u8),
    /// The tasks that wait for the object with a number, in the order of its queue.
    Waiting(u32),
}

impl TaskList {
    /// The first task of the list.
    pub(crate) fn first(self, base: &Base) -> Option<u8>
        requires { IsList self }
        ensures { result ≡ slice_get (in_list base.now self) 0 }
    {
        match self {
            TaskList::Ready(priority) => base.first_ready(priority),
            TaskList::Waiting(object) => base.head(object),
        }
    }

    /// The task behind one of the list.
    pub(crate) fn next(self, base: &Base, task: u8) -> Option<u8>
        requires { 1 ≤ times task (in_list base.now self) }
        ensures { result ≡ slice_get (behind task (in_list base.now self)) 0 }
    {
        match self {
            TaskList::Ready(_) => base.next_ready(task),
            TaskList::Waiting(_) => base.next_after(task),
        }
    }
}

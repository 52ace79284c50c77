//! Tasks are made, started and ended.

ghost use Rattle.std.specs.Prelude.{◌≡◌, ◌≤◌};
ghost use Rattle.kernel_model.specs.Tasks.Base.{create, delete, gone, make_dormant, make_ready};

use crate::base::Base;
use crate::rows::{created, ended, readied};

/// The current task, which is gone where it is that one.
pub(crate) fn gone(task: u8, cur: Option<u8>) -> Option<u8>
    ensures { result ≡ gone task cur }
{
    match cur {
        None => None,
        Some(other) => { if other == task { None } else { Some(other) } }
    }
}

impl Base {
    /// A new task, DORMANT. The stack's bytes were taken before.
    /// The priority is from 1 to 140.
    pub fn create(&mut self, task: u8, pri: u8, stack: u32)
        requires low { 1 ≤ pri }
        requires high { pri ≤ 140 }
        ensures { self.new ≡ create self.old task pri stack }
    {
        self.write_last(task, created(pri, stack));
        self.since.move_to_back(task);
    }

    /// Makes a task's ID free again, and gives its stack's bytes back.
    pub fn delete(&mut self, task: u8)
        ensures { self.new ≡ delete self.old task }
    {
        let Some(row) = self.task(task) else {
            return;
        };
        self.erase(task);
        self.since.take_out(task);
        self.bytes = self.bytes.saturating_sub(row.stack);
    }

    /// A task becomes READY, the last among its equals.
    pub fn make_ready(&mut self, task: u8)
        ensures { self.new ≡ make_ready self.old task }
    {
        let Some(row) = self.slot(task) else {
            return;
        };
        self.write_last(task, readied(row));
    }

    /// A task ends: its wait is dropped with its event, its wake-up requests and suspensions are cleared, and its
    /// priorities are those of its creation. Where it was the current one, that is gone.
    pub fn make_dormant(&mut self, task: u8)
        ensures { self.new ≡ make_dormant self.old task }
    {
        let Some(row) = self.slot(task) else {
            return;
        };
        self.write_idle(task, ended(row));
        self.due.drop_wait(task);
        self.cur = gone(task, self.cur);
    }
}

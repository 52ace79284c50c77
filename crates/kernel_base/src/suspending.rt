//! Suspensions and wake-up requests.

ghost use Rattle.std.specs.Prelude.{◌≡◌, ◌<◌, ◌≤◌, ◌-◌, ◌==◌, if◌then◌else◌};
ghost use Rattle.kernel_model.specs.Tasks.Base.{resume, set_wakeups, suspend, suspensions_of};

use crate::base::Base;
use crate::ending::gone;
use crate::reading::is_ready_phase;
use crate::rows::{with_suspensions, with_wakeups};

/// The suspensions that are left of some when one is taken off, or all.
fn left_of(suspensions: u16, all: bool) -> u16
    ensures { result ≡ (if all then 0 else suspensions - 1) }
{
    if all {
        return 0;
    }
    suspensions.saturating_sub(1)
}

impl Base {
    /// A task that has fewer than 65,535 suspensions is suspended once more. Where it was the current one, that is gone.
    pub fn suspend(&mut self, task: u8)
        requires { suspensions_of self.old task < 65535 }
        ensures { self.new ≡ suspend self.old task }
    {
        let Some(row) = self.slot(task) else {
            return;
        };
        self.write_stopped(task, with_suspensions(row, row.suspensions + 1));
        self.cur = gone(task, self.cur);
    }

    /// Takes off one suspension of a task, or all. Without one left it becomes READY, the last among its equals, or
    /// goes on waiting.
    pub fn resume(&mut self, task: u8, all: bool)
        ensures { self.new ≡ resume self.old task all }
    {
        let Some(row) = self.slot(task) else {
            return;
        };
        if row.suspensions == 0 {
            return;
        }
        let left = left_of(row.suspensions, all);
        if is_ready_phase(row.phase) && left == 0 {
            self.write_last(task, with_suspensions(row, left));
        } else {
            self.write_stopped(task, with_suspensions(row, left));
        }
    }

    /// Sets the wake-up requests of a task, at most 65,535.
    pub fn set_wakeups(&mut self, task: u8, n: u32)
        requires { n ≤ 65535 }
        ensures { self.new ≡ set_wakeups self.old task n }
    {
        let Some(row) = self.slot(task) else {
            return;
        };
        self.write_alike(task, with_wakeups(row, n as u16));
    }
}

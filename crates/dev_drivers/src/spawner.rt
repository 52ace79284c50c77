//! What starts the drivers of devices.

ghost use Rattle.std.specs.Prelude.{◌≡◌, ◌-◌, ◌≤◌, ℕ, IfOk, OnOk, OnErr};
ghost use Rattle.dev_drivers.specs.Jobs.{IsLogOf};
ghost use Rattle.dev_drivers.specs.declared.job.DriverJob.{DriverJob};
ghost use Rattle.dev_drivers.specs.Spawning.{HasRefused, HasStarted};

use crate::job::DriverJob;
use crate::log::DriverLog;
use std::sync::Wait;
use std::thread::Threads;
use tk_ports::Failed;

/// What starts drivers, without the starting: the drivers that it has started, and its counts.
pub trait Started {
    /// A driver that was started.
    type Handle: Drop;

    // The job that a driver was started with.
    ghost job_of: { Self.Handle → DriverJob };

    // How many drivers are started and not yet joined.
    ghost running: { Self → ℕ };

    ghost start_count: { Self → ℕ };

    ghost refusal_count: { Self → ℕ };

    /// How many starts were refused; the count stays at the greatest `u64`.
    fn refusals(&self) -> u64
        ensures { result ≡ refusal_count self.now };

    /// How many drivers were started; the count stays at the greatest `u64`.
    fn starts(&self) -> u64
        ensures { result ≡ start_count self.now };
}

/// Starts drivers, each on a thread of its own, and joins them.
pub trait Spawner<R: Threads + Wait + Copy + Send + Sync + 'static>: Started {
    /// Starts a driver with a job. A refused start counts as a refusal, whatever its cause, and the job is dropped.
    fn start(&mut self, rt: &R, job: DriverJob) -> Result<Self::Handle, Failed>
        ensures job { IfOk result (λ handle. Self.job_of handle ≡ job) }
        ensures started { OnOk result (HasStarted (Self.start_count self.old) (Self.start_count self.new) (Self.running self.old) (Self.running self.new)) }
        ensures refused { OnErr result (HasRefused (Self.refusal_count self.old) (Self.refusal_count self.new) (Self.running self.old) (Self.running self.new)) }
        ensures starts_stay { Self.start_count self.old ≤ Self.start_count self.new }
        ensures refusals_stay { Self.refusal_count self.old ≤ Self.refusal_count self.new };

    /// Waits until a driver has ended, and answers what it has come to.
    fn join(&mut self, rt: &R, handle: Self::Handle) -> DriverLog
        ensures log { IsLogOf (Self.job_of handle) result }
        ensures running { Self.running self.new ≡ Self.running self.old - 1 }
        ensures starts_stay { Self.start_count self.old ≤ Self.start_count self.new }
        ensures refusals_stay { Self.refusal_count self.old ≤ Self.refusal_count self.new };
}

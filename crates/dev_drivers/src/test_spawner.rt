//! Drivers on threads, some starts of which are refused.

ghost use Rattle.std.specs.Prelude.{◌≡◌, IfOk};

use crate::job::DriverJob;
use crate::log::DriverLog;
use crate::spawner::{Spawner, Started};
use crate::tally::Tally;
use crate::threads::{AnyGate, OfJob, start_gated};
use std::alloc::Global;
use std::sync::{Arc, Wait};
use std::thread::{PromisedHandle, Threads};
use tk_ports::Failed;
use tk_types::OutOfMemory;

/// Starts each driver on a thread of the process, with the gate that the spawner was made with. It refuses the starts on its list.
#[derive(Drop)]
pub struct TestSpawner {
    gate: Arc<AnyGate, Global>,
    fails: Vec<u64>,
    calls: u64,
    joins: u64,
    tally: Tally,
}

impl TestSpawner {
    /// No driver was started yet. `fails` lists the numbers of the starts that are to be refused, counted from 1.
    pub fn new(alloc: Global, gate: AnyGate, fails: &[u64]) -> Result<TestSpawner, OutOfMemory>
        ensures { IfOk result (λ spawner. spawner.fails.items ≡ fails.now) }
    {
        Ok(TestSpawner {
            gate: Arc::new(alloc, gate)?,
            fails: Vec::from_slice(alloc, fails)?,
            calls: 0,
            joins: 0,
            tally: Tally::new(),
        })
    }

    /// How many drivers were joined; the count stays at the greatest `u64`.
    pub fn joins(&self) -> u64
        ensures { result ≡ self.now.joins }
    {
        self.joins
    }

    /// Starts a driver, unless that is refused.
    fn begin<R: Threads + Wait + 'static>(
        &mut self,
        rt: &R,
        job: DriverJob,
    ) -> Result<PromisedHandle<DriverLog, OfJob>, Failed>
        ensures job { IfOk result (λ handle. handle.promise.0.value ≡ job) }
        ensures tally { self.new.tally ≡ self.old.tally }
    {
        self.calls = self.calls.saturating_add(1);
        if self.fails.contains(&self.calls) {
            return Err(Failed);
        }
        match Arc::try_clone(&self.gate) {
            Ok(gate) => start_gated(rt, gate, job),
            Err(_) => Err(Failed),
        }
    }
}

impl Started for TestSpawner {
    type Handle = PromisedHandle<DriverLog, OfJob>;

    ghost job_of = { λ handle. handle.promise.0.value };

    ghost running = { λ spawner. spawner.tally.running };

    ghost start_count = { λ spawner. spawner.tally.starts };

    ghost refusal_count = { λ spawner. spawner.tally.refusals };

    fn refusals(&self) -> u64 {
        self.tally.refusals
    }

    fn starts(&self) -> u64 {
        self.tally.starts
    }
}

impl<R: Threads + Wait + Copy + Send + Sync + 'static> Spawner<R> for TestSpawner {
    fn start(
        &mut self,
        rt: &R,
        job: DriverJob,
    ) -> Result<PromisedHandle<DriverLog, OfJob>, Failed> {
        if self.tally.running < u64::MAX {
            if let Ok(handle) = self.begin(rt, job) {
                self.tally.start();
                return Ok(handle);
            }
        }
        self.tally.refuse();
        Err(Failed)
    }

    fn join(&mut self, rt: &R, handle: PromisedHandle<DriverLog, OfJob>) -> DriverLog {
        self.tally.join();
        self.joins = self.joins.saturating_add(1);
        handle.join(rt)
    }
}

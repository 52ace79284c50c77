//! Drivers on threads of the process.

use crate::job::DriverJob;
use crate::log::DriverLog;
use crate::spawner::{Spawner, Started};
use crate::tally::Tally;
use crate::threads::{OfJob, start_open};
use std::sync::Wait;
use std::thread::{PromisedHandle, Threads};
use tk_ports::Failed;

/// Starts each driver on a thread of the process, with a gate that is always open.
#[derive(Drop)]
pub struct StdSpawner {
    tally: Tally,
}

impl StdSpawner {
    /// No driver was started yet.
    pub fn new() -> StdSpawner {
        StdSpawner {
            tally: Tally::new(),
        }
    }
}

impl Started for StdSpawner {
    type Handle = PromisedHandle<DriverLog, OfJob>;

    ghost job_of = { λ handle. handle.promise.0.value };

    ghost running = { λ spawner. spawner.tally.running };

    ghost start_count = { λ spawner. spawner.tally.starts };

    ghost refusal_count = { λ spawner. spawner.tally.refusals };

    fn refusals(&self) -> u64 {
        self.tally.refusals
    }

    fn starts(&self) -> u64 {
        self.tally.starts
    }
}

impl<R: Threads + Wait + Copy + Send + Sync + 'static> Spawner<R> for StdSpawner {
    fn start(
        &mut self,
        rt: &R,
        job: DriverJob,
    ) -> Result<PromisedHandle<DriverLog, OfJob>, Failed> {
        if self.tally.running < u64::MAX {
            if let Ok(handle) = start_open(rt, job) {
                self.tally.start();
                return Ok(handle);
            }
        }
        self.tally.refuse();
        Err(Failed)
    }

    fn join(&mut self, rt: &R, handle: PromisedHandle<DriverLog, OfJob>) -> DriverLog {
        self.tally.join();
        handle.join(rt)
    }
}

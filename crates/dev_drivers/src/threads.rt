//! Drivers on threads, with what is known of them once they are joined.

ghost use Rattle.std.specs.Prelude.{◌≡◌, IfOk};
ghost use Rattle.dev_drivers.specs.Jobs.{IsLogOf};

use crate::job::DriverJob;
use crate::leave::Leave;
use crate::log::DriverLog;
use crate::worker::drive;
use std::alloc::Global;
use std::snapshot::Snapshot;
use std::sync::{Arc, Wait};
use std::thread;
use std::thread::{Promise, PromisedHandle, Threads};
use tk_ports::{Failed, Gate};

/// What a driver has come to is a log of its job.
#[derive(Drop)]
pub struct OfJob(pub Snapshot<DriverJob>);

impl Promise<DriverLog> for OfJob {
    ghost kept_by = { λ promise log. IsLogOf promise.0.value log };
}

/// The gate that is always open.
#[derive(Drop)]
pub struct Open;

impl Gate for Open {
    fn pass(&self, _device: u8, _block: u32) {}
}

/// Any gate that threads may share.
#[derive(Drop)]
pub struct AnyGate(pub Box<dyn Gate + Send + Sync + Drop>);

impl Gate for AnyGate {
    fn pass(&self, device: u8, block: u32) {
        self.0.pass(device, block);
    }
}

/// Starts a driver whose gate is open.
pub(crate) fn start_open<R: Threads + Wait + 'static>(
    rt: &R,
    job: DriverJob,
) -> Result<PromisedHandle<DriverLog, OfJob>, Failed>
    ensures { IfOk result (λ handle. handle.promise.0.value ≡ job) }
{
    let of = OfJob(Snapshot::of(&job));
    let theirs = Leave::of(rt);
    match thread::spawn_with(rt, of, move || drive(&theirs, job, &Open)) {
        Ok(handle) => Ok(handle),
        Err(_) => Err(Failed),
    }
}

/// Starts a driver with a gate.
pub(crate) fn start_gated<R: Threads + Wait + 'static, G: Gate + Send + Sync + Drop + 'static>(
    rt: &R,
    gate: Arc<G, Global>,
    job: DriverJob,
) -> Result<PromisedHandle<DriverLog, OfJob>, Failed>
    ensures { IfOk result (λ handle. handle.promise.0.value ≡ job) }
{
    let of = OfJob(Snapshot::of(&job));
    let theirs = Leave::of(rt);
    match thread::spawn_with(rt, of, move || drive(&theirs, job, &*gate)) {
        Ok(handle) => Ok(handle),
        Err(_) => Err(Failed),
    }
}

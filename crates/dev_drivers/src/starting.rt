//! The start of a fleet.

ghost use Rattle.std.specs.Prelude.{◌≡◌, ◌<◌, ◌+◌, ◌≤◌, [], length, vec_len, vec_capacity, IfOk, IfErr, OnOk, OnErr};
ghost use Rattle.std.specs.List.{All};
ghost use Rattle.dev_units.specs.Views.{IsRightKind};
ghost use Rattle.fleet_model.specs.Fleets.{fleet_start};
ghost use Rattle.tk_ports.specs.Streams.{Rose};
ghost use Rattle.dev_drivers.specs.FleetFacts.{AreDevices};
ghost use Rattle.dev_drivers.specs.Starts.{AreStarted, HasGrown, OneMore};
ghost use Rattle.dev_drivers.specs.declared.outcome.Start.TheVariants as why;

use crate::closed::Closed;
use crate::closing::close_all;
use crate::driven::Driven;
use crate::fleet::Fleet;
use crate::outcome::Start;
use crate::preparing::prepare;
use crate::spawner::{Spawner, Started};
use crossbeam_utils::sync::Parker;
use std::alloc::Global;
use std::sync::Wait;
use std::thread::Threads;
use tk_types::{Device, OutOfMemory, Script};

/// Starts the driver of the next device, which has a place in the row.
fn start_next<R: Threads + Wait + Copy + Send + Sync + 'static, P: Spawner<R>>(
    rt: &R,
    alloc: Global,
    spawner: &mut P,
    kernel: &Parker,
    device: &Device,
    lines: &mut Vec<Driven<P::Handle>>,
) -> Result<(), Start>
    requires kind { IsRightKind device.now.kind }
    requires few { vec_len lines.old < 8 }
    requires room { vec_len lines.old < vec_capacity lines.old }
    ensures one { OnOk result (OneMore P.job_of device.now lines.old.items lines.new.items) }
    ensures none { OnErr result (lines.new.items ≡ lines.old.items) }
    ensures capacity { vec_capacity lines.new ≡ vec_capacity lines.old }
    ensures running { OnOk result (P.running spawner.new ≡ P.running spawner.old + 1) }
    ensures same_running { OnErr result (P.running spawner.new ≡ P.running spawner.old) }
    ensures starts { OnOk result (Rose (P.start_count spawner.old) (P.start_count spawner.new)) }
    ensures refused { IfErr result (λ refusal. refusal ≡ why.Refused → Rose (P.refusal_count spawner.old) (P.refusal_count spawner.new)) }
    ensures starts_stay { P.start_count spawner.old ≤ P.start_count spawner.new }
    ensures refusals_stay { P.refusal_count spawner.old ≤ P.refusal_count spawner.new }
{
    let number = lines.len() as u8 + 1;
    let Ok(kernel) = kernel.unparker().clone() else {
        return Err(Start::OutOfMemory);
    };
    let Ok((link, job)) = prepare(alloc, number, device, kernel) else {
        return Err(Start::OutOfMemory);
    };
    let Ok(driver) = spawner.start(rt, job) else {
        return Err(Start::Refused);
    };
    lines.push_reserved(Driven { link, driver });
    Ok(())
}

/// Starts the drivers of all devices, in order, as far as none is refused and the host's memory is enough.
fn start_all<R: Threads + Wait + Copy + Send + Sync + 'static, P: Spawner<R>>(
    rt: &R,
    alloc: Global,
    spawner: &mut P,
    kernel: &Parker,
    devices: &[Device],
    lines: &mut Vec<Driven<P::Handle>>,
) -> Result<(), Start>
    requires kinds { All (λ device. IsRightKind device.kind) devices.now }
    requires few { length devices.now ≤ 8 }
    requires none { lines.old.items ≡ [] }
    requires room { length devices.now ≤ vec_capacity lines.old }
    ensures started { AreStarted P.job_of devices.now lines.new.items }
    ensures all { OnOk result (vec_len lines.new ≡ length devices.now) }
    ensures running { P.running spawner.new ≡ P.running spawner.old + vec_len lines.new }
    ensures starts { HasGrown (P.start_count spawner.old) (P.start_count spawner.new) (vec_len lines.new) }
    ensures refused { IfErr result (λ refusal. refusal ≡ why.Refused → Rose (P.refusal_count spawner.old) (P.refusal_count spawner.new)) }
    ensures starts_stay { P.start_count spawner.old ≤ P.start_count spawner.new }
    ensures refusals_stay { P.refusal_count spawner.old ≤ P.refusal_count spawner.new }
{
    'devices: for i in 0..devices.len() {
        start_next(rt, alloc, spawner, kernel, &devices[i], lines)?;
    }
    Ok(())
}

/// Room for a fleet of so many devices, and for its record.
fn rooms<H: Drop>(
    alloc: Global,
    count: usize,
) -> Result<(Vec<Driven<H>>, Vec<Closed>, Parker), OutOfMemory>
    ensures lines { IfOk result (λ rooms. (rooms.0.items ≡ []) × (count ≤ vec_capacity rooms.0)) }
    ensures kept { IfOk result (λ rooms. (rooms.1.items ≡ []) × (count ≤ vec_capacity rooms.1)) }
{
    Ok((
        Vec::with_capacity(alloc, count)?,
        Vec::with_capacity(alloc, count)?,
        Parker::new(alloc)?,
    ))
}

impl<P: Started> Fleet<P> {
    /// Starts a driver for each device of a script, which has at most eight, and the numbers of their kinds are in range. Where a
    /// start is refused or the host's memory runs out, the drivers that were started are stopped and joined. After this no call of
    /// the fleet takes memory.
    pub fn start<R: Threads + Wait + Copy + Send + Sync + 'static>(
        rt: &R,
        alloc: Global,
        spawner: &mut P,
        script: &Script,
    ) -> Result<Fleet<P>, Start>
    where
        P: Spawner<R>,
        requires { AreDevices script.now.devices }
        ensures fleet { IfOk result (λ fleet. fleet ≡ fleet_start script.now.devices) }
        ensures running { OnOk result (P.running spawner.new ≡ P.running spawner.old + length script.now.devices) }
        ensures none_left { OnErr result (P.running spawner.new ≡ P.running spawner.old) }
        ensures starts { OnOk result (HasGrown (P.start_count spawner.old) (P.start_count spawner.new) (length script.now.devices)) }
        ensures refused { IfErr result (λ refusal. refusal ≡ why.Refused → Rose (P.refusal_count spawner.old) (P.refusal_count spawner.new)) }
        ensures starts_stay { P.start_count spawner.old ≤ P.start_count spawner.new }
        ensures refusals_stay { P.refusal_count spawner.old ≤ P.refusal_count spawner.new }
    {
        let Ok((mut lines, kept, parker)) = rooms(alloc, script.devices.len()) else {
            return Err(Start::OutOfMemory);
        };
        match start_all(
            rt,
            alloc,
            spawner,
            &parker,
            script.devices.as_slice(),
            &mut lines,
        ) {
            Ok(()) => Ok(Fleet {
                lines,
                kept,
                dropped: 0,
                polls: 0,
                parker,
            }),
            Err(refusal) => {
                close_all(rt, spawner, &parker, lines, kept);
                Err(refusal)
            }
        }
    }
}

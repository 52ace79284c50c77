//! Fleets that are started, get messages and are closed.

ghost use Rattle.std.specs.Prelude.{◌≡◌, ◌≤◌, length, IfOk};
ghost use Rattle.fleet_model.specs.Fleets.{EachHasPlace, device_of};
ghost use Rattle.dev_drivers.specs.FleetFacts.{AreDevices, IsKind};
ghost use Rattle.dev_drivers.specs.Wholes.{HasWhole};

use super::*;
use crossbeam_utils::Backoff;
use device_model::bytes::Bytes;
use device_model::messages::{Ending, Message, Request};
use std::alloc::Global;
use std::sync::atomic::{AtomicU64, Ordering};
use std::sync::{Arc, Wait};
use std::test::Fail;
use std::thread::Threads;
use tk_ports::Gate;
use tk_types::{Boot, Device, Er, How, Kind, Name, OutOfMemory, Script, Sequence};

/// A gate that lets no driver pass while a word is 0.
#[derive(Drop)]
struct Latch<R> {
    leave: Leave<R>,
    word: Arc<AtomicU64, Global>,
}

impl<R: Wait> Gate for Latch<R> {
    fn pass(&self, _device: u8, _block: u32) {
        let backoff = Backoff::new();
        'turns: for _ in self.leave.forever() {
            if self.word.load(Ordering::SeqCst) != 0 {
                return;
            }
            backoff.snooze();
        }
    }
}

/// A script with so many devices of a kind.
fn script_of(alloc: Global, name: Name, kind: Kind, count: usize) -> Result<Script, OutOfMemory>
    requires kind { IsKind kind }
    requires few { count ≤ 8 }
    ensures devices { IfOk result (λ script. AreDevices script.devices) }
    ensures many { IfOk result (λ script. length script.devices ≡ count) }
{
    let devices = [Device { name, kind }; 8];
    Ok(Script {
        devices: Sequence::from_vec(Vec::from_slice(alloc, &devices[..count])?),
        pace: None,
        irqs: Sequence::new(alloc),
        boot: Boot {
            body: 1,
            priority: 1,
        },
        bodies: Sequence::new(alloc),
    })
}

/// The first request to the first device, which writes 200 bytes from the first place on.
fn write(alloc: Global) -> Result<Message, OutOfMemory>
    ensures whole { IfOk result (λ m. HasWhole m) }
    ensures device { IfOk result (λ m. device_of m ≡ 1) }
{
    let bytes = Vec::from_slice(alloc, &[7; 200])?;
    Ok(Message::Serve {
        device: 1,
        request: Request {
            id: 5,
            number: 1,
            write: true,
            start: 0,
            size: 200,
            bytes: Bytes::from_vec(bytes),
        },
    })
}

/// Polls until an ending comes, as many as 5,000,000 times.
fn poll_often<P: Started>(fleet: &mut Fleet<P>) -> Option<Ending>
    requires { EachHasPlace fleet.old.channels }
    ensures places { EachHasPlace fleet.new.channels }
    ensures many { length fleet.new.channels ≡ length fleet.old.channels }
{
    let backoff = Backoff::new();
    'turns: for _ in 0..5_000_000u32 {
        let ending = fleet.poll();
        if ending.is_some() {
            return ending;
        }
        backoff.snooze();
    }
    None
}

/// Starts a fleet, hands a message to its first device, polls until an ending comes, and closes the fleet.
fn served<R: Threads + Wait + Copy + Send + Sync + 'static, P: Spawner<R>>(
    rt: &R,
    alloc: Global,
    spawner: &mut P,
    script: &Script,
    m: Message,
) -> Result<(Option<Ending>, FleetRecord), Start>
    requires devices { AreDevices script.now.devices }
    requires some { 1 ≤ length script.now.devices }
    requires whole { HasWhole m }
    requires first { device_of m ≡ 1 }
    ensures { IfOk result (λ came. length came.1.channels ≡ length script.now.devices) }
{
    let mut fleet = Fleet::start(rt, alloc, spawner, script)?;
    fleet.hand(m);
    let ending = poll_often(&mut fleet);
    let record = fleet.close(rt, spawner);
    Ok((ending, record))
}

/// Does the same, and hands the abort of the first request before the drivers may pass the gate.
fn aborted<R: Threads + Wait + Copy + Send + Sync + 'static, P: Spawner<R>>(
    rt: &R,
    alloc: Global,
    spawner: &mut P,
    script: &Script,
    m: Message,
    word: &AtomicU64,
) -> Result<Option<Ending>, Start>
    requires devices { AreDevices script.now.devices }
    requires some { 1 ≤ length script.now.devices }
    requires whole { HasWhole m }
    requires first { device_of m ≡ 1 }
{
    let mut fleet = Fleet::start(rt, alloc, spawner, script)?;
    fleet.hand(m);
    fleet.hand(Message::Abort {
        device: 1,
        number: 1,
    });
    word.store(1, Ordering::SeqCst);
    let ending = poll_often(&mut fleet);
    fleet.close(rt, spawner);
    Ok(ending)
}

/// Starts a fleet and closes it.
fn closed<R: Threads + Wait + Copy + Send + Sync + 'static, P: Spawner<R>>(
    rt: &R,
    alloc: Global,
    spawner: &mut P,
    script: &Script,
) -> Result<FleetRecord, Start>
    requires devices { AreDevices script.now.devices }
    ensures { IfOk result (λ kept. length kept.channels ≡ length script.now.devices) }
{
    let fleet = Fleet::start(rt, alloc, spawner, script)?;
    Ok(fleet.close(rt, spawner))
}

/// The counts of a device to which nothing but a Stop was handed.
const STOPPED: Counts = Counts {
    handed: 1,
    taken: 1,
    sent: 0,
    received: 0,
};

#[test]
fn a_thread_serves_a_request(rt: HostRuntime) -> Result<(), Fail> {
    let alloc = rt.alloc();
    let name = Name::new(b"disk").ok_or("a name")?;
    let script = script_of(alloc, name, Kind::Ram(256), 1)?;
    let mut spawner = StdSpawner::new();
    let (ending, kept) = served(&rt, alloc, &mut spawner, &script, write(alloc)?)?;
    let ending = ending.ok_or("an ending")?;
    assert_eq!(rt; (ending.device, ending.request, ending.number), (1, 5, 1));
    assert_eq!(rt;
        (ending.how, ending.size, ending.error),
        (How::Done, 200, Er::Ok)
    );
    assert_eq!(rt; ending.taken, 1);
    let counts = Counts {
        handed: 2,
        taken: 2,
        sent: 1,
        received: 1,
    };
    assert_eq!(rt; kept.counts(1), counts);
    assert_eq!(rt; (spawner.starts(), spawner.refusals()), (1, 0));
    Ok(())
}

#[test]
fn eight_devices_are_started_and_closed(rt: HostRuntime) -> Result<(), Fail> {
    let alloc = rt.alloc();
    let name = Name::new(b"disk").ok_or("a name")?;
    let script = script_of(alloc, name, Kind::Log, 8)?;
    let mut spawner = StdSpawner::new();
    let kept = closed(&rt, alloc, &mut spawner, &script)?;
    'devices: for device in 1..=8u8 {
        assert_eq!(rt; kept.counts(device), STOPPED, "of {device}");
    }
    assert_eq!(rt; (spawner.starts(), spawner.refusals()), (8, 0));
    Ok(())
}

#[test]
fn a_refused_start_joins_the_others(rt: HostRuntime) -> Result<(), Fail> {
    let alloc = rt.alloc();
    let name = Name::new(b"disk").ok_or("a name")?;
    let script = script_of(alloc, name, Kind::Ram(256), 4)?;
    let gate = Latch {
        leave: Leave::of(&rt),
        word: Arc::new(alloc, AtomicU64::new(0))?,
    };
    let gate = AnyGate(Box::new(alloc, gate)?);
    let mut spawner = TestSpawner::new(alloc, gate, &[3])?;
    let refusal = closed(&rt, alloc, &mut spawner, &script).err();
    assert_eq!(rt; refusal, Some(Start::Refused));
    assert_eq!(rt;
        (spawner.starts(), spawner.refusals(), spawner.joins()),
        (2, 1, 2)
    );
    Ok(())
}

#[test]
fn an_abort_cuts_a_request_off(rt: HostRuntime) -> Result<(), Fail> {
    let alloc = rt.alloc();
    let name = Name::new(b"disk").ok_or("a name")?;
    let script = script_of(alloc, name, Kind::Ram(256), 1)?;
    let word = Arc::new(alloc, AtomicU64::new(0))?;
    let gate = Latch {
        leave: Leave::of(&rt),
        word: Arc::try_clone(&word)?,
    };
    let gate = AnyGate(Box::new(alloc, gate)?);
    let mut spawner = TestSpawner::new(alloc, gate, &[])?;
    let ending = aborted(&rt, alloc, &mut spawner, &script, write(alloc)?, &word)?;
    let ending = ending.ok_or("an ending")?;
    // the driver may have passed the gate before the first block, and no further
    assert!(rt; matches!(ending.how, How::Cut(0 | 64)));
    assert_eq!(rt;
        (ending.number, ending.error, ending.taken),
        (1, Er::Abort, 2)
    );
    assert_eq!(rt; spawner.joins(), 1);
    Ok(())
}

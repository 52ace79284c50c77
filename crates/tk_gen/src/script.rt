//! The script with a number.

ghost use Rattle.std.specs.Prelude.{◌≡◌, ◌≤◌, ◌<◌, ◌*◌, ◌++◌, true, codes, decimal, length, IfOk, OnOk};
ghost use Rattle.machine_model.specs.Runs.Generator.{drawn_bodies, generated};
ghost use Rattle.tk_gen.specs.Objects.{bodies_of, the_device};
ghost use Rattle.tk_types.specs.Names.{name_at_most};

use crate::draws::draws;
use crate::statements::{drawn_statements, main_statements};
use itoa::Buffer;
use std::alloc::Global;
use tk_types::{Body, BodyKind, Boot, Device, Kind, Name, OutOfMemory, Script, Sequence};

/// How many tasks a script makes.
const TASKS: usize = 100;

/// How many statements the body of a task has.
const STATEMENTS: usize = 40;

/// How many bytes the device has.
pub(crate) const DEVICE_SIZE: u32 = 4_096;

/// The name that a word spells.
fn named(word: &[u8]) -> Name
    requires { name_at_most 16 word.now ≡ true }
    ensures { result ≡ word.now }
{
    let Some(name) = Name::new(word) else {
        unreachable!();
    };
    name
}

/// The name of the body of a task: `w` and the number of the task.
#[tactic(auto, using(crate::proofs::Names::body_named))]
fn body_name(alloc: Global, task: u8) -> Result<Name, OutOfMemory>
    ensures { IfOk result (λ name. name ≡ codes "w" ++ decimal task) }
{
    let mut word = Vec::new(alloc);
    let mut buffer = Buffer::new();
    word.extend_from_slice(b"w")?;
    word.extend_from_slice(buffer.format(task).as_bytes())?;
    Ok(named(&word))
}

/// Puts the bodies of so many tasks behind others, each of 40 statements with two draws each.
fn push_drawn(
    alloc: Global,
    bodies: &mut Sequence<Body>,
    count: u8,
    draws: &[u16],
) -> Result<(), OutOfMemory>
    requires few { count < 255 }
    requires enough { 80 * count ≤ length draws.now }
    ensures { OnOk result (bodies.new ≡ bodies.old ++ drawn_bodies count 1 draws.now) }
{
    let mut left = draws;
    'drawing: for task in 1..count + 1 {
        let name = body_name(alloc, task)?;
        let stmts = drawn_statements(alloc, STATEMENTS, left)?;
        bodies.push(Body {
            name,
            kind: BodyKind::Task,
            labels: Sequence::new(alloc),
            stmts,
        })?;
        left = &left[2 * STATEMENTS..];
    }
    Ok(())
}

/// The bodies of a script with these draws: that of the boot task, and those of 100 tasks.
#[tactic(auto, using(crate::proofs::Names::main_named))]
fn bodies_of(alloc: Global, device: Name, draws: &[u16]) -> Result<Sequence<Body>, OutOfMemory>
    requires name { device ≡ codes "d1" }
    requires many { length draws.now ≡ 8100 }
    ensures { IfOk result (λ bodies. bodies ≡ bodies_of draws.now) }
{
    let stmts = main_statements(alloc, device, &draws[..TASKS])?;
    let mut bodies = Sequence::new(alloc);
    bodies.push(Body {
        name: named(b"main"),
        kind: BodyKind::Task,
        labels: Sequence::new(alloc),
        stmts,
    })?;
    push_drawn(alloc, &mut bodies, TASKS as u8, &draws[TASKS..])?;
    Ok(bodies)
}

/// The one device of a script: memory by the name `d1`.
#[tactic(auto, using(crate::proofs::Names::device_named))]
fn the_device() -> Device
    ensures { result ≡ the_device }
{
    Device {
        name: named(b"d1"),
        kind: Kind::Ram(DEVICE_SIZE),
    }
}

/// The script with a number: 100 tasks beside the boot task, with 40 statements each, which share a semaphore, a mutex, a message
/// buffer and a device. Its draws begin with the number. `OutOfMemory` comes only where the host's memory runs out.
#[tactic(auto, using(crate::proofs::Scripts::generated_is))]
pub fn generated(alloc: Global, number: u16) -> Result<Script, OutOfMemory>
    ensures { IfOk result (λ script. script ≡ generated number) }
{
    let draws = draws(alloc, TASKS + 2 * STATEMENTS * TASKS, u32::from(number))?;
    let device = the_device();
    let bodies = bodies_of(alloc, device.name, &draws)?;
    let mut devices = Sequence::new(alloc);
    devices.push(device)?;
    Ok(Script {
        devices,
        pace: None,
        irqs: Sequence::new(alloc),
        boot: Boot {
            body: 1,
            priority: 120,
        },
        bodies,
    })
}

//! The lines before the bodies: devices, pace, interrupts and the task at the start.

ghost use Rattle.std.specs.Prelude.{◌≡◌, ◌≤◌, IfOk};
ghost use Rattle.std.specs.List.{list_any};
ghost use Rattle.tk_model.specs.Lists.{texts};
ghost use Rattle.tk_raw.specs.RawReading.{boot_at, boot_from, device_at, device_from, device_taken, flaky_at, irq_at, irq_from, least_step, new_device_name, new_name, pace_at, ram_at, slow_at, unit_at, unit_count, unit_named};

use crate::builder::UnitWord;
use crate::pieces::{name_at, number_between, short_name_at};
use crate::raw::RawBoot;
use tk_types::{Device, Interrupt, Kind, Name, Why};

/// The most bytes of a device, and the last step that has an interrupt.
const MOST_BYTES: u32 = 65_536;

const LAST_STEP: u32 = 1_000_000;

/// A name that none of those before has.
pub(crate) fn new_name(taken: bool, name: Name) -> Result<Name, Why>
    ensures { result ≡ new_name taken name }
{
    if taken { Err(Why::Name) } else { Ok(name) }
}

/// Whether a device has that name.
#[tactic(auto, unfolding(crate::specs::RawReading::device_taken))]
fn device_taken(devices: &[Device], word: &[u8]) -> bool
    ensures { result ≡ device_taken devices.now word.now }
{
    devices.iter().any(|device| device.name.as_bytes() == word)
}

/// The kind of a device's unit that a word spells.
#[tactic(auto, unfolding(crate::specs::RawReading::unit_named))]
fn unit_named(word: &[u8]) -> Result<UnitWord, Why>
    ensures { result ≡ unit_named word.now }
{
    if word == b"ram".as_slice() {
        return Ok(UnitWord::Ram);
    }
    if word == b"log".as_slice() {
        return Ok(UnitWord::Log);
    }
    if word == b"flaky".as_slice() {
        return Ok(UnitWord::Flaky);
    }
    if word == b"slow".as_slice() {
        return Ok(UnitWord::Slow);
    }
    Err(Why::Name)
}

/// How many numbers stand behind the word of a unit.
#[tactic(auto, unfolding(crate::specs::RawReading::unit_count))]
fn unit_count(unit: UnitWord) -> usize
    ensures { result ≡ unit_count unit }
{
    match unit {
        UnitWord::Ram => 1,
        UnitWord::Log => 0,
        UnitWord::Flaky => 2,
        UnitWord::Slow => 2,
    }
}

#[tactic(auto, unfolding(crate::specs::RawReading::ram_at))]
fn ram_at(size: &[u8]) -> Result<Kind, Why>
    ensures { result ≡ ram_at size.now }
{
    let size = number_between(1, MOST_BYTES, size)?;
    Ok(Kind::Ram(size))
}

#[tactic(auto, unfolding(crate::specs::RawReading::flaky_at))]
fn flaky_at(size: &[u8], fails: &[u8]) -> Result<Kind, Why>
    ensures { result ≡ flaky_at size.now fails.now }
{
    let size = number_between(1, MOST_BYTES, size)?;
    let fails = number_between(1, 1000, fails)?;
    Ok(Kind::Flaky(size, fails))
}

#[tactic(auto, unfolding(crate::specs::RawReading::slow_at))]
fn slow_at(size: &[u8], turns: &[u8]) -> Result<Kind, Why>
    ensures { result ≡ slow_at size.now turns.now }
{
    let size = number_between(1, MOST_BYTES, size)?;
    let turns = number_between(0, 1000, turns)?;
    Ok(Kind::Slow(size, turns))
}

/// The unit of a kind with its numbers.
#[tactic(auto, unfolding(crate::specs::RawReading::unit_at))]
fn unit_at(unit: UnitWord, numbers: &[&[u8]]) -> Result<Kind, Why>
    ensures { result ≡ unit_at unit (texts numbers.now) }
{
    match unit {
        UnitWord::Ram => match numbers {
            [size] => ram_at(size),
            _ => Err(Why::Count),
        },
        UnitWord::Log => match numbers {
            [] => Ok(Kind::Log),
            _ => Err(Why::Count),
        },
        UnitWord::Flaky => match numbers {
            [size, fails] => flaky_at(size, fails),
            _ => Err(Why::Count),
        },
        UnitWord::Slow => match numbers {
            [size, turns] => slow_at(size, turns),
            _ => Err(Why::Count),
        },
    }
}

/// The name of a new device.
#[tactic(auto, unfolding(crate::specs::RawReading::new_device_name))]
fn new_device_name(devices: &[Device], word: &[u8]) -> Result<Name, Why>
    ensures { result ≡ new_device_name devices.now word.now }
{
    let name = short_name_at(word)?;
    new_name(device_taken(devices, word), name)
}

/// A device: first the words are counted, then come its name and the numbers of its unit.
#[tactic(auto, unfolding(crate::specs::RawReading::device_from))]
fn device_from(
    devices: &[Device],
    name: &[u8],
    unit: UnitWord,
    numbers: &[&[u8]],
) -> Result<Device, Why>
    ensures { result ≡ device_from devices.now name.now unit (texts numbers.now) }
{
    if numbers.len() != unit_count(unit) {
        return Err(Why::Count);
    }
    let name = new_device_name(devices, name)?;
    let kind = unit_at(unit, numbers)?;
    Ok(Device { name, kind })
}

/// The device of a line, from the words behind the first.
#[tactic(auto, unfolding(crate::specs::RawReading::device_at))]
pub(crate) fn device_at(devices: &[Device], words: &[&[u8]]) -> Result<Device, Why>
    ensures { result ≡ device_at devices.now (texts words.now) }
{
    match words {
        [name, kind, numbers @ ..] => {
            let unit = unit_named(kind)?;
            device_from(devices, name, unit, numbers)
        }
        _ => Err(Why::Count),
    }
}

/// The pace of a line, from the words behind the first.
#[tactic(auto, unfolding(crate::specs::RawReading::pace_at))]
pub(crate) fn pace_at(words: &[&[u8]]) -> Result<u32, Why>
    ensures { result ≡ pace_at (texts words.now) }
{
    match words {
        [word] => number_between(1, LAST_STEP, word),
        _ => Err(Why::Count),
    }
}

/// The least step that the next interrupt may have: that of the last one.
#[tactic(auto, unfolding(crate::specs::RawReading::least_step))]
fn least_step(irqs: &[Interrupt]) -> u32
    ensures { result ≡ least_step irqs.now }
{
    match irqs.last() {
        None => 1,
        Some(irq) => irq.step,
    }
}

#[tactic(auto, unfolding(crate::specs::RawReading::irq_from))]
fn irq_from(least: u32, step: &[u8], number: &[u8]) -> Result<Interrupt, Why>
    ensures { result ≡ irq_from least step.now number.now }
{
    let step = number_between(least, LAST_STEP, step)?;
    let number = number_between(1, 255, number)?;
    Ok(Interrupt {
        step,
        number: number as u8,
    })
}

/// The interrupt of a line, from the words behind the first.
#[tactic(auto, unfolding(crate::specs::RawReading::irq_at))]
pub(crate) fn irq_at(irqs: &[Interrupt], words: &[&[u8]]) -> Result<Interrupt, Why>
    ensures { result ≡ irq_at irqs.now (texts words.now) }
{
    match words {
        [step, number] => irq_from(least_step(irqs), step, number),
        _ => Err(Why::Count),
    }
}

#[tactic(auto, unfolding(crate::specs::RawReading::boot_from))]
fn boot_from(name: &[u8], priority: &[u8]) -> Result<RawBoot, Why>
    ensures { result ≡ boot_from name.now priority.now }
{
    let body = name_at(name)?;
    let priority = number_between(1, 140, priority)?;
    Ok(RawBoot {
        body,
        priority: priority as u8,
    })
}

/// The task at the start, from the words behind the first of its line.
#[tactic(auto, unfolding(crate::specs::RawReading::boot_at))]
pub(crate) fn boot_at(words: &[&[u8]]) -> Result<RawBoot, Why>
    ensures { result ≡ boot_at (texts words.now) }
{
    match words {
        [name, priority] => boot_from(name, priority),
        _ => Err(Why::Count),
    }
}

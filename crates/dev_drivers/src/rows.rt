//! What the kernel does with the devices of a fleet.

ghost use Rattle.std.specs.Prelude.{◌≡◌, ◌<◌, ◌≤◌, ◌+◌, vec_len, IfSome, true, false};
ghost use Rattle.std.specs.List.{slice_index_or};
ghost use Rattle.fleet_model.specs.Fleets.{Fleet, device_of, may_accept, taken_out};
ghost use Rattle.dev_drivers.specs.FleetFacts.{CameOut, HandedIn, HasPlaceIn, MarkedIn};
ghost use Rattle.dev_drivers.specs.Wholes.{HasWhole};
ghost use Rattle.dev_drivers.specs.Lines.{AllFlushed, Kept, channels_of, devices_of, numbers};

use crate::driven::Driven;
use crossbeam_utils::sync::Parker;
use device_model::messages::{Ending, Message};
use std::sync::Wait;

/// Puts the messages that wait for each device into its inbox, as far as it has room.
pub(crate) fn flush_all<H: Drop>(lines: &mut Vec<Driven<H>>)
    ensures flushed { AllFlushed lines.old.items lines.new.items }
{
    'devices: for i in 0..lines.len() {
        lines[i].link.flush();
    }
}

/// Takes an ending out of the first outbox in which the kernel finds one.
pub(crate) fn pop_first<H: Drop>(lines: &mut Vec<Driven<H>>) -> Option<Ending>
    requires numbered { devices_of lines.old.items ≡ numbers 1 (vec_len lines.old) }
    ensures kept { Kept lines.old.items lines.new.items }
    ensures taken { channels_of lines.new.items ≡ taken_out result (channels_of lines.old.items) }
    ensures device { IfSome result (λ ending. (1 ≤ ending.device) × (ending.device ≤ vec_len lines.old)) }
{
    'devices: for i in 0..lines.len() {
        let popped = lines[i].link.pop();
        if popped.is_some() {
            return popped;
        }
    }
    None
}

/// Waits until an ending comes out of an outbox.
pub(crate) fn await_first<R: Wait, H: Drop>(
    rt: &R,
    parker: &Parker,
    lines: &mut Vec<Driven<H>>,
) -> Ending
    requires numbered { devices_of lines.old.items ≡ numbers 1 (vec_len lines.old) }
    ensures { CameOut lines.old.items lines.new.items result }
{
    'turns: for _ in rt.forever() {
        flush_all(lines);
        if let Some(ending) = pop_first(lines) {
            return ending;
        }
        parker.park(rt);
    }
    unreachable!()
}

/// Takes an ending out of the outbox of a device, if the kernel finds one there.
fn pop_at<H: Drop>(lines: &mut Vec<Driven<H>>, device: u8) -> Option<Ending>
    requires numbered { devices_of lines.old.items ≡ numbers 1 (vec_len lines.old) }
    requires first { 1 ≤ device }
    requires last { device ≤ vec_len lines.old }
    ensures kept { Kept lines.old.items lines.new.items }
    ensures taken { channels_of lines.new.items ≡ taken_out result (channels_of lines.old.items) }
    ensures device { IfSome result (λ ending. ending.device ≡ device) }
{
    lines[usize::from(device) - 1].link.pop()
}

/// Waits until an ending comes out of the outbox of a device.
pub(crate) fn await_of<R: Wait, H: Drop>(
    rt: &R,
    parker: &Parker,
    lines: &mut Vec<Driven<H>>,
    device: u8,
) -> Ending
    requires numbered { devices_of lines.old.items ≡ numbers 1 (vec_len lines.old) }
    requires first { 1 ≤ device }
    requires last { device ≤ vec_len lines.old }
    ensures came { CameOut lines.old.items lines.new.items result }
    ensures device { result.device ≡ device }
{
    'turns: for _ in rt.forever() {
        flush_all(lines);
        if let Some(ending) = pop_at(lines, device) {
            return ending;
        }
        parker.park(rt);
    }
    unreachable!()
}

/// The device that a message is for.
fn receiver(m: &Message) -> u8
    ensures { result ≡ device_of m.now }
{
    match m {
        Message::Serve { device, request: _ } => *device,
        Message::Abort { device, number: _ } => *device,
        Message::Stop { device } => *device,
    }
}

/// Hands a message to its device, for which fewer than four wait.
pub(crate) fn hand_at<H: Drop>(lines: &mut Vec<Driven<H>>, m: Message)
    requires numbered { devices_of lines.old.items ≡ numbers 1 (vec_len lines.old) }
    requires place { HasPlaceIn (channels_of lines.old.items) (device_of m) }
    requires whole { HasWhole m }
    ensures { HandedIn lines.old.items lines.new.items m }
{
    let device = receiver(&m);
    lines[usize::from(device) - 1].link.hand(m);
}

/// Whether a device is one of the fleet.
fn is_there<H: Drop>(lines: &Vec<Driven<H>>, device: u8) -> bool
    ensures there { result ≡ true → (1 ≤ device) × (device ≤ vec_len lines.now) }
    ensures absent { result ≡ false → 1 ≤ device → vec_len lines.now < device }
{
    device != 0 && usize::from(device) <= lines.len()
}

/// Whether an ending can be what its request came to, as far as the kernel sees of its device.
pub(crate) fn accepts_at<H: Drop>(lines: &Vec<Driven<H>>, ending: &Ending) -> bool
    ensures { (fleet : Fleet) → fleet.channels ≡ channels_of lines.now.items → result ≡ may_accept fleet ending.now }
{
    is_there(lines, ending.device) && lines[usize::from(ending.device) - 1].link.accepts(ending)
}

/// Marks a device, if it is one of the fleet.
pub(crate) fn mark_at<H: Drop>(lines: &mut Vec<Driven<H>>, device: u8)
    requires numbered { devices_of lines.old.items ≡ numbers 1 (vec_len lines.old) }
    ensures { MarkedIn lines.old.items lines.new.items device }
{
    if is_there(lines, device) {
        lines[usize::from(device) - 1].link.mark();
        return;
    }
}

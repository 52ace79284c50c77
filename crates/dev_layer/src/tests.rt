//! Small scenarios, with answers from the rules of the calls and of units. Each call is made by task 1 while nobody waits.

ghost use Rattle.std.specs.Prelude.{IfOk};
ghost use Rattle.dev_layer.specs.Tables.{AreDevices};

use super::*;
use device_model::messages::Message;
use kernel_base::Base;
use mail_buffer::Mails;
use std::alloc::{AllocError, Global};
use std::test::Fail;
use task_machine::{Memory, byte, new_memory, set_byte};
use tk_types::{
    Boot, Device, DeviceCall, Er, How, Kind, Mode, Name, OpenMode, Outcome, Script, Sequence,
    SuspendMode, Who,
};

/// The words of a mode, one bit for each.
const READ: u32 = 1;

const WRITE: u32 = 2;

const UPDATE: u32 = 4;

const EXCLUSIVE: u32 = 8;

const NO_WRITER: u32 = 16;

/// The words of a suspension, one bit for each.
const SUSPEND: u32 = 1;

const DISABLE: u32 = 2;

const ENABLE: u32 = 4;

const CHECK: u32 = 8;

const FORCE: u32 = 16;

/// What is done with the devices, and what must come of it.
#[derive(Clone, Copy)]
enum Step {
    /// A call that answers that value.
    Answers(DeviceCall, i32),
    /// A call that answers that error.
    Refused(DeviceCall, Er),
    /// A call that leaves its task waiting.
    Waits(DeviceCall),
    /// A call that answers the request that has ended, with its size and error.
    Claims(DeviceCall, Claim),
    /// So many reads of a byte by descriptor 1, which are the requests 1, 2, ..
    Reads(u8),
    /// Requests go to drivers where the machine is idle: to the first, and to the second.
    Hands(Mode, bool, bool),
    /// The driver of a device was told to abort its request.
    Told(u8),
    /// No ending of that kind is fit for a device.
    NoEnding(u8, How),
    /// The ending of that kind, which has that size and that error, arrives from the driver of a device.
    Ends(u8, How, u32, Er),
    /// That byte stands at an address of the memory.
    Shows(u32, u8),
}

/// An ended request: its ID, size and error.
#[derive(Clone, Copy)]
struct Claim {
    id: i32,
    size: i32,
    error: Er,
}

/// A script with two devices: memory of 200 bytes, and a log.
fn script_of(alloc: Global, name: Name) -> Result<Script, AllocError>
    ensures { IfOk result (λ script. AreDevices script.devices) }
{
    let mut devices = Vec::with_capacity(alloc, 2)?;
    devices.push(Device {
        name,
        kind: Kind::Ram(200),
    })?;
    devices.push(Device {
        name,
        kind: Kind::Log,
    })?;
    Ok(Script {
        devices: Sequence::from_vec(devices),
        pace: None,
        irqs: Sequence::new(alloc),
        boot: Boot {
            body: 1,
            priority: 10,
        },
        bodies: Sequence::new(alloc),
    })
}

/// A memory, of which the first 256 bytes are 0, 1, 2, ..
fn counted_memory(alloc: Global) -> Result<Memory, AllocError> {
    let mut memory = new_memory(alloc)?;
    'bytes: for address in 0..256u32 {
        set_byte(&mut memory, address, address as u8);
    }
    Ok(memory)
}

/// A call, where nobody waits and there is no message buffer.
fn called(
    alloc: Global,
    table: &mut Devices,
    memory: &mut Memory,
    call: &DeviceCall,
) -> Result<Outcome, AllocError> {
    let mut base = Base::new(alloc, 10)?;
    let mut mails = Mails::new(alloc)?;
    crate::call(&mut base, table, &mut mails, memory, Who::Task(1), call)
}

/// Whether a call answers that value alone.
fn is_value(outcome: Outcome, value: i32) -> bool {
    match outcome {
        Outcome::Returned(answer) => answer.value == value && answer.used == 0,
        Outcome::Blocked => false,
        Outcome::Entered(_) => false,
    }
}

/// Whether a call answers an ended request.
fn is_claim(outcome: Outcome, claim: Claim) -> bool {
    match outcome {
        Outcome::Returned(answer) => {
            answer.value == claim.id
                && answer.used == 2
                && answer.fields[0] == claim.size
                && answer.fields[1] == claim.error.main_code()
        }
        Outcome::Blocked => false,
        Outcome::Entered(_) => false,
    }
}

/// Whether so many reads of a byte by descriptor 1 are the requests 1, 2, ..
fn are_read(
    alloc: Global,
    table: &mut Devices,
    memory: &mut Memory,
    count: u8,
) -> Result<bool, AllocError> {
    'reads: for before in 0..count {
        let outcome = called(alloc, table, memory, &read(1, 0, 0, 1))?;
        if !is_value(outcome, before as i32 + 1) {
            return Ok(false);
        }
    }
    Ok(true)
}

/// Whether any message is a request to a device.
fn any_served(messages: &[Message], device: u8) -> bool {
    'messages: for place in 0..messages.len() {
        let served = match &messages[place] {
            Message::Serve { device: to, .. } => *to == device,
            Message::Abort { .. } => false,
            Message::Stop { .. } => false,
        };
        if served {
            return true;
        }
    }
    false
}

/// Whether requests go to the drivers of the first device, and of the second, where nobody waits.
fn are_handed(
    alloc: Global,
    table: &mut Devices,
    mode: Mode,
    first: bool,
    second: bool,
) -> Result<bool, AllocError> {
    let base = Base::new(alloc, 10)?;
    hand_over(&base, table, mode, true)?;
    let messages = messages(table);
    Ok(
        any_served(&messages, 1) == first
            && any_served(&messages, 2) == second
            && messages.len() == first as usize + second as usize,
    )
}

/// Whether the one message is the abort of a device's request.
fn is_told(table: &mut Devices, device: u8) -> bool {
    let messages = messages(table);
    if messages.len() != 1 {
        return false;
    }
    match &messages[0] {
        Message::Abort { device: told, .. } => *told == device,
        Message::Serve { .. } => false,
        Message::Stop { .. } => false,
    }
}

/// Whether the ending of that kind has that size and error, arrives, and wouldn't with another number.
fn ends(
    alloc: Global,
    table: &mut Devices,
    memory: &mut Memory,
    device: u8,
    how: How,
    size: u32,
    error: Er,
) -> Result<bool, AllocError> {
    let base = Base::new(alloc, 10)?;
    let Some(mut ending) = expected(table, device, how)? else {
        return Ok(false);
    };
    if ending.size != size || ending.error != error {
        return Ok(false);
    }
    let number = ending.number;
    ending.number = number.wrapping_add(1);
    if arrive(&base, table, memory, &ending) {
        return Ok(false);
    }
    ending.number = number;
    Ok(arrive(&base, table, memory, &ending))
}

/// Whether a step comes to what it must.
fn holds(
    alloc: Global,
    table: &mut Devices,
    memory: &mut Memory,
    step: Step,
) -> Result<bool, AllocError> {
    match step {
        Step::Answers(call, value) => Ok(is_value(called(alloc, table, memory, &call)?, value)),
        Step::Refused(call, error) => {
            Ok(is_value(called(alloc, table, memory, &call)?, error.main_code()))
        }
        Step::Waits(call) => Ok(called(alloc, table, memory, &call)? == Outcome::Blocked),
        Step::Claims(call, claim) => Ok(is_claim(called(alloc, table, memory, &call)?, claim)),
        Step::Reads(count) => are_read(alloc, table, memory, count),
        Step::Hands(mode, first, second) => are_handed(alloc, table, mode, first, second),
        Step::Told(device) => Ok(is_told(table, device)),
        Step::NoEnding(device, how) => Ok(expected(table, device, how)?.is_none()),
        Step::Ends(device, how, size, error) => {
            ends(alloc, table, memory, device, how, size, error)
        }
        Step::Shows(address, shown) => Ok(byte(memory, address.min(65_535)) == shown),
    }
}

/// The place of the first step that doesn't come to what it must, one after another on new devices.
fn first_wrong(alloc: Global, steps: &[Step]) -> Result<Option<usize>, AllocError> {
    let Some(name) = Name::new(b"unit") else {
        return Ok(Some(0));
    };
    let script = script_of(alloc, name)?;
    let mut table = Devices::new(alloc, &script)?;
    let mut memory = counted_memory(alloc)?;
    'steps: for place in 0..steps.len() {
        if !holds(alloc, &mut table, &mut memory, steps[place])? {
            return Ok(Some(place));
        }
    }
    Ok(None)
}

/// A device is opened.
fn open(device: u8, mode: u32) -> DeviceCall {
    DeviceCall::OpnDev {
        device,
        mode: OpenMode::of_bits(mode),
    }
}

/// A descriptor is closed.
fn close(descriptor: i32) -> DeviceCall {
    DeviceCall::ClsDev { descriptor }
}

/// A read into the memory, which isn't waited for.
fn read(descriptor: i32, start: i32, address: i32, size: i32) -> DeviceCall {
    DeviceCall::ReaDev {
        descriptor,
        start,
        address,
        size,
        timeout: 0,
    }
}

/// A write out of the memory, which isn't waited for.
fn write(descriptor: i32, start: i32, address: i32, size: i32) -> DeviceCall {
    DeviceCall::WriDev {
        descriptor,
        start,
        address,
        size,
        timeout: 0,
    }
}

/// The ending of a request is claimed, or of any by 0, which has that ID, size and error.
fn claims(descriptor: i32, request: i32, id: i32, size: i32, error: Er) -> Step {
    Step::Claims(wait(descriptor, request), Claim { id, size, error })
}

/// The ending of a request is asked for, and isn't waited for.
fn wait(descriptor: i32, request: i32) -> DeviceCall {
    DeviceCall::WaiDev {
        descriptor,
        request,
        timeout: 0,
    }
}

/// The devices are suspended, or that is disabled or enabled.
fn suspend(mode: u32) -> DeviceCall {
    DeviceCall::SusDev {
        mode: SuspendMode::of_bits(mode),
    }
}

#[test]
fn a_device_is_open_in_ways_that_do_not_clash(rt: HostRuntime) -> Result<(), Fail> {
    let steps = [
        Step::Answers(open(1, READ), 1),
        Step::Answers(open(1, WRITE + NO_WRITER), 2),
        Step::Refused(open(1, WRITE), Er::Busy),
        Step::Refused(open(1, READ + EXCLUSIVE), Er::Busy),
        Step::Answers(open(2, UPDATE + EXCLUSIVE), 3),
        Step::Refused(open(2, READ), Er::Busy),
        Step::Refused(open(2, READ + WRITE), Er::Par),
        Step::Refused(open(3, READ), Er::NoExs),
        Step::Answers(close(1), 0),
        Step::Refused(read(1, 0, 0, 1), Er::Id),
        Step::Answers(open(1, READ), 1),
    ];
    assert_eq!(rt; first_wrong(rt.alloc(), &steps)?, None);
    Ok(())
}

#[test]
fn a_device_has_sixteen_requests_that_have_not_ended(rt: HostRuntime) -> Result<(), Fail> {
    let steps = [
        Step::Answers(open(1, READ), 1),
        Step::Answers(open(2, UPDATE), 2),
        Step::Reads(16),
        Step::Refused(read(1, 0, 0, 1), Er::TmOut),
        Step::Refused(write(1, 0, 0, 1), Er::OaCv),
        Step::Answers(write(2, 0, 0, 1), 17),
        Step::Hands(Mode::Sync, true, false),
        Step::Ends(1, How::Done, 1, Er::Ok),
        Step::Hands(Mode::Free, true, true),
        Step::Hands(Mode::Free, false, false),
        Step::Answers(read(1, 0, 0, 1), 18),
    ];
    assert_eq!(rt; first_wrong(rt.alloc(), &steps)?, None);
    Ok(())
}

#[test]
fn bytes_go_to_a_unit_and_come_back(rt: HostRuntime) -> Result<(), Fail> {
    let steps = [
        Step::Answers(open(1, UPDATE), 1),
        Step::Answers(write(1, 150, 10, 100), 1),
        Step::Answers(read(1, 148, 300, 10), 2),
        Step::Hands(Mode::Free, true, false),
        Step::Ends(1, How::Done, 50, Er::Ok),
        claims(1, 0, 1, 50, Er::Ok),
        Step::Hands(Mode::Free, true, false),
        Step::Ends(1, How::Done, 10, Er::Ok),
        Step::Shows(301, 0),
        Step::Shows(309, 17),
        claims(1, 2, 2, 10, Er::Ok),
        Step::Refused(wait(1, 0), Er::NoExs),
    ];
    assert_eq!(rt; first_wrong(rt.alloc(), &steps)?, None);
    Ok(())
}

#[test]
fn a_request_is_aborted_where_its_descriptor_is_closed(rt: HostRuntime) -> Result<(), Fail> {
    let steps = [
        Step::Answers(open(2, UPDATE), 1),
        Step::Answers(write(1, 0, 0, 150), 1),
        Step::Hands(Mode::Sync, false, true),
        Step::NoEnding(2, How::Cut(64)),
        Step::Waits(close(1)),
        Step::Told(2),
        Step::NoEnding(2, How::Cut(63)),
        Step::NoEnding(2, How::Cut(192)),
        Step::Ends(2, How::Cut(64), 64, Er::Abort),
        Step::Answers(open(2, READ), 1),
        Step::Answers(read(1, 0, 0, 0), 1),
        Step::Hands(Mode::Free, false, true),
        Step::Ends(2, How::Done, 64, Er::Ok),
    ];
    assert_eq!(rt; first_wrong(rt.alloc(), &steps)?, None);
    Ok(())
}

#[test]
fn devices_are_suspended_unless_that_is_disabled(rt: HostRuntime) -> Result<(), Fail> {
    let steps = [
        Step::Answers(suspend(CHECK), 0),
        Step::Answers(suspend(ENABLE), 0),
        Step::Answers(suspend(DISABLE), 1),
        Step::Refused(suspend(SUSPEND), Er::Busy),
        Step::Answers(suspend(SUSPEND + FORCE), 1),
        Step::Refused(suspend(CHECK + FORCE), Er::Par),
        Step::Answers(suspend(ENABLE), 0),
        Step::Answers(open(1, READ), 1),
        Step::Answers(read(1, 0, 0, 1), 1),
        Step::Answers(suspend(SUSPEND), 0),
        Step::Hands(Mode::Free, true, false),
        Step::Waits(suspend(SUSPEND)),
    ];
    assert_eq!(rt; first_wrong(rt.alloc(), &steps)?, None);
    Ok(())
}

#[test]
fn requests_for_the_event_buffer_end_at_once(rt: HostRuntime) -> Result<(), Fail> {
    let whole = DeviceCall::SreaDev {
        descriptor: 1,
        start: -1,
        address: 300,
        size: 4,
    };
    let steps = [
        Step::Answers(open(1, UPDATE), 1),
        Step::Answers(read(1, -1, 0, 0), 1),
        claims(1, 1, 1, 4, Er::Ok),
        Step::Answers(read(1, -1, 0, 5), 1),
        claims(1, 1, 1, 0, Er::Par),
        Step::Answers(write(1, -1, 0, 4), 1),
        claims(1, 1, 1, 0, Er::NoExs),
        Step::Answers(write(1, -1, 300, 4), 1),
        claims(1, 1, 1, 4, Er::Ok),
        Step::Answers(whole, 4),
        Step::Refused(read(1, -2, 0, 1), Er::Par),
    ];
    assert_eq!(rt; first_wrong(rt.alloc(), &steps)?, None);
    Ok(())
}

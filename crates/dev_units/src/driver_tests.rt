//! Drivers that take messages, make turns and give out endings, each with its list of steps.

ghost use Rattle.std.specs.Prelude.{◌≡◌, IfOk, true, false};
ghost use Rattle.device_model.specs.Units.Function.{IsWhole};
ghost use Rattle.dev_units.specs.Views.{IsRightKind};

use super::*;
use device_model::bytes::Bytes;
use device_model::messages::{Message, Request};
use std::alloc::Global;
use std::test::Fail;
use tk_types::{Er, How, Kind, OutOfMemory};

/// What is done with a driver, and what must come of it.
#[derive(Clone, Copy)]
enum Step<'a> {
    /// It takes a request with that number, which writes these bytes from the first place on.
    Write(u64, &'a [u8]),
    /// It takes a request with that number, which reads so many bytes from the first place on.
    Read(u64, u32),
    /// It is asked to abort the request with that number.
    Abort(u64),
    Stop,
    /// It makes so many turns.
    Turns(u32),
    /// It has no turn to make.
    Rests,
    /// It gives out an ending with this size and error, which was cut off after so many bytes if at all, after so many messages.
    Ends {
        request: u64,
        how: How,
        size: u32,
        error: Er,
        taken: u64,
        bytes: &'a [u8],
    },
    /// It gives out no ending.
    EndsNothing,
}

/// A request that writes bytes, as many as 65,536 of them.
fn write_of(alloc: Global, number: u64, bytes: &[u8]) -> Result<Request, OutOfMemory>
    ensures { IfOk result (λ request. IsWhole request) }
{
    let bytes = Vec::from_slice(alloc, &bytes[..bytes.len().min(65536)])?;
    Ok(Request {
        id: 7,
        number,
        write: true,
        start: 0,
        size: bytes.len() as u32,
        bytes: Bytes::from_vec(bytes),
    })
}

/// A request that reads so many bytes.
fn read_of(alloc: Global, number: u64, size: u32) -> Result<Request, OutOfMemory>
    ensures { IfOk result (λ request. IsWhole request) }
{
    Ok(Request {
        id: 8,
        number,
        write: false,
        start: 0,
        size,
        bytes: Bytes::with_room(alloc, size)?,
    })
}

/// A driver that has no request and no ending takes one. Answers whether it could.
fn serve(core: &mut DriverCore, request: Request) -> bool
    requires { IsWhole request }
{
    if !core.is_idle() || core.taken_so_far() > 100 {
        return false;
    }
    core.message(Message::Serve { device: 3, request });
    true
}

/// A driver is asked to abort a request. Answers whether it has taken few messages before.
fn abort(core: &mut DriverCore, number: u64) -> bool {
    if core.taken_so_far() > 100 {
        return false;
    }
    core.message(Message::Abort { device: 3, number });
    true
}

/// A driver is stopped. Answers whether it has taken few messages before.
fn stop(core: &mut DriverCore) -> bool {
    if core.taken_so_far() > 100 {
        return false;
    }
    core.message(Message::Stop { device: 3 });
    true
}

/// Whether a driver makes so many turns.
fn turns(core: &mut DriverCore, count: u32) -> bool {
    'turns: for _ in 0..count {
        if !core.block() {
            return false;
        }
    }
    true
}

/// Whether a step comes to what it must.
fn holds(alloc: Global, core: &mut DriverCore, step: Step) -> Result<bool, OutOfMemory> {
    match step {
        Step::Write(number, bytes) => Ok(serve(core, write_of(alloc, number, bytes)?)),
        Step::Read(number, size) => Ok(serve(core, read_of(alloc, number, size)?)),
        Step::Abort(number) => Ok(abort(core, number)),
        Step::Stop => Ok(stop(core)),
        Step::Turns(count) => Ok(turns(core, count)),
        Step::Rests => Ok(!core.block()),
        Step::Ends {
            request,
            how,
            size,
            error,
            taken,
            bytes,
        } => {
            let Some(ending) = core.ending() else {
                return Ok(false);
            };
            let named = ending.device == 3 && ending.number == request;
            let ended = ending.how == how && ending.size == size && ending.error == error;
            Ok(named && ended && ending.taken == taken && ending.bytes.as_slice() == bytes)
        }
        Step::EndsNothing => Ok(core.ending().is_none()),
    }
}

/// The place of the first step that doesn't come to what it must, one after another on the driver of a new unit.
fn first_wrong(alloc: Global, kind: Kind, steps: &[Step]) -> Result<Option<usize>, OutOfMemory>
    requires { IsRightKind kind }
{
    let mut core = DriverCore::new(alloc, 3, Unit::new(alloc, kind)?)?;
    'steps: for place in 0..steps.len() {
        if !holds(alloc, &mut core, steps[place])? {
            return Ok(Some(place));
        }
    }
    Ok(None)
}

/// The ending of a request that was done, which brought no bytes.
fn done<'a>(request: u64, size: u32, taken: u64) -> Step<'a> {
    Step::Ends {
        request,
        how: How::Done,
        size,
        error: Er::Ok,
        taken,
        bytes: &[],
    }
}

/// The ending of a request that was cut off after so many bytes, which it brought.
fn cut<'a>(request: u64, size: u32, taken: u64, bytes: &'a [u8]) -> Step<'a> {
    Step::Ends {
        request,
        how: How::Cut(size),
        size,
        error: Er::Abort,
        taken,
        bytes,
    }
}

#[test]
fn an_abort_before_the_first_block_leaves_nothing_moved(rt: HostRuntime) -> Result<(), Fail> {
    let steps = [
        Step::Write(1, &[7; 200]),
        Step::Abort(1),
        Step::Rests,
        cut(1, 0, 2, &[]),
        Step::Read(2, 3),
        Step::Turns(1),
        Step::Ends {
            request: 2,
            how: How::Done,
            size: 3,
            error: Er::Ok,
            taken: 3,
            bytes: &[0; 3],
        },
        Step::EndsNothing,
    ];
    assert_eq!(rt; first_wrong(rt.alloc(), Kind::Ram(256), &steps)?, None);
    Ok(())
}

#[test]
fn an_abort_between_two_blocks_leaves_the_first_one_moved(rt: HostRuntime) -> Result<(), Fail> {
    let steps = [
        Step::Write(1, &[7; 200]),
        Step::Turns(1),
        Step::Abort(1),
        cut(1, 64, 2, &[]),
        Step::Read(2, 200),
        Step::Turns(1),
        Step::Abort(1),
        Step::Abort(2),
        cut(2, 64, 5, &[7; 64]),
        Step::Rests,
    ];
    assert_eq!(rt; first_wrong(rt.alloc(), Kind::Ram(256), &steps)?, None);
    Ok(())
}

#[test]
fn an_abort_after_the_ending_is_ready_is_ignored(rt: HostRuntime) -> Result<(), Fail> {
    let steps = [
        Step::Write(1, &[7; 200]),
        Step::Turns(4),
        Step::Abort(1),
        Step::Rests,
        done(1, 200, 2),
        Step::Write(2, &[8; 65]),
        Step::Abort(1),
        Step::Turns(2),
        done(2, 65, 4),
    ];
    assert_eq!(rt; first_wrong(rt.alloc(), Kind::Ram(256), &steps)?, None);
    Ok(())
}

#[test]
fn a_slow_driver_makes_empty_turns_before_each_block(rt: HostRuntime) -> Result<(), Fail> {
    let steps = [
        Step::Write(1, &[7; 100]),
        Step::Turns(5),
        Step::EndsNothing,
        Step::Turns(1),
        done(1, 100, 1),
        Step::Write(2, &[]),
        Step::Turns(1),
        done(2, 256, 2),
        Step::Write(3, &[8; 100]),
        Step::Turns(2),
        Step::Abort(3),
        cut(3, 0, 4, &[]),
    ];
    assert_eq!(rt; first_wrong(rt.alloc(), Kind::Slow(256, 2), &steps)?, None);
    Ok(())
}

#[test]
fn after_a_stop_there_is_no_turn_and_no_ending(rt: HostRuntime) -> Result<(), Fail> {
    let steps = [
        Step::Write(1, &[7; 100]),
        Step::Turns(1),
        Step::Stop,
        Step::Rests,
        Step::EndsNothing,
    ];
    assert_eq!(rt; first_wrong(rt.alloc(), Kind::Ram(256), &steps)?, None);
    let steps = [
        Step::Write(1, &[7; 64]),
        Step::Turns(1),
        Step::Stop,
        Step::EndsNothing,
    ];
    assert_eq!(rt; first_wrong(rt.alloc(), Kind::Ram(256), &steps)?, None);
    Ok(())
}

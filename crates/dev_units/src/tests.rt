//! Requests that are served block by block, with answers from the rules of units.

ghost use Rattle.std.specs.Prelude.{◌≡◌, ◌≤◌, [], IfOk, false, true};
ghost use Rattle.device_model.specs.Units.Function.{IsWhole, unit as unit_of};
ghost use Rattle.dev_units.specs.Progress.{brought, ended_with};
ghost use Rattle.dev_units.specs.Views.{IsRightKind};

use super::*;
use device_model::bytes::Bytes;
use device_model::messages::Request;
use std::alloc::Global;
use std::test::Fail;
use tk_types::{Er, Kind, OutOfMemory};

/// Begins a request and does its blocks one after another, and answers its size and its error.
fn served(unit: &mut Unit, request: &Request, out: &mut Bytes) -> (u32, Er)
    requires whole { IsWhole request.now }
    requires empty { out.old.items ≡ [] }
    requires room { request.now.write ≡ false → request.now.size ≤ out.old.room }
    ensures kind { unit.new.kind ≡ unit.old.kind }
    ensures served { ended_with unit.new.store result.0 result.1 (brought request.now out.new.items) ≡ unit_of unit.old.kind unit.old.store request.now }
{
    unit.begin(request);
    let mut block = 0;
    'blocks: loop {
        match unit.serve_block(request, block, out) {
            BlockEnd::Ended(size, error) => return (size, error),
            BlockEnd::More => block += 1,
        }
    }
}

/// What is done with a unit, and what must come of it: how a request ends, and of a read the bytes that it brings.
#[derive(Clone, Copy)]
enum Step<'a> {
    Write {
        start: u32,
        bytes: &'a [u8],
        ended: (u32, Er),
    },
    Read {
        start: u32,
        size: u32,
        ended: (u32, Er),
        bytes: &'a [u8],
    },
    /// A write that is cut off after so many blocks.
    Cut {
        bytes: &'a [u8],
        blocks: u32,
    },
}

/// A request that writes bytes from a start on, as many as 65,536 of them.
fn write_of(alloc: Global, start: u32, bytes: &[u8]) -> Result<Request, OutOfMemory>
    ensures whole { IfOk result (λ request. IsWhole request) }
    ensures write { IfOk result (λ request. request.write ≡ true) }
{
    let bytes = Vec::from_slice(alloc, &bytes[..bytes.len().min(65536)])?;
    Ok(Request {
        id: 1,
        number: 1,
        write: true,
        start,
        size: bytes.len() as u32,
        bytes: Bytes::from_vec(bytes),
    })
}

/// A request that reads so many bytes from a start on.
fn read_of(alloc: Global, start: u32, size: u32) -> Result<Request, OutOfMemory>
    ensures whole { IfOk result (λ request. IsWhole request) }
    ensures write { IfOk result (λ request. request.write ≡ false) }
    ensures size { IfOk result (λ request. request.size ≡ size) }
{
    Ok(Request {
        id: 2,
        number: 2,
        write: false,
        start,
        size,
        bytes: Bytes::with_room(alloc, size)?,
    })
}

/// A write begins, and its first blocks are done, so many. Answers whether more is to be done after each of them.
fn is_cut_off(unit: &mut Unit, request: &Request, blocks: u32, out: &mut Bytes) -> bool
    requires whole { IsWhole request.now }
    requires write { request.now.write ≡ true }
{
    unit.begin(request);
    'blocks: for block in 0..blocks {
        if unit.serve_block(request, block, out) != BlockEnd::More {
            return false;
        }
    }
    true
}

/// Whether a step comes to what it must.
fn holds(alloc: Global, unit: &mut Unit, step: Step) -> Result<bool, OutOfMemory> {
    match step {
        Step::Write {
            start,
            bytes,
            ended,
        } => {
            let request = write_of(alloc, start, bytes)?;
            let mut out = Bytes::with_room(alloc, 0)?;
            Ok(served(unit, &request, &mut out) == ended)
        }
        Step::Read {
            start,
            size,
            ended,
            bytes,
        } => {
            let request = read_of(alloc, start, size)?;
            let mut out = Bytes::with_room(alloc, size)?;
            let came = served(unit, &request, &mut out);
            Ok(came == ended && out.as_slice() == bytes)
        }
        Step::Cut { bytes, blocks } => {
            let request = write_of(alloc, 0, bytes)?;
            let mut out = Bytes::with_room(alloc, 0)?;
            Ok(is_cut_off(unit, &request, blocks, &mut out))
        }
    }
}

/// The place of the first step that doesn't come to what it must, one after another on a new unit.
fn first_wrong(alloc: Global, kind: Kind, steps: &[Step]) -> Result<Option<usize>, OutOfMemory>
    requires { IsRightKind kind }
{
    let mut unit = Unit::new(alloc, kind)?;
    'steps: for place in 0..steps.len() {
        if !holds(alloc, &mut unit, steps[place])? {
            return Ok(Some(place));
        }
    }
    Ok(None)
}

/// A read that must bring these bytes, and as many as it asks for.
fn read<'a>(start: u32, bytes: &'a [u8]) -> Step<'a> {
    let size = bytes.len().min(65536) as u32;
    read_short(start, size, bytes)
}

/// A read of so many bytes that must bring these.
fn read_short<'a>(start: u32, size: u32, bytes: &'a [u8]) -> Step<'a> {
    let count = bytes.len().min(65536) as u32;
    Step::Read {
        start,
        size,
        ended: (count, Er::Ok),
        bytes,
    }
}

/// A read that must bring nothing, and end so.
fn read_none<'a>(start: u32, size: u32, count: u32, error: Er) -> Step<'a> {
    Step::Read {
        start,
        size,
        ended: (count, error),
        bytes: &[],
    }
}

/// A write that must end with that many bytes moved, and that error.
fn write<'a>(start: u32, bytes: &'a [u8], count: u32, error: Er) -> Step<'a> {
    Step::Write {
        start,
        bytes,
        ended: (count, error),
    }
}

#[test]
fn memory_is_zero_at_first_and_is_read_as_it_was_written(rt: HostRuntime) -> Result<(), Fail> {
    let mut bytes = [7u8; 150];
    bytes[0] = 1;
    bytes[64] = 2;
    bytes[149] = 3;
    let mut all = [7u8; 160];
    all[0] = 0;
    all[1] = 1;
    all[65] = 2;
    all[150] = 3;
    all[151..].fill(0);
    let steps = [
        read(197, &[0, 0, 0]),
        write(20, &bytes, 150, Er::Ok),
        read(19, &all),
    ];
    assert_eq!(rt; first_wrong(rt.alloc(), Kind::Ram(200), &steps)?, None);
    Ok(())
}

#[test]
fn only_what_lies_inside_memory_is_moved(rt: HostRuntime) -> Result<(), Fail> {
    let steps = [
        read_none(30, 0, 70, Er::Ok),
        read_none(100, 0, 0, Er::Ok),
        read_none(4_000_000_000, 0, 0, Er::Ok),
        read_short(60, 64, &[0; 40]),
        read_short(0, 1000, &[0; 100]),
        read_none(100, 1, 0, Er::Par),
        read_none(4_294_967_295, 65, 0, Er::Par),
        write(95, &[9; 10], 5, Er::Ok),
        write(100, &[9; 10], 0, Er::Par),
        write(40, &[], 60, Er::Ok),
        read_short(93, 10, &[0, 0, 9, 9, 9, 9, 9]),
    ];
    assert_eq!(rt; first_wrong(rt.alloc(), Kind::Slow(100, 5), &steps)?, None);
    Ok(())
}

#[test]
fn a_log_grows_at_its_end_until_it_is_full(rt: HostRuntime) -> Result<(), Fail> {
    let many = vec![in rt.alloc(); 5u8; 65535]?;
    let steps = [
        read_none(0, 4, 0, Er::Par),
        write(77, b"abc", 3, Er::Ok),
        write(0, b"de", 2, Er::Ok),
        read_short(1, 10, b"bcde"),
        read_none(2, 0, 3, Er::Ok),
        write(0, &[], 65531, Er::Ok),
        write(0, &many, 65531, Er::Ok),
        write(0, b"f", 0, Er::Io),
        write(0, &[], 0, Er::Ok),
        read_short(65535, 2, &[5]),
    ];
    assert_eq!(rt; first_wrong(rt.alloc(), Kind::Log, &steps)?, None);
    Ok(())
}

#[test]
fn each_third_request_of_some_size_fails(rt: HostRuntime) -> Result<(), Fail> {
    let steps = [
        write(0, b"a", 1, Er::Ok),
        write(1, b"b", 1, Er::Ok),
        write(1, &[], 7, Er::Ok),
        write(0, b"c", 0, Er::Io),
        Step::Cut {
            bytes: b"d",
            blocks: 0,
        },
        read(0, b"ab\0"),
        read_none(0, 3, 0, Er::Io),
        read(0, b"ab\0"),
    ];
    assert_eq!(rt; first_wrong(rt.alloc(), Kind::Flaky(8, 3), &steps)?, None);
    Ok(())
}

#[test]
fn a_request_that_is_cut_off_has_moved_whole_blocks(rt: HostRuntime) -> Result<(), Fail> {
    let bytes = [6u8; 200];
    let steps = [
        Step::Cut {
            bytes: &bytes,
            blocks: 2,
        },
        read_short(0, 200, &[6; 128]),
        Step::Cut {
            bytes: &bytes,
            blocks: 0,
        },
        read_short(0, 200, &[6; 128]),
        write(0, &bytes, 200, Er::Ok),
        read_none(0, 0, 328, Er::Ok),
    ];
    assert_eq!(rt; first_wrong(rt.alloc(), Kind::Log, &steps)?, None);
    Ok(())
}

#[test]
fn bytes_fill_their_room(rt: HostRuntime) -> Result<(), Fail> {
    let mut bytes = Bytes::with_room(rt.alloc(), 2)?;
    bytes.push(4);
    assert_eq!(rt; bytes.room(), 1);
    bytes.push(5);
    assert_eq!(rt; bytes.room(), 0);
    let again = Bytes::from_vec(bytes.into_vec());
    assert_eq!(rt; again.as_slice(), [4, 5].as_slice());
    Ok(())
}

//! Small traces beside given ones.

ghost use Rattle.std.specs.Prelude.{◌+◌, ◌<◌, ◌^◌, length};

use crate::{Compared, Comparing, OutOfMemory};
use std::alloc::Global;
use std::process::Abort;
use std::test::Fail;
use tk_ports::{Failed, Sink};

const WRITTEN: &[u8] = b"0 D 1\n1 S 1 hello\n2 C 1 tk_ext_tsk 0\n2 D 0\n2 END idle\n";

/// What comes of the text beside a given one, written in pieces of this size up to the first that isn't taken whole.
fn compared<'a>(
    alloc: Global,
    given: &'a [u8],
    size: usize,
    stops: bool,
) -> Result<Compared<'a>, OutOfMemory>
    requires some { 0 < size }
    requires short { length given.now + 1 < 2 ^ 32 }
{
    let mut sink = Comparing::new(alloc, given, stops)?;
    for piece in WRITTEN.chunks(size) {
        if sink.write(piece) != Ok(piece.len()) {
            break;
        }
    }
    Ok(sink.finish())
}

/// Stops the test where the texts aren't the same, with so many lines.
fn assert_same(rt: &impl Abort, compared: Compared<'_>, count: u32) {
    match compared {
        Compared::Same { lines } => assert_eq!(rt; lines, count),
        _ => panic!(rt; "the texts are the same"),
    }
}

/// Stops the test where this isn't the difference.
fn assert_differs(
    rt: &impl Abort,
    compared: Compared<'_>,
    number: u32,
    want: Option<&[u8]>,
    have: Option<&[u8]>,
) {
    match compared {
        Compared::Differs(found) => {
            assert_eq!(rt; found.line, number);
            assert_eq!(rt; found.want.as_deref(), want);
            assert_eq!(rt; found.have, have);
        }
        _ => panic!(rt; "the texts differ"),
    }
}

/// A trace is the same as itself, byte by byte and in one piece, and also as itself without its last line feed.
#[test]
fn same_as_itself(rt: HostRuntime) -> Result<(), Fail> {
    assert_same(&rt, compared(rt.alloc(), WRITTEN, 1, true)?, 5);
    assert_same(&rt, compared(rt.alloc(), WRITTEN, 100, false)?, 5);
    let unfed = b"0 D 1\n1 S 1 hello\n2 C 1 tk_ext_tsk 0\n2 D 0\n2 END idle";
    assert_same(&rt, compared(rt.alloc(), unfed, 7, true)?, 5);
    Ok(())
}

/// The third line differs, whether the run is gone on with or not.
#[test]
fn third_line_differs(rt: HostRuntime) -> Result<(), Fail> {
    let given = b"0 D 1\n1 S 1 hello\n2 C 1 tk_ext_tsk 1\n2 D 0\n2 END idle\n";
    let want: Option<&[u8]> = Some(b"2 C 1 tk_ext_tsk 0");
    let have: Option<&[u8]> = Some(b"2 C 1 tk_ext_tsk 1");
    assert_differs(&rt, compared(rt.alloc(), given, 1, true)?, 3, want, have);
    assert_differs(&rt, compared(rt.alloc(), given, 1, false)?, 3, want, have);
    assert_differs(&rt, compared(rt.alloc(), given, 100, true)?, 3, want, have);
    Ok(())
}

/// A line that one of the texts doesn't have.
#[test]
fn a_line_is_missing(rt: HostRuntime) -> Result<(), Fail> {
    let shorter = b"0 D 1\n1 S 1 hello\n2 C 1 tk_ext_tsk 0\n2 D 0\n";
    let last: Option<&[u8]> = Some(b"2 END idle");
    assert_differs(&rt, compared(rt.alloc(), shorter, 5, true)?, 5, last, None);
    let longer = b"0 D 1\n1 S 1 hello\n2 C 1 tk_ext_tsk 0\n2 D 0\n2 END idle\n3 D 1";
    let more: Option<&[u8]> = Some(b"3 D 1");
    assert_differs(&rt, compared(rt.alloc(), longer, 5, false)?, 6, None, more);
    Ok(())
}

/// Where a difference stops the sink, the write behind the line that differs fails; else none does.
#[test]
fn a_difference_stops(rt: HostRuntime) -> Result<(), Fail> {
    let mut stopped = Comparing::new(rt.alloc(), b"0 D 2\n", true)?;
    assert_eq!(rt; stopped.write(b"0 D 1\n1 S"), Ok(6));
    assert_eq!(rt; stopped.write(b"1 S"), Err(Failed));
    assert_eq!(rt; stopped.faults(), 1);
    let mut going = Comparing::new(rt.alloc(), b"0 D 2\n", false)?;
    assert_eq!(rt; going.write(b"0 D 1\n1 S"), Ok(9));
    assert_eq!(rt; going.faults(), 0);
    Ok(())
}

//! Sessions that are read and refused, with ample memory.

use super::*;
use std::alloc::Global;
use std::test::Fail;
use tk_types::{OutOfMemory, Why};

const SCRIPT: &str =
    "utk 1\ndevice d ram 64\nboot main 10\nbody main task\ntk_opn_dev d TD_READ\nend\n";

/// The text of a session with this script, and these lines behind it.
fn session(alloc: Global, script: &str, behind: &str) -> Result<Vec<u8>, OutOfMemory> {
    let mut text = Vec::new(alloc);
    text.extend_from_slice(script.as_bytes())?;
    text.extend_from_slice(behind.as_bytes())?;
    Ok(text)
}

/// The line and the reason for which a text is refused, or none.
fn refused(alloc: Global, text: &[u8]) -> Result<Option<(u32, Why)>, OutOfMemory> {
    match read_session(alloc, text)? {
        SessionReading::Session(_) => Ok(None),
        SessionReading::Refused { line, why } => Ok(Some((line, why))),
    }
}

/// A session of a script with a device is read, with its entries in order. The divider may have spaces around it.
#[test]
fn sessions_are_read(rt: HostRuntime) -> Result<(), Fail> {
    let alloc = rt.alloc();
    let done = Entry {
        place: 5,
        device: 1,
        request: 2,
        how: How::Done,
    };
    let cut = Entry {
        place: 6,
        device: 8,
        request: 64,
        how: How::Cut(128),
    };
    for behind in [
        "%journal\n5 1 2 done\n6 8 64 cut 128\n",
        "  %journal \n5 1 2 done\n6 8 64 cut 128",
    ] {
        let text = session(alloc, SCRIPT, behind)?;
        let SessionReading::Session(read) = read_session(alloc, text.as_slice())? else {
            return Err("refused".into());
        };
        assert_eq!(rt; read.script.devices.len(), 1);
        assert_eq!(rt; read.journal.as_slice(), [done, cut].as_slice());
    }
    Ok(())
}

/// A journal may be empty, with and without the line feed of its divider.
#[test]
fn journals_may_be_empty(rt: HostRuntime) -> Result<(), Fail> {
    let alloc = rt.alloc();
    for behind in ["%journal\n", "%journal"] {
        let text = session(alloc, SCRIPT, behind)?;
        let SessionReading::Session(read) = read_session(alloc, text.as_slice())? else {
            return Err("refused".into());
        };
        assert!(rt; read.journal.is_empty());
    }
    Ok(())
}

/// Behind the script's own refusals comes a missing divider, and then the first wrong line, counted from the first line of
/// the text.
#[test]
fn refusals_come_in_order(rt: HostRuntime) -> Result<(), Fail> {
    let alloc = rt.alloc();
    let open_body = "utk 1\nboot main 10\nbody main task\n";
    let no_label = "utk 1\nboot main 10\nbody main task\njump on\nend\n";
    let cases: [(&str, &str, u32, Why); 13] = [
        ("", "%journal\n", 1, Why::Head),
        (open_body, "%journal\nwrong\n", 4, Why::End),
        (open_body, "", 4, Why::End),
        (no_label, "%journal\nwrong\n", 4, Why::Unknown),
        (SCRIPT, "", 7, Why::End),
        (SCRIPT, "# %journal", 8, Why::End),
        (SCRIPT, "# %journal\n", 8, Why::End),
        (SCRIPT, "%trace\n", 7, Why::Order),
        (SCRIPT, "%journal\n\n", 8, Why::Journal),
        (SCRIPT, "%journal\n5 1 1 done\n# note\n", 9, Why::Journal),
        (SCRIPT, "%journal\n5 1 1 done\n%journal\n", 9, Why::Journal),
        (SCRIPT, "%journal\n5 1 1 cut\n", 8, Why::Journal),
        (SCRIPT, "%journal\n5 1 1 done\n05 1 1 done", 9, Why::Journal),
    ];
    for (script, behind, line, why) in cases {
        let text = session(alloc, script, behind)?;
        assert_eq!(rt; refused(alloc, text.as_slice())?, Some((line, why)));
    }
    Ok(())
}

/// The part before the divider has the limit of a script, and the journal may pass it.
#[test]
fn limits_are_those_of_the_parts(rt: HostRuntime) -> Result<(), Fail> {
    let alloc = rt.alloc();
    let mut text = session(alloc, SCRIPT, "%journal\n")?;
    for _ in 0..100_000 {
        text.extend_from_slice(b"1 1 1 done\n")?;
    }
    assert_eq!(rt; refused(alloc, text.as_slice())?, None);
    let long = vec![in alloc; b'\n'; 1_048_577]?;
    assert_eq!(rt; refused(alloc, long.as_slice())?, Some((0, Why::Long)));
    Ok(())
}

/// The line and the reason for which a text with a trace is refused, or none.
fn trace_refused(alloc: Global, text: &[u8]) -> Result<Option<(u32, Why)>, OutOfMemory> {
    match read_traced(alloc, text) {
        Ok(TracedReading::Traced(_)) => Ok(None),
        Ok(TracedReading::Refused { line, why }) => Ok(Some((line, why))),
        Err(error) => Err(error),
    }
}

/// A trace is read with the entries of its lines of endings, and its lines as they stand. The divider may have spaces
/// around it.
#[test]
fn traces_are_read(rt: HostRuntime) -> Result<(), Fail> {
    let alloc = rt.alloc();
    let given =
        "1 D 1\n2 C 1 tk_opn_dev 1\n5 J 1 2 done E_IO 0\n6 D 0\n6 J 8 64 cut 128\n7 END idle";
    let done = Entry {
        place: 5,
        device: 1,
        request: 2,
        how: How::Done,
    };
    let cut = Entry {
        place: 6,
        device: 8,
        request: 64,
        how: How::Cut(128),
    };
    let mut text = session(alloc, SCRIPT, "  %trace \n")?;
    text.extend_from_slice(given.as_bytes())?;
    let Ok(TracedReading::Traced(read)) = read_traced(alloc, text.as_slice()) else {
        return Err("refused".into());
    };
    assert_eq!(rt; read.script.devices.len(), 1);
    assert_eq!(rt; read.journal.as_slice(), [done, cut].as_slice());
    assert_eq!(rt; read.given, given.as_bytes());
    Ok(())
}

/// Behind the script's own refusals comes a missing divider, and then the first line that is the text of no line of a
/// trace.
#[test]
fn trace_refusals_come_in_order(rt: HostRuntime) -> Result<(), Fail> {
    let alloc = rt.alloc();
    let open_body = "utk 1\nboot main 10\nbody main task\n";
    let cases: [(&str, &str, Option<(u32, Why)>); 11] = [
        (open_body, "%trace\nwrong\n", Some((4, Why::End))),
        (SCRIPT, "", Some((7, Why::End))),
        (SCRIPT, "%journal\n", Some((7, Why::Order))),
        (SCRIPT, "%trace", None),
        (SCRIPT, "%trace\n5 D 1\n", None),
        (SCRIPT, "%trace\n\n", Some((8, Why::Trace))),
        (SCRIPT, "%trace\n5 D 1\n\n5 D 1\n", Some((9, Why::Trace))),
        (SCRIPT, "%trace\n5 D 1\n5  D 1\n", Some((9, Why::Trace))),
        (SCRIPT, "%trace\n05 D 1", Some((8, Why::Trace))),
        (
            SCRIPT,
            "%trace\n5 J 1 1 done -57 0\n",
            Some((8, Why::Trace)),
        ),
        (SCRIPT, "%trace\n5 1 1 done\n", Some((8, Why::Trace))),
    ];
    for (script, behind, answer) in cases {
        let text = session(alloc, script, behind)?;
        assert_eq!(rt; trace_refused(alloc, text.as_slice())?, answer);
    }
    Ok(())
}

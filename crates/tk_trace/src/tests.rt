//! Each kind of line with the text that the rules give it, printed and read again; texts that no line has; and
//! the entries of a journal.

use crate::{journal_of, line_text, lines_text, read_entry, read_line};
use std::alloc::Global;
use std::test::Fail;
use tk_types::{
    Answer, CallName, Entry, HandlerKind, Hook, How, LastLine, Line, LineEnding, Name, OutOfMemory,
};

/// Whether the line is printed so, and the text is read as the line.
fn goes_both_ways(alloc: Global, line: &Line, text: &str) -> Result<bool, OutOfMemory> {
    let mut out = Vec::new(alloc);
    line_text(line, &mut out)?;
    let read = read_line(alloc, text.as_bytes())?;
    Ok(out.as_slice() == text.as_bytes() && read == Some(*line))
}

/// Whether the text is no line.
fn is_no_line(alloc: Global, text: &str) -> Result<bool, OutOfMemory> {
    let read = read_line(alloc, text.as_bytes())?;
    Ok(read.is_none())
}

/// An answer with these fields in front.
fn answer(value: i32, fields: [i32; 5], used: u8) -> Answer {
    Answer {
        value,
        fields,
        used,
    }
}

#[test]
fn lines_of_calls(rt: HostRuntime) -> Result<(), Fail> {
    let full = answer(-2, [1, 10, -10, 2_147_483_647, -2_147_483_648], 5);
    let table = [
        (
            Line::Returned {
                step: 2,
                who: 1,
                call: CallName::TkExtTsk,
                answer: answer(0, [0; 5], 0),
            },
            "2 C 1 tk_ext_tsk 0",
        ),
        (
            Line::Returned {
                step: 4,
                who: 0,
                call: CallName::TkRefTsk,
                answer: full,
            },
            "4 C 0 tk_ref_tsk -2 1 10 -10 2147483647 -2147483648",
        ),
        (
            Line::Returned {
                step: 4294967295,
                who: 9,
                call: CallName::Di,
                answer: answer(-25, [0; 5], 0),
            },
            "4294967295 C 9 DI E_CTX",
        ),
        (
            Line::Blocked {
                step: 3,
                task: 2,
                call: CallName::TkSlpTsk,
            },
            "3 B 2 tk_slp_tsk",
        ),
        (
            Line::Released {
                step: 40,
                task: 255,
                call: CallName::TkRcvMbx,
                answer: answer(-50, [0, 7, 0, 0, 0], 2),
            },
            "40 W 255 tk_rcv_mbx E_TMOUT 0 7",
        ),
    ];
    for (line, text) in table {
        assert!(rt; goes_both_ways(rt.alloc(), &line, text)?, "{text}");
    }
    Ok(())
}

#[test]
fn lines_of_handlers_and_endings(rt: HostRuntime) -> Result<(), Fail> {
    let table = [
        (Line::Dispatch { step: 0, task: 1 }, "0 D 1"),
        (
            Line::Tick {
                step: 10,
                time: 18_446_744_073_709_551_615,
            },
            "10 K 18446744073709551615",
        ),
        (
            Line::Started {
                step: 5,
                handler: HandlerKind::Interrupt,
                number: 255,
            },
            "5 I int 255",
        ),
        (
            Line::Started {
                step: 6,
                handler: HandlerKind::Cyclic,
                number: 64,
            },
            "6 I cyc 64",
        ),
        (
            Line::Started {
                step: 7,
                handler: HandlerKind::Alarm,
                number: 1,
            },
            "7 I alm 1",
        ),
        (
            Line::Ending {
                step: 8,
                device: 1,
                request: 2,
                ending: LineEnding::Done { error: 0, size: 64 },
            },
            "8 J 1 2 done 0 64",
        ),
        (
            Line::Ending {
                step: 8,
                device: 1,
                request: 3,
                ending: LineEnding::Done {
                    error: -57,
                    size: 0,
                },
            },
            "8 J 1 3 done E_IO 0",
        ),
        (
            Line::Ending {
                step: 9,
                device: 8,
                request: 64,
                ending: LineEnding::Cut(128),
            },
            "9 J 8 64 cut 128",
        ),
    ];
    for (line, text) in table {
        assert!(rt; goes_both_ways(rt.alloc(), &line, text)?, "{text}");
    }
    Ok(())
}

#[test]
fn lines_of_hooks_and_ends(rt: HostRuntime) -> Result<(), Fail> {
    let hello = Name::new(b"hello").ok_or("a name")?;
    let table = [
        (
            Line::Hook {
                step: 11,
                hook: Hook::Service {
                    who: 2,
                    call: CallName::TkWupTsk,
                },
            },
            "11 O svc 2 tk_wup_tsk",
        ),
        (
            Line::Hook {
                step: 12,
                hook: Hook::Dispatch { task: 0 },
            },
            "12 O dsp 0",
        ),
        (
            Line::Hook {
                step: 13,
                hook: Hook::Handler {
                    handler: HandlerKind::Alarm,
                    number: 4,
                },
            },
            "13 O int alm 4",
        ),
        (
            Line::SaidName {
                step: 1,
                who: 1,
                name: hello,
            },
            "1 S 1 hello",
        ),
        (
            Line::SaidNumber {
                step: 14,
                who: 0,
                number: -7,
            },
            "14 S 0 -7",
        ),
        (
            Line::SaidNumber {
                step: 15,
                who: 3,
                number: -17,
            },
            "15 S 3 -17",
        ),
        (
            Line::End {
                step: 2,
                end: LastLine::Idle,
            },
            "2 END idle",
        ),
        (
            Line::End {
                step: 3,
                end: LastLine::Halt,
            },
            "3 END halt",
        ),
        (
            Line::End {
                step: 100_000,
                end: LastLine::Budget,
            },
            "100000 END budget",
        ),
        (
            Line::End {
                step: 4,
                end: LastLine::Starved,
            },
            "4 END starved",
        ),
        (
            Line::End {
                step: 5,
                end: LastLine::Unfit(12),
            },
            "5 END unfit 12",
        ),
    ];
    for (line, text) in table {
        assert!(rt; goes_both_ways(rt.alloc(), &line, text)?, "{text}");
    }
    Ok(())
}

#[test]
fn texts_of_no_line(rt: HostRuntime) -> Result<(), Fail> {
    let table = [
        "",
        "1",
        "1 D",
        "1 D 1 ",
        " 1 D 1",
        "1  D 1",
        "01 D 1",
        "1 D 256",
        "4294967296 D 1",
        "1 d 1",
        "1 D 1\n",
        "1 C 1 tk_no_call 0",
        "1 C 1 tk_ext_tsk",
        "1 C 1 tk_ext_tsk -17",
        "1 C 1 tk_ext_tsk E_OK",
        "1 C 1 tk_ext_tsk 0 1 2 3 4 5 6",
        "1 C 1 tk_ext_tsk 0 E_PAR",
        "1 S 1 Hello",
        "1 S 1 -0",
        "1 J 1 1 cut -64",
        "1 O int 4",
        "9 END idla",
        "9 END idle 1",
        "9 END unfit",
    ];
    for text in table {
        assert!(rt; is_no_line(rt.alloc(), text)?, "{text}");
    }
    Ok(())
}

#[test]
fn texts_of_lines_behind_others(rt: HostRuntime) -> Result<(), Fail> {
    let lines = [
        Line::Dispatch { step: 0, task: 1 },
        Line::End {
            step: 0,
            end: LastLine::Halt,
        },
    ];
    let mut out = Vec::from_slice(rt.alloc(), b"trace\n")?;
    lines_text(&lines, &mut out)?;
    assert_eq!(rt; out.as_slice(), b"trace\n0 D 1\n0 END halt\n".as_slice());
    Ok(())
}

#[test]
fn entries_of_lines_and_texts(rt: HostRuntime) -> Result<(), Fail> {
    let done = Entry {
        place: 8,
        device: 1,
        request: 2,
        how: How::Done,
    };
    let cut = Entry {
        place: 9,
        device: 8,
        request: 64,
        how: How::Cut(128),
    };
    let lines = [
        Line::Ending {
            step: 8,
            device: 1,
            request: 2,
            ending: LineEnding::Done {
                error: -57,
                size: 0,
            },
        },
        Line::Tick { step: 9, time: 1 },
        Line::Ending {
            step: 9,
            device: 8,
            request: 64,
            ending: LineEnding::Cut(128),
        },
    ];
    let journal = journal_of(rt.alloc(), &lines)?;
    assert!(rt; journal.as_slice() == [done, cut].as_slice());
    assert!(rt; read_entry(b"8 1 2 done") == Some(done));
    assert!(rt; read_entry(b"9 8 64 cut 128") == Some(cut));
    for text in [
        "",
        "8 1 2",
        "8 1 2 done ",
        "8 1 2 done 0",
        "8 1 2 cut",
        "8 1 02 done",
        "8 256 2 done",
        "9 8 64 cut 128 1",
    ] {
        assert!(rt; read_entry(text.as_bytes()).is_none(), "{text}");
    }
    Ok(())
}

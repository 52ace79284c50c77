//! One call of the reader on a text of each kind, with answers taken from the rules of a script's text.

use crate::{Head, Piece, RawItem, RawReading, read_raw};
use std::alloc::Global;
use std::test::Fail;
use tk_types::{ArgumentKind, BodyKind, CallName, Kind, OutOfMemory, Why};

/// The line and the reason of a refusal; `None` of a script.
fn refusal(alloc: Global, text: &[u8]) -> Result<Option<(u32, Why)>, OutOfMemory> {
    match read_raw(alloc, text)? {
        RawReading::Raw(_) => Ok(None),
        RawReading::Refused { line, why } => Ok(Some((line, why))),
    }
}

#[test]
fn a_script_is_read(rt: HostRuntime) -> Result<(), Fail> {
    let text =
        b"utk 1\ndevice store ram 512\npace 10\n\n# note\n irq 5  7\nboot main 10\nbody main task\nlabel again\nset r1 -5\ntk_def_int 1 -\nend".as_slice();
    match read_raw(rt.alloc(), text)? {
        RawReading::Refused { line: _, why: _ } => assert!(rt; false),
        RawReading::Raw(raw) => {
            assert_eq!(rt;
                raw.devices.as_slice().first().map(|device| device.kind),
                Some(Kind::Ram(512))
            );
            assert_eq!(rt; raw.pace, Some(10));
            assert_eq!(rt; raw.irqs.as_slice().first().map(|irq| irq.number), Some(7));
            assert_eq!(rt; raw.boot.priority, 10);
            assert_eq!(rt;
                raw.lines.as_slice(),
                [2, 3, 6, 7, 8, 9, 10, 11, 12].as_slice()
            );
            match raw.bodies.as_slice() {
                [body] => match body.items.as_slice() {
                    [RawItem::Label(_), RawItem::Stmt(set), RawItem::Stmt(define)] => {
                        assert_eq!(rt; body.kind, BodyKind::Task);
                        assert_eq!(rt; set.head, Head::Set);
                        assert_eq!(rt;
                            set.pieces.as_slice(),
                            [Piece::Register(1), Piece::Number(-5)].as_slice()
                        );
                        assert_eq!(rt;
                            define.pieces.as_slice(),
                            [Piece::Number(1), Piece::Dash].as_slice()
                        );
                    }
                    _ => assert!(rt; false),
                },
                _ => assert!(rt; false),
            }
        }
    }
    Ok(())
}

#[test]
fn texts_are_refused_at_their_first_wrong_line(rt: HostRuntime) -> Result<(), Fail> {
    let cases: [(&[u8], u32, Why); 8] = [
        (b"", 1, Why::Head),
        (b"utk 1\n\x7f\nend", 2, Why::Byte),
        (b"utk 1\nset r0 1", 2, Why::Order),
        (b"utk 1\ndevice a", 2, Why::Count),
        (b"utk 1\nboot main 10\nbody main task\nwait", 4, Why::Word),
        (
            b"utk 1\nboot main 10\nbody main task\nset r0 01",
            4,
            Why::Number,
        ),
        (
            b"utk 1\nboot main 10\nbody main task\nlabel a\nlabel a",
            5,
            Why::Name,
        ),
        (b"utk 1\nboot main 10\nbody main task\n", 4, Why::End),
    ];
    for (text, line, why) in cases {
        assert_eq!(rt; refusal(rt.alloc(), text)?, Some((line, why)));
    }
    Ok(())
}

/// The first lines of a script whose body begins with the label `again`, and a thousand labels behind it.
fn many_labels(alloc: Global) -> Result<String, Fail> {
    let mut text = String::from_str(alloc, "utk 1\nboot main 10\nbody main task\nlabel again\n")?;
    for number in 0..1000u32 {
        write!(text, "label part{number}\n")?;
    }
    Ok(text)
}

#[test]
fn a_label_is_refused_far_behind_its_like(rt: HostRuntime) -> Result<(), Fail> {
    let mut text = many_labels(rt.alloc())?;
    text.push_str("label other\nend\n")?;
    assert_eq!(rt; refusal(rt.alloc(), text.as_bytes())?, None);
    let mut text = many_labels(rt.alloc())?;
    text.push_str("label again\nend\n")?;
    assert_eq!(rt;
        refusal(rt.alloc(), text.as_bytes())?,
        Some((1005, Why::Name))
    );
    Ok(())
}

#[test]
fn first_words_have_one_spelling(rt: HostRuntime) {
    assert_eq!(rt; Head::of_text(b"jeq"), Some(Head::Jeq));
    assert_eq!(rt;
        Head::of_text(b"tk_slp_tsk"),
        Some(Head::Call(CallName::TkSlpTsk))
    );
    assert_eq!(rt; Head::of_text(b"body"), None);
    assert_eq!(rt; Head::Return.text(), "return");
    assert_eq!(rt; Head::Say.form(), [ArgumentKind::Text].as_slice());
}

//! Texts that are read, printed and refused.

use super::*;
use std::alloc::Global;
use std::test::Fail;
use tk_types::{OutOfMemory, Why};

const LOOSE: &[u8] = b"utk  1\n# note\n\nboot main 10\nbody main task\n  say   hello\nend";

const PLAIN: &[u8] = b"utk 1\nboot main 10\nbody main task\nsay hello\nend\n";

const EVERYTHING: &[u8] =
    b"utk 1\ndevice d0 ram 65536\ndevice d1 log\ndevice d2 flaky 256 3\ndevice d3 slow 1 0\npace 7\nirq 5 1\nirq 5 255\nboot main 140\nbody main task\nlabel top\nset r0 -5\nadd r1 r15\nldb r2 8\nstb r3 255\nlabel mid\njeq r0 0 top\njne r0 r1 mid\njlt r0 -2147483648 last\njump last\nsay hello\nshow r4\nnop\ntk_cre_tsk TA_ASM|TA_HLNG work 5 512\ntk_sta_tsk 2 0\ntk_def_int 1 hook\ntk_def_int 1 -\ntk_def_ssy 1 deep\ntk_opn_dev d3 TD_READ|TD_EXCL\nlabel last\ntk_ext_tsk\nlabel behind\nend\nbody work task\nhalt\nend\nbody hook hand\nreturn 0\nend\nbody deep svc\nend\n";

/// The line and the reason for which a text is refused, or none.
fn refused(alloc: Global, text: &str) -> Result<Option<(u32, Why)>, OutOfMemory> {
    match read_script(alloc, text.as_bytes())? {
        Reading::Script(_) => Ok(None),
        Reading::Refused { line, why } => Ok(Some((line, why))),
    }
}

/// The printed form of the script that a text spells.
fn plain_form(alloc: Global, text: &[u8]) -> Result<Option<Vec<u8>>, OutOfMemory> {
    match read_script(alloc, text)? {
        Reading::Script(script) => Ok(Some(print_script(alloc, &script)?)),
        Reading::Refused { .. } => Ok(None),
    }
}

#[test]
fn scripts_are_read_and_printed(rt: HostRuntime) -> Result<(), Fail> {
    let alloc = rt.alloc();
    for (text, plain) in [(LOOSE, PLAIN), (PLAIN, PLAIN), (EVERYTHING, EVERYTHING)] {
        let form = plain_form(alloc, text)?.ok_or("refused")?;
        assert_eq!(rt; form.as_slice(), plain);
    }
    Ok(())
}

#[test]
fn each_reason_has_its_line(rt: HostRuntime) -> Result<(), Fail> {
    let alloc = rt.alloc();
    let head = "utk 1\nboot main 10\nbody main task\n";
    let cases: [(&str, u32, Why); 16] = [
        ("say a\x01\nend\n", 4, Why::Byte),
        ("wait\nend\n", 4, Why::Word),
        ("set r0\nend\n", 4, Why::Count),
        ("tk_slp_tsk 01\nend\n", 4, Why::Number),
        ("set r16 1\nend\n", 4, Why::Name),
        ("tk_cre_sem TA_TPRI|TA_TFIFO 0 1\nend\n", 4, Why::List),
        ("tk_ext_tsk\n", 5, Why::End),
        ("jump x\nend\n", 4, Why::Unknown),
        ("end\nbody h hand\ntk_ext_tsk\nend\n", 6, Why::Kind),
        ("return 0\nend\n", 4, Why::Kind),
        ("# note\ntk_cre_tsk - other 1 1\nend\n", 5, Why::Unknown),
        ("tk_cre_tsk - h 1 1\nend\nbody h hand\nend\n", 4, Why::Kind),
        (
            "label a\nend\nbody other task\njump a\nend\n",
            7,
            Why::Unknown,
        ),
        ("jump x\nend\nbody other task\nhalt 1\nend\n", 7, Why::Count),
        ("end\npace 1\n", 5, Why::Order),
        ("end\nend\n", 5, Why::Order),
    ];
    for (rest, line, why) in cases {
        let text = format!(in alloc; "{head}{rest}")?;
        assert_eq!(rt; refused(alloc, text.as_str())?, Some((line, why)), "{rest}");
    }
    let whole: [(&str, u32, Why); 6] = [
        ("", 1, Why::Head),
        ("utk 3\n", 1, Why::Head),
        ("utk 1\ntick 5\n", 2, Why::Order),
        (
            "utk 1\n\npace 7\nboot none 1\nbody main task\nend\n",
            4,
            Why::Unknown,
        ),
        (
            "utk 1\nirq 1 1\nboot h 1\nbody h hand\njump x\nend\n",
            3,
            Why::Kind,
        ),
        ("utk 1\nboot main 141\n", 2, Why::Number),
    ];
    for (text, line, why) in whole {
        assert_eq!(rt; refused(alloc, text)?, Some((line, why)), "{text}");
    }
    Ok(())
}

#[test]
fn lines_and_texts_have_a_limit(rt: HostRuntime) -> Result<(), Fail> {
    let alloc = rt.alloc();
    let mut text = String::from_str(alloc, "utk 1\nboot main 10\nbody main task\nend\n#")?;
    for _ in 0..199 {
        text.push_str("x")?;
    }
    assert_eq!(rt; refused(alloc, text.as_str())?, None);
    text.push_str("x")?;
    assert_eq!(rt; refused(alloc, text.as_str())?, Some((5, Why::Line)));
    let mut long = String::from_str(alloc, "utk 1\nboot main 10\nbody main task\nend\n")?;
    for _ in 0..1_048_538 {
        long.push_str("\n")?;
    }
    assert_eq!(rt; long.len(), 1_048_576);
    assert_eq!(rt; refused(alloc, long.as_str())?, None);
    long.push_str("\n")?;
    assert_eq!(rt; refused(alloc, long.as_str())?, Some((0, Why::Long)));
    Ok(())
}

#[test]
fn scripts_of_all_families_are_read(rt: HostRuntime) -> Result<(), Fail> {
    let alloc = rt.alloc();
    let cases: [(&str, Option<(u32, Why)>); 11] = [
        (
            "utk 1\nboot main 10\nbody main task\ntk_cre_tsk TA_ASM main 5 r1\nldb r2 0\nlabel on\njump on\ntk_dly_tsk 2\nshow 3\ntk_ref_tsk 1\nhalt\nend\n",
            None,
        ),
        (
            "utk 1\nboot main 10\nbody main task\ntk_cre_sem TA_CNT 0 1\ntk_sig_sem 1 1\ntk_wai_sem 1 1 0\ntk_ref_sem 1\ntk_del_sem 1\nend\n",
            None,
        ),
        (
            "utk 1\nboot main 10\nbody main task\ntk_cre_flg TA_WMUL 0\ntk_set_flg 1 3\ntk_clr_flg 1 1\ntk_wai_flg 1 1 TWF_ORW 0\ntk_ref_flg 1\ntk_del_flg 1\nend\n",
            None,
        ),
        (
            "utk 1\ndevice a log\nboot main 10\nbody main task\nend\n",
            None,
        ),
        (
            "utk 1\n\npace 1\nirq 1 1\nboot main 10\nbody main task\ntk_def_int 1 h\nend\nbody h hand\nreturn 0\nend\n",
            None,
        ),
        (
            "utk 1\nboot main 10\nbody main task\ntk_cre_mtx - 0\ntk_cre_alm - h\nDI\nend\nbody h hand\nend\n",
            None,
        ),
        (
            "utk 1\nboot main 10\nbody main task\ntk_def_ssy 1 s\nsvc 1 0\nend\nbody s svc\nreturn r1\nend\n",
            None,
        ),
        (
            "utk 1\nboot main 10\nbody main task\nlabel a\n# note\ntk_cls_dev 1\nend\n",
            None,
        ),
        (
            "utk 1\nboot main 10\nbody main task\ntk_cre_mtx - 0\ntk_cre_mpl - 64\ntk_cls_dev 1\nend\n",
            None,
        ),
        (
            "utk 1\nirq 1 1\nboot main 10\nbody main task\nend\nbody h hand\ntd_hok_int 1\ntk_cls_dev 1\nend\n",
            None,
        ),
        (
            "utk 1\ndevice a log\nboot main 10\nbody main task\njump x\nend\n",
            Some((5, Why::Unknown)),
        ),
    ];
    for (text, want) in cases {
        assert_eq!(rt; refused(alloc, text)?, want, "{text}");
    }
    Ok(())
}

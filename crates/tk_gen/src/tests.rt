//! Draws and priorities worked out by hand, and runs of whole scripts, whose counts another simulator gave.

use super::*;
use crate::draws::draws;
use std::alloc::Global;
use std::test::Fail;
use tk_types::{Arg, End, Stmt};

/// 1,103,515,245 * 7 + 12,345 is 7,724,619,060, which is 1,282,168,116 modulo 2^31; that begins the next draw. Divided by 65,536
/// these numbers are the draws.
#[test]
fn draws_from_seven_on(rt: HostRuntime) -> Result<(), Fail> {
    let list = draws(rt.alloc(), 3, 7)?;
    assert_eq!(rt; list.as_slice(), [19_564u16, 9_806, 10_868].as_slice());
    Ok(())
}

/// The priority of the first task is 1 and the first draw modulo 100.
#[test]
fn the_first_draw_gives_a_priority(rt: HostRuntime) -> Result<(), Fail> {
    let script = generated(rt.alloc(), 7)?;
    let Some(body) = script.bodies.as_slice().first() else {
        return Err("the script has no body".into());
    };
    let priority = match body.stmts.as_slice().get(4) {
        Some(Stmt::Call { name: _, args }) => args.as_slice().get(2).copied(),
        _ => None,
    };
    assert_eq!(rt; priority, Some(Arg::Number(65)));
    Ok(())
}

/// The line of the run of the script with a number.
fn line_of(alloc: Global, number: u16) -> Result<Vec<u8>, OutOfMemory> {
    let summary = summed_up(alloc, number)?;
    summary_text(alloc, &summary)
}

#[test]
fn line_of_script_0(rt: HostRuntime) -> Result<(), Fail> {
    assert_eq!(rt;
        line_of(rt.alloc(), 0)?.as_slice(),
        b"gen 0 steps 4450 calls 2788 waits 1517 ticks 145 endings 512\n".as_slice()
    );
    Ok(())
}

#[test]
fn line_of_script_1(rt: HostRuntime) -> Result<(), Fail> {
    assert_eq!(rt;
        line_of(rt.alloc(), 1)?.as_slice(),
        b"gen 1 steps 4455 calls 2508 waits 1797 ticks 150 endings 492\n".as_slice()
    );
    Ok(())
}

/// This run also tells how it ended.
#[test]
fn line_of_script_7(rt: HostRuntime) -> Result<(), Fail> {
    let summary = summed_up(rt.alloc(), 7)?;
    assert_eq!(rt; summary.last, End::Idle);
    assert_eq!(rt;
        summary_text(rt.alloc(), &summary)?.as_slice(),
        b"gen 7 steps 4447 calls 2918 waits 1387 ticks 142 endings 488\n".as_slice()
    );
    Ok(())
}

#[test]
fn line_of_the_last_script(rt: HostRuntime) -> Result<(), Fail> {
    assert_eq!(rt;
        line_of(rt.alloc(), 65_535)?.as_slice(),
        b"gen 65535 steps 4443 calls 2681 waits 1624 ticks 138 endings 513\n".as_slice()
    );
    Ok(())
}

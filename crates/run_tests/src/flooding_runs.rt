//! A script that floods a task with wake-ups.

use crate::tests::words_of;
use dev_drivers::StdSpawner;
use std::alloc::Global;
use std::test::Fail;
use tk_ports::{MemSink, MemSource};
use tk_run::{Status, program};
use tk_types::OutOfMemory;

/// Task 1 wakes task 2, which is READY and never runs, 65,536 times.
const FLOOD: &[u8] =
    b"utk 1\nboot main 10\nbody main task\ntk_cre_tsk - work 10 512\ntk_sta_tsk 2 0\nset r5 0\nlabel a\ntk_wup_tsk 2\nadd r5 1\njlt r5 65536 a\nhalt\nend\nbody work task\nend\n";

/// How many requests a task keeps at most.
const MOST_WAKE_UPS: u32 = 65_535;

/// A bound of the bytes of the trace.
const ROOM: u32 = 2_000_000;

/// The trace by the rules: each turn of the loop has three statements, of which the first is the call, and the wake-up behind the last
/// that is kept is refused.
fn trace_of_flood(alloc: Global) -> Result<Vec<u8>, OutOfMemory> {
    let mut text = Vec::new(alloc);
    text.extend_from_slice(b"0 D 1\n1 C 1 tk_cre_tsk 2\n2 C 1 tk_sta_tsk 0\n")?;
    'wake_ups: for wake_up in 0..MOST_WAKE_UPS {
        let line = format!(in alloc; "{} C 1 tk_wup_tsk 0\n", 4 + 3 * wake_up)?;
        text.extend_from_slice(line.as_bytes())?;
    }
    text.extend_from_slice(b"196609 C 1 tk_wup_tsk E_QOVR\n196612 END halt\n")?;
    Ok(text)
}

/// Each wake-up up to the most is kept, and the next is refused.
#[test]
fn flood_of_wake_ups_is_stopped(rt: HostRuntime) -> Result<(), Fail> {
    let alloc = rt.alloc();
    let words = words_of(alloc, "run --budget 300000")?;
    let mut source = MemSource::new(alloc, FLOOD, &[])?;
    let mut sink = MemSink::new(alloc, ROOM, &[])?;
    let mut spawner = StdSpawner::new();
    let (status, _) = program(&rt, alloc, &words, &mut source, &mut sink, &mut spawner);
    assert_eq!(rt; status, Status::Done);
    let trace = trace_of_flood(alloc)?;
    assert_eq!(rt; sink.bytes().len(), trace.len());
    assert!(rt; sink.bytes() == trace.as_slice());
    Ok(())
}

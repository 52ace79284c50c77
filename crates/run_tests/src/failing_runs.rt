//! Runs in which one call of the outside fails: each read, each write and each start of a driver, in turn.

use crate::driver_runs::{TWO_DEVICES, session_of};
use crate::tests::{HELLO, HELLO_TRACE, outcome, words_of};
use dev_drivers::{AnyGate, Open, Started, TestSpawner};
use std::alloc::Global;
use std::sync::Wait;
use std::test::Fail;
use std::thread::Threads;
use tk_ports::{MemSink, MemSource, Sink, Source};
use tk_run::{Status, program};
use tk_types::OutOfMemory;

/// A run: its words and its input, how many drivers it starts, and a front of its trace.
#[derive(Clone, Copy)]
struct Case {
    words: &'static str,
    input: &'static [u8],
    drivers: u64,
    front: &'static [u8],
}

/// One task says a word.
const GREETING: Case = Case {
    words: "run",
    input: HELLO,
    drivers: 0,
    front: HELLO_TRACE,
};

/// A cyclic handler wakes a sensor every 23rd tick, which counts under a mutex and sends the number; a logger writes each to a device.
const SENSOR: Case = Case {
    words: "run --sync --budget 600",
    input: b"utk 1\ndevice store ram 4096\nboot main 100\nbody main task\ntk_cre_mbf - 256 16\ntk_cre_mtx TA_CEILING 10\ntk_cre_tsk - sensor 20 512\ntk_cre_tsk - logger 30 512\ntk_cre_cyc TA_STA beat 10 22\ntk_sta_tsk 2 0\ntk_sta_tsk 3 0\nend\nbody sensor task\nlabel again\ntk_slp_tsk -1\ntk_loc_mtx 1 -1\nadd r5 3\nstb 0 r5\ntk_unl_mtx 1\ntk_snd_mbf 1 0 4 -1\njump again\nend\nbody logger task\ntk_opn_dev store TD_UPDATE\nlabel again\ntk_rcv_mbf 1 64 -1\ntk_swri_dev 1 r6 64 4\nadd r6 4\njlt r6 196 again\nhalt\nend\nbody beat hand\ntk_wup_tsk 2\nend\n",
    drivers: 1,
    front: b"0 D 1\n1 C 1 tk_cre_mbf 1\n2 C 1 tk_cre_mtx 1\n3 C 1 tk_cre_tsk 2\n4 C 1 tk_cre_tsk 3\n5 C 1 tk_cre_cyc 1\n6 C 1 tk_sta_tsk 0\n6 D 2\n7 B 2 tk_slp_tsk\n7 D 1\n8 C 1 tk_sta_tsk 0\n8 D 3\n9 C 3 tk_opn_dev 1\n10 B 3 tk_rcv_mbf\n10 D 1\n11 C 1 tk_ext_tsk 0\n11 D 0\n12 K 1\n",
};

/// How the run of the sensor ends.
const END_OF_SENSOR: &[u8] = b"600 B 3 tk_rcv_mbf\n600 D 0\n600 END budget\n";

/// A close waits for the ending of what its driver has, which is the journal's.
const CLOSING: Case = Case {
    words: "replay",
    input: b"utk 1\ndevice d slow 256 3\nboot main 10\nbody main task\ntk_opn_dev d TD_WRITE\ntk_wri_dev 1 0 0 200 -1\ntk_wri_dev 1 0 0 10 -1\ntk_cls_dev 1\nend\n%journal\n5 1 1 done\n",
    drivers: 0,
    front: b"0 D 1\n1 C 1 tk_opn_dev 1\n2 C 1 tk_wri_dev 1\n3 C 1 tk_wri_dev 2\n4 B 1 tk_cls_dev\n4 D 0\n5 J 1 1 done 0 200\n5 W 1 tk_cls_dev 0\n5 D 1\n5 C 1 tk_ext_tsk 0\n5 D 0\n5 END idle\n",
};

/// A task writes to two devices and waits for both. What stands behind the first request depends on the drivers.
const WRITING: Case = Case {
    words: "run",
    input: TWO_DEVICES,
    drivers: 2,
    front: b"0 D 1\n1 C 1 tk_opn_dev 1\n2 C 1 tk_opn_dev 2\n3 C 1 tk_wri_dev 1\n",
};

/// The room of a sink for each of these traces.
const ROOM: u32 = 16_384;

/// More calls than any of these runs makes.
const MOST_CALLS: u64 = 1000;

/// A call of the outside.
#[derive(Clone, Copy, Debug, PartialEq, Eq)]
enum Call {
    Read,
    Write,
    Start,
}

/// The call of a run that fails: the how manieth of its kind, counted from 1. With the number 0 none fails.
#[derive(Clone, Copy, Debug)]
struct Failing {
    call: Call,
    number: u64,
}

impl Failing {
    /// The list of the failing calls of a kind. No call has the number 0.
    fn list_of(self, call: Call) -> [u64; 1] {
        if self.call == call {
            [self.number]
        } else {
            [0]
        }
    }
}

/// What a run came to: its status, what the sink holds, how many calls failed, and the drivers that were started and joined.
#[derive(Debug, Drop)]
struct Outcome {
    status: Status,
    failures: u64,
    starts: u64,
    joins: u64,
    output: Vec<u8>,
}

/// A run that didn't end as it should.
#[derive(Debug, Drop)]
struct Wrong {
    failing: Failing,
    outcome: Outcome,
}

/// What the program answers where one call fails.
fn outcome_of<R: Threads + Wait + Copy + Send + Sync + 'static>(
    rt: &R,
    alloc: Global,
    case: &Case,
    failing: Failing,
) -> Result<Outcome, OutOfMemory> {
    let words = words_of(alloc, case.words)?;
    let gate = AnyGate(Box::new(alloc, Open)?);
    let mut spawner = TestSpawner::new(alloc, gate, &failing.list_of(Call::Start))?;
    let mut source = MemSource::new(alloc, case.input, &failing.list_of(Call::Read))?;
    let mut sink = MemSink::new(alloc, ROOM, &failing.list_of(Call::Write))?;
    let (status, _) = program(rt, alloc, &words, &mut source, &mut sink, &mut spawner);
    let faults = source.faults().saturating_add(sink.faults());
    Ok(Outcome {
        status,
        failures: faults.saturating_add(spawner.refusals()),
        starts: spawner.starts(),
        joins: spawner.joins(),
        output: Vec::from_slice(alloc, sink.bytes())?,
    })
}

/// The status that a failing call leaves, and the number of drivers that were started before.
fn end_of(case: &Case, failing: Failing) -> (Status, u64) {
    match failing.call {
        Call::Read => (Status::ReadFault, 0),
        Call::Write => (Status::WriteFault, case.drivers),
        Call::Start => (Status::NoThread, failing.number.saturating_sub(1)),
    }
}

/// Whether a text is a front of another one that goes on.
fn is_front(text: &[u8], whole: &[u8]) -> bool {
    text.len() < whole.len() && whole.starts_with(text)
}

/// Whether that is what a failing call leaves: one failure, its status, all drivers joined that were started, and a front of the whole
/// text, or where no write failed nothing of it.
fn is_right(case: &Case, failing: Failing, whole: &[u8], outcome: &Outcome) -> bool {
    let (status, drivers) = end_of(case, failing);
    let may_write = failing.call == Call::Write;
    outcome.status == status
        && outcome.failures == 1
        && outcome.starts == drivers
        && outcome.joins == drivers
        && is_front(&outcome.output, whole)
        && (may_write || outcome.output.is_empty())
}

/// Lets one call of a kind after the other fail, each in a run of its own, until a run doesn't come to the call. Answers how many
/// calls failed.
fn each_fails<R: Threads + Wait + Copy + Send + Sync + 'static>(
    rt: &R,
    alloc: Global,
    case: &Case,
    call: Call,
    whole: &[u8],
) -> Result<u64, Fail> {
    'runs: for number in 1..=MOST_CALLS {
        let failing = Failing { call, number };
        let outcome = outcome_of(rt, alloc, case, failing)?;
        if outcome.failures == 0 {
            return Ok(number - 1);
        }
        if !is_right(case, failing, whole, &outcome) {
            return Err(Fail::from(Wrong { failing, outcome }));
        }
    }
    Err(Fail::new("there are more calls than any of these runs makes"))
}

/// The trace that the J lines of a front of one make, as far as the run comes without another ending.
fn replayed<R: Threads + Wait + Copy + Send + Sync + 'static>(
    rt: &R,
    alloc: Global,
    front: &[u8],
) -> Result<Vec<u8>, OutOfMemory> {
    let session = session_of(alloc, WRITING.input, front)?;
    let (_, trace) = outcome(rt, alloc, "replay", &session)?;
    Ok(trace)
}

/// Lets one write after the other fail in free mode, where the whole text is another one in each run: what the sink holds is a front of
/// the trace that its own J lines make. Answers how many writes failed.
fn each_write_fails<R: Threads + Wait + Copy + Send + Sync + 'static>(
    rt: &R,
    alloc: Global,
) -> Result<u64, Fail> {
    'runs: for number in 1..=MOST_CALLS {
        let failing = Failing {
            call: Call::Write,
            number,
        };
        let outcome = outcome_of(rt, alloc, &WRITING, failing)?;
        if outcome.failures == 0 {
            return Ok(number - 1);
        }
        let whole = replayed(rt, alloc, &outcome.output)?;
        if !is_right(&WRITING, failing, &whole, &outcome) || !whole.starts_with(WRITING.front) {
            return Err(Fail::from(Wrong { failing, outcome }));
        }
    }
    Err(Fail::new("there are more writes than this run makes"))
}

/// What each run writes where no call fails.
fn whole_of<R: Threads + Wait + Copy + Send + Sync + 'static>(
    rt: &R,
    alloc: Global,
    case: &Case,
) -> Result<Vec<u8>, Fail> {
    let failing = Failing {
        call: Call::Read,
        number: 0,
    };
    let outcome = outcome_of(rt, alloc, case, failing)?;
    if !outcome.output.starts_with(case.front) || outcome.failures > 0 {
        return Err(Fail::from(Wrong { failing, outcome }));
    }
    Ok(outcome.output)
}

/// A read that fails, the first or the one that would find the end, leaves the sink as it was, and no driver was started.
#[test]
fn each_failed_read_writes_nothing(rt: HostRuntime) -> Result<(), Fail> {
    for case in [GREETING, SENSOR, CLOSING, WRITING] {
        let calls = each_fails(&rt, rt.alloc(), &case, Call::Read, case.front)?;
        assert!(rt; calls > 1);
    }
    Ok(())
}

/// A write that fails leaves a front of what the run writes without the failure, and all drivers were joined.
#[test]
fn each_failed_write_leaves_a_front(rt: HostRuntime) -> Result<(), Fail> {
    for case in [GREETING, CLOSING] {
        let whole = whole_of(&rt, rt.alloc(), &case)?;
        assert_eq!(rt; whole.as_slice(), case.front);
        let calls = each_fails(&rt, rt.alloc(), &case, Call::Write, &whole)?;
        assert!(rt; calls > 1);
    }
    Ok(())
}

/// So it is in sync mode, where script and budget determine each byte.
#[test]
fn each_failed_write_in_sync_leaves_a_front(rt: HostRuntime) -> Result<(), Fail> {
    let whole = whole_of(&rt, rt.alloc(), &SENSOR)?;
    assert!(rt; whole.ends_with(END_OF_SENSOR));
    let calls = each_fails(&rt, rt.alloc(), &SENSOR, Call::Write, &whole)?;
    assert!(rt; calls > 1);
    Ok(())
}

/// In free mode the front is one of the trace that its own J lines make.
#[test]
fn each_failed_write_in_free_mode_leaves_a_front(rt: HostRuntime) -> Result<(), Fail> {
    let calls = each_write_fails(&rt, rt.alloc())?;
    assert!(rt; calls > 1);
    Ok(())
}

/// Where a start is refused nothing is written, and the drivers that were started before are joined.
#[test]
fn each_refused_start_writes_nothing(rt: HostRuntime) -> Result<(), Fail> {
    for case in [SENSOR, WRITING] {
        let calls = each_fails(&rt, rt.alloc(), &case, Call::Start, case.front)?;
        assert_eq!(rt; calls, case.drivers);
    }
    Ok(())
}

//! Runs with drivers on threads.

ghost use Rattle.std.specs.Prelude.{Some};

use crate::tests::{outcome, words_of};
use crossbeam_utils::Backoff;
use dev_drivers::{AnyGate, FleetRecord, Open, Spawner, Started, StdSpawner, TestSpawner};
use std::alloc::Global;
use std::sync::atomic::{AtomicU64, Ordering};
use std::sync::{Arc, Wait};
use std::test::Fail;
use std::thread::Threads;
use tk_ports::{Failed, Gate, MemSink, MemSource, Sink};
use tk_run::{Status, program};
use tk_types::OutOfMemory;

const ONE_DEVICE: &[u8] =
    b"utk 1\ndevice d ram 64\nboot main 10\nbody main task\ntk_opn_dev d TD_UPDATE\nstb 0 7\ntk_swri_dev 1 0 0 1\ntk_srea_dev 1 0 8 1\nldb r3 8\nshow r3\nend\n";

const ONE_DEVICE_IN_SYNC: &[u8] =
    b"0 D 1\n1 C 1 tk_opn_dev 1\n3 B 1 tk_swri_dev\n3 D 0\n4 J 1 1 done 0 1\n4 W 1 tk_swri_dev 1\n4 D 1\n4 B 1 tk_srea_dev\n4 D 0\n5 J 1 1 done 0 1\n5 W 1 tk_srea_dev 1\n5 D 1\n6 S 1 7\n7 C 1 tk_ext_tsk 0\n7 D 0\n7 END idle\n";

pub(crate) const TWO_DEVICES: &[u8] =
    b"utk 1\ndevice a ram 64\ndevice b ram 64\nboot main 10\nbody main task\ntk_opn_dev a TD_UPDATE\ntk_opn_dev b TD_UPDATE\ntk_wri_dev 1 0 0 8 -1\ntk_wri_dev 2 0 0 8 -1\ntk_wai_dev 2 2 -1\ntk_wai_dev 1 1 -1\nend\n";

const BUSY: &[u8] =
    b"utk 1\ndevice d ram 64\nboot main 10\nbody main task\ntk_opn_dev d TD_UPDATE\nstb 0 1\ntk_swri_dev 1 0 0 1\ntk_rea_dev 1 0 8 1 -1\nlabel again\nldb r3 8\njeq r3 0 again\nend\n";

/// Eight devices with a task each, which opens its device and writes a hundred times.
const EIGHT_DEVICES: &[u8] =
    b"utk 1\ndevice d1 ram 256\ndevice d2 log\ndevice d3 slow 256 3\ndevice d4 ram 64\ndevice d5 ram 256\ndevice d6 slow 64 1\ndevice d7 flaky 256 7\ndevice d8 log\nboot main 100\nbody main task\ntk_cre_tsk - w1 10 512\ntk_cre_tsk - w2 10 512\ntk_cre_tsk - w3 10 512\ntk_cre_tsk - w4 10 512\ntk_cre_tsk - w5 10 512\ntk_cre_tsk - w6 10 512\ntk_cre_tsk - w7 10 512\ntk_cre_tsk - w8 10 512\nset r5 2\nlabel start\ntk_sta_tsk r5 0\nadd r5 1\njlt r5 10 start\nend\nbody w1 task\ntk_opn_dev d1 TD_UPDATE\nset r6 r0\nset r5 0\nlabel again\ntk_swri_dev r6 0 0 64\nadd r5 1\njlt r5 100 again\nend\nbody w2 task\ntk_opn_dev d2 TD_UPDATE\nset r6 r0\nset r5 0\nlabel again\ntk_swri_dev r6 0 0 64\nadd r5 1\njlt r5 100 again\nend\nbody w3 task\ntk_opn_dev d3 TD_UPDATE\nset r6 r0\nset r5 0\nlabel again\ntk_swri_dev r6 0 0 64\nadd r5 1\njlt r5 100 again\nend\nbody w4 task\ntk_opn_dev d4 TD_UPDATE\nset r6 r0\nset r5 0\nlabel again\ntk_swri_dev r6 0 0 64\nadd r5 1\njlt r5 100 again\nend\nbody w5 task\ntk_opn_dev d5 TD_UPDATE\nset r6 r0\nset r5 0\nlabel again\ntk_swri_dev r6 0 0 64\nadd r5 1\njlt r5 100 again\nend\nbody w6 task\ntk_opn_dev d6 TD_UPDATE\nset r6 r0\nset r5 0\nlabel again\ntk_swri_dev r6 0 0 64\nadd r5 1\njlt r5 100 again\nend\nbody w7 task\ntk_opn_dev d7 TD_UPDATE\nset r6 r0\nset r5 0\nlabel again\ntk_swri_dev r6 0 0 64\nadd r5 1\njlt r5 100 again\nend\nbody w8 task\ntk_opn_dev d8 TD_UPDATE\nset r6 r0\nset r5 0\nlabel again\ntk_swri_dev r6 0 0 64\nadd r5 1\njlt r5 100 again\nend\n";

/// The room of a sink for the longest trace here.
const ROOM: u32 = 400_000;

/// How often a gate looks again before it lets a driver go on.
const MOST_TURNS: u32 = 5_000_000;

/// The word of a gate before anything has happened.
const NOTHING: u64 = 0;

/// The word once device 1 has come to its gate.
const FIRST_IS_THERE: u64 = 1;

/// The word once an ending of device 2 was written.
const SECOND_HAS_ENDED: u64 = 2;

/// The word once a driver has waited for too long.
const TOO_LATE: u64 = 3;

/// Waits until the word is that high, but not for ever: after many turns the word tells that it was too late.
fn wait_for(word: &AtomicU64, least: u64) {
    let backoff = Backoff::new();
    'turns: for _ in 0..MOST_TURNS {
        if word.load(Ordering::SeqCst) >= least {
            return;
        }
        backoff.snooze();
    }
    word.fetch_max(TOO_LATE, Ordering::SeqCst);
}

/// Lets device 2 pass only once device 1 has come to its own gate, and holds that one until an ending of device 2 was written.
#[derive(Drop)]
struct SecondFirst {
    word: Arc<AtomicU64, Global>,
}

impl Gate for SecondFirst {
    fn pass(&self, device: u8, block: u32) {
        if block > 0 {
            return;
        }
        if device == 1 {
            self.word.fetch_max(FIRST_IS_THERE, Ordering::SeqCst);
            wait_for(&self.word, SECOND_HAS_ENDED);
        } else {
            wait_for(&self.word, FIRST_IS_THERE);
        }
    }
}

/// A sink that tells the gate once it holds a J line of device 2.
#[derive(Drop)]
struct Watching {
    sink: MemSink,
    word: Arc<AtomicU64, Global>,
}

impl Sink for Watching {
    ghost held = { λ watching. Some watching.sink.held };

    ghost faulted = { λ watching. watching.sink.faults };

    fn write(&mut self, piece: &[u8]) -> Result<usize, Failed> {
        let count = self.sink.write(piece)?;
        if has_piece(self.sink.bytes(), b" J 2 ") {
            self.word.fetch_max(SECOND_HAS_ENDED, Ordering::SeqCst);
        }
        Ok(count)
    }

    fn faults(&self) -> u64 {
        self.sink.faults()
    }
}

/// Whether some bytes stand somewhere in others.
fn has_piece(bytes: &[u8], piece: &[u8]) -> bool {
    place_of(bytes, piece).is_some()
}

/// Where some bytes stand first in others.
fn place_of(bytes: &[u8], piece: &[u8]) -> Option<usize> {
    if piece.is_empty() {
        return Some(0);
    }
    bytes.windows(piece.len()).position(|part| part == piece)
}

/// How often some bytes stand in others.
fn count_of(bytes: &[u8], piece: &[u8]) -> usize {
    if piece.is_empty() {
        return 0;
    }
    bytes
        .windows(piece.len())
        .filter(|part| *part == piece)
        .count()
}

/// What the program answers over a source that never fails.
fn answer<R: Threads + Wait + Copy + Send + Sync + 'static, K: Sink, P: Spawner<R>>(
    rt: &R,
    alloc: Global,
    line: &str,
    input: &[u8],
    sink: &mut K,
    spawner: &mut P,
) -> Result<(Status, Option<FleetRecord>), OutOfMemory> {
    let words = words_of(alloc, line)?;
    let mut source = MemSource::new(alloc, input, &[])?;
    Ok(program(rt, alloc, &words, &mut source, sink, spawner))
}

/// Puts the entry of a journal that a J line makes behind a session.
fn push_entry(session: &mut Vec<u8>, line: &[u8]) -> Result<(), OutOfMemory> {
    let words = if has_piece(line, b" cut ") { 6 } else { 5 };
    'words: for (at, word) in line.split(|byte| *byte == b' ').take(words).enumerate() {
        if at == 1 {
            continue;
        }
        if at > 1 {
            session.push(b' ')?;
        }
        session.extend_from_slice(word)?;
    }
    session.push(b'\n')?;
    Ok(())
}

/// The session that does a run again: the script, the divider, and the entries that the J lines of the trace make.
pub(crate) fn session_of(
    alloc: Global,
    script: &[u8],
    trace: &[u8],
) -> Result<Vec<u8>, OutOfMemory> {
    let mut session = Vec::from_slice(alloc, script)?;
    session.extend_from_slice(b"%journal\n")?;
    'lines: for line in trace.split(|byte| *byte == b'\n') {
        if has_piece(line, b" J ") {
            push_entry(&mut session, line)?;
        }
    }
    Ok(session)
}

/// In sync mode the rules determine each byte, and what is read is what was written.
#[test]
fn a_run_in_sync_is_determined(rt: HostRuntime) -> Result<(), Fail> {
    let (status, output) = outcome(&rt, rt.alloc(), "run --sync", ONE_DEVICE)?;
    assert_eq!(rt; output.as_slice(), ONE_DEVICE_IN_SYNC);
    assert_eq!(rt; status, Status::Done);
    Ok(())
}

/// The ending of a device arrives while another one is at work on a request that it was handed before.
#[test]
fn two_devices_work_side_by_side(rt: HostRuntime) -> Result<(), Fail> {
    let alloc = rt.alloc();
    let word = Arc::new(alloc, AtomicU64::new(NOTHING))?;
    let gate = SecondFirst {
        word: Arc::try_clone(&word)?,
    };
    let gate = AnyGate(Box::new(alloc, gate)?);
    let mut spawner = TestSpawner::new(alloc, gate, &[])?;
    let mut watching = Watching {
        sink: MemSink::new(alloc, ROOM, &[])?,
        word: Arc::try_clone(&word)?,
    };
    let (status, record) = answer(&rt, alloc, "run", TWO_DEVICES, &mut watching, &mut spawner)?;
    let record = record.ok_or("a record")?;
    let trace = watching.sink.bytes();
    let first = place_of(trace, b" J 1 ").ok_or("an ending of device 1")?;
    let second = place_of(trace, b" J 2 ").ok_or("an ending of device 2")?;
    assert!(rt; second < first);
    assert_eq!(rt; word.load(Ordering::SeqCst), SECOND_HAS_ENDED);
    assert_eq!(rt; status, Status::Done);
    assert_eq!(rt; record.dropped(), 0);
    assert_eq!(rt; (spawner.starts(), spawner.joins()), (2, 2));
    Ok(())
}

/// An ending is taken in while a task that never waits is busy.
#[test]
fn an_ending_arrives_at_a_busy_task(rt: HostRuntime) -> Result<(), Fail> {
    let (status, output) = outcome(&rt, rt.alloc(), "run --budget 1000000", BUSY)?;
    assert_eq!(rt; status, Status::Done);
    assert_eq!(rt; count_of(&output, b" J 1 "), 2);
    Ok(())
}

/// Where the second driver can't be started, the first is joined, and nothing is written.
#[test]
fn a_refused_start_writes_nothing(rt: HostRuntime) -> Result<(), Fail> {
    let alloc = rt.alloc();
    let gate = AnyGate(Box::new(alloc, Open)?);
    let mut spawner = TestSpawner::new(alloc, gate, &[2])?;
    let mut sink = MemSink::new(alloc, ROOM, &[])?;
    let (status, record) = answer(&rt, alloc, "run", TWO_DEVICES, &mut sink, &mut spawner)?;
    assert_eq!(rt; status, Status::NoThread);
    assert_eq!(rt; status.number(), 6);
    assert_eq!(rt; sink.bytes(), b"".as_slice());
    assert!(rt; record.is_none());
    assert_eq!(rt;
        (spawner.starts(), spawner.refusals(), spawner.joins()),
        (1, 1, 1)
    );
    Ok(())
}

/// Each ending of eight busy devices arrives.
#[test]
fn no_ending_of_eight_devices_is_dropped(rt: HostRuntime) -> Result<(), Fail> {
    let alloc = rt.alloc();
    let mut spawner = StdSpawner::new();
    let mut sink = MemSink::new(alloc, ROOM, &[])?;
    let (status, record) = answer(&rt, alloc, "run", EIGHT_DEVICES, &mut sink, &mut spawner)?;
    let record = record.ok_or("a record")?;
    for piece in [
        b" J 1 ", b" J 2 ", b" J 3 ", b" J 4 ", b" J 5 ", b" J 6 ", b" J 7 ", b" J 8 ",
    ] {
        assert_eq!(rt; count_of(sink.bytes(), piece), 100, "of {piece:?}");
    }
    assert_eq!(rt; status, Status::Done);
    assert_eq!(rt; record.dropped(), 0);
    assert_eq!(rt; (spawner.starts(), spawner.refusals()), (8, 0));
    Ok(())
}

/// What a free run wrote is written again from its own J lines.
#[test]
fn a_free_run_is_replayed(rt: HostRuntime) -> Result<(), Fail> {
    let alloc = rt.alloc();
    'scripts: for script in [ONE_DEVICE, TWO_DEVICES, EIGHT_DEVICES] {
        let mut spawner = StdSpawner::new();
        let mut sink = MemSink::new(alloc, ROOM, &[])?;
        let (status, _) = answer(&rt, alloc, "run", script, &mut sink, &mut spawner)?;
        assert_eq!(rt; status, Status::Done);
        let session = session_of(alloc, script, sink.bytes())?;
        let mut again = MemSink::new(alloc, ROOM, &[])?;
        let (status, _) = answer(&rt, alloc, "replay", &session, &mut again, &mut spawner)?;
        assert_eq!(rt; status, Status::Done);
        assert_eq!(rt; again.bytes(), sink.bytes());
    }
    Ok(())
}

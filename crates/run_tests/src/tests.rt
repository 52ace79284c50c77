//! Whole runs in memory, with ample memory.

ghost use Rattle.std.specs.Prelude.{Some};

use dev_drivers::StdSpawner;
use std::alloc::Global;
use std::sync::Wait;
use std::test::Fail;
use std::thread::Threads;
use tk_ports::whole::read_within;
use tk_ports::{Failed, MemSink, MemSource, Sink, Source};
use tk_run::{Status, program};
use tk_types::{OutOfMemory, Why};

pub(crate) const HELLO: &[u8] =
    b"utk 1\nboot main 10\nbody main task\nsay hello\ntk_ext_tsk\nend\n";

pub(crate) const HELLO_TRACE: &[u8] =
    b"0 D 1\n1 S 1 hello\n2 C 1 tk_ext_tsk 0\n2 D 0\n2 END idle\n";

const PREEMPTION: &[u8] =
    b"utk 1\nboot main 10\nbody main task\ntk_cre_tsk - work 10 512\ntk_cre_tsk - work 10 512\ntk_cre_tsk - high 5 512\ntk_sta_tsk 2 0\ntk_sta_tsk 3 0\ntk_sta_tsk 4 0\nsay back\nend\nbody work task\nsay w\nend\nbody high task\nsay h\nend\n";

const PREEMPTION_TRACE: &[u8] =
    b"0 D 1\n1 C 1 tk_cre_tsk 2\n2 C 1 tk_cre_tsk 3\n3 C 1 tk_cre_tsk 4\n4 C 1 tk_sta_tsk 0\n5 C 1 tk_sta_tsk 0\n6 C 1 tk_sta_tsk 0\n6 D 4\n7 S 4 h\n8 C 4 tk_ext_tsk 0\n8 D 1\n9 S 1 back\n10 C 1 tk_ext_tsk 0\n10 D 2\n11 S 2 w\n12 C 2 tk_ext_tsk 0\n12 D 3\n13 S 3 w\n14 C 3 tk_ext_tsk 0\n14 D 0\n14 END idle\n";

const WAKE_UP: &[u8] =
    b"utk 1\nboot main 10\nbody main task\ntk_cre_tsk - work 5 512\ntk_sta_tsk 2 0\ntk_wup_tsk 2\nend\nbody work task\ntk_slp_tsk -1\nsay up\nend\n";

const WAKE_UP_TRACE: &[u8] =
    b"0 D 1\n1 C 1 tk_cre_tsk 2\n2 C 1 tk_sta_tsk 0\n2 D 2\n3 B 2 tk_slp_tsk\n3 D 1\n4 C 1 tk_wup_tsk 0\n4 W 2 tk_slp_tsk 0\n4 D 2\n5 S 2 up\n6 C 2 tk_ext_tsk 0\n6 D 1\n7 C 1 tk_ext_tsk 0\n7 D 0\n7 END idle\n";

const LOOSE: &[u8] =
    b"utk  1\n# note\n\nboot main 10\nbody main task\n  say   hello \n   # another\nend";

const PLAIN: &[u8] = b"utk 1\nboot main 10\nbody main task\nsay hello\nend\n";

const WITH_DEVICE: &[u8] =
    b"utk 1\ndevice d0 ram 16\npace 7\nirq 1 1\nboot main 10\nbody main task\nnop\nend\n";

const NO_DEVICE: &[u8] =
    b"utk 1\n# note\nboot main 10\nbody main task\nsay a\ntk_cls_dev  1\nhalt\nend\n";

const NO_DEVICE_TRACE: &[u8] = b"0 D 1\n1 S 1 a\n2 C 1 tk_cls_dev E_ID\n3 END halt\n";

const NO_DEVICE_FORM: &[u8] =
    b"utk 1\nboot main 10\nbody main task\nsay a\ntk_cls_dev 1\nhalt\nend\n";

const OPEN_BODY: &[u8] = b"utk 1\nboot main 10\nbody main task\ntk_ext_tsk\n";

const NO_LABEL: &[u8] =
    b"utk 1\nboot main 10\n\nbody main task\n# note\nsay a\nlabel top\njump on\nend\n";

const BAD_NUMBER: &[u8] = b"utk 1\nboot main 10\nbody main task\ntk_slp_tsk 01\nend\n";

/// The words of a line as the program gets them.
pub(crate) fn words_of(alloc: Global, line: &str) -> Result<Vec<String>, OutOfMemory> {
    let mut words = Vec::new(alloc);
    for word in line.split_whitespace() {
        words.push(String::from_str(alloc, word)?)?;
    }
    Ok(words)
}

/// What the program answers and writes, over streams that never fail.
pub(crate) fn outcome<R: Threads + Wait + Copy + Send + Sync + 'static>(
    rt: &R,
    alloc: Global,
    line: &str,
    input: &[u8],
) -> Result<(Status, Vec<u8>), OutOfMemory> {
    let words = words_of(alloc, line)?;
    let mut source = MemSource::new(alloc, input, &[])?;
    let mut sink = MemSink::new(alloc, 4096, &[])?;
    let mut spawner = StdSpawner::new();
    let (status, _) = program(rt, alloc, &words, &mut source, &mut sink, &mut spawner);
    let output = Vec::from_slice(alloc, sink.bytes())?;
    Ok((status, output))
}

/// Whole traces: each line of a run that ends by itself, and the status.
#[test]
fn scripts_run_to_their_ends(rt: HostRuntime) -> Result<(), Fail> {
    for (input, trace) in [
        (HELLO, HELLO_TRACE),
        (PREEMPTION, PREEMPTION_TRACE),
        (WAKE_UP, WAKE_UP_TRACE),
    ] {
        let (status, output) = outcome(&rt, rt.alloc(), "run", input)?;
        assert_eq!(rt; output.as_slice(), trace);
        assert_eq!(rt; status, Status::Done);
        assert_eq!(rt; status.number(), 0);
    }
    Ok(())
}

/// A budget of one step ends the run behind that step, and one that the run doesn't need changes nothing.
#[test]
fn runs_end_at_their_budgets(rt: HostRuntime) -> Result<(), Fail> {
    let (status, output) = outcome(&rt, rt.alloc(), "run --budget 1", HELLO)?;
    assert_eq!(rt;
        output.as_slice(),
        b"0 D 1\n1 S 1 hello\n1 END budget\n".as_slice()
    );
    assert_eq!(rt; status, Status::Budget);
    assert_eq!(rt; status.number(), 1);
    let (status, output) = outcome(&rt, rt.alloc(), "run --budget 1000000", HELLO)?;
    assert_eq!(rt; output.as_slice(), HELLO_TRACE);
    assert_eq!(rt; status, Status::Done);
    Ok(())
}

/// A script without devices runs the same in sync mode.
#[test]
fn runs_in_sync_are_the_same(rt: HostRuntime) -> Result<(), Fail> {
    let (status, output) = outcome(&rt, rt.alloc(), "run --sync", PREEMPTION)?;
    assert_eq!(rt; output.as_slice(), PREEMPTION_TRACE);
    assert_eq!(rt; status, Status::Done);
    let (status, output) = outcome(&rt, rt.alloc(), "run --sync --budget 1", HELLO)?;
    assert_eq!(rt;
        output.as_slice(),
        b"0 D 1\n1 S 1 hello\n1 END budget\n".as_slice()
    );
    assert_eq!(rt; status, Status::Budget);
    Ok(())
}

/// What is asked of a text that spells no script is refused, at its line and with the reason.
#[test]
fn other_inputs_are_refused(rt: HostRuntime) -> Result<(), Fail> {
    let long = vec![in rt.alloc(); b'\n'; 1_048_580]?;
    let cases: [(&[u8], u32, Why, &[u8]); 6] = [
        (b"", 1, Why::Head, b"refused 1 head\n"),
        (b"utk 3\n", 1, Why::Head, b"refused 1 head\n"),
        (long.as_slice(), 0, Why::Long, b"refused 0 long\n"),
        (OPEN_BODY, 5, Why::End, b"refused 5 end\n"),
        (NO_LABEL, 8, Why::Unknown, b"refused 8 unknown\n"),
        (BAD_NUMBER, 4, Why::Number, b"refused 4 number\n"),
    ];
    for (input, line, why, text) in cases {
        for words in ["run", "check"] {
            let (status, output) = outcome(&rt, rt.alloc(), words, input)?;
            assert_eq!(rt; output.as_slice(), text);
            assert_eq!(rt; status, Status::Refused { line, why });
            assert_eq!(rt; status.number(), 2);
        }
    }
    Ok(())
}

/// A device call in a script without devices is answered, as any call.
#[test]
fn devices_may_be_missing(rt: HostRuntime) -> Result<(), Fail> {
    let (status, output) = outcome(&rt, rt.alloc(), "run", NO_DEVICE)?;
    assert_eq!(rt; output.as_slice(), NO_DEVICE_TRACE);
    assert_eq!(rt; status, Status::Done);
    Ok(())
}

/// A script is printed with one space between words and without what doesn't count.
#[test]
fn scripts_are_printed(rt: HostRuntime) -> Result<(), Fail> {
    for (input, form) in [
        (LOOSE, PLAIN),
        (HELLO, HELLO),
        (WITH_DEVICE, WITH_DEVICE),
        (NO_DEVICE, NO_DEVICE_FORM),
    ] {
        let (status, output) = outcome(&rt, rt.alloc(), "check", input)?;
        assert_eq!(rt; output.as_slice(), form);
        assert_eq!(rt; status, Status::Done);
    }
    Ok(())
}

/// Words that are no command are answered so, and nothing is read.
#[test]
fn other_words_are_usage(rt: HostRuntime) -> Result<(), Fail> {
    for line in [
        "",
        "--sync",
        "check x",
        "check --sync",
        "run --fast",
        "run --sync --sync",
        "run --sync --budget",
        "run --budget 5 --sync",
        "run --budget",
        "run --budget 0",
        "run --budget 1000001",
        "run --budget 01",
        "run --budget 5 --budget",
        "replay --fast",
        "replay --budget 5 --sync",
        "replay --budget 0",
    ] {
        let words = words_of(rt.alloc(), line)?;
        let mut source = MemSource::new(rt.alloc(), HELLO, &[])?;
        let mut sink = MemSink::new(rt.alloc(), 64, &[])?;
        let (status, _) = program(
            &rt,
            rt.alloc(),
            &words,
            &mut source,
            &mut sink,
            &mut StdSpawner::new(),
        );
        assert_eq!(rt; status, Status::Usage);
        assert_eq!(rt; status.number(), 64);
        assert_eq!(rt; sink.bytes(), b"usage\n".as_slice());
        let left = read_within(rt.alloc(), &mut source, 100)?;
        assert_eq!(rt; left.as_slice(), HELLO);
    }
    Ok(())
}

/// A read that fails, the first or the one that would find the end, leaves the sink as it was.
#[test]
fn failed_read_writes_nothing(rt: HostRuntime) -> Result<(), Fail> {
    for (line, call) in [("run", 1), ("run", 2), ("check", 1), ("check", 2)] {
        let words = words_of(rt.alloc(), line)?;
        let mut source = MemSource::new(rt.alloc(), HELLO, &[call])?;
        let mut sink = MemSink::new(rt.alloc(), 64, &[])?;
        let (status, _) = program(
            &rt,
            rt.alloc(),
            &words,
            &mut source,
            &mut sink,
            &mut StdSpawner::new(),
        );
        assert_eq!(rt; status, Status::ReadFault);
        assert_eq!(rt; status.number(), 3);
        assert_eq!(rt; source.faults(), 1);
        assert_eq!(rt; sink.bytes(), b"".as_slice());
    }
    Ok(())
}

/// A sink that fails has a front of the trace, and nothing is written behind it.
#[test]
fn failed_write_leaves_a_front(rt: HostRuntime) -> Result<(), Fail> {
    let words = words_of(rt.alloc(), "run")?;
    for call in [1, 2, 3] {
        let mut source = MemSource::new(rt.alloc(), PREEMPTION, &[])?;
        let mut sink = MemSink::new(rt.alloc(), 4096, &[call])?;
        let (status, _) = program(
            &rt,
            rt.alloc(),
            &words,
            &mut source,
            &mut sink,
            &mut StdSpawner::new(),
        );
        assert_eq!(rt; status, Status::WriteFault);
        assert_eq!(rt; status.number(), 4);
        assert_eq!(rt; sink.faults(), 1);
        assert!(rt; sink.bytes().len() < PREEMPTION_TRACE.len());
        assert!(rt; PREEMPTION_TRACE.starts_with(sink.bytes()));
    }
    Ok(())
}

/// A sink that takes one byte a call.
#[derive(Drop)]
struct Narrow {
    sink: MemSink,
}

impl Sink for Narrow {
    ghost held = { λ narrow. Some narrow.sink.held };

    ghost faulted = { λ narrow. narrow.sink.faults };

    fn write(&mut self, piece: &[u8]) -> Result<usize, Failed> {
        let most = piece.len().min(1);
        self.sink.write(&piece[..most])
    }

    fn faults(&self) -> u64 {
        self.sink.faults()
    }
}

/// A trace comes whole, however little the sink takes at once.
#[test]
fn narrow_sink_takes_all(rt: HostRuntime) -> Result<(), Fail> {
    let words = words_of(rt.alloc(), "run")?;
    let mut source = MemSource::new(rt.alloc(), HELLO, &[])?;
    let mut narrow = Narrow {
        sink: MemSink::new(rt.alloc(), 4096, &[])?,
    };
    let (status, _) = program(
        &rt,
        rt.alloc(),
        &words,
        &mut source,
        &mut narrow,
        &mut StdSpawner::new(),
    );
    assert_eq!(rt; status, Status::Done);
    assert_eq!(rt; narrow.sink.bytes(), HELLO_TRACE);
    Ok(())
}

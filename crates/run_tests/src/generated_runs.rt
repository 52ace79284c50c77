//! Runs of scripts that are made, summed up. The numbers are those of an independent simulator of the kernel.

use crate::tests::outcome;
use std::test::Fail;
use tk_run::Status;

/// A number of a script, and the line that sums its run up.
const LINES: [(&str, &[u8]); 4] = [
    (
        "gen 0",
        b"gen 0 steps 4450 calls 2788 waits 1517 ticks 145 endings 512\n",
    ),
    (
        "gen 7",
        b"gen 7 steps 4447 calls 2918 waits 1387 ticks 142 endings 488\n",
    ),
    (
        "gen 42",
        b"gen 42 steps 4456 calls 2349 waits 1956 ticks 151 endings 501\n",
    ),
    (
        "gen 65535",
        b"gen 65535 steps 4443 calls 2681 waits 1624 ticks 138 endings 513\n",
    ),
];

/// Each line is written whatever the input is.
#[test]
fn generated_scripts_are_summed_up(rt: HostRuntime) -> Result<(), Fail> {
    for (words, line) in LINES {
        let (status, output) = outcome(&rt, rt.alloc(), words, b"no script")?;
        assert_eq!(rt; output.as_slice(), line);
        assert_eq!(rt; status, Status::Done);
    }
    Ok(())
}

/// A number is one from 0 to 65,535 in digits, and stands alone.
#[test]
fn words_of_gen_are_whole(rt: HostRuntime) -> Result<(), Fail> {
    for words in [
        "gen",
        "gen 65536",
        "gen 07",
        "gen -1",
        "gen 7 7",
        "gen seven",
    ] {
        let (status, output) = outcome(&rt, rt.alloc(), words, b"")?;
        assert_eq!(rt; output.as_slice(), b"usage\n".as_slice());
        assert_eq!(rt; status, Status::Usage);
    }
    Ok(())
}

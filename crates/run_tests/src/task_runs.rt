//! Runs that were worked out by hand: all calls on tasks, statements, ticks and time-outs.

use crate::tests::outcome;
use std::test::Fail;
use tk_run::Status;

/// A script, the words that run it, its trace and its status.
#[derive(Clone, Copy)]
pub(crate) struct Case {
    pub(crate) words: &'static str,
    pub(crate) script: &'static [u8],
    pub(crate) trace: &'static [u8],
    pub(crate) status: Status,
}

/// Wake-up requests are counted, taken by sleeps, and cleared.
const COUNTED: Case = Case {
    words: "run",
    script: b"utk 1\nboot main 10\nbody main task\ntk_cre_tsk - work 10 512\ntk_sta_tsk 2 0\ntk_wup_tsk 2\ntk_wup_tsk 2\ntk_ref_tsk 2\ntk_ext_tsk\nend\nbody work task\ntk_slp_tsk -1\ntk_can_wup 0\nend\n",
    trace: b"0 D 1\n1 C 1 tk_cre_tsk 2\n2 C 1 tk_sta_tsk 0\n3 C 1 tk_wup_tsk 0\n4 C 1 tk_wup_tsk 0\n5 C 1 tk_ref_tsk 0 2 10 10 2 0\n6 C 1 tk_ext_tsk 0\n6 D 2\n7 C 2 tk_slp_tsk 0\n8 C 2 tk_can_wup 1\n9 C 2 tk_ext_tsk 0\n9 D 0\n9 END idle\n",
    status: Status::Done,
};

/// A suspended sleeper is woken, stays suspended, and stands last when it is resumed.
const SUSPENDED: Case = Case {
    words: "run",
    script: b"utk 1\nboot main 10\nbody main task\ntk_cre_tsk - nap 10 512\ntk_sta_tsk 2 0\ntk_rot_rdq 10\ntk_sus_tsk 2\ntk_ref_tsk 2\ntk_wup_tsk 2\ntk_ref_tsk 2\ntk_cre_tsk - other 10 512\ntk_sta_tsk 3 0\ntk_rsm_tsk 2\ntk_ext_tsk\nend\nbody nap task\ntk_slp_tsk -1\nsay up\nend\nbody other task\nsay o\nend\n",
    trace: b"0 D 1\n1 C 1 tk_cre_tsk 2\n2 C 1 tk_sta_tsk 0\n3 C 1 tk_rot_rdq 0\n3 D 2\n4 B 2 tk_slp_tsk\n4 D 1\n5 C 1 tk_sus_tsk 0\n6 C 1 tk_ref_tsk 0 5 10 10 0 1\n7 C 1 tk_wup_tsk 0\n7 W 2 tk_slp_tsk 0\n8 C 1 tk_ref_tsk 0 4 10 10 0 1\n9 C 1 tk_cre_tsk 3\n10 C 1 tk_sta_tsk 0\n11 C 1 tk_rsm_tsk 0\n12 C 1 tk_ext_tsk 0\n12 D 3\n13 S 3 o\n14 C 3 tk_ext_tsk 0\n14 D 2\n15 S 2 up\n16 C 2 tk_ext_tsk 0\n16 D 0\n16 END idle\n",
    status: Status::Done,
};

/// Delays under a pace of three steps, and idle ticks.
const DELAYS: Case = Case {
    words: "run",
    script: b"utk 1\npace 3\nboot main 10\nbody main task\ntk_dly_tsk 0\ntk_dly_tsk 1\ntk_dly_tsk 2\nend\n",
    trace: b"0 D 1\n1 C 1 tk_dly_tsk 0\n2 B 1 tk_dly_tsk\n2 D 0\n3 K 1\n4 K 2\n4 W 1 tk_dly_tsk 0\n4 D 1\n5 B 1 tk_dly_tsk\n5 D 0\n6 K 3\n7 K 4\n8 K 5\n8 W 1 tk_dly_tsk 0\n8 D 1\n9 K 6\n10 C 1 tk_ext_tsk 0\n10 D 0\n10 END idle\n",
    status: Status::Done,
};

/// A loop without an end is cut off by its budget.
const ENDLESS: Case = Case {
    words: "run --budget 1000",
    script: b"utk 1\nboot main 10\nbody main task\nlabel a\njump a\nend\n",
    trace: b"0 D 1\n1000 END budget\n",
    status: Status::Budget,
};

/// Time-outs fall due in the tick that makes the time one more than their limit.
const TIME_OUTS: Case = Case {
    words: "run",
    script: b"utk 1\nboot main 10\nbody main task\ntk_cre_tsk - nap 5 512\ntk_cre_tsk - nap 5 512\ntk_sta_tsk 2 0\ntk_sta_tsk 3 0\ntk_slp_tsk 0\ntk_dly_tsk 1\nsay late\nend\nbody nap task\ntk_slp_tsk 2\nend\n",
    trace: b"0 D 1\n1 C 1 tk_cre_tsk 2\n2 C 1 tk_cre_tsk 3\n3 C 1 tk_sta_tsk 0\n3 D 2\n4 B 2 tk_slp_tsk\n4 D 1\n5 C 1 tk_sta_tsk 0\n5 D 3\n6 B 3 tk_slp_tsk\n6 D 1\n7 C 1 tk_slp_tsk E_TMOUT\n8 B 1 tk_dly_tsk\n8 D 0\n9 K 1\n10 K 2\n10 W 1 tk_dly_tsk 0\n10 D 1\n11 S 1 late\n12 C 1 tk_ext_tsk 0\n12 D 0\n13 K 3\n13 W 2 tk_slp_tsk E_TMOUT\n13 W 3 tk_slp_tsk E_TMOUT\n13 D 2\n14 C 2 tk_ext_tsk 0\n14 D 3\n15 C 3 tk_ext_tsk 0\n15 D 0\n15 END idle\n",
    status: Status::Done,
};

/// Priorities of ready and DORMANT tasks change; tasks are terminated and deleted.
const PRIORITIES: Case = Case {
    words: "run",
    script: b"utk 1\nboot main 10\nbody main task\ntk_cre_tsk - other 10 512\ntk_sta_tsk 2 5\ntk_chg_pri 2 9\nsay back\ntk_ref_tsk 2\ntk_ter_tsk 2\ntk_ref_tsk 2\ntk_chg_pri 2 7\ntk_ref_tsk 2\ntk_del_tsk 2\ntk_ref_tsk 2\ntk_chg_pri 0 0\ntk_get_tid\ntk_exd_tsk\nend\nbody other task\nshow r1\ntk_chg_pri 0 11\nsay low\ntk_exd_tsk\nend\n",
    trace: b"0 D 1\n1 C 1 tk_cre_tsk 2\n2 C 1 tk_sta_tsk 0\n3 C 1 tk_chg_pri 0\n3 D 2\n4 S 2 5\n5 C 2 tk_chg_pri 0\n5 D 1\n6 S 1 back\n7 C 1 tk_ref_tsk 0 2 11 11 0 0\n8 C 1 tk_ter_tsk 0\n9 C 1 tk_ref_tsk 0 6 10 10 0 0\n10 C 1 tk_chg_pri 0\n11 C 1 tk_ref_tsk 0 6 7 7 0 0\n12 C 1 tk_del_tsk 0\n13 C 1 tk_ref_tsk E_NOEXS\n14 C 1 tk_chg_pri 0\n15 C 1 tk_get_tid 1\n16 C 1 tk_exd_tsk 0\n16 D 0\n16 END idle\n",
    status: Status::Done,
};

/// Registers and memory count modulo their sizes, and halt ends the run.
const COMPUTING: Case = Case {
    words: "run",
    script: b"utk 1\nboot main 10\nbody main task\nset r0 2147483647\nadd r0 1\nshow r0\nsub r0 1\nshow r0\nset r2 -1\nmul r2 -1\nshow r2\nset r3 5\nxor r3 6\nor r3 8\nand r3 9\nshow r3\nstb 65537 513\nldb r4 1\nshow r4\nlabel loop\nsub r3 1\njlt r3 7 out\njump loop\nlabel out\njne r3 6 wrong\njeq r3 r3 right\nlabel wrong\nsay wrong\nlabel right\nhalt\nend\n",
    trace: b"0 D 1\n3 S 1 -2147483648\n5 S 1 2147483647\n8 S 1 1\n13 S 1 9\n16 S 1 1\n27 END halt\n",
    status: Status::Done,
};

/// Rotation gives others their turn; a released delay answers the release.
const RELEASED: Case = Case {
    words: "run",
    script: b"utk 1\nboot main 10\nbody main task\ntk_cre_tsk - work 10 512\ntk_cre_tsk - work 10 512\ntk_sta_tsk 2 0\ntk_sta_tsk 3 0\ntk_rot_rdq 0\nsay main\ntk_rel_wai 2\ntk_rel_wai 2\ntk_ter_tsk 3\ntk_sus_tsk 2\ntk_frsm_tsk 2\ntk_rsm_tsk 2\nend\nbody work task\ntk_dly_tsk 5\nshow r0\nend\n",
    trace: b"0 D 1\n1 C 1 tk_cre_tsk 2\n2 C 1 tk_cre_tsk 3\n3 C 1 tk_sta_tsk 0\n4 C 1 tk_sta_tsk 0\n5 C 1 tk_rot_rdq 0\n5 D 2\n6 B 2 tk_dly_tsk\n6 D 3\n7 B 3 tk_dly_tsk\n7 D 1\n8 S 1 main\n9 C 1 tk_rel_wai 0\n9 W 2 tk_dly_tsk E_RLWAI\n10 C 1 tk_rel_wai E_OBJ\n11 C 1 tk_ter_tsk 0\n12 C 1 tk_sus_tsk 0\n13 C 1 tk_frsm_tsk 0\n14 C 1 tk_rsm_tsk E_OBJ\n15 C 1 tk_ext_tsk 0\n15 D 2\n16 S 2 -49\n17 C 2 tk_ext_tsk 0\n17 D 0\n17 END idle\n",
    status: Status::Done,
};

/// Calls are refused by the first check that fails.
const REFUSED: Case = Case {
    words: "run",
    script: b"utk 1\nboot main 10\nbody main task\ntk_cre_tsk - work 0 512\ntk_cre_tsk - work 141 512\ntk_cre_tsk - work 10 0\ntk_cre_tsk - work 10 1048577\ntk_cre_tsk - work 10 1047553\ntk_sta_tsk 0 0\ntk_sta_tsk 256 0\ntk_sta_tsk 2 -1\ntk_sta_tsk 2 0\ntk_sta_tsk 1 0\ntk_wup_tsk -5\ntk_wup_tsk 2\ntk_wup_tsk 1\ntk_cre_tsk - work 20 1047552\ntk_wup_tsk 2\ntk_sta_tsk 2 7\ntk_wup_tsk 2\ntk_cre_tsk - work 20 1\nend\nbody work task\ntk_slp_tsk -1\nend\n",
    trace: b"0 D 1\n1 C 1 tk_cre_tsk E_PAR\n2 C 1 tk_cre_tsk E_PAR\n3 C 1 tk_cre_tsk E_PAR\n4 C 1 tk_cre_tsk E_PAR\n5 C 1 tk_cre_tsk E_NOMEM\n6 C 1 tk_sta_tsk E_ID\n7 C 1 tk_sta_tsk E_ID\n8 C 1 tk_sta_tsk E_PAR\n9 C 1 tk_sta_tsk E_NOEXS\n10 C 1 tk_sta_tsk E_OBJ\n11 C 1 tk_wup_tsk E_ID\n12 C 1 tk_wup_tsk E_NOEXS\n13 C 1 tk_wup_tsk E_OBJ\n14 C 1 tk_cre_tsk 2\n15 C 1 tk_wup_tsk E_OBJ\n16 C 1 tk_sta_tsk 0\n17 C 1 tk_wup_tsk 0\n18 C 1 tk_cre_tsk E_NOMEM\n19 C 1 tk_ext_tsk 0\n19 D 2\n20 C 2 tk_slp_tsk 0\n21 C 2 tk_ext_tsk 0\n21 D 0\n21 END idle\n",
    status: Status::Done,
};

#[test]
fn worked_runs_have_their_traces(rt: HostRuntime) -> Result<(), Fail> {
    let cases = [
        COUNTED, SUSPENDED, DELAYS, ENDLESS, TIME_OUTS, PRIORITIES, COMPUTING, RELEASED, REFUSED,
    ];
    for case in cases {
        let (status, output) = outcome(&rt, rt.alloc(), case.words, case.script)?;
        assert_eq!(rt; output.as_slice(), case.trace);
        assert_eq!(rt; status, case.status);
    }
    Ok(())
}

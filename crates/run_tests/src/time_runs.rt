//! Runs that were worked out by hand: cyclic and alarm handlers, in order within a tick and from tick to tick.

use crate::task_runs::Case;
use crate::tests::outcome;
use std::test::Fail;
use tk_run::Status;

/// A handler that keeps its phase is started for the next time of its phase that is later than now, also where now is
/// such a time; a start of one that is started changes nothing. One without a phase to keep is set anew by each start.
const PHASES: Case = Case {
    words: "run",
    script: b"utk 1\nboot main 10\nbody main task\ntk_cre_cyc TA_STA|TA_PHS c 4 1\ntk_cre_cyc TA_STA c 4 1\ntk_cre_cyc TA_PHS c 3 0\ntk_ref_cyc 1\ntk_ref_cyc 3\ntk_sta_cyc 3\ntk_ref_cyc 3\ntk_sta_cyc 1\ntk_ref_cyc 1\ntk_sta_cyc 2\ntk_ref_cyc 2\ntk_dly_tsk 1\ntk_sta_cyc 3\ntk_ref_cyc 3\ntk_sta_cyc 1\ntk_ref_cyc 1\ntk_ref_cyc 2\ntk_stp_cyc 3\ntk_stp_cyc 2\ntk_stp_cyc 1\ntk_ref_cyc 1\nend\nbody c hand\ntk_stp_cyc r1\nend\n",
    trace: b"0 D 1\n1 C 1 tk_cre_cyc 1\n2 C 1 tk_cre_cyc 2\n3 C 1 tk_cre_cyc 3\n4 C 1 tk_ref_cyc 0 2 1\n5 C 1 tk_ref_cyc 0 0 0\n6 C 1 tk_sta_cyc 0\n7 C 1 tk_ref_cyc 0 1 1\n8 C 1 tk_sta_cyc 0\n9 C 1 tk_ref_cyc 0 2 1\n10 C 1 tk_sta_cyc 0\n11 C 1 tk_ref_cyc 0 5 1\n12 B 1 tk_dly_tsk\n12 D 0\n13 K 1\n14 I cyc 3\n15 C 0 tk_stp_cyc 0\n17 K 2\n17 W 1 tk_dly_tsk 0\n18 I cyc 1\n19 C 0 tk_stp_cyc 0\n20 D 1\n21 C 1 tk_sta_cyc 0\n22 C 1 tk_ref_cyc 0 2 1\n23 C 1 tk_sta_cyc 0\n24 C 1 tk_ref_cyc 0 4 1\n25 C 1 tk_ref_cyc 0 3 1\n26 C 1 tk_stp_cyc 0\n27 C 1 tk_stp_cyc 0\n28 C 1 tk_stp_cyc 0\n29 C 1 tk_ref_cyc 0 0 0\n30 C 1 tk_ext_tsk 0\n30 D 0\n30 END idle\n",
    status: Status::Done,
};

/// What is due in one tick comes in the order of its making: an alarm before a cyclic handler that was started again
/// behind it, and last one that was set for this tick by its own earlier fall. After a wait's end all settles, so a later
/// limit finds its task served.
const ORDER_IN_ONE_TICK: Case = Case {
    words: "run",
    script: b"utk 1\nboot main 10\nbody main task\ntk_cre_cyc TA_STA h 2 1\ntk_cre_cyc TA_STA h 3 3\ntk_cre_alm - h\ntk_sta_alm 1 3\ntk_sta_cyc 2\ntk_cre_sem - 1 9\ntk_cre_tsk - a 5 512\ntk_cre_tsk - b 5 512\ntk_sta_tsk 2 0\ntk_sta_tsk 3 0\ntk_dly_tsk 3\ntk_stp_cyc 1\ntk_stp_cyc 2\nend\nbody a task\ntk_wai_sem 1 2 3\nend\nbody b task\ntk_wai_sem 1 1 3\nend\nbody h hand\nshow r1\nend\n",
    trace: b"0 D 1\n1 C 1 tk_cre_cyc 1\n2 C 1 tk_cre_cyc 2\n3 C 1 tk_cre_alm 1\n4 C 1 tk_sta_alm 0\n5 C 1 tk_sta_cyc 0\n6 C 1 tk_cre_sem 1\n7 C 1 tk_cre_tsk 2\n8 C 1 tk_cre_tsk 3\n9 C 1 tk_sta_tsk 0\n9 D 2\n10 B 2 tk_wai_sem\n10 D 1\n11 C 1 tk_sta_tsk 0\n11 D 3\n12 B 3 tk_wai_sem\n12 D 1\n13 B 1 tk_dly_tsk\n13 D 0\n14 K 1\n15 K 2\n16 I cyc 1\n17 S 0 1\n19 K 3\n20 K 4\n20 W 2 tk_wai_sem E_TMOUT\n20 W 3 tk_wai_sem 0\n20 W 1 tk_dly_tsk 0\n21 I alm 1\n22 S 0 1\n24 I cyc 2\n25 S 0 2\n27 I cyc 1\n28 S 0 1\n29 D 2\n30 C 2 tk_ext_tsk 0\n30 D 3\n31 C 3 tk_ext_tsk 0\n31 D 1\n32 C 1 tk_stp_cyc 0\n33 C 1 tk_stp_cyc 0\n34 C 1 tk_ext_tsk 0\n34 D 0\n34 END idle\n",
    status: Status::Done,
};

/// A handler that is due starts though it is stopped, and doesn't where it is deleted; its next time goes in both cases.
/// An alarm that sets itself again starts in the next tick, and a handler that deletes itself runs on to its end.
const STOPPED_WHILE_DUE: Case = Case {
    words: "run",
    script: b"utk 1\nboot main 10\nbody main task\ntk_cre_alm - boss\ntk_sta_alm 1 0\ntk_cre_cyc TA_STA h 5 0\ntk_cre_cyc TA_STA h 5 0\ntk_cre_alm - own\ntk_cre_alm - h\ntk_sta_alm 2 0\ntk_sta_alm 3 0\ntk_dly_tsk 1\ntk_del_alm 1\nend\nbody boss hand\ntk_ref_cyc 1\ntk_stp_cyc 1\ntk_ref_cyc 1\ntk_del_cyc 2\ntk_stp_alm 2\ntk_del_alm 3\ntk_sta_alm 1 0\nend\nbody own hand\ntk_del_alm r1\nsay on\nend\nbody h hand\nshow r1\nend\n",
    trace: b"0 D 1\n1 C 1 tk_cre_alm 1\n2 C 1 tk_sta_alm 0\n3 C 1 tk_cre_cyc 1\n4 C 1 tk_cre_cyc 2\n5 C 1 tk_cre_alm 2\n6 C 1 tk_cre_alm 3\n7 C 1 tk_sta_alm 0\n8 C 1 tk_sta_alm 0\n9 B 1 tk_dly_tsk\n9 D 0\n10 K 1\n11 I alm 1\n12 C 0 tk_ref_cyc 0 5 1\n13 C 0 tk_stp_cyc 0\n14 C 0 tk_ref_cyc 0 0 0\n15 C 0 tk_del_cyc 0\n16 C 0 tk_stp_alm 0\n17 C 0 tk_del_alm 0\n18 C 0 tk_sta_alm 0\n20 I cyc 1\n21 S 0 1\n23 I alm 2\n24 C 0 tk_del_alm 0\n25 S 0 on\n27 K 2\n27 W 1 tk_dly_tsk 0\n28 I alm 1\n29 C 0 tk_ref_cyc 0 0 0\n30 C 0 tk_stp_cyc 0\n31 C 0 tk_ref_cyc 0 0 0\n32 C 0 tk_del_cyc E_NOEXS\n33 C 0 tk_stp_alm E_NOEXS\n34 C 0 tk_del_alm E_NOEXS\n35 C 0 tk_sta_alm 0\n36 D 1\n37 C 1 tk_del_alm 0\n38 C 1 tk_ext_tsk 0\n38 D 0\n38 END idle\n",
    status: Status::Done,
};

/// Setting an alarm again takes the place of the time before; a far time is shown as a negative number. An alarm is no
/// longer set while its handler runs, which may set it; with time 0 it is due in the next tick, and its handler starts
/// with registers anew.
const ALARMS_SET_AGAIN: Case = Case {
    words: "run",
    script: b"utk 1\nboot main 10\nbody main task\ntk_cre_alm - h\ntk_ref_alm 1\ntk_sta_alm 1 2147483647\ntk_ref_alm 1\ntk_sta_alm 1 5\ntk_ref_alm 1\ntk_sta_alm 1 0\ntk_ref_alm 1\ntk_dly_tsk 1\ntk_stp_alm 1\ntk_ref_alm 1\ntk_stp_alm 1\nend\nbody h hand\nshow r5\nset r5 r1\ntk_ref_alm r5\ntk_sta_alm r5 0\ntk_ref_alm r5\nend\n",
    trace: b"0 D 1\n1 C 1 tk_cre_alm 1\n2 C 1 tk_ref_alm 0 0 0\n3 C 1 tk_sta_alm 0\n4 C 1 tk_ref_alm 0 -2147483648 1\n5 C 1 tk_sta_alm 0\n6 C 1 tk_ref_alm 0 6 1\n7 C 1 tk_sta_alm 0\n8 C 1 tk_ref_alm 0 1 1\n9 B 1 tk_dly_tsk\n9 D 0\n10 K 1\n11 I alm 1\n12 S 0 0\n14 C 0 tk_ref_alm 0 0 0\n15 C 0 tk_sta_alm 0\n16 C 0 tk_ref_alm 0 1 1\n18 K 2\n18 W 1 tk_dly_tsk 0\n19 I alm 1\n20 S 0 0\n22 C 0 tk_ref_alm 0 0 0\n23 C 0 tk_sta_alm 0\n24 C 0 tk_ref_alm 0 1 1\n25 D 1\n26 C 1 tk_stp_alm 0\n27 C 1 tk_ref_alm 0 0 0\n28 C 1 tk_stp_alm 0\n29 C 1 tk_ext_tsk 0\n29 D 0\n29 END idle\n",
    status: Status::Done,
};

/// A handler of period 1 whose body is longer than the pace is due in each tick, so no task gets its turn; the ticks are
/// counted, and each of them makes it due once.
const PERIOD_OF_ONE: Case = Case {
    words: "run --budget 20",
    script: b"utk 1\npace 3\nboot main 10\nbody main task\ntk_cre_cyc TA_STA c 1 0\nsay a\nsay never\nend\nbody c hand\nsay x\nsay y\nend\n",
    trace: b"0 D 1\n1 C 1 tk_cre_cyc 1\n2 S 1 a\n3 K 1\n4 I cyc 1\n5 S 0 x\n6 S 0 y\n8 K 2\n9 I cyc 1\n10 S 0 x\n11 S 0 y\n13 K 3\n14 I cyc 1\n15 S 0 x\n16 S 0 y\n18 K 4\n19 I cyc 1\n20 S 0 x\n20 END budget\n",
    status: Status::Budget,
};

/// Cyclic and alarm handlers are due at their times, and start in their order.
#[test]
fn handlers_of_time_run(rt: HostRuntime) -> Result<(), Fail> {
    for case in [
        PHASES,
        ORDER_IN_ONE_TICK,
        STOPPED_WHILE_DUE,
        ALARMS_SET_AGAIN,
        PERIOD_OF_ONE,
    ] {
        let (status, output) = outcome(&rt, rt.alloc(), case.words, case.script)?;
        assert_eq!(rt; output.as_slice(), case.trace);
        assert_eq!(rt; status, case.status);
    }
    Ok(())
}

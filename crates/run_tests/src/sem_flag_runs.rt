//! Runs that were worked out by hand: all calls on semaphores and event flags, and the waits that end otherwise.

use crate::task_runs::Case;
use crate::tests::outcome;
use std::test::Fail;
use tk_run::Status;

/// The head of a semaphore's queue gives up, and the next waiter is served in the same tick.
const NEXT_AFTER_TIME_OUT: Case = Case {
    words: "run",
    script: b"utk 1\nboot main 10\nbody main task\ntk_cre_sem - 2 9\ntk_cre_tsk - one 5 512\ntk_cre_tsk - two 5 512\ntk_sta_tsk 2 0\ntk_sta_tsk 3 0\ntk_ext_tsk\nend\nbody one task\ntk_wai_sem 1 3 2\nend\nbody two task\ntk_wai_sem 1 1 -1\nend\n",
    trace: b"0 D 1\n1 C 1 tk_cre_sem 1\n2 C 1 tk_cre_tsk 2\n3 C 1 tk_cre_tsk 3\n4 C 1 tk_sta_tsk 0\n4 D 2\n5 B 2 tk_wai_sem\n5 D 1\n6 C 1 tk_sta_tsk 0\n6 D 3\n7 B 3 tk_wai_sem\n7 D 1\n8 C 1 tk_ext_tsk 0\n8 D 0\n9 K 1\n10 K 2\n11 K 3\n11 W 2 tk_wai_sem E_TMOUT\n11 W 3 tk_wai_sem 0\n11 D 2\n12 C 2 tk_ext_tsk 0\n12 D 3\n13 C 3 tk_ext_tsk 0\n13 D 0\n13 END idle\n",
    status: Status::Done,
};

/// A flag is cleared for its first waiter, so the second one, whose bits were there before, goes on waiting.
const CLEARED_BETWEEN: Case = Case {
    words: "run",
    script: b"utk 1\nboot main 10\nbody main task\ntk_cre_flg TA_WMUL 0\ntk_cre_tsk - a 5 512\ntk_cre_tsk - b 5 512\ntk_sta_tsk 2 0\ntk_sta_tsk 3 0\ntk_set_flg 1 3\ntk_ref_flg 1\ntk_rel_wai 3\nend\nbody a task\ntk_wai_flg 1 1 TWF_ORW|TWF_CLR -1\nend\nbody b task\ntk_wai_flg 1 3 TWF_ORW -1\nend\n",
    trace: b"0 D 1\n1 C 1 tk_cre_flg 1\n2 C 1 tk_cre_tsk 2\n3 C 1 tk_cre_tsk 3\n4 C 1 tk_sta_tsk 0\n4 D 2\n5 B 2 tk_wai_flg\n5 D 1\n6 C 1 tk_sta_tsk 0\n6 D 3\n7 B 3 tk_wai_flg\n7 D 1\n8 C 1 tk_set_flg 0\n8 W 2 tk_wai_flg 0 3\n8 D 2\n9 C 2 tk_ext_tsk 0\n9 D 1\n10 C 1 tk_ref_flg 0 0 3\n11 C 1 tk_rel_wai 0\n11 W 3 tk_wai_flg E_RLWAI\n11 D 3\n12 C 3 tk_ext_tsk 0\n12 D 1\n13 C 1 tk_ext_tsk 0\n13 D 0\n13 END idle\n",
    status: Status::Done,
};

/// The head of a queue asks for more than there is, and a later waiter for less: with TA_FIRST both wait, with TA_CNT the
/// later one is served.
const HEAD_AND_LATER: Case = Case {
    words: "run",
    script: b"utk 1\nboot main 10\nbody main task\ntk_cre_sem TA_FIRST 1 9\ntk_cre_sem TA_CNT 0 9\ntk_cre_tsk - taker 5 512\ntk_cre_tsk - taker 5 512\ntk_sta_tsk 2 3\ntk_sta_tsk 3 1\ntk_wai_sem 1 1 0\ntk_ref_sem 1\ntk_sig_sem 1 1\ntk_sig_sem 1 2\ntk_ref_sem 1\ntk_sig_sem 2 2\ntk_ref_sem 2\ntk_wai_sem 2 1 0\ntk_wai_sem 2 1 0\ntk_sig_sem 2 3\ntk_ref_sem 2\nend\nbody taker task\ntk_wai_sem 1 r1 -1\ntk_wai_sem 2 r1 -1\nend\n",
    trace: b"0 D 1\n1 C 1 tk_cre_sem 1\n2 C 1 tk_cre_sem 2\n3 C 1 tk_cre_tsk 2\n4 C 1 tk_cre_tsk 3\n5 C 1 tk_sta_tsk 0\n5 D 2\n6 B 2 tk_wai_sem\n6 D 1\n7 C 1 tk_sta_tsk 0\n7 D 3\n8 B 3 tk_wai_sem\n8 D 1\n9 C 1 tk_wai_sem E_TMOUT\n10 C 1 tk_ref_sem 0 1 2\n11 C 1 tk_sig_sem 0\n12 C 1 tk_sig_sem 0\n12 W 2 tk_wai_sem 0\n12 W 3 tk_wai_sem 0\n12 D 2\n13 B 2 tk_wai_sem\n13 D 3\n14 B 3 tk_wai_sem\n14 D 1\n15 C 1 tk_ref_sem 0 0 0\n16 C 1 tk_sig_sem 0\n16 W 3 tk_wai_sem 0\n16 D 3\n17 C 3 tk_ext_tsk 0\n17 D 1\n18 C 1 tk_ref_sem 0 1 2\n19 C 1 tk_wai_sem 0\n20 C 1 tk_wai_sem E_TMOUT\n21 C 1 tk_sig_sem 0\n21 W 2 tk_wai_sem 0\n21 D 2\n22 C 2 tk_ext_tsk 0\n22 D 1\n23 C 1 tk_ref_sem 0 0 0\n24 C 1 tk_ext_tsk 0\n24 D 0\n24 END idle\n",
    status: Status::Done,
};

/// The head of a queue by priority is released, then the next one is terminated, and then the one behind it gets a lower
/// priority: only then there is enough for the head. A wake-up doesn't end a wait for a semaphore.
const HEAD_LEAVES: Case = Case {
    words: "run",
    script: b"utk 1\nboot main 20\nbody main task\ntk_cre_sem TA_TPRI|TA_FIRST 2 9\ntk_cre_tsk - taker 8 512\ntk_cre_tsk - taker 6 512\ntk_cre_tsk - taker 7 512\ntk_cre_tsk - taker 9 512\ntk_sta_tsk 2 3\ntk_sta_tsk 3 5\ntk_sta_tsk 4 4\ntk_sta_tsk 5 1\ntk_wup_tsk 2\ntk_ref_tsk 2\ntk_ref_sem 1\ntk_rel_wai 3\ntk_ref_sem 1\ntk_ter_tsk 4\ntk_ref_sem 1\ntk_chg_pri 2 10\ntk_ref_sem 1\ntk_sig_sem 1 2\nend\nbody taker task\ntk_wai_sem 1 r1 -1\nshow r0\nend\n",
    trace: b"0 D 1\n1 C 1 tk_cre_sem 1\n2 C 1 tk_cre_tsk 2\n3 C 1 tk_cre_tsk 3\n4 C 1 tk_cre_tsk 4\n5 C 1 tk_cre_tsk 5\n6 C 1 tk_sta_tsk 0\n6 D 2\n7 B 2 tk_wai_sem\n7 D 1\n8 C 1 tk_sta_tsk 0\n8 D 3\n9 B 3 tk_wai_sem\n9 D 1\n10 C 1 tk_sta_tsk 0\n10 D 4\n11 B 4 tk_wai_sem\n11 D 1\n12 C 1 tk_sta_tsk 0\n12 D 5\n13 B 5 tk_wai_sem\n13 D 1\n14 C 1 tk_wup_tsk 0\n15 C 1 tk_ref_tsk 0 3 8 8 1 0\n16 C 1 tk_ref_sem 0 2 3\n17 C 1 tk_rel_wai 0\n17 W 3 tk_wai_sem E_RLWAI\n17 D 3\n18 S 3 -49\n19 C 3 tk_ext_tsk 0\n19 D 1\n20 C 1 tk_ref_sem 0 2 4\n21 C 1 tk_ter_tsk 0\n22 C 1 tk_ref_sem 0 2 2\n23 C 1 tk_chg_pri 0\n23 W 5 tk_wai_sem 0\n23 D 5\n24 S 5 0\n25 C 5 tk_ext_tsk 0\n25 D 1\n26 C 1 tk_ref_sem 0 1 2\n27 C 1 tk_sig_sem 0\n27 W 2 tk_wai_sem 0\n27 D 2\n28 S 2 0\n29 C 2 tk_ext_tsk 0\n29 D 1\n30 C 1 tk_ext_tsk 0\n30 D 0\n30 END idle\n",
    status: Status::Done,
};

/// A released head lets the next waiter be served; a change to the same priority moves the head behind its equal; a
/// terminated head is passed by the one behind it, which is served where there is enough for it; a waiter that gets a
/// higher priority passes the head.
const HEAD_MOVES: Case = Case {
    words: "run",
    script: b"utk 1\nboot main 20\nbody main task\ntk_cre_sem TA_TPRI|TA_FIRST 2 9\ntk_cre_tsk - taker 6 512\ntk_cre_tsk - taker 7 512\ntk_cre_tsk - taker 8 512\ntk_cre_tsk - taker 9 512\ntk_cre_tsk - taker 9 512\ntk_sta_tsk 2 5\ntk_sta_tsk 3 1\ntk_sta_tsk 4 6\ntk_sta_tsk 5 2\ntk_sta_tsk 6 1\ntk_ref_sem 1\ntk_rel_wai 2\ntk_ter_tsk 4\ntk_ref_sem 1\ntk_chg_pri 5 9\ntk_sta_tsk 4 1\ntk_chg_pri 5 7\ntk_ref_sem 1\ntk_sig_sem 1 1\ntk_ter_tsk 5\ntk_sta_tsk 5 3\ntk_sta_tsk 6 1\ntk_sig_sem 1 1\ntk_ref_sem 1\ntk_chg_pri 6 8\ntk_ref_sem 1\ntk_rel_wai 5\ntk_ref_sem 1\nend\nbody taker task\ntk_wai_sem 1 r1 -1\nend\n",
    trace: b"0 D 1\n1 C 1 tk_cre_sem 1\n2 C 1 tk_cre_tsk 2\n3 C 1 tk_cre_tsk 3\n4 C 1 tk_cre_tsk 4\n5 C 1 tk_cre_tsk 5\n6 C 1 tk_cre_tsk 6\n7 C 1 tk_sta_tsk 0\n7 D 2\n8 B 2 tk_wai_sem\n8 D 1\n9 C 1 tk_sta_tsk 0\n9 D 3\n10 B 3 tk_wai_sem\n10 D 1\n11 C 1 tk_sta_tsk 0\n11 D 4\n12 B 4 tk_wai_sem\n12 D 1\n13 C 1 tk_sta_tsk 0\n13 D 5\n14 B 5 tk_wai_sem\n14 D 1\n15 C 1 tk_sta_tsk 0\n15 D 6\n16 B 6 tk_wai_sem\n16 D 1\n17 C 1 tk_ref_sem 0 2 2\n18 C 1 tk_rel_wai 0\n18 W 2 tk_wai_sem E_RLWAI\n18 W 3 tk_wai_sem 0\n18 D 2\n19 C 2 tk_ext_tsk 0\n19 D 3\n20 C 3 tk_ext_tsk 0\n20 D 1\n21 C 1 tk_ter_tsk 0\n22 C 1 tk_ref_sem 0 1 5\n23 C 1 tk_chg_pri 0\n23 W 6 tk_wai_sem 0\n23 D 6\n24 C 6 tk_ext_tsk 0\n24 D 1\n25 C 1 tk_sta_tsk 0\n25 D 4\n26 B 4 tk_wai_sem\n26 D 1\n27 C 1 tk_chg_pri 0\n28 C 1 tk_ref_sem 0 0 5\n29 C 1 tk_sig_sem 0\n30 C 1 tk_ter_tsk 0\n30 W 4 tk_wai_sem 0\n30 D 4\n31 C 4 tk_ext_tsk 0\n31 D 1\n32 C 1 tk_sta_tsk 0\n32 D 5\n33 B 5 tk_wai_sem\n33 D 1\n34 C 1 tk_sta_tsk 0\n34 D 6\n35 B 6 tk_wai_sem\n35 D 1\n36 C 1 tk_sig_sem 0\n37 C 1 tk_ref_sem 0 1 5\n38 C 1 tk_chg_pri 0\n38 W 6 tk_wai_sem 0\n38 D 6\n39 C 6 tk_ext_tsk 0\n39 D 1\n40 C 1 tk_ref_sem 0 0 5\n41 C 1 tk_rel_wai 0\n41 W 5 tk_wai_sem E_RLWAI\n41 D 5\n42 C 5 tk_ext_tsk 0\n42 D 1\n43 C 1 tk_ref_sem 0 0 0\n44 C 1 tk_ext_tsk 0\n44 D 0\n44 END idle\n",
    status: Status::Done,
};

/// A caller that would stand first in a queue by priority is served at once and keeps its place among its equals; one that
/// would stand behind the head, or behind an equal, isn't served though there is enough for it.
const JOINS_FIRST: Case = Case {
    words: "run",
    script: b"utk 1\nboot main 20\nbody main task\ntk_cre_sem TA_TPRI 2 9\ntk_cre_tsk - taker 8 512\ntk_cre_tsk - other 20 512\ntk_sta_tsk 3 0\ntk_wai_sem 1 1 -1\ntk_sta_tsk 2 5\ntk_wai_sem 1 1 0\nsay here\ntk_chg_pri 0 8\ntk_wai_sem 1 1 0\ntk_chg_pri 0 7\ntk_wai_sem 1 1 0\ntk_ref_sem 1\ntk_sig_sem 1 6\ntk_ref_sem 1\ntk_chg_pri 0 8\nend\nbody taker task\ntk_wai_sem 1 r1 -1\nend\nbody other task\nsay o\nend\n",
    trace: b"0 D 1\n1 C 1 tk_cre_sem 1\n2 C 1 tk_cre_tsk 2\n3 C 1 tk_cre_tsk 3\n4 C 1 tk_sta_tsk 0\n5 C 1 tk_wai_sem 0\n6 C 1 tk_sta_tsk 0\n6 D 2\n7 B 2 tk_wai_sem\n7 D 1\n8 C 1 tk_wai_sem E_TMOUT\n9 S 1 here\n10 C 1 tk_chg_pri 0\n11 C 1 tk_wai_sem E_TMOUT\n12 C 1 tk_chg_pri 0\n13 C 1 tk_wai_sem 0\n14 C 1 tk_ref_sem 0 0 2\n15 C 1 tk_sig_sem 0\n15 W 2 tk_wai_sem 0\n16 C 1 tk_ref_sem 0 1 0\n17 C 1 tk_chg_pri 0\n17 D 2\n18 C 2 tk_ext_tsk 0\n18 D 1\n19 C 1 tk_ext_tsk 0\n19 D 3\n20 S 3 o\n21 C 3 tk_ext_tsk 0\n21 D 0\n21 END idle\n",
    status: Status::Done,
};

/// Of two waits with one limit the first is over, and that serves the second, whose limit counts no more; waits for a flag
/// end at their limits, and a served one has none left.
const LIMITED_WAITS: Case = Case {
    words: "run",
    script: b"utk 1\nboot main 10\nbody main task\ntk_cre_sem - 2 9\ntk_cre_flg TA_WMUL 1\ntk_cre_tsk - one 5 512\ntk_cre_tsk - two 6 512\ntk_sta_tsk 2 0\ntk_sta_tsk 3 0\nend\nbody one task\ntk_wai_sem 1 3 2\ntk_wai_flg 1 2 TWF_ANDW 1\ntk_wai_flg 1 2 TWF_ORW 9\nend\nbody two task\ntk_wai_sem 1 1 2\ntk_wai_flg 1 3 TWF_ANDW 1\ntk_set_flg 1 2\nend\n",
    trace: b"0 D 1\n1 C 1 tk_cre_sem 1\n2 C 1 tk_cre_flg 1\n3 C 1 tk_cre_tsk 2\n4 C 1 tk_cre_tsk 3\n5 C 1 tk_sta_tsk 0\n5 D 2\n6 B 2 tk_wai_sem\n6 D 1\n7 C 1 tk_sta_tsk 0\n7 D 3\n8 B 3 tk_wai_sem\n8 D 1\n9 C 1 tk_ext_tsk 0\n9 D 0\n10 K 1\n11 K 2\n12 K 3\n12 W 2 tk_wai_sem E_TMOUT\n12 W 3 tk_wai_sem 0\n12 D 2\n13 B 2 tk_wai_flg\n13 D 3\n14 B 3 tk_wai_flg\n14 D 0\n15 K 4\n16 K 5\n16 W 2 tk_wai_flg E_TMOUT\n16 W 3 tk_wai_flg E_TMOUT\n16 D 2\n17 B 2 tk_wai_flg\n17 D 3\n18 C 3 tk_set_flg 0\n18 W 2 tk_wai_flg 0 3\n18 D 2\n19 C 2 tk_ext_tsk 0\n19 D 3\n20 C 3 tk_ext_tsk 0\n20 D 0\n20 END idle\n",
    status: Status::Done,
};

/// One setting of a flag serves its waiters one after another by priority, and each clears its bits before the next is
/// looked at; one of them is suspended meanwhile, and runs when it is resumed.
const CLEARED_IN_TURN: Case = Case {
    words: "run",
    script: b"utk 1\nboot main 20\nbody main task\ntk_cre_flg TA_TPRI|TA_WMUL 0\ntk_cre_tsk - high 7 512\ntk_cre_tsk - mid 8 512\ntk_cre_tsk - low 9 512\ntk_cre_tsk - last 10 512\ntk_sta_tsk 5 0\ntk_sta_tsk 4 0\ntk_sta_tsk 3 0\ntk_sta_tsk 2 0\ntk_sus_tsk 3\ntk_ref_tsk 3\ntk_ref_flg 1\ntk_set_flg 1 15\ntk_ref_tsk 3\ntk_ref_flg 1\ntk_rsm_tsk 3\ntk_set_flg 1 28\ntk_ref_flg 1\nend\nbody high task\ntk_wai_flg 1 1 TWF_ORW|TWF_BITCLR -1\nshow r1\nend\nbody mid task\ntk_wai_flg 1 6 TWF_ANDW|TWF_BITCLR -1\nshow r1\nend\nbody low task\ntk_wai_flg 1 12 TWF_ANDW|TWF_BITCLR -1\nshow r1\nend\nbody last task\ntk_wai_flg 1 12 TWF_ORW|TWF_BITCLR -1\nshow r1\nend\n",
    trace: b"0 D 1\n1 C 1 tk_cre_flg 1\n2 C 1 tk_cre_tsk 2\n3 C 1 tk_cre_tsk 3\n4 C 1 tk_cre_tsk 4\n5 C 1 tk_cre_tsk 5\n6 C 1 tk_sta_tsk 0\n6 D 5\n7 B 5 tk_wai_flg\n7 D 1\n8 C 1 tk_sta_tsk 0\n8 D 4\n9 B 4 tk_wai_flg\n9 D 1\n10 C 1 tk_sta_tsk 0\n10 D 3\n11 B 3 tk_wai_flg\n11 D 1\n12 C 1 tk_sta_tsk 0\n12 D 2\n13 B 2 tk_wai_flg\n13 D 1\n14 C 1 tk_sus_tsk 0\n15 C 1 tk_ref_tsk 0 5 8 8 0 1\n16 C 1 tk_ref_flg 0 0 2\n17 C 1 tk_set_flg 0\n17 W 2 tk_wai_flg 0 15\n17 W 3 tk_wai_flg 0 14\n17 W 5 tk_wai_flg 0 8\n17 D 2\n18 S 2 15\n19 C 2 tk_ext_tsk 0\n19 D 5\n20 S 5 8\n21 C 5 tk_ext_tsk 0\n21 D 1\n22 C 1 tk_ref_tsk 0 4 8 8 0 1\n23 C 1 tk_ref_flg 0 0 4\n24 C 1 tk_rsm_tsk 0\n24 D 3\n25 S 3 14\n26 C 3 tk_ext_tsk 0\n26 D 1\n27 C 1 tk_set_flg 0\n27 W 4 tk_wai_flg 0 28\n27 D 4\n28 S 4 28\n29 C 4 tk_ext_tsk 0\n29 D 1\n30 C 1 tk_ref_flg 0 16 0\n31 C 1 tk_ext_tsk 0\n31 D 0\n31 END idle\n",
    status: Status::Done,
};

/// A deleted flag ends its waits in the order in which they began, and a deleted semaphore with a queue by priority in the
/// order of the priorities that its waiters have then; the number is free again.
const DELETED_OBJECTS: Case = Case {
    words: "run",
    script: b"utk 1\nboot main 20\nbody main task\ntk_cre_flg TA_WMUL 0\ntk_cre_sem TA_TPRI 0 5\ntk_cre_tsk - taker 9 512\ntk_cre_tsk - taker 7 512\ntk_cre_tsk - taker 8 512\ntk_sta_tsk 2 0\ntk_sta_tsk 3 0\ntk_sta_tsk 4 0\ntk_del_flg 1\ntk_ref_flg 1\ntk_chg_pri 2 6\ntk_ref_sem 1\ntk_del_sem 1\ntk_ref_sem 1\ntk_cre_sem TA_TPRI 3 3\ntk_ref_sem 1\nend\nbody taker task\ntk_wai_flg 1 1 TWF_ANDW 5\nshow r0\ntk_wai_sem 1 1 -1\nend\n",
    trace: b"0 D 1\n1 C 1 tk_cre_flg 1\n2 C 1 tk_cre_sem 1\n3 C 1 tk_cre_tsk 2\n4 C 1 tk_cre_tsk 3\n5 C 1 tk_cre_tsk 4\n6 C 1 tk_sta_tsk 0\n6 D 2\n7 B 2 tk_wai_flg\n7 D 1\n8 C 1 tk_sta_tsk 0\n8 D 3\n9 B 3 tk_wai_flg\n9 D 1\n10 C 1 tk_sta_tsk 0\n10 D 4\n11 B 4 tk_wai_flg\n11 D 1\n12 C 1 tk_del_flg 0\n12 W 2 tk_wai_flg E_DLT\n12 W 3 tk_wai_flg E_DLT\n12 W 4 tk_wai_flg E_DLT\n12 D 3\n13 S 3 -51\n14 B 3 tk_wai_sem\n14 D 4\n15 S 4 -51\n16 B 4 tk_wai_sem\n16 D 2\n17 S 2 -51\n18 B 2 tk_wai_sem\n18 D 1\n19 C 1 tk_ref_flg E_NOEXS\n20 C 1 tk_chg_pri 0\n21 C 1 tk_ref_sem 0 0 2\n22 C 1 tk_del_sem 0\n22 W 2 tk_wai_sem E_DLT\n22 W 3 tk_wai_sem E_DLT\n22 W 4 tk_wai_sem E_DLT\n22 D 2\n23 C 2 tk_ext_tsk 0\n23 D 3\n24 C 3 tk_ext_tsk 0\n24 D 4\n25 C 4 tk_ext_tsk 0\n25 D 1\n26 C 1 tk_ref_sem E_NOEXS\n27 C 1 tk_cre_sem 1\n28 C 1 tk_ref_sem 0 3 0\n29 C 1 tk_ext_tsk 0\n29 D 0\n29 END idle\n",
    status: Status::Done,
};

/// Calls on semaphores are refused by the first check that fails; counts go up to 65,535, and a signal that would pass the
/// most is refused also where a waiter would take it.
const REFUSED_SEM: Case = Case {
    words: "run",
    script: b"utk 1\nboot main 10\nbody main task\ntk_cre_sem TA_WMUL -1 0\ntk_cre_sem TA_TFIFO|TA_TPRI 0 1\ntk_cre_sem TA_FIRST|TA_CNT 0 1\ntk_cre_sem TA_MFIFO 0 1\ntk_cre_sem - 0 0\ntk_cre_sem - 0 65536\ntk_cre_sem - -1 1\ntk_cre_sem - 2 1\ntk_cre_sem - 65536 65535\ntk_sig_sem 0 0\ntk_sig_sem 65 0\ntk_sig_sem -1 1\ntk_sig_sem 1 0\ntk_sig_sem 1 65536\ntk_wai_sem 0 0 -2\ntk_wai_sem 65 1 -1\ntk_wai_sem 1 0 -1\ntk_wai_sem 1 1 -2\ntk_wai_sem 1 65536 -1\ntk_ref_sem 65\ntk_ref_sem 64\ntk_del_sem 0\ntk_del_sem 64\ntk_cre_sem TA_HLNG|TA_RNG3|TA_TFIFO|TA_FIRST 65534 65535\ntk_wai_sem 1 65536 -1\ntk_sig_sem 1 2\ntk_sig_sem 1 65536\ntk_sig_sem 1 1\ntk_ref_sem 1\ntk_sig_sem 1 1\ntk_wai_sem 1 65535 0\ntk_ref_sem 1\ntk_wai_sem 1 1 0\ntk_sig_sem 1 65535\ntk_sig_sem 1 2147483647\ntk_wai_sem 1 1 -1\ntk_cre_tsk - all 5 512\ntk_sta_tsk 2 0\ntk_sig_sem 1 2\ntk_sig_sem 1 1\ntk_ref_sem 1\nend\nbody all task\ntk_wai_sem 1 65535 -1\nend\n",
    trace: b"0 D 1\n1 C 1 tk_cre_sem E_RSATR\n2 C 1 tk_cre_sem E_RSATR\n3 C 1 tk_cre_sem E_RSATR\n4 C 1 tk_cre_sem E_RSATR\n5 C 1 tk_cre_sem E_PAR\n6 C 1 tk_cre_sem E_PAR\n7 C 1 tk_cre_sem E_PAR\n8 C 1 tk_cre_sem E_PAR\n9 C 1 tk_cre_sem E_PAR\n10 C 1 tk_sig_sem E_ID\n11 C 1 tk_sig_sem E_ID\n12 C 1 tk_sig_sem E_ID\n13 C 1 tk_sig_sem E_PAR\n14 C 1 tk_sig_sem E_NOEXS\n15 C 1 tk_wai_sem E_ID\n16 C 1 tk_wai_sem E_ID\n17 C 1 tk_wai_sem E_PAR\n18 C 1 tk_wai_sem E_PAR\n19 C 1 tk_wai_sem E_NOEXS\n20 C 1 tk_ref_sem E_ID\n21 C 1 tk_ref_sem E_NOEXS\n22 C 1 tk_del_sem E_ID\n23 C 1 tk_del_sem E_NOEXS\n24 C 1 tk_cre_sem 1\n25 C 1 tk_wai_sem E_PAR\n26 C 1 tk_sig_sem E_QOVR\n27 C 1 tk_sig_sem E_QOVR\n28 C 1 tk_sig_sem 0\n29 C 1 tk_ref_sem 0 65535 0\n30 C 1 tk_sig_sem E_QOVR\n31 C 1 tk_wai_sem 0\n32 C 1 tk_ref_sem 0 0 0\n33 C 1 tk_wai_sem E_TMOUT\n34 C 1 tk_sig_sem 0\n35 C 1 tk_sig_sem E_QOVR\n36 C 1 tk_wai_sem 0\n37 C 1 tk_cre_tsk 2\n38 C 1 tk_sta_tsk 0\n38 D 2\n39 B 2 tk_wai_sem\n39 D 1\n40 C 1 tk_sig_sem E_QOVR\n41 C 1 tk_sig_sem 0\n41 W 2 tk_wai_sem 0\n41 D 2\n42 C 2 tk_ext_tsk 0\n42 D 1\n43 C 1 tk_ref_sem 0 0 0\n44 C 1 tk_ext_tsk 0\n44 D 0\n44 END idle\n",
    status: Status::Done,
};

/// Calls on event flags are refused by the first check that fails; patterns have 32 bits and are shown as signed numbers;
/// a flag for one waiter refuses a second one, also one whose bits are there.
const REFUSED_FLAG: Case = Case {
    words: "run",
    script: b"utk 1\nboot main 10\nbody main task\ntk_cre_flg TA_CNT 0\ntk_cre_flg TA_WSGL|TA_WMUL 0\ntk_cre_flg TA_TFIFO|TA_TPRI 0\ntk_set_flg 0 1\ntk_set_flg 1 1\ntk_clr_flg 65 0\ntk_clr_flg 64 0\ntk_wai_flg 0 0 - -2\ntk_wai_flg 1 0 TWF_ANDW -1\ntk_wai_flg 1 1 - -1\ntk_wai_flg 1 1 TWF_ANDW|TWF_ORW -1\ntk_wai_flg 1 1 TWF_ORW|TWF_CLR|TWF_BITCLR -1\ntk_wai_flg 1 1 TWF_ANDW -2\ntk_wai_flg 1 1 TWF_ANDW -1\ntk_ref_flg 65\ntk_ref_flg 64\ntk_del_flg -1\ntk_del_flg 1\ntk_cre_flg TA_WSGL -1\ntk_ref_flg 1\ntk_clr_flg 1 -2147483648\ntk_ref_flg 1\ntk_wai_flg 1 -1 TWF_ANDW 0\ntk_wai_flg 1 -1 TWF_ORW|TWF_BITCLR 0\ntk_ref_flg 1\ntk_set_flg 1 -2147483648\ntk_wai_flg 1 -2147483648 TWF_ANDW|TWF_CLR -1\ntk_ref_flg 1\ntk_cre_tsk - one 5 512\ntk_sta_tsk 2 0\ntk_wai_flg 1 1 TWF_ORW 0\ntk_set_flg 1 6\ntk_wai_flg 1 6 TWF_ANDW -1\ntk_set_flg 1 1\ntk_wai_flg 1 6 TWF_ANDW -1\ntk_del_flg 1\ntk_set_flg 1 1\nend\nbody one task\ntk_wai_flg 1 1 TWF_ANDW -1\nshow r1\nend\n",
    trace: b"0 D 1\n1 C 1 tk_cre_flg E_RSATR\n2 C 1 tk_cre_flg E_RSATR\n3 C 1 tk_cre_flg E_RSATR\n4 C 1 tk_set_flg E_ID\n5 C 1 tk_set_flg E_NOEXS\n6 C 1 tk_clr_flg E_ID\n7 C 1 tk_clr_flg E_NOEXS\n8 C 1 tk_wai_flg E_ID\n9 C 1 tk_wai_flg E_PAR\n10 C 1 tk_wai_flg E_PAR\n11 C 1 tk_wai_flg E_PAR\n12 C 1 tk_wai_flg E_PAR\n13 C 1 tk_wai_flg E_PAR\n14 C 1 tk_wai_flg E_NOEXS\n15 C 1 tk_ref_flg E_ID\n16 C 1 tk_ref_flg E_NOEXS\n17 C 1 tk_del_flg E_ID\n18 C 1 tk_del_flg E_NOEXS\n19 C 1 tk_cre_flg 1\n20 C 1 tk_ref_flg 0 -1 0\n21 C 1 tk_clr_flg 0\n22 C 1 tk_ref_flg 0 -2147483648 0\n23 C 1 tk_wai_flg E_TMOUT\n24 C 1 tk_wai_flg 0 -2147483648\n25 C 1 tk_ref_flg 0 0 0\n26 C 1 tk_set_flg 0\n27 C 1 tk_wai_flg 0 -2147483648\n28 C 1 tk_ref_flg 0 0 0\n29 C 1 tk_cre_tsk 2\n30 C 1 tk_sta_tsk 0\n30 D 2\n31 B 2 tk_wai_flg\n31 D 1\n32 C 1 tk_wai_flg E_OBJ\n33 C 1 tk_set_flg 0\n34 C 1 tk_wai_flg E_OBJ\n35 C 1 tk_set_flg 0\n35 W 2 tk_wai_flg 0 7\n35 D 2\n36 S 2 7\n37 C 2 tk_ext_tsk 0\n37 D 1\n38 C 1 tk_wai_flg 0 7\n39 C 1 tk_del_flg 0\n40 C 1 tk_set_flg E_NOEXS\n41 C 1 tk_ext_tsk 0\n41 D 0\n41 END idle\n",
    status: Status::Done,
};

/// There are at most 64 semaphores and 64 flags; a freed number is taken again, and a wrong count is told before that.
const FULL_TABLES: Case = Case {
    words: "run",
    script: b"utk 1\nboot main 10\nbody main task\nlabel sems\ntk_cre_sem - 0 1\njlt r0 64 sems\ntk_cre_sem - 0 1\ntk_cre_sem - 2 1\ntk_del_sem 3\ntk_cre_sem - 1 1\ntk_ref_sem 3\nlabel flags\ntk_cre_flg - 0\njlt r0 64 flags\ntk_cre_flg - 0\ntk_cre_flg TA_CNT 0\ntk_del_flg 64\ntk_cre_flg - 5\ntk_ref_flg 64\nend\n",
    trace: b"0 D 1\n1 C 1 tk_cre_sem 1\n3 C 1 tk_cre_sem 2\n5 C 1 tk_cre_sem 3\n7 C 1 tk_cre_sem 4\n9 C 1 tk_cre_sem 5\n11 C 1 tk_cre_sem 6\n13 C 1 tk_cre_sem 7\n15 C 1 tk_cre_sem 8\n17 C 1 tk_cre_sem 9\n19 C 1 tk_cre_sem 10\n21 C 1 tk_cre_sem 11\n23 C 1 tk_cre_sem 12\n25 C 1 tk_cre_sem 13\n27 C 1 tk_cre_sem 14\n29 C 1 tk_cre_sem 15\n31 C 1 tk_cre_sem 16\n33 C 1 tk_cre_sem 17\n35 C 1 tk_cre_sem 18\n37 C 1 tk_cre_sem 19\n39 C 1 tk_cre_sem 20\n41 C 1 tk_cre_sem 21\n43 C 1 tk_cre_sem 22\n45 C 1 tk_cre_sem 23\n47 C 1 tk_cre_sem 24\n49 C 1 tk_cre_sem 25\n51 C 1 tk_cre_sem 26\n53 C 1 tk_cre_sem 27\n55 C 1 tk_cre_sem 28\n57 C 1 tk_cre_sem 29\n59 C 1 tk_cre_sem 30\n61 C 1 tk_cre_sem 31\n63 C 1 tk_cre_sem 32\n65 C 1 tk_cre_sem 33\n67 C 1 tk_cre_sem 34\n69 C 1 tk_cre_sem 35\n71 C 1 tk_cre_sem 36\n73 C 1 tk_cre_sem 37\n75 C 1 tk_cre_sem 38\n77 C 1 tk_cre_sem 39\n79 C 1 tk_cre_sem 40\n81 C 1 tk_cre_sem 41\n83 C 1 tk_cre_sem 42\n85 C 1 tk_cre_sem 43\n87 C 1 tk_cre_sem 44\n89 C 1 tk_cre_sem 45\n91 C 1 tk_cre_sem 46\n93 C 1 tk_cre_sem 47\n95 C 1 tk_cre_sem 48\n97 C 1 tk_cre_sem 49\n99 C 1 tk_cre_sem 50\n101 C 1 tk_cre_sem 51\n103 C 1 tk_cre_sem 52\n105 C 1 tk_cre_sem 53\n107 C 1 tk_cre_sem 54\n109 C 1 tk_cre_sem 55\n111 C 1 tk_cre_sem 56\n113 C 1 tk_cre_sem 57\n115 C 1 tk_cre_sem 58\n117 C 1 tk_cre_sem 59\n119 C 1 tk_cre_sem 60\n121 C 1 tk_cre_sem 61\n123 C 1 tk_cre_sem 62\n125 C 1 tk_cre_sem 63\n127 C 1 tk_cre_sem 64\n129 C 1 tk_cre_sem E_LIMIT\n130 C 1 tk_cre_sem E_PAR\n131 C 1 tk_del_sem 0\n132 C 1 tk_cre_sem 3\n133 C 1 tk_ref_sem 0 1 0\n134 C 1 tk_cre_flg 1\n136 C 1 tk_cre_flg 2\n138 C 1 tk_cre_flg 3\n140 C 1 tk_cre_flg 4\n142 C 1 tk_cre_flg 5\n144 C 1 tk_cre_flg 6\n146 C 1 tk_cre_flg 7\n148 C 1 tk_cre_flg 8\n150 C 1 tk_cre_flg 9\n152 C 1 tk_cre_flg 10\n154 C 1 tk_cre_flg 11\n156 C 1 tk_cre_flg 12\n158 C 1 tk_cre_flg 13\n160 C 1 tk_cre_flg 14\n162 C 1 tk_cre_flg 15\n164 C 1 tk_cre_flg 16\n166 C 1 tk_cre_flg 17\n168 C 1 tk_cre_flg 18\n170 C 1 tk_cre_flg 19\n172 C 1 tk_cre_flg 20\n174 C 1 tk_cre_flg 21\n176 C 1 tk_cre_flg 22\n178 C 1 tk_cre_flg 23\n180 C 1 tk_cre_flg 24\n182 C 1 tk_cre_flg 25\n184 C 1 tk_cre_flg 26\n186 C 1 tk_cre_flg 27\n188 C 1 tk_cre_flg 28\n190 C 1 tk_cre_flg 29\n192 C 1 tk_cre_flg 30\n194 C 1 tk_cre_flg 31\n196 C 1 tk_cre_flg 32\n198 C 1 tk_cre_flg 33\n200 C 1 tk_cre_flg 34\n202 C 1 tk_cre_flg 35\n204 C 1 tk_cre_flg 36\n206 C 1 tk_cre_flg 37\n208 C 1 tk_cre_flg 38\n210 C 1 tk_cre_flg 39\n212 C 1 tk_cre_flg 40\n214 C 1 tk_cre_flg 41\n216 C 1 tk_cre_flg 42\n218 C 1 tk_cre_flg 43\n220 C 1 tk_cre_flg 44\n222 C 1 tk_cre_flg 45\n224 C 1 tk_cre_flg 46\n226 C 1 tk_cre_flg 47\n228 C 1 tk_cre_flg 48\n230 C 1 tk_cre_flg 49\n232 C 1 tk_cre_flg 50\n234 C 1 tk_cre_flg 51\n236 C 1 tk_cre_flg 52\n238 C 1 tk_cre_flg 53\n240 C 1 tk_cre_flg 54\n242 C 1 tk_cre_flg 55\n244 C 1 tk_cre_flg 56\n246 C 1 tk_cre_flg 57\n248 C 1 tk_cre_flg 58\n250 C 1 tk_cre_flg 59\n252 C 1 tk_cre_flg 60\n254 C 1 tk_cre_flg 61\n256 C 1 tk_cre_flg 62\n258 C 1 tk_cre_flg 63\n260 C 1 tk_cre_flg 64\n262 C 1 tk_cre_flg E_LIMIT\n263 C 1 tk_cre_flg E_RSATR\n264 C 1 tk_del_flg 0\n265 C 1 tk_cre_flg 64\n266 C 1 tk_ref_flg 0 5 0\n267 C 1 tk_ext_tsk 0\n267 D 0\n267 END idle\n",
    status: Status::Done,
};

#[test]
fn worked_runs_have_their_traces(rt: HostRuntime) -> Result<(), Fail> {
    let cases = [
        NEXT_AFTER_TIME_OUT,
        CLEARED_BETWEEN,
        HEAD_AND_LATER,
        HEAD_LEAVES,
        HEAD_MOVES,
        JOINS_FIRST,
        LIMITED_WAITS,
        CLEARED_IN_TURN,
        DELETED_OBJECTS,
        REFUSED_SEM,
        REFUSED_FLAG,
        FULL_TABLES,
    ];
    for case in cases {
        let (status, output) = outcome(&rt, rt.alloc(), case.words, case.script)?;
        assert_eq!(rt; output.as_slice(), case.trace);
        assert_eq!(rt; status, case.status);
    }
    Ok(())
}

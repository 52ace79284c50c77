//! Runs that were worked out by hand: locks, ceilings, and priorities that are handed on along chains of owners.

use crate::task_runs::Case;
use crate::tests::outcome;
use std::test::Fail;
use tk_run::Status;

/// The errors of the calls on mutexes in their order: a lock is refused where the mutex is held already or the base is
/// above its ceiling, an unlock where the caller doesn't hold it; a ceiling without its attribute isn't looked at.
const EVERY_ERROR: Case = Case {
    words: "run",
    script: b"utk 1\nboot main 50\nbody main task\ntk_cre_mtx TA_FIRST|TA_CEILING 141\ntk_cre_mtx TA_TPRI|TA_INHERIT 0\ntk_cre_mtx TA_CEILING 0\ntk_cre_mtx TA_CEILING 141\ntk_cre_mtx TA_HLNG|TA_RNG0|TA_RNG3 -7\ntk_cre_mtx TA_CEILING 60\ntk_loc_mtx 0 -2\ntk_loc_mtx 65 -1\ntk_loc_mtx 3 -2\ntk_loc_mtx 3 -1\ntk_loc_mtx 2 -1\ntk_loc_mtx 1 -1\ntk_loc_mtx 1 0\ntk_unl_mtx 0\ntk_unl_mtx 3\ntk_unl_mtx 2\ntk_ref_mtx 1\ntk_unl_mtx 1\ntk_ref_mtx 1\ntk_ref_mtx 65\ntk_ref_mtx 3\ntk_del_mtx 0\ntk_del_mtx 3\ntk_del_mtx 1\ntk_unl_mtx 1\ntk_cre_mtx - 0\nend\n",
    trace: b"0 D 1\n1 C 1 tk_cre_mtx E_RSATR\n2 C 1 tk_cre_mtx E_RSATR\n3 C 1 tk_cre_mtx E_PAR\n4 C 1 tk_cre_mtx E_PAR\n5 C 1 tk_cre_mtx 1\n6 C 1 tk_cre_mtx 2\n7 C 1 tk_loc_mtx E_ID\n8 C 1 tk_loc_mtx E_ID\n9 C 1 tk_loc_mtx E_PAR\n10 C 1 tk_loc_mtx E_NOEXS\n11 C 1 tk_loc_mtx E_ILUSE\n12 C 1 tk_loc_mtx 0\n13 C 1 tk_loc_mtx E_ILUSE\n14 C 1 tk_unl_mtx E_ID\n15 C 1 tk_unl_mtx E_NOEXS\n16 C 1 tk_unl_mtx E_ILUSE\n17 C 1 tk_ref_mtx 0 1 0\n18 C 1 tk_unl_mtx 0\n19 C 1 tk_ref_mtx 0 0 0\n20 C 1 tk_ref_mtx E_ID\n21 C 1 tk_ref_mtx E_NOEXS\n22 C 1 tk_del_mtx E_ID\n23 C 1 tk_del_mtx E_NOEXS\n24 C 1 tk_del_mtx 0\n25 C 1 tk_unl_mtx E_NOEXS\n26 C 1 tk_cre_mtx 1\n27 C 1 tk_ext_tsk 0\n27 D 0\n27 END idle\n",
    status: Status::Done,
};

/// Of two ceilings the higher one counts while its mutex is held; the base may not be set above a ceiling.
const TWO_CEILINGS: Case = Case {
    words: "run",
    script: b"utk 1\nboot main 50\nbody main task\ntk_cre_mtx TA_CEILING 10\ntk_cre_mtx TA_CEILING 20\ntk_loc_mtx 1 -1\ntk_loc_mtx 2 -1\ntk_unl_mtx 1\ntk_ref_tsk 0\ntk_chg_pri 0 15\ntk_chg_pri 0 30\ntk_ref_tsk 0\ntk_unl_mtx 2\ntk_unl_mtx 2\nend\n",
    trace: b"0 D 1\n1 C 1 tk_cre_mtx 1\n2 C 1 tk_cre_mtx 2\n3 C 1 tk_loc_mtx 0\n4 C 1 tk_loc_mtx 0\n5 C 1 tk_unl_mtx 0\n6 C 1 tk_ref_tsk 0 1 20 50 0 0\n7 C 1 tk_chg_pri E_ILUSE\n8 C 1 tk_chg_pri 0\n9 C 1 tk_ref_tsk 0 1 20 30 0 0\n10 C 1 tk_unl_mtx 0\n11 C 1 tk_unl_mtx E_ILUSE\n12 C 1 tk_ext_tsk 0\n12 D 0\n12 END idle\n",
    status: Status::Done,
};

/// Two chains of inheritance; a waiter's time-out lowers the owner again, and termination frees what was held.
const LOWERED_BY_A_TIME_OUT: Case = Case {
    words: "run",
    script: b"utk 1\nboot main 50\nbody main task\ntk_cre_mtx TA_INHERIT 0\ntk_cre_mtx TA_INHERIT 0\ntk_cre_tsk - low 30 512\ntk_cre_tsk - mid 20 512\ntk_cre_tsk - top 10 512\ntk_sta_tsk 2 0\ntk_sta_tsk 3 0\ntk_sta_tsk 4 0\ntk_ref_tsk 2\ntk_ref_tsk 3\ntk_dly_tsk 3\ntk_ter_tsk 2\nend\nbody low task\ntk_loc_mtx 1 -1\ntk_slp_tsk -1\nend\nbody mid task\ntk_loc_mtx 2 -1\ntk_loc_mtx 1 2\ntk_ref_tsk 2\ntk_unl_mtx 2\nend\nbody top task\ntk_loc_mtx 2 -1\nend\n",
    trace: b"0 D 1\n1 C 1 tk_cre_mtx 1\n2 C 1 tk_cre_mtx 2\n3 C 1 tk_cre_tsk 2\n4 C 1 tk_cre_tsk 3\n5 C 1 tk_cre_tsk 4\n6 C 1 tk_sta_tsk 0\n6 D 2\n7 C 2 tk_loc_mtx 0\n8 B 2 tk_slp_tsk\n8 D 1\n9 C 1 tk_sta_tsk 0\n9 D 3\n10 C 3 tk_loc_mtx 0\n11 B 3 tk_loc_mtx\n11 D 1\n12 C 1 tk_sta_tsk 0\n12 D 4\n13 B 4 tk_loc_mtx\n13 D 1\n14 C 1 tk_ref_tsk 0 3 10 30 0 0\n15 C 1 tk_ref_tsk 0 3 10 20 0 0\n16 B 1 tk_dly_tsk\n16 D 0\n17 K 1\n18 K 2\n19 K 3\n19 W 3 tk_loc_mtx E_TMOUT\n19 D 3\n20 C 3 tk_ref_tsk 0 3 30 30 0 0\n21 C 3 tk_unl_mtx 0\n21 W 4 tk_loc_mtx 0\n21 D 4\n22 C 4 tk_ext_tsk 0\n22 D 3\n23 C 3 tk_ext_tsk 0\n23 D 0\n24 K 4\n24 W 1 tk_dly_tsk 0\n24 D 1\n25 C 1 tk_ter_tsk 0\n26 C 1 tk_ext_tsk 0\n26 D 0\n26 END idle\n",
    status: Status::Done,
};

/// Two tasks wait for each other's mutex, and both have the highest priority of the cycle.
const CYCLE_OF_OWNERS: Case = Case {
    words: "run",
    script: b"utk 1\nboot main 50\nbody main task\ntk_cre_mtx TA_INHERIT 0\ntk_cre_mtx TA_INHERIT 0\ntk_cre_tsk - one 20 512\ntk_cre_tsk - two 10 512\ntk_sta_tsk 2 0\ntk_sta_tsk 3 0\ntk_ref_tsk 2\nend\nbody one task\ntk_loc_mtx 1 -1\ntk_slp_tsk -1\ntk_loc_mtx 2 -1\nend\nbody two task\ntk_loc_mtx 2 -1\ntk_wup_tsk 2\ntk_loc_mtx 1 -1\nend\n",
    trace: b"0 D 1\n1 C 1 tk_cre_mtx 1\n2 C 1 tk_cre_mtx 2\n3 C 1 tk_cre_tsk 2\n4 C 1 tk_cre_tsk 3\n5 C 1 tk_sta_tsk 0\n5 D 2\n6 C 2 tk_loc_mtx 0\n7 B 2 tk_slp_tsk\n7 D 1\n8 C 1 tk_sta_tsk 0\n8 D 3\n9 C 3 tk_loc_mtx 0\n10 C 3 tk_wup_tsk 0\n10 W 2 tk_slp_tsk 0\n11 B 3 tk_loc_mtx\n11 D 2\n12 B 2 tk_loc_mtx\n12 D 1\n13 C 1 tk_ref_tsk 0 3 10 20 0 0\n14 C 1 tk_ext_tsk 0\n14 D 0\n14 END idle\n",
    status: Status::Done,
};

/// A chain of four mutexes hands the highest priority down to its last owner, also in the queue where that one waits, and
/// stops at a mutex without inheritance; a time-out in its middle lowers those behind it, each to what is left for it.
const CHAIN_OF_FOUR: Case = Case {
    words: "run",
    script: b"utk 1\nboot main 50\nbody main task\ntk_cre_mtx TA_INHERIT 0\ntk_cre_mtx TA_INHERIT 0\ntk_cre_mtx TA_INHERIT 0\ntk_cre_mtx TA_INHERIT 0\ntk_cre_mtx TA_TPRI 0\ntk_loc_mtx 5 -1\ntk_cre_tsk - a 40 512\ntk_cre_tsk - b 30 512\ntk_cre_tsk - c 20 512\ntk_cre_tsk - d 10 512\ntk_cre_tsk - e 5 512\ntk_cre_tsk - z 25 512\ntk_sta_tsk 2 0\ntk_sta_tsk 3 0\ntk_sta_tsk 4 0\ntk_sta_tsk 5 0\ntk_sta_tsk 6 0\ntk_sta_tsk 7 0\ntk_ref_tsk 0\ntk_ref_tsk 2\ntk_ref_tsk 4\ntk_ref_mtx 5\ntk_dly_tsk 2\ntk_unl_mtx 5\nend\nbody a task\ntk_loc_mtx 1 -1\ntk_loc_mtx 5 -1\nend\nbody b task\ntk_loc_mtx 2 -1\ntk_loc_mtx 1 -1\nend\nbody c task\ntk_loc_mtx 3 -1\ntk_loc_mtx 2 1\ntk_ref_tsk 0\ntk_ref_tsk 2\ntk_ref_tsk 3\ntk_ref_mtx 5\ntk_unl_mtx 3\nend\nbody d task\ntk_loc_mtx 4 -1\ntk_loc_mtx 3 -1\ntk_unl_mtx 4\ntk_ref_tsk 0\nend\nbody e task\ntk_loc_mtx 4 -1\nend\nbody z task\ntk_loc_mtx 5 -1\nend\n",
    trace: b"0 D 1\n1 C 1 tk_cre_mtx 1\n2 C 1 tk_cre_mtx 2\n3 C 1 tk_cre_mtx 3\n4 C 1 tk_cre_mtx 4\n5 C 1 tk_cre_mtx 5\n6 C 1 tk_loc_mtx 0\n7 C 1 tk_cre_tsk 2\n8 C 1 tk_cre_tsk 3\n9 C 1 tk_cre_tsk 4\n10 C 1 tk_cre_tsk 5\n11 C 1 tk_cre_tsk 6\n12 C 1 tk_cre_tsk 7\n13 C 1 tk_sta_tsk 0\n13 D 2\n14 C 2 tk_loc_mtx 0\n15 B 2 tk_loc_mtx\n15 D 1\n16 C 1 tk_sta_tsk 0\n16 D 3\n17 C 3 tk_loc_mtx 0\n18 B 3 tk_loc_mtx\n18 D 1\n19 C 1 tk_sta_tsk 0\n19 D 4\n20 C 4 tk_loc_mtx 0\n21 B 4 tk_loc_mtx\n21 D 1\n22 C 1 tk_sta_tsk 0\n22 D 5\n23 C 5 tk_loc_mtx 0\n24 B 5 tk_loc_mtx\n24 D 1\n25 C 1 tk_sta_tsk 0\n25 D 6\n26 B 6 tk_loc_mtx\n26 D 1\n27 C 1 tk_sta_tsk 0\n27 D 7\n28 B 7 tk_loc_mtx\n28 D 1\n29 C 1 tk_ref_tsk 0 1 50 50 0 0\n30 C 1 tk_ref_tsk 0 3 5 40 0 0\n31 C 1 tk_ref_tsk 0 3 5 20 0 0\n32 C 1 tk_ref_mtx 0 1 2\n33 B 1 tk_dly_tsk\n33 D 0\n34 K 1\n35 K 2\n35 W 4 tk_loc_mtx E_TMOUT\n35 D 4\n36 C 4 tk_ref_tsk 0 1 5 20 0 0\n37 C 4 tk_ref_tsk 0 3 30 40 0 0\n38 C 4 tk_ref_tsk 0 3 30 30 0 0\n39 C 4 tk_ref_mtx 0 1 7\n40 C 4 tk_unl_mtx 0\n40 W 5 tk_loc_mtx 0\n40 D 5\n41 C 5 tk_unl_mtx 0\n41 W 6 tk_loc_mtx 0\n41 D 6\n42 C 6 tk_ext_tsk 0\n42 D 5\n43 C 5 tk_ref_tsk 0 1 10 10 0 0\n44 C 5 tk_ext_tsk 0\n44 D 4\n45 C 4 tk_ext_tsk 0\n45 D 0\n46 K 3\n46 W 1 tk_dly_tsk 0\n46 D 1\n47 C 1 tk_unl_mtx 0\n47 W 7 tk_loc_mtx 0\n47 D 7\n48 C 7 tk_ext_tsk 0\n48 W 2 tk_loc_mtx 0\n48 D 2\n49 C 2 tk_ext_tsk 0\n49 W 3 tk_loc_mtx 0\n49 D 3\n50 C 3 tk_ext_tsk 0\n50 D 1\n51 C 1 tk_ext_tsk 0\n51 D 0\n51 END idle\n",
    status: Status::Done,
};

/// No base is set above a ceiling that its task holds or waits for, also not to the initial priority by 0; a waiter
/// isn't raised by a ceiling, and takes its place among equals when the mutex becomes its own.
const BASES_AND_CEILINGS: Case = Case {
    words: "run",
    script: b"utk 1\nboot main 50\nbody main task\ntk_cre_mtx TA_CEILING 20\ntk_cre_tsk - o 40 512\ntk_cre_tsk - w 10 512\ntk_cre_tsk - x 20 512\ntk_sta_tsk 2 0\ntk_sta_tsk 3 0\ntk_ref_mtx 1\ntk_chg_pri 3 19\ntk_chg_pri 3 0\ntk_chg_pri 3 20\ntk_chg_pri 3 30\ntk_ref_tsk 3\ntk_chg_pri 2 19\ntk_chg_pri 2 0\ntk_ref_tsk 2\ntk_wup_tsk 2\nend\nbody o task\ntk_loc_mtx 1 -1\ntk_slp_tsk -1\ntk_sta_tsk 4 0\ntk_unl_mtx 1\nend\nbody w task\ntk_loc_mtx 1 -1\ntk_chg_pri 0 30\ntk_loc_mtx 1 -1\ntk_ref_tsk 0\ntk_chg_pri 0 0\ntk_unl_mtx 1\ntk_chg_pri 0 0\ntk_loc_mtx 1 0\nend\nbody x task\nend\n",
    trace: b"0 D 1\n1 C 1 tk_cre_mtx 1\n2 C 1 tk_cre_tsk 2\n3 C 1 tk_cre_tsk 3\n4 C 1 tk_cre_tsk 4\n5 C 1 tk_sta_tsk 0\n5 D 2\n6 C 2 tk_loc_mtx 0\n7 B 2 tk_slp_tsk\n7 D 1\n8 C 1 tk_sta_tsk 0\n8 D 3\n9 C 3 tk_loc_mtx E_ILUSE\n10 C 3 tk_chg_pri 0\n11 B 3 tk_loc_mtx\n11 D 1\n12 C 1 tk_ref_mtx 0 2 3\n13 C 1 tk_chg_pri E_ILUSE\n14 C 1 tk_chg_pri E_ILUSE\n15 C 1 tk_chg_pri 0\n16 C 1 tk_chg_pri 0\n17 C 1 tk_ref_tsk 0 3 30 30 0 0\n18 C 1 tk_chg_pri E_ILUSE\n19 C 1 tk_chg_pri 0\n20 C 1 tk_ref_tsk 0 3 20 40 0 0\n21 C 1 tk_wup_tsk 0\n21 W 2 tk_slp_tsk 0\n21 D 2\n22 C 2 tk_sta_tsk 0\n23 C 2 tk_unl_mtx 0\n23 W 3 tk_loc_mtx 0\n23 D 4\n24 C 4 tk_ext_tsk 0\n24 D 3\n25 C 3 tk_ref_tsk 0 1 20 30 0 0\n26 C 3 tk_chg_pri E_ILUSE\n27 C 3 tk_unl_mtx 0\n28 C 3 tk_chg_pri 0\n29 C 3 tk_loc_mtx E_ILUSE\n30 C 3 tk_ext_tsk 0\n30 D 2\n31 C 2 tk_ext_tsk 0\n31 D 1\n32 C 1 tk_ext_tsk 0\n32 D 0\n32 END idle\n",
    status: Status::Done,
};

/// A task that waits for a mutex raises its owner, which waits itself and is served since it stands first now; a lock
/// that doesn't wait leaves all of that as it was.
const RAISED_AND_SERVED: Case = Case {
    words: "run",
    script: b"utk 1\nboot main 50\nbody main task\ntk_cre_mtx TA_INHERIT 0\ntk_cre_mpl TA_TPRI 16\ntk_cre_tsk - o 30 512\ntk_cre_tsk - h 20 512\ntk_cre_tsk - w 10 512\ntk_get_mpl 1 8 -1\ntk_sta_tsk 3 0\ntk_sta_tsk 2 0\ntk_ref_mpl 1\ntk_sta_tsk 4 0\ntk_rel_mpl 1 0\ntk_rel_mpl 1 8\nend\nbody o task\ntk_loc_mtx 1 -1\ntk_get_mpl 1 8 -1\ntk_ref_tsk 0\ntk_unl_mtx 1\nend\nbody h task\ntk_get_mpl 1 16 -1\nend\nbody w task\ntk_loc_mtx 1 0\ntk_ref_mpl 1\ntk_ref_tsk 2\ntk_loc_mtx 1 -1\nend\n",
    trace: b"0 D 1\n1 C 1 tk_cre_mtx 1\n2 C 1 tk_cre_mpl 1\n3 C 1 tk_cre_tsk 2\n4 C 1 tk_cre_tsk 3\n5 C 1 tk_cre_tsk 4\n6 C 1 tk_get_mpl 0\n7 C 1 tk_sta_tsk 0\n7 D 3\n8 B 3 tk_get_mpl\n8 D 1\n9 C 1 tk_sta_tsk 0\n9 D 2\n10 C 2 tk_loc_mtx 0\n11 B 2 tk_get_mpl\n11 D 1\n12 C 1 tk_ref_mpl 0 8 8 3\n13 C 1 tk_sta_tsk 0\n13 D 4\n14 C 4 tk_loc_mtx E_TMOUT\n15 C 4 tk_ref_mpl 0 8 8 3\n16 C 4 tk_ref_tsk 0 3 30 30 0 0\n17 B 4 tk_loc_mtx\n17 W 2 tk_get_mpl 8\n17 D 2\n18 C 2 tk_ref_tsk 0 1 10 30 0 0\n19 C 2 tk_unl_mtx 0\n19 W 4 tk_loc_mtx 0\n19 D 4\n20 C 4 tk_ext_tsk 0\n20 D 2\n21 C 2 tk_ext_tsk 0\n21 D 1\n22 C 1 tk_rel_mpl 0\n23 C 1 tk_rel_mpl 0\n23 W 3 tk_get_mpl 0\n23 D 3\n24 C 3 tk_ext_tsk 0\n24 D 1\n25 C 1 tk_ext_tsk 0\n25 D 0\n25 END idle\n",
    status: Status::Done,
};

/// An owner has the highest priority of all that wait for its mutexes, a suspended one among them; an unlock leaves it
/// that of the others, and a suspended waiter owns what it is given, under the priority of its own waiter.
const WHAT_IS_LEFT: Case = Case {
    words: "run",
    script: b"utk 1\nboot main 50\nbody main task\ntk_cre_mtx TA_INHERIT 0\ntk_cre_mtx TA_INHERIT 0\ntk_cre_tsk - p 30 512\ntk_cre_tsk - q 25 512\ntk_cre_tsk - q 20 512\ntk_loc_mtx 1 -1\ntk_loc_mtx 2 -1\ntk_sta_tsk 2 0\ntk_sta_tsk 3 0\ntk_sta_tsk 4 0\ntk_ref_tsk 0\ntk_sus_tsk 4\ntk_ref_tsk 0\ntk_unl_mtx 2\ntk_ref_tsk 4\ntk_ref_mtx 2\ntk_ref_tsk 0\ntk_chg_pri 4 60\ntk_ref_tsk 4\ntk_rsm_tsk 4\ntk_unl_mtx 1\nend\nbody p task\ntk_loc_mtx 1 -1\ntk_ref_tsk 1\nend\nbody q task\ntk_loc_mtx 2 -1\ntk_ref_tsk 1\nend\n",
    trace: b"0 D 1\n1 C 1 tk_cre_mtx 1\n2 C 1 tk_cre_mtx 2\n3 C 1 tk_cre_tsk 2\n4 C 1 tk_cre_tsk 3\n5 C 1 tk_cre_tsk 4\n6 C 1 tk_loc_mtx 0\n7 C 1 tk_loc_mtx 0\n8 C 1 tk_sta_tsk 0\n8 D 2\n9 B 2 tk_loc_mtx\n9 D 1\n10 C 1 tk_sta_tsk 0\n10 D 3\n11 B 3 tk_loc_mtx\n11 D 1\n12 C 1 tk_sta_tsk 0\n12 D 4\n13 B 4 tk_loc_mtx\n13 D 1\n14 C 1 tk_ref_tsk 0 1 20 50 0 0\n15 C 1 tk_sus_tsk 0\n16 C 1 tk_ref_tsk 0 1 20 50 0 0\n17 C 1 tk_unl_mtx 0\n17 W 4 tk_loc_mtx 0\n18 C 1 tk_ref_tsk 0 4 20 20 0 1\n19 C 1 tk_ref_mtx 0 4 3\n20 C 1 tk_ref_tsk 0 1 30 50 0 0\n21 C 1 tk_chg_pri 0\n22 C 1 tk_ref_tsk 0 4 25 60 0 1\n23 C 1 tk_rsm_tsk 0\n23 D 4\n24 C 4 tk_ref_tsk 0 2 30 50 0 0\n25 C 4 tk_ext_tsk 0\n25 W 3 tk_loc_mtx 0\n25 D 3\n26 C 3 tk_ref_tsk 0 2 30 50 0 0\n27 C 3 tk_ext_tsk 0\n27 D 1\n28 C 1 tk_unl_mtx 0\n28 W 2 tk_loc_mtx 0\n28 D 2\n29 C 2 tk_ref_tsk 0 2 50 50 0 0\n30 C 2 tk_ext_tsk 0\n30 D 1\n31 C 1 tk_ext_tsk 0\n31 D 0\n31 END idle\n",
    status: Status::Done,
};

/// Of each kind a mutex that is owned, and for which three tasks wait, is deleted: its owner has its own priority
/// again, and the waits end as they began, or by priority, where a task whose priority is set anew stands behind its
/// equals.
const DELETED_WITH_WAITERS: Case = Case {
    words: "run",
    script: b"utk 1\nboot main 50\nbody main task\ntk_cre_mtx TA_TFIFO 0\ntk_cre_mtx TA_TPRI 0\ntk_cre_mtx TA_INHERIT 0\ntk_cre_mtx TA_CEILING 15\ntk_cre_tsk - w 30 512\ntk_cre_tsk - w 20 512\ntk_cre_tsk - w 20 512\nset r8 1\nlabel again\ntk_loc_mtx r8 -1\ntk_sta_tsk 2 r8\ntk_sta_tsk 3 r8\ntk_sta_tsk 4 r8\ntk_dly_tsk 1\ntk_ref_mtx r8\ntk_chg_pri 3 20\ntk_ref_mtx r8\ntk_ref_tsk 0\ntk_del_mtx r8\ntk_ref_tsk 0\ntk_unl_mtx r8\nadd r8 1\njlt r8 5 again\nend\nbody w task\ntk_loc_mtx r1 -1\nend\n",
    trace: b"0 D 1\n1 C 1 tk_cre_mtx 1\n2 C 1 tk_cre_mtx 2\n3 C 1 tk_cre_mtx 3\n4 C 1 tk_cre_mtx 4\n5 C 1 tk_cre_tsk 2\n6 C 1 tk_cre_tsk 3\n7 C 1 tk_cre_tsk 4\n9 C 1 tk_loc_mtx 0\n10 C 1 tk_sta_tsk 0\n10 D 2\n11 B 2 tk_loc_mtx\n11 D 1\n12 C 1 tk_sta_tsk 0\n12 D 3\n13 B 3 tk_loc_mtx\n13 D 1\n14 C 1 tk_sta_tsk 0\n14 D 4\n15 B 4 tk_loc_mtx\n15 D 1\n16 B 1 tk_dly_tsk\n16 D 0\n17 K 1\n18 K 2\n18 W 1 tk_dly_tsk 0\n18 D 1\n19 C 1 tk_ref_mtx 0 1 2\n20 C 1 tk_chg_pri 0\n21 C 1 tk_ref_mtx 0 1 2\n22 C 1 tk_ref_tsk 0 1 50 50 0 0\n23 C 1 tk_del_mtx 0\n23 W 2 tk_loc_mtx E_DLT\n23 W 3 tk_loc_mtx E_DLT\n23 W 4 tk_loc_mtx E_DLT\n23 D 3\n24 C 3 tk_ext_tsk 0\n24 D 4\n25 C 4 tk_ext_tsk 0\n25 D 2\n26 C 2 tk_ext_tsk 0\n26 D 1\n27 C 1 tk_ref_tsk 0 1 50 50 0 0\n28 C 1 tk_unl_mtx E_NOEXS\n31 C 1 tk_loc_mtx 0\n32 C 1 tk_sta_tsk 0\n32 D 2\n33 B 2 tk_loc_mtx\n33 D 1\n34 C 1 tk_sta_tsk 0\n34 D 3\n35 B 3 tk_loc_mtx\n35 D 1\n36 C 1 tk_sta_tsk 0\n36 D 4\n37 B 4 tk_loc_mtx\n37 D 1\n38 B 1 tk_dly_tsk\n38 D 0\n39 K 3\n40 K 4\n40 W 1 tk_dly_tsk 0\n40 D 1\n41 C 1 tk_ref_mtx 0 1 3\n42 C 1 tk_chg_pri 0\n43 C 1 tk_ref_mtx 0 1 4\n44 C 1 tk_ref_tsk 0 1 50 50 0 0\n45 C 1 tk_del_mtx 0\n45 W 4 tk_loc_mtx E_DLT\n45 W 3 tk_loc_mtx E_DLT\n45 W 2 tk_loc_mtx E_DLT\n45 D 4\n46 C 4 tk_ext_tsk 0\n46 D 3\n47 C 3 tk_ext_tsk 0\n47 D 2\n48 C 2 tk_ext_tsk 0\n48 D 1\n49 C 1 tk_ref_tsk 0 1 50 50 0 0\n50 C 1 tk_unl_mtx E_NOEXS\n53 C 1 tk_loc_mtx 0\n54 C 1 tk_sta_tsk 0\n54 D 2\n55 B 2 tk_loc_mtx\n55 D 1\n56 C 1 tk_sta_tsk 0\n56 D 3\n57 B 3 tk_loc_mtx\n57 D 1\n58 C 1 tk_sta_tsk 0\n59 B 1 tk_dly_tsk\n59 D 4\n60 B 4 tk_loc_mtx\n60 D 0\n61 K 5\n62 K 6\n62 W 1 tk_dly_tsk 0\n62 D 1\n63 C 1 tk_ref_mtx 0 1 3\n64 C 1 tk_chg_pri 0\n65 C 1 tk_ref_mtx 0 1 4\n66 C 1 tk_ref_tsk 0 1 20 50 0 0\n67 C 1 tk_del_mtx 0\n67 W 4 tk_loc_mtx E_DLT\n67 W 3 tk_loc_mtx E_DLT\n67 W 2 tk_loc_mtx E_DLT\n67 D 4\n68 C 4 tk_ext_tsk 0\n68 D 3\n69 C 3 tk_ext_tsk 0\n69 D 2\n70 C 2 tk_ext_tsk 0\n70 D 1\n71 C 1 tk_ref_tsk 0 1 50 50 0 0\n72 C 1 tk_unl_mtx E_NOEXS\n75 C 1 tk_loc_mtx 0\n76 C 1 tk_sta_tsk 0\n77 C 1 tk_sta_tsk 0\n78 C 1 tk_sta_tsk 0\n79 B 1 tk_dly_tsk\n79 D 3\n80 B 3 tk_loc_mtx\n80 D 4\n81 B 4 tk_loc_mtx\n81 D 2\n82 B 2 tk_loc_mtx\n82 D 0\n83 K 7\n84 K 8\n84 W 1 tk_dly_tsk 0\n84 D 1\n85 C 1 tk_ref_mtx 0 1 3\n86 C 1 tk_chg_pri 0\n87 C 1 tk_ref_mtx 0 1 4\n88 C 1 tk_ref_tsk 0 1 15 50 0 0\n89 C 1 tk_del_mtx 0\n89 W 4 tk_loc_mtx E_DLT\n89 W 3 tk_loc_mtx E_DLT\n89 W 2 tk_loc_mtx E_DLT\n89 D 4\n90 C 4 tk_ext_tsk 0\n90 D 3\n91 C 3 tk_ext_tsk 0\n91 D 2\n92 C 2 tk_ext_tsk 0\n92 D 1\n93 C 1 tk_ref_tsk 0 1 50 50 0 0\n94 C 1 tk_unl_mtx E_NOEXS\n97 C 1 tk_ext_tsk 0\n97 D 0\n97 END idle\n",
    status: Status::Done,
};

/// A task with requests and suspensions holds a mutex that hands on and one with a ceiling, both awaited, and is
/// terminated while it waits: it has lost all that, and its priorities are those of its creation. The mutex that it
/// locked last goes first to its waiter. Started anew it holds nothing.
const TERMINATED_OWNER: Case = Case {
    words: "run",
    script: b"utk 1\nboot main 50\nbody main task\ntk_cre_mtx TA_INHERIT 0\ntk_cre_mtx TA_CEILING 15\ntk_cre_tsk - owner 40 512\ntk_cre_tsk - one 30 512\ntk_cre_tsk - two 30 512\ntk_sta_tsk 2 0\ntk_chg_pri 2 35\ntk_sta_tsk 3 0\ntk_sta_tsk 4 0\ntk_wup_tsk 2\ntk_sus_tsk 2\ntk_sus_tsk 2\ntk_ref_tsk 2\ntk_ref_mtx 1\ntk_ref_mtx 2\ntk_ter_tsk 2\ntk_ref_tsk 2\ntk_ref_mtx 1\ntk_ref_mtx 2\ntk_sta_tsk 2 1\nend\nbody owner task\njeq r1 1 anew\ntk_loc_mtx 1 -1\ntk_loc_mtx 2 -1\ntk_dly_tsk 100\nlabel anew\ntk_ref_tsk 0\ntk_unl_mtx 1\ntk_loc_mtx 1 -1\nend\nbody one task\ntk_loc_mtx 1 -1\ntk_ref_tsk 0\ntk_slp_tsk 2\nend\nbody two task\ntk_loc_mtx 2 -1\ntk_ref_tsk 0\ntk_slp_tsk 1\ntk_unl_mtx 2\ntk_ref_tsk 0\nend\n",
    trace: b"0 D 1\n1 C 1 tk_cre_mtx 1\n2 C 1 tk_cre_mtx 2\n3 C 1 tk_cre_tsk 2\n4 C 1 tk_cre_tsk 3\n5 C 1 tk_cre_tsk 4\n6 C 1 tk_sta_tsk 0\n6 D 2\n8 C 2 tk_loc_mtx 0\n9 C 2 tk_loc_mtx 0\n10 B 2 tk_dly_tsk\n10 D 1\n11 C 1 tk_chg_pri 0\n12 C 1 tk_sta_tsk 0\n12 D 3\n13 B 3 tk_loc_mtx\n13 D 1\n14 C 1 tk_sta_tsk 0\n14 D 4\n15 B 4 tk_loc_mtx\n15 D 1\n16 C 1 tk_wup_tsk 0\n17 C 1 tk_sus_tsk 0\n18 C 1 tk_sus_tsk 0\n19 C 1 tk_ref_tsk 0 5 15 35 1 2\n20 C 1 tk_ref_mtx 0 2 3\n21 C 1 tk_ref_mtx 0 2 4\n22 C 1 tk_ter_tsk 0\n22 W 4 tk_loc_mtx 0\n22 W 3 tk_loc_mtx 0\n22 D 4\n23 C 4 tk_ref_tsk 0 1 15 30 0 0\n24 B 4 tk_slp_tsk\n24 D 3\n25 C 3 tk_ref_tsk 0 1 30 30 0 0\n26 B 3 tk_slp_tsk\n26 D 1\n27 C 1 tk_ref_tsk 0 6 40 40 0 0\n28 C 1 tk_ref_mtx 0 3 0\n29 C 1 tk_ref_mtx 0 4 0\n30 C 1 tk_sta_tsk 0\n30 D 2\n32 C 2 tk_ref_tsk 0 1 40 40 0 0\n33 C 2 tk_unl_mtx E_ILUSE\n34 B 2 tk_loc_mtx\n34 D 1\n35 C 1 tk_ext_tsk 0\n35 D 0\n36 K 1\n37 K 2\n37 W 4 tk_slp_tsk E_TMOUT\n37 D 4\n38 C 4 tk_unl_mtx 0\n39 C 4 tk_ref_tsk 0 1 30 30 0 0\n40 C 4 tk_ext_tsk 0\n40 D 0\n41 K 3\n41 W 3 tk_slp_tsk E_TMOUT\n41 D 3\n42 C 3 tk_ext_tsk 0\n42 W 2 tk_loc_mtx 0\n42 D 2\n43 C 2 tk_ext_tsk 0\n43 D 0\n43 END idle\n",
    status: Status::Done,
};

/// Three tasks wait for each other's mutex, and all have the highest priority of the cycle, also where that is raised
/// from outside or lowered again. A time-out ends the cycle: then each has what its waiters lend, and the mutexes are
/// handed round.
const CYCLE_OF_THREE: Case = Case {
    words: "run",
    script: b"utk 1\nboot main 50\nbody main task\ntk_cre_mtx TA_INHERIT 0\ntk_cre_mtx TA_INHERIT 0\ntk_cre_mtx TA_INHERIT 0\ntk_cre_tsk - t 40 512\ntk_cre_tsk - t 30 512\ntk_cre_tsk - t 20 512\ntk_cre_tsk - out 5 512\ntk_sta_tsk 2 1\ntk_sta_tsk 3 2\ntk_sta_tsk 4 3\ntk_wup_tsk 2\ntk_wup_tsk 3\ntk_wup_tsk 4\ntk_ref_tsk 2\ntk_ref_tsk 3\ntk_ref_tsk 4\ntk_sta_tsk 5 0\ntk_ref_tsk 2\ntk_rel_wai 5\ntk_chg_pri 3 10\ntk_ref_tsk 2\ntk_chg_pri 3 45\ntk_ref_tsk 2\ntk_dly_tsk 3\ntk_ref_tsk 2\nend\nbody t task\nset r8 r1\nset r9 r1\nadd r9 1\njlt r9 4 on\nset r9 1\nlabel on\ntk_loc_mtx r8 -1\ntk_slp_tsk -1\njeq r8 3 last\ntk_loc_mtx r9 -1\ntk_unl_mtx r9\ntk_unl_mtx r8\ntk_ext_tsk\nlabel last\ntk_loc_mtx r9 2\ntk_ref_tsk 2\ntk_ref_tsk 3\ntk_ref_tsk 4\ntk_unl_mtx r8\ntk_ref_tsk 0\nend\nbody out task\ntk_loc_mtx 1 -1\nend\n",
    trace: b"0 D 1\n1 C 1 tk_cre_mtx 1\n2 C 1 tk_cre_mtx 2\n3 C 1 tk_cre_mtx 3\n4 C 1 tk_cre_tsk 2\n5 C 1 tk_cre_tsk 3\n6 C 1 tk_cre_tsk 4\n7 C 1 tk_cre_tsk 5\n8 C 1 tk_sta_tsk 0\n8 D 2\n13 C 2 tk_loc_mtx 0\n14 B 2 tk_slp_tsk\n14 D 1\n15 C 1 tk_sta_tsk 0\n15 D 3\n20 C 3 tk_loc_mtx 0\n21 B 3 tk_slp_tsk\n21 D 1\n22 C 1 tk_sta_tsk 0\n22 D 4\n28 C 4 tk_loc_mtx 0\n29 B 4 tk_slp_tsk\n29 D 1\n30 C 1 tk_wup_tsk 0\n30 W 2 tk_slp_tsk 0\n30 D 2\n32 B 2 tk_loc_mtx\n32 D 1\n33 C 1 tk_wup_tsk 0\n33 W 3 tk_slp_tsk 0\n33 D 3\n35 B 3 tk_loc_mtx\n35 D 1\n36 C 1 tk_wup_tsk 0\n36 W 4 tk_slp_tsk 0\n36 D 4\n38 B 4 tk_loc_mtx\n38 D 1\n39 C 1 tk_ref_tsk 0 3 20 40 0 0\n40 C 1 tk_ref_tsk 0 3 20 30 0 0\n41 C 1 tk_ref_tsk 0 3 20 20 0 0\n42 C 1 tk_sta_tsk 0\n42 D 5\n43 B 5 tk_loc_mtx\n43 D 1\n44 C 1 tk_ref_tsk 0 3 5 40 0 0\n45 C 1 tk_rel_wai 0\n45 W 5 tk_loc_mtx E_RLWAI\n45 D 5\n46 C 5 tk_ext_tsk 0\n46 D 1\n47 C 1 tk_chg_pri 0\n48 C 1 tk_ref_tsk 0 3 10 40 0 0\n49 C 1 tk_chg_pri 0\n50 C 1 tk_ref_tsk 0 3 20 40 0 0\n51 B 1 tk_dly_tsk\n51 D 0\n52 K 1\n53 K 2\n54 K 3\n54 W 4 tk_loc_mtx E_TMOUT\n54 D 4\n55 C 4 tk_ref_tsk 0 3 40 40 0 0\n56 C 4 tk_ref_tsk 0 3 40 45 0 0\n57 C 4 tk_ref_tsk 0 1 20 20 0 0\n58 C 4 tk_unl_mtx 0\n58 W 3 tk_loc_mtx 0\n59 C 4 tk_ref_tsk 0 1 20 20 0 0\n60 C 4 tk_ext_tsk 0\n60 D 3\n61 C 3 tk_unl_mtx 0\n62 C 3 tk_unl_mtx 0\n62 W 2 tk_loc_mtx 0\n62 D 2\n63 C 2 tk_unl_mtx 0\n64 C 2 tk_unl_mtx 0\n65 C 2 tk_ext_tsk 0\n65 D 3\n66 C 3 tk_ext_tsk 0\n66 D 0\n67 K 4\n67 W 1 tk_dly_tsk 0\n67 D 1\n68 C 1 tk_ref_tsk 0 6 40 40 0 0\n69 C 1 tk_ext_tsk 0\n69 D 0\n69 END idle\n",
    status: Status::Done,
};

/// Three ceilings in each other, with a mutex between them that hands a priority on: the highest of all that is held
/// counts, in whatever order they are unlocked. A task of equal priority stands before the one that falls to it. No
/// base is above a ceiling that is held.
const CEILINGS_IN_EACH_OTHER: Case = Case {
    words: "run",
    script: b"utk 1\nboot main 50\nbody main task\ntk_cre_mtx TA_CEILING 30\ntk_cre_mtx TA_CEILING 20\ntk_cre_mtx TA_INHERIT 0\ntk_cre_mtx TA_CEILING 10\ntk_cre_tsk - w 15 512\ntk_cre_tsk - e 20 512\ntk_loc_mtx 1 -1\ntk_ref_tsk 0\ntk_loc_mtx 2 -1\ntk_loc_mtx 3 -1\ntk_loc_mtx 4 -1\ntk_ref_tsk 0\ntk_chg_pri 0 29\ntk_chg_pri 0 30\ntk_sta_tsk 2 0\ntk_sta_tsk 3 0\ntk_unl_mtx 4\ntk_ref_tsk 0\ntk_unl_mtx 1\ntk_unl_mtx 3\ntk_ref_tsk 0\ntk_chg_pri 0 19\ntk_chg_pri 0 25\ntk_unl_mtx 2\ntk_ref_tsk 0\nend\nbody w task\ntk_loc_mtx 3 -1\ntk_ref_tsk 1\ntk_unl_mtx 3\ntk_loc_mtx 4 0\ntk_loc_mtx 1 0\nend\nbody e task\ntk_ref_tsk 1\nend\n",
    trace: b"0 D 1\n1 C 1 tk_cre_mtx 1\n2 C 1 tk_cre_mtx 2\n3 C 1 tk_cre_mtx 3\n4 C 1 tk_cre_mtx 4\n5 C 1 tk_cre_tsk 2\n6 C 1 tk_cre_tsk 3\n7 C 1 tk_loc_mtx 0\n8 C 1 tk_ref_tsk 0 1 30 50 0 0\n9 C 1 tk_loc_mtx 0\n10 C 1 tk_loc_mtx 0\n11 C 1 tk_loc_mtx 0\n12 C 1 tk_ref_tsk 0 1 10 50 0 0\n13 C 1 tk_chg_pri E_ILUSE\n14 C 1 tk_chg_pri 0\n15 C 1 tk_sta_tsk 0\n16 C 1 tk_sta_tsk 0\n17 C 1 tk_unl_mtx 0\n17 D 2\n18 B 2 tk_loc_mtx\n18 D 1\n19 C 1 tk_ref_tsk 0 1 15 30 0 0\n20 C 1 tk_unl_mtx 0\n21 C 1 tk_unl_mtx 0\n21 W 2 tk_loc_mtx 0\n21 D 2\n22 C 2 tk_ref_tsk 0 2 20 30 0 0\n23 C 2 tk_unl_mtx 0\n24 C 2 tk_loc_mtx 0\n25 C 2 tk_loc_mtx E_ILUSE\n26 C 2 tk_ext_tsk 0\n26 D 3\n27 C 3 tk_ref_tsk 0 2 20 30 0 0\n28 C 3 tk_ext_tsk 0\n28 D 1\n29 C 1 tk_ref_tsk 0 1 20 30 0 0\n30 C 1 tk_chg_pri E_ILUSE\n31 C 1 tk_chg_pri 0\n32 C 1 tk_unl_mtx 0\n33 C 1 tk_ref_tsk 0 1 25 25 0 0\n34 C 1 tk_ext_tsk 0\n34 D 0\n34 END idle\n",
    status: Status::Done,
};

/// Errors and ceilings of mutexes, and the priorities that are inherited.
#[test]
fn mutexes_run(rt: HostRuntime) -> Result<(), Fail> {
    for case in [
        EVERY_ERROR,
        TWO_CEILINGS,
        LOWERED_BY_A_TIME_OUT,
        CYCLE_OF_OWNERS,
        CHAIN_OF_FOUR,
        BASES_AND_CEILINGS,
        RAISED_AND_SERVED,
        WHAT_IS_LEFT,
        DELETED_WITH_WAITERS,
        TERMINATED_OWNER,
        CYCLE_OF_THREE,
        CEILINGS_IN_EACH_OTHER,
    ] {
        let (status, output) = outcome(&rt, rt.alloc(), case.words, case.script)?;
        assert_eq!(rt; output.as_slice(), case.trace);
        assert_eq!(rt; status, case.status);
    }
    Ok(())
}

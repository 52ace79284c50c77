//! Runs that were worked out by hand: fixed and variable memory pools, and the simulated memory that they share with others.

use crate::task_runs::Case;
use crate::tests::outcome;
use std::test::Fail;
use tk_run::Status;

/// The errors of the calls on pools in their order; the least free number or offset is given, sizes are rounded up to
/// 8, the largest gap is shown, and a block is taken back once.
const EVERY_ERROR: Case = Case {
    words: "run",
    script: b"utk 1\nboot main 10\nbody main task\ntk_cre_mpf TA_MPRI 0 1\ntk_cre_mpf TA_TFIFO|TA_TPRI 2 8\ntk_cre_mpf - 0 8\ntk_cre_mpf - 1025 1\ntk_cre_mpf - 1 0\ntk_cre_mpf - 1 65537\ntk_cre_mpf - 1024 65536\ntk_cre_mpf - 3 16\ntk_get_mpf 0 -2\ntk_get_mpf 2 -2\ntk_get_mpf 2 -1\ntk_get_mpf 1 0\ntk_get_mpf 1 0\ntk_get_mpf 1 0\ntk_rel_mpf 0 -1\ntk_rel_mpf 2 -1\ntk_rel_mpf 2 1\ntk_rel_mpf 1 0\ntk_rel_mpf 1 4\ntk_rel_mpf 1 3\ntk_rel_mpf 1 3\ntk_rel_mpf 1 1\ntk_get_mpf 1 0\ntk_ref_mpf 1\ntk_ref_mpf 65\ntk_ref_mpf 2\ntk_del_mpf 0\ntk_del_mpf 2\ntk_cre_mpl TA_CNT 64\ntk_cre_mpl TA_TFIFO|TA_TPRI 7\ntk_cre_mpl - 7\ntk_cre_mpl - 65537\ntk_cre_mpl - 57\ntk_ref_mpl 1\ntk_get_mpl 0 0 -1\ntk_get_mpl 2 0 -1\ntk_get_mpl 2 8 -2\ntk_get_mpl 2 65 -1\ntk_get_mpl 1 65 -1\ntk_get_mpl 1 2147483647 -1\ntk_get_mpl 1 1 -1\ntk_get_mpl 1 9 -1\ntk_get_mpl 1 8 -1\ntk_get_mpl 1 17 -1\ntk_ref_mpl 1\ntk_rel_mpl 1 8\ntk_rel_mpl 1 32\ntk_ref_mpl 1\ntk_get_mpl 1 33 0\ntk_get_mpl 1 25 0\ntk_get_mpl 1 16 0\ntk_rel_mpl 1 8\ntk_rel_mpl 1 8\ntk_rel_mpl 1 33\ntk_rel_mpl 65 -8\ntk_rel_mpl 2 -8\ntk_rel_mpl 2 8\ntk_ref_mpl 0\ntk_ref_mpl 2\ntk_del_mpl 65\ntk_del_mpl 2\ntk_del_mpl 1\ntk_cre_mpl - 65529\ntk_get_mpl 1 65536 -1\nend\n",
    trace: b"0 D 1\n1 C 1 tk_cre_mpf E_RSATR\n2 C 1 tk_cre_mpf E_RSATR\n3 C 1 tk_cre_mpf E_PAR\n4 C 1 tk_cre_mpf E_PAR\n5 C 1 tk_cre_mpf E_PAR\n6 C 1 tk_cre_mpf E_PAR\n7 C 1 tk_cre_mpf E_NOMEM\n8 C 1 tk_cre_mpf 1\n9 C 1 tk_get_mpf E_ID\n10 C 1 tk_get_mpf E_PAR\n11 C 1 tk_get_mpf E_NOEXS\n12 C 1 tk_get_mpf 1\n13 C 1 tk_get_mpf 2\n14 C 1 tk_get_mpf 3\n15 C 1 tk_rel_mpf E_ID\n16 C 1 tk_rel_mpf E_PAR\n17 C 1 tk_rel_mpf E_NOEXS\n18 C 1 tk_rel_mpf E_PAR\n19 C 1 tk_rel_mpf E_PAR\n20 C 1 tk_rel_mpf 0\n21 C 1 tk_rel_mpf E_PAR\n22 C 1 tk_rel_mpf 0\n23 C 1 tk_get_mpf 1\n24 C 1 tk_ref_mpf 0 1 0\n25 C 1 tk_ref_mpf E_ID\n26 C 1 tk_ref_mpf E_NOEXS\n27 C 1 tk_del_mpf E_ID\n28 C 1 tk_del_mpf E_NOEXS\n29 C 1 tk_cre_mpl E_RSATR\n30 C 1 tk_cre_mpl E_RSATR\n31 C 1 tk_cre_mpl E_PAR\n32 C 1 tk_cre_mpl E_PAR\n33 C 1 tk_cre_mpl 1\n34 C 1 tk_ref_mpl 0 64 64 0\n35 C 1 tk_get_mpl E_ID\n36 C 1 tk_get_mpl E_PAR\n37 C 1 tk_get_mpl E_PAR\n38 C 1 tk_get_mpl E_NOEXS\n39 C 1 tk_get_mpl E_PAR\n40 C 1 tk_get_mpl E_PAR\n41 C 1 tk_get_mpl 0\n42 C 1 tk_get_mpl 8\n43 C 1 tk_get_mpl 24\n44 C 1 tk_get_mpl 32\n45 C 1 tk_ref_mpl 0 8 8 0\n46 C 1 tk_rel_mpl 0\n47 C 1 tk_rel_mpl 0\n48 C 1 tk_ref_mpl 0 48 32 0\n49 C 1 tk_get_mpl E_TMOUT\n50 C 1 tk_get_mpl 32\n51 C 1 tk_get_mpl 8\n52 C 1 tk_rel_mpl 0\n53 C 1 tk_rel_mpl E_PAR\n54 C 1 tk_rel_mpl E_PAR\n55 C 1 tk_rel_mpl E_ID\n56 C 1 tk_rel_mpl E_PAR\n57 C 1 tk_rel_mpl E_NOEXS\n58 C 1 tk_ref_mpl E_ID\n59 C 1 tk_ref_mpl E_NOEXS\n60 C 1 tk_del_mpl E_ID\n61 C 1 tk_del_mpl E_NOEXS\n62 C 1 tk_del_mpl 0\n63 C 1 tk_cre_mpl 1\n64 C 1 tk_get_mpl 0\n65 C 1 tk_ext_tsk 0\n65 D 0\n65 END idle\n",
    status: Status::Done,
};

/// A variable pool gives the least offset where a size fits, and takes back what begins there.
const LEAST_GAP: Case = Case {
    words: "run",
    script: b"utk 1\nboot main 10\nbody main task\ntk_cre_mpl - 64\ntk_get_mpl 1 16 0\ntk_get_mpl 1 17 0\ntk_get_mpl 1 24 0\ntk_rel_mpl 1 16\ntk_get_mpl 1 25 0\ntk_get_mpl 1 18 0\ntk_rel_mpl 1 16\ntk_rel_mpl 1 16\nend\n",
    trace: b"0 D 1\n1 C 1 tk_cre_mpl 1\n2 C 1 tk_get_mpl 0\n3 C 1 tk_get_mpl 16\n4 C 1 tk_get_mpl 40\n5 C 1 tk_rel_mpl 0\n6 C 1 tk_get_mpl E_TMOUT\n7 C 1 tk_get_mpl 16\n8 C 1 tk_rel_mpl 0\n9 C 1 tk_rel_mpl E_PAR\n10 C 1 tk_ext_tsk 0\n10 D 0\n10 END idle\n",
    status: Status::Done,
};

/// The first waiter by priority, whose size has no room, keeps those behind it waiting, until its time-out, its release
/// or a waiter's new priority lets another stand first, which is served at once, even in the tick of its own time-out.
const FIRST_WITHOUT_ROOM: Case = Case {
    words: "run",
    script: b"utk 1\nboot main 50\nbody main task\ntk_cre_mpl TA_TPRI 64\ntk_cre_tsk - g 30 512\ntk_cre_tsk - g 20 512\ntk_cre_tsk - g 40 512\ntk_get_mpl 1 24 -1\ntk_get_mpl 1 16 -1\ntk_get_mpl 1 10 -1\ntk_sta_tsk 4 16\ntk_sta_tsk 3 33\ntk_sta_tsk 2 8\ntk_ref_mpl 1\ntk_get_mpl 1 8 0\ntk_rel_mpl 1 24\ntk_ref_mpl 1\ntk_dly_tsk 2\ntk_ref_mpl 1\ntk_sta_tsk 3 64\ntk_sta_tsk 4 8\ntk_chg_pri 4 10\ntk_sta_tsk 2 3\ntk_rel_wai 3\ntk_ref_mpl 1\ntk_sta_tsk 2 1\ntk_sta_tsk 3 1\ntk_rel_mpl 1 0\ntk_sta_tsk 2 9\ntk_sta_tsk 3 9\ntk_del_mpl 1\nend\nbody g task\ntk_get_mpl 1 r1 1\nend\n",
    trace: b"0 D 1\n1 C 1 tk_cre_mpl 1\n2 C 1 tk_cre_tsk 2\n3 C 1 tk_cre_tsk 3\n4 C 1 tk_cre_tsk 4\n5 C 1 tk_get_mpl 0\n6 C 1 tk_get_mpl 24\n7 C 1 tk_get_mpl 40\n8 C 1 tk_sta_tsk 0\n8 D 4\n9 B 4 tk_get_mpl\n9 D 1\n10 C 1 tk_sta_tsk 0\n10 D 3\n11 B 3 tk_get_mpl\n11 D 1\n12 C 1 tk_sta_tsk 0\n12 D 2\n13 B 2 tk_get_mpl\n13 D 1\n14 C 1 tk_ref_mpl 0 8 8 3\n15 C 1 tk_get_mpl E_TMOUT\n16 C 1 tk_rel_mpl 0\n17 C 1 tk_ref_mpl 0 24 16 3\n18 B 1 tk_dly_tsk\n18 D 0\n19 K 1\n20 K 2\n20 W 4 tk_get_mpl E_TMOUT\n20 W 3 tk_get_mpl E_TMOUT\n20 W 2 tk_get_mpl 24\n20 D 3\n21 C 3 tk_ext_tsk 0\n21 D 2\n22 C 2 tk_ext_tsk 0\n22 D 4\n23 C 4 tk_ext_tsk 0\n23 D 0\n24 K 3\n24 W 1 tk_dly_tsk 0\n24 D 1\n25 C 1 tk_ref_mpl 0 16 8 0\n26 C 1 tk_sta_tsk 0\n26 D 3\n27 B 3 tk_get_mpl\n27 D 1\n28 C 1 tk_sta_tsk 0\n28 D 4\n29 B 4 tk_get_mpl\n29 D 1\n30 C 1 tk_chg_pri 0\n30 W 4 tk_get_mpl 32\n30 D 4\n31 C 4 tk_ext_tsk 0\n31 D 1\n32 C 1 tk_sta_tsk 0\n32 D 2\n33 B 2 tk_get_mpl\n33 D 1\n34 C 1 tk_rel_wai 0\n34 W 3 tk_get_mpl E_RLWAI\n34 W 2 tk_get_mpl 56\n34 D 3\n35 C 3 tk_ext_tsk 0\n35 D 2\n36 C 2 tk_ext_tsk 0\n36 D 1\n37 C 1 tk_ref_mpl 0 0 0 0\n38 C 1 tk_sta_tsk 0\n38 D 2\n39 B 2 tk_get_mpl\n39 D 1\n40 C 1 tk_sta_tsk 0\n40 D 3\n41 B 3 tk_get_mpl\n41 D 1\n42 C 1 tk_rel_mpl 0\n42 W 3 tk_get_mpl 0\n42 W 2 tk_get_mpl 8\n42 D 3\n43 C 3 tk_ext_tsk 0\n43 D 2\n44 C 2 tk_ext_tsk 0\n44 D 1\n45 C 1 tk_sta_tsk 0\n45 D 2\n46 B 2 tk_get_mpl\n46 D 1\n47 C 1 tk_sta_tsk 0\n47 D 3\n48 B 3 tk_get_mpl\n48 D 1\n49 C 1 tk_del_mpl 0\n49 W 3 tk_get_mpl E_DLT\n49 W 2 tk_get_mpl E_DLT\n49 D 3\n50 C 3 tk_ext_tsk 0\n50 D 2\n51 C 2 tk_ext_tsk 0\n51 D 1\n52 C 1 tk_ext_tsk 0\n52 D 0\n52 END idle\n",
    status: Status::Done,
};

/// A block that is given back goes to the first waiter by priority; the waits of others end by release, deletion in
/// that order, and time-out, and a block stays out though the task that took it has ended.
const WAITERS_FOR_BLOCKS: Case = Case {
    words: "run",
    script: b"utk 1\nboot main 50\nbody main task\ntk_cre_mpf TA_TPRI 2 16\ntk_cre_tsk - g 30 512\ntk_cre_tsk - g 20 512\ntk_cre_tsk - g 20 512\ntk_get_mpf 1 -1\ntk_get_mpf 1 -1\ntk_sta_tsk 2 0\ntk_sta_tsk 3 0\ntk_sta_tsk 4 0\ntk_ref_mpf 1\ntk_rel_mpf 1 2\ntk_ref_mpf 1\ntk_rel_wai 4\ntk_sta_tsk 3 0\ntk_ter_tsk 3\ntk_sta_tsk 4 0\ntk_del_mpf 1\ntk_cre_mpf - 1 1\ntk_get_mpf 1 1\ntk_get_mpf 1 1\nend\nbody g task\ntk_get_mpf 1 -1\ntk_rel_mpf 1 r0\ntk_get_mpf 1 1\nend\n",
    trace: b"0 D 1\n1 C 1 tk_cre_mpf 1\n2 C 1 tk_cre_tsk 2\n3 C 1 tk_cre_tsk 3\n4 C 1 tk_cre_tsk 4\n5 C 1 tk_get_mpf 1\n6 C 1 tk_get_mpf 2\n7 C 1 tk_sta_tsk 0\n7 D 2\n8 B 2 tk_get_mpf\n8 D 1\n9 C 1 tk_sta_tsk 0\n9 D 3\n10 B 3 tk_get_mpf\n10 D 1\n11 C 1 tk_sta_tsk 0\n11 D 4\n12 B 4 tk_get_mpf\n12 D 1\n13 C 1 tk_ref_mpf 0 0 3\n14 C 1 tk_rel_mpf 0\n14 W 3 tk_get_mpf 2\n14 D 3\n15 C 3 tk_rel_mpf 0\n15 W 4 tk_get_mpf 2\n16 B 3 tk_get_mpf\n16 D 4\n17 C 4 tk_rel_mpf 0\n17 W 3 tk_get_mpf 2\n18 B 4 tk_get_mpf\n18 D 3\n19 C 3 tk_ext_tsk 0\n19 D 1\n20 C 1 tk_ref_mpf 0 0 4\n21 C 1 tk_rel_wai 0\n21 W 4 tk_get_mpf E_RLWAI\n21 D 4\n22 C 4 tk_ext_tsk 0\n22 D 1\n23 C 1 tk_sta_tsk 0\n23 D 3\n24 B 3 tk_get_mpf\n24 D 1\n25 C 1 tk_ter_tsk 0\n26 C 1 tk_sta_tsk 0\n26 D 4\n27 B 4 tk_get_mpf\n27 D 1\n28 C 1 tk_del_mpf 0\n28 W 4 tk_get_mpf E_DLT\n28 W 2 tk_get_mpf E_DLT\n28 D 4\n29 C 4 tk_rel_mpf E_PAR\n30 C 4 tk_get_mpf E_NOEXS\n31 C 4 tk_ext_tsk 0\n31 D 2\n32 C 2 tk_rel_mpf E_PAR\n33 C 2 tk_get_mpf E_NOEXS\n34 C 2 tk_ext_tsk 0\n34 D 1\n35 C 1 tk_cre_mpf 1\n36 C 1 tk_get_mpf 1\n37 B 1 tk_get_mpf\n37 D 0\n38 K 1\n39 K 2\n39 W 1 tk_get_mpf E_TMOUT\n39 D 1\n40 C 1 tk_ext_tsk 0\n40 D 0\n40 END idle\n",
    status: Status::Done,
};

/// Pools take simulated memory up to its last byte.
const MEMORY_USED_UP: Case = Case {
    words: "run",
    script: b"utk 1\nboot main 10\nbody main task\nset r5 0\nlabel again\ntk_cre_mpl - 65536\nadd r5 1\njlt r5 16 again\ntk_cre_mpl - 64512\ntk_cre_mpl - 8\nend\n",
    trace: b"0 D 1\n2 C 1 tk_cre_mpl 1\n5 C 1 tk_cre_mpl 2\n8 C 1 tk_cre_mpl 3\n11 C 1 tk_cre_mpl 4\n14 C 1 tk_cre_mpl 5\n17 C 1 tk_cre_mpl 6\n20 C 1 tk_cre_mpl 7\n23 C 1 tk_cre_mpl 8\n26 C 1 tk_cre_mpl 9\n29 C 1 tk_cre_mpl 10\n32 C 1 tk_cre_mpl 11\n35 C 1 tk_cre_mpl 12\n38 C 1 tk_cre_mpl 13\n41 C 1 tk_cre_mpl 14\n44 C 1 tk_cre_mpl 15\n47 C 1 tk_cre_mpl E_NOMEM\n50 C 1 tk_cre_mpl 16\n51 C 1 tk_cre_mpl E_NOMEM\n52 C 1 tk_ext_tsk 0\n52 D 0\n52 END idle\n",
    status: Status::Done,
};

/// Three blocks of different sizes fill a pool, and are given back in each of their six orders: the free bytes and the
/// largest gap grow until one gap is left, and what is given back twice, or with an offset inside a block, is refused.
const ONE_GAP_IS_LEFT: Case = Case {
    words: "run",
    script: b"utk 1\nboot main 10\nbody main task\ntk_cre_mpl - 64\ntk_def_ssy 1 fill\nsvc 1 0\ntk_rel_mpl 1 0\ntk_ref_mpl 1\ntk_rel_mpl 1 8\ntk_ref_mpl 1\ntk_rel_mpl 1 32\nsvc 1 0\ntk_rel_mpl 1 0\ntk_ref_mpl 1\ntk_rel_mpl 1 32\ntk_ref_mpl 1\ntk_rel_mpl 1 8\nsvc 1 0\ntk_rel_mpl 1 8\ntk_ref_mpl 1\ntk_rel_mpl 1 0\ntk_ref_mpl 1\ntk_rel_mpl 1 32\nsvc 1 0\ntk_rel_mpl 1 8\ntk_ref_mpl 1\ntk_rel_mpl 1 32\ntk_ref_mpl 1\ntk_rel_mpl 1 0\nsvc 1 0\ntk_rel_mpl 1 32\ntk_ref_mpl 1\ntk_rel_mpl 1 0\ntk_ref_mpl 1\ntk_rel_mpl 1 8\nsvc 1 0\ntk_rel_mpl 1 32\ntk_ref_mpl 1\ntk_rel_mpl 1 8\ntk_ref_mpl 1\ntk_rel_mpl 1 0\ntk_rel_mpl 1 0\ntk_ref_mpl 1\nsvc 1 0\ntk_rel_mpl 1 16\ntk_ref_mpl 1\nend\nbody fill svc\ntk_get_mpl 1 8 0\ntk_get_mpl 1 24 0\ntk_get_mpl 1 32 0\ntk_ref_mpl 1\nreturn r3\nend\n",
    trace: b"0 D 1\n1 C 1 tk_cre_mpl 1\n2 C 1 tk_def_ssy 0\n4 C 1 tk_get_mpl 0\n5 C 1 tk_get_mpl 8\n6 C 1 tk_get_mpl 32\n7 C 1 tk_ref_mpl 0 0 0 0\n8 C 1 svc 0\n9 C 1 tk_rel_mpl 0\n10 C 1 tk_ref_mpl 0 8 8 0\n11 C 1 tk_rel_mpl 0\n12 C 1 tk_ref_mpl 0 32 32 0\n13 C 1 tk_rel_mpl 0\n15 C 1 tk_get_mpl 0\n16 C 1 tk_get_mpl 8\n17 C 1 tk_get_mpl 32\n18 C 1 tk_ref_mpl 0 0 0 0\n19 C 1 svc 0\n20 C 1 tk_rel_mpl 0\n21 C 1 tk_ref_mpl 0 8 8 0\n22 C 1 tk_rel_mpl 0\n23 C 1 tk_ref_mpl 0 40 32 0\n24 C 1 tk_rel_mpl 0\n26 C 1 tk_get_mpl 0\n27 C 1 tk_get_mpl 8\n28 C 1 tk_get_mpl 32\n29 C 1 tk_ref_mpl 0 0 0 0\n30 C 1 svc 0\n31 C 1 tk_rel_mpl 0\n32 C 1 tk_ref_mpl 0 24 24 0\n33 C 1 tk_rel_mpl 0\n34 C 1 tk_ref_mpl 0 32 32 0\n35 C 1 tk_rel_mpl 0\n37 C 1 tk_get_mpl 0\n38 C 1 tk_get_mpl 8\n39 C 1 tk_get_mpl 32\n40 C 1 tk_ref_mpl 0 0 0 0\n41 C 1 svc 0\n42 C 1 tk_rel_mpl 0\n43 C 1 tk_ref_mpl 0 24 24 0\n44 C 1 tk_rel_mpl 0\n45 C 1 tk_ref_mpl 0 56 56 0\n46 C 1 tk_rel_mpl 0\n48 C 1 tk_get_mpl 0\n49 C 1 tk_get_mpl 8\n50 C 1 tk_get_mpl 32\n51 C 1 tk_ref_mpl 0 0 0 0\n52 C 1 svc 0\n53 C 1 tk_rel_mpl 0\n54 C 1 tk_ref_mpl 0 32 32 0\n55 C 1 tk_rel_mpl 0\n56 C 1 tk_ref_mpl 0 40 32 0\n57 C 1 tk_rel_mpl 0\n59 C 1 tk_get_mpl 0\n60 C 1 tk_get_mpl 8\n61 C 1 tk_get_mpl 32\n62 C 1 tk_ref_mpl 0 0 0 0\n63 C 1 svc 0\n64 C 1 tk_rel_mpl 0\n65 C 1 tk_ref_mpl 0 32 32 0\n66 C 1 tk_rel_mpl 0\n67 C 1 tk_ref_mpl 0 56 56 0\n68 C 1 tk_rel_mpl 0\n69 C 1 tk_rel_mpl E_PAR\n70 C 1 tk_ref_mpl 0 64 64 0\n72 C 1 tk_get_mpl 0\n73 C 1 tk_get_mpl 8\n74 C 1 tk_get_mpl 32\n75 C 1 tk_ref_mpl 0 0 0 0\n76 C 1 svc 0\n77 C 1 tk_rel_mpl E_PAR\n78 C 1 tk_ref_mpl 0 0 0 0\n79 C 1 tk_ext_tsk 0\n79 D 0\n79 END idle\n",
    status: Status::Done,
};

/// Three blocks of a fixed pool are taken, and given back in each of their six orders; the least free number is taken
/// next, and a block comes back once.
const LEAST_BLOCKS: Case = Case {
    words: "run",
    script: b"utk 1\nboot main 10\nbody main task\ntk_cre_mpf - 3 5\ntk_def_ssy 1 take\nsvc 1 0\ntk_rel_mpf 1 1\ntk_rel_mpf 1 2\ntk_get_mpf 1 0\ntk_rel_mpf 1 3\nsvc 1 0\ntk_rel_mpf 1 1\ntk_rel_mpf 1 3\ntk_get_mpf 1 0\ntk_rel_mpf 1 2\nsvc 1 0\ntk_rel_mpf 1 2\ntk_rel_mpf 1 1\ntk_get_mpf 1 0\ntk_rel_mpf 1 3\nsvc 1 0\ntk_rel_mpf 1 2\ntk_rel_mpf 1 3\ntk_get_mpf 1 0\ntk_rel_mpf 1 1\nsvc 1 0\ntk_rel_mpf 1 3\ntk_rel_mpf 1 1\ntk_get_mpf 1 0\ntk_rel_mpf 1 2\nsvc 1 0\ntk_rel_mpf 1 3\ntk_rel_mpf 1 2\ntk_get_mpf 1 0\ntk_rel_mpf 1 1\nsvc 1 0\ntk_rel_mpf 1 2\ntk_rel_mpf 1 2\ntk_ref_mpf 1\nend\nbody take svc\nlabel again\ntk_get_mpf 1 0\njlt r0 0 full\njump again\nlabel full\ntk_ref_mpf 1\nreturn r1\nend\n",
    trace: b"0 D 1\n1 C 1 tk_cre_mpf 1\n2 C 1 tk_def_ssy 0\n4 C 1 tk_get_mpf 1\n7 C 1 tk_get_mpf 2\n10 C 1 tk_get_mpf 3\n13 C 1 tk_get_mpf E_TMOUT\n15 C 1 tk_ref_mpf 0 0 0\n16 C 1 svc 0\n17 C 1 tk_rel_mpf 0\n18 C 1 tk_rel_mpf 0\n19 C 1 tk_get_mpf 1\n20 C 1 tk_rel_mpf 0\n22 C 1 tk_get_mpf 2\n25 C 1 tk_get_mpf 3\n28 C 1 tk_get_mpf E_TMOUT\n30 C 1 tk_ref_mpf 0 0 0\n31 C 1 svc 0\n32 C 1 tk_rel_mpf 0\n33 C 1 tk_rel_mpf 0\n34 C 1 tk_get_mpf 1\n35 C 1 tk_rel_mpf 0\n37 C 1 tk_get_mpf 2\n40 C 1 tk_get_mpf 3\n43 C 1 tk_get_mpf E_TMOUT\n45 C 1 tk_ref_mpf 0 0 0\n46 C 1 svc 0\n47 C 1 tk_rel_mpf 0\n48 C 1 tk_rel_mpf 0\n49 C 1 tk_get_mpf 1\n50 C 1 tk_rel_mpf 0\n52 C 1 tk_get_mpf 2\n55 C 1 tk_get_mpf 3\n58 C 1 tk_get_mpf E_TMOUT\n60 C 1 tk_ref_mpf 0 0 0\n61 C 1 svc 0\n62 C 1 tk_rel_mpf 0\n63 C 1 tk_rel_mpf 0\n64 C 1 tk_get_mpf 2\n65 C 1 tk_rel_mpf 0\n67 C 1 tk_get_mpf 1\n70 C 1 tk_get_mpf 3\n73 C 1 tk_get_mpf E_TMOUT\n75 C 1 tk_ref_mpf 0 0 0\n76 C 1 svc 0\n77 C 1 tk_rel_mpf 0\n78 C 1 tk_rel_mpf 0\n79 C 1 tk_get_mpf 1\n80 C 1 tk_rel_mpf 0\n82 C 1 tk_get_mpf 2\n85 C 1 tk_get_mpf 3\n88 C 1 tk_get_mpf E_TMOUT\n90 C 1 tk_ref_mpf 0 0 0\n91 C 1 svc 0\n92 C 1 tk_rel_mpf 0\n93 C 1 tk_rel_mpf 0\n94 C 1 tk_get_mpf 2\n95 C 1 tk_rel_mpf 0\n97 C 1 tk_get_mpf 1\n100 C 1 tk_get_mpf 3\n103 C 1 tk_get_mpf E_TMOUT\n105 C 1 tk_ref_mpf 0 0 0\n106 C 1 svc 0\n107 C 1 tk_rel_mpf 0\n108 C 1 tk_rel_mpf E_PAR\n109 C 1 tk_ref_mpf 0 1 0\n110 C 1 tk_ext_tsk 0\n110 D 0\n110 END idle\n",
    status: Status::Done,
};

/// Stacks, buffers, messages and pools of both kinds use up the simulated memory to its last byte. Then nothing is made
/// that takes one more, what takes none goes on, and each deletion gives back just what was taken, with blocks and
/// messages that are out.
const TO_THE_LAST_BYTE: Case = Case {
    words: "run",
    script: b"utk 1\nboot main 50\nbody main task\ntk_cre_tsk - w 20 524288\ntk_cre_mbf - 65536 100\ntk_cre_mbx -\ntk_snd_mbx 1 1 5\ntk_cre_mpf - 7 65536\ntk_cre_mpf - 6 65536\ntk_cre_mpl - 64497\ntk_cre_mpl - 64489\ntk_cre_tsk - w 20 1\ntk_cre_mbf - 8 1\ntk_cre_mbf - 0 1\ntk_cre_mpf - 1 1\ntk_cre_mpl - 8\ntk_snd_mbx 1 1 6\ntk_snd_mbf 1 0 100 0\ntk_get_mpf 1 0\ntk_get_mpl 1 64496 0\ntk_rcv_mbx 1 0\ntk_cre_mpl - 17\ntk_cre_mpl - 9\ntk_cre_mpf - 1 1\ntk_del_mpl 1\ntk_cre_mbf - 64497 9\ntk_cre_mbf - 64496 9\ntk_cre_tsk - w 20 1\ntk_del_mbf 1\ntk_cre_tsk - w 20 65537\ntk_cre_tsk - w 20 65536\ntk_snd_mbx 1 1 7\ntk_del_mpf 1\ntk_cre_mpf - 1024 385\ntk_cre_mpf - 1024 384\ntk_cre_mpl - 8\ntk_del_tsk 2\ntk_cre_tsk - w 20 524289\ntk_cre_tsk - w 20 524288\ntk_cre_mpf - 1 1\ntk_sta_tsk 3 0\ntk_cre_mbf - 65536 4\ntk_snd_mbx 1 1 8\nend\nbody w task\ntk_exd_tsk\nend\n",
    trace: b"0 D 1\n1 C 1 tk_cre_tsk 2\n2 C 1 tk_cre_mbf 1\n3 C 1 tk_cre_mbx 1\n4 C 1 tk_snd_mbx 0\n5 C 1 tk_cre_mpf E_NOMEM\n6 C 1 tk_cre_mpf 1\n7 C 1 tk_cre_mpl E_NOMEM\n8 C 1 tk_cre_mpl 1\n9 C 1 tk_cre_tsk E_NOMEM\n10 C 1 tk_cre_mbf E_NOMEM\n11 C 1 tk_cre_mbf 2\n12 C 1 tk_cre_mpf E_NOMEM\n13 C 1 tk_cre_mpl E_NOMEM\n14 C 1 tk_snd_mbx E_NOMEM\n15 C 1 tk_snd_mbf 0\n16 C 1 tk_get_mpf 1\n17 C 1 tk_get_mpl 0\n18 C 1 tk_rcv_mbx 0 1 5\n19 C 1 tk_cre_mpl E_NOMEM\n20 C 1 tk_cre_mpl 2\n21 C 1 tk_cre_mpf E_NOMEM\n22 C 1 tk_del_mpl 0\n23 C 1 tk_cre_mbf E_NOMEM\n24 C 1 tk_cre_mbf 3\n25 C 1 tk_cre_tsk E_NOMEM\n26 C 1 tk_del_mbf 0\n27 C 1 tk_cre_tsk E_NOMEM\n28 C 1 tk_cre_tsk 3\n29 C 1 tk_snd_mbx E_NOMEM\n30 C 1 tk_del_mpf 0\n31 C 1 tk_cre_mpf E_NOMEM\n32 C 1 tk_cre_mpf 1\n33 C 1 tk_cre_mpl E_NOMEM\n34 C 1 tk_del_tsk 0\n35 C 1 tk_cre_tsk E_NOMEM\n36 C 1 tk_cre_tsk 2\n37 C 1 tk_cre_mpf E_NOMEM\n38 C 1 tk_sta_tsk 0\n38 D 3\n39 C 3 tk_exd_tsk 0\n39 D 1\n40 C 1 tk_cre_mbf 1\n41 C 1 tk_snd_mbx E_NOMEM\n42 C 1 tk_ext_tsk 0\n42 D 0\n42 END idle\n",
    status: Status::Done,
};

/// The deletion of a pool ends the waits in their order: as they began, or by priority, where one whose priority is set
/// anew stands behind its equals and a suspended one keeps its place. What was taken is no block of a new pool.
const DELETED_POOLS: Case = Case {
    words: "run",
    script: b"utk 1\nboot main 50\nbody main task\ntk_cre_mpf TA_TFIFO 1 8\ntk_cre_mpl TA_TPRI 16\ntk_get_mpf 1 0\ntk_get_mpl 1 16 0\ntk_cre_tsk - fixed 30 512\ntk_cre_tsk - fixed 20 512\ntk_cre_tsk - bytes 30 512\ntk_cre_tsk - bytes 20 512\ntk_cre_tsk - bytes 20 512\ntk_sta_tsk 2 0\ntk_sta_tsk 3 0\ntk_sta_tsk 4 8\ntk_sta_tsk 5 8\ntk_sta_tsk 6 16\ntk_ref_mpf 1\ntk_ref_mpl 1\ntk_chg_pri 5 20\ntk_ref_mpl 1\ntk_sus_tsk 6\ntk_ref_tsk 6\ntk_del_mpf 1\ntk_del_mpl 1\ntk_ref_tsk 6\ntk_cre_mpf - 1 8\ntk_cre_mpl - 16\ntk_rel_mpf 1 1\ntk_rel_mpl 1 0\ntk_ref_mpl 1\ntk_rsm_tsk 6\nend\nbody fixed task\ntk_get_mpf 1 -1\nend\nbody bytes task\ntk_get_mpl 1 r1 -1\nend\n",
    trace: b"0 D 1\n1 C 1 tk_cre_mpf 1\n2 C 1 tk_cre_mpl 1\n3 C 1 tk_get_mpf 1\n4 C 1 tk_get_mpl 0\n5 C 1 tk_cre_tsk 2\n6 C 1 tk_cre_tsk 3\n7 C 1 tk_cre_tsk 4\n8 C 1 tk_cre_tsk 5\n9 C 1 tk_cre_tsk 6\n10 C 1 tk_sta_tsk 0\n10 D 2\n11 B 2 tk_get_mpf\n11 D 1\n12 C 1 tk_sta_tsk 0\n12 D 3\n13 B 3 tk_get_mpf\n13 D 1\n14 C 1 tk_sta_tsk 0\n14 D 4\n15 B 4 tk_get_mpl\n15 D 1\n16 C 1 tk_sta_tsk 0\n16 D 5\n17 B 5 tk_get_mpl\n17 D 1\n18 C 1 tk_sta_tsk 0\n18 D 6\n19 B 6 tk_get_mpl\n19 D 1\n20 C 1 tk_ref_mpf 0 0 2\n21 C 1 tk_ref_mpl 0 0 0 5\n22 C 1 tk_chg_pri 0\n23 C 1 tk_ref_mpl 0 0 0 6\n24 C 1 tk_sus_tsk 0\n25 C 1 tk_ref_tsk 0 5 20 20 0 1\n26 C 1 tk_del_mpf 0\n26 W 2 tk_get_mpf E_DLT\n26 W 3 tk_get_mpf E_DLT\n26 D 3\n27 C 3 tk_ext_tsk 0\n27 D 2\n28 C 2 tk_ext_tsk 0\n28 D 1\n29 C 1 tk_del_mpl 0\n29 W 6 tk_get_mpl E_DLT\n29 W 5 tk_get_mpl E_DLT\n29 W 4 tk_get_mpl E_DLT\n29 D 5\n30 C 5 tk_ext_tsk 0\n30 D 4\n31 C 4 tk_ext_tsk 0\n31 D 1\n32 C 1 tk_ref_tsk 0 4 20 20 0 1\n33 C 1 tk_cre_mpf 1\n34 C 1 tk_cre_mpl 1\n35 C 1 tk_rel_mpf E_PAR\n36 C 1 tk_rel_mpl E_PAR\n37 C 1 tk_ref_mpl 0 16 16 0\n38 C 1 tk_rsm_tsk 0\n38 D 6\n39 C 6 tk_ext_tsk 0\n39 D 1\n40 C 1 tk_ext_tsk 0\n40 D 0\n40 END idle\n",
    status: Status::Done,
};

/// The owner of a mutex waits for eight bytes, which are free, behind a task that wants more. With the priority of one
/// that waits for its mutex it is the first, and is served at once; a lock with time-out 0 before changes nothing. At a
/// fixed pool the owner gets the block that comes back before its seniors.
const INHERITING_WAITER: Case = Case {
    words: "run",
    script: b"utk 1\nboot main 50\nbody main task\ntk_cre_mtx TA_INHERIT 0\ntk_cre_mpl TA_TPRI 24\ntk_cre_mpf TA_TPRI 1 8\ntk_get_mpl 1 16 0\ntk_get_mpf 1 0\ntk_cre_tsk - low 40 512\ntk_cre_tsk - mid 30 512\ntk_cre_tsk - top 10 512\ntk_sta_tsk 3 0\ntk_sta_tsk 2 0\ntk_ref_mpl 1\ntk_sta_tsk 4 0\ntk_rel_mpl 1 0\ntk_ref_mpf 1\ntk_rel_mpf 1 1\ntk_ref_mpf 1\nend\nbody low task\ntk_loc_mtx 1 -1\ntk_get_mpl 1 8 -1\ntk_rel_mpl 1 r0\ntk_get_mpf 1 -1\ntk_rel_mpf 1 r0\ntk_unl_mtx 1\nend\nbody mid task\ntk_get_mpl 1 24 -1\ntk_get_mpf 1 -1\ntk_ref_tsk 2\nend\nbody top task\ntk_loc_mtx 1 0\ntk_ref_mpl 1\ntk_loc_mtx 1 5\nshow r0\nend\n",
    trace: b"0 D 1\n1 C 1 tk_cre_mtx 1\n2 C 1 tk_cre_mpl 1\n3 C 1 tk_cre_mpf 1\n4 C 1 tk_get_mpl 0\n5 C 1 tk_get_mpf 1\n6 C 1 tk_cre_tsk 2\n7 C 1 tk_cre_tsk 3\n8 C 1 tk_cre_tsk 4\n9 C 1 tk_sta_tsk 0\n9 D 3\n10 B 3 tk_get_mpl\n10 D 1\n11 C 1 tk_sta_tsk 0\n11 D 2\n12 C 2 tk_loc_mtx 0\n13 B 2 tk_get_mpl\n13 D 1\n14 C 1 tk_ref_mpl 0 8 8 3\n15 C 1 tk_sta_tsk 0\n15 D 4\n16 C 4 tk_loc_mtx E_TMOUT\n17 C 4 tk_ref_mpl 0 8 8 3\n18 B 4 tk_loc_mtx\n18 W 2 tk_get_mpl 16\n18 D 2\n19 C 2 tk_rel_mpl 0\n20 B 2 tk_get_mpf\n20 D 1\n21 C 1 tk_rel_mpl 0\n21 W 3 tk_get_mpl 0\n21 D 3\n22 B 3 tk_get_mpf\n22 D 1\n23 C 1 tk_ref_mpf 0 0 2\n24 C 1 tk_rel_mpf 0\n24 W 2 tk_get_mpf 1\n24 D 2\n25 C 2 tk_rel_mpf 0\n25 W 3 tk_get_mpf 1\n26 C 2 tk_unl_mtx 0\n26 W 4 tk_loc_mtx 0\n26 D 4\n27 S 4 0\n28 C 4 tk_ext_tsk 0\n28 D 3\n29 C 3 tk_ref_tsk 0 2 40 40 0 0\n30 C 3 tk_ext_tsk 0\n30 D 2\n31 C 2 tk_ext_tsk 0\n31 D 1\n32 C 1 tk_ref_mpf 0 0 0\n33 C 1 tk_ext_tsk 0\n33 D 0\n33 END idle\n",
    status: Status::Done,
};

/// At most 64 fixed and 64 variable pools exist: a wrong attribute or number is seen before that, want of simulated
/// memory behind it, and the least free number is given.
const FULL_TABLES: Case = Case {
    words: "run",
    script: b"utk 1\nboot main 10\nbody main task\nlabel fixed\ntk_cre_mpf - 1 1\njlt r0 64 fixed\ntk_cre_mpf - 1024 65536\ntk_cre_mpf - 0 1\ntk_cre_mpf TA_FIRST 1 1\ntk_del_mpf 64\ntk_cre_mpf - 1024 65536\ntk_cre_mpf - 2 1\nlabel variable\ntk_cre_mpl - 8\njlt r0 64 variable\ntk_cre_mpl - 8\ntk_cre_mpl - 7\ntk_del_mpl 2\ntk_cre_mpl - 16\ntk_ref_mpl 2\nend\n",
    trace: b"0 D 1\n1 C 1 tk_cre_mpf 1\n3 C 1 tk_cre_mpf 2\n5 C 1 tk_cre_mpf 3\n7 C 1 tk_cre_mpf 4\n9 C 1 tk_cre_mpf 5\n11 C 1 tk_cre_mpf 6\n13 C 1 tk_cre_mpf 7\n15 C 1 tk_cre_mpf 8\n17 C 1 tk_cre_mpf 9\n19 C 1 tk_cre_mpf 10\n21 C 1 tk_cre_mpf 11\n23 C 1 tk_cre_mpf 12\n25 C 1 tk_cre_mpf 13\n27 C 1 tk_cre_mpf 14\n29 C 1 tk_cre_mpf 15\n31 C 1 tk_cre_mpf 16\n33 C 1 tk_cre_mpf 17\n35 C 1 tk_cre_mpf 18\n37 C 1 tk_cre_mpf 19\n39 C 1 tk_cre_mpf 20\n41 C 1 tk_cre_mpf 21\n43 C 1 tk_cre_mpf 22\n45 C 1 tk_cre_mpf 23\n47 C 1 tk_cre_mpf 24\n49 C 1 tk_cre_mpf 25\n51 C 1 tk_cre_mpf 26\n53 C 1 tk_cre_mpf 27\n55 C 1 tk_cre_mpf 28\n57 C 1 tk_cre_mpf 29\n59 C 1 tk_cre_mpf 30\n61 C 1 tk_cre_mpf 31\n63 C 1 tk_cre_mpf 32\n65 C 1 tk_cre_mpf 33\n67 C 1 tk_cre_mpf 34\n69 C 1 tk_cre_mpf 35\n71 C 1 tk_cre_mpf 36\n73 C 1 tk_cre_mpf 37\n75 C 1 tk_cre_mpf 38\n77 C 1 tk_cre_mpf 39\n79 C 1 tk_cre_mpf 40\n81 C 1 tk_cre_mpf 41\n83 C 1 tk_cre_mpf 42\n85 C 1 tk_cre_mpf 43\n87 C 1 tk_cre_mpf 44\n89 C 1 tk_cre_mpf 45\n91 C 1 tk_cre_mpf 46\n93 C 1 tk_cre_mpf 47\n95 C 1 tk_cre_mpf 48\n97 C 1 tk_cre_mpf 49\n99 C 1 tk_cre_mpf 50\n101 C 1 tk_cre_mpf 51\n103 C 1 tk_cre_mpf 52\n105 C 1 tk_cre_mpf 53\n107 C 1 tk_cre_mpf 54\n109 C 1 tk_cre_mpf 55\n111 C 1 tk_cre_mpf 56\n113 C 1 tk_cre_mpf 57\n115 C 1 tk_cre_mpf 58\n117 C 1 tk_cre_mpf 59\n119 C 1 tk_cre_mpf 60\n121 C 1 tk_cre_mpf 61\n123 C 1 tk_cre_mpf 62\n125 C 1 tk_cre_mpf 63\n127 C 1 tk_cre_mpf 64\n129 C 1 tk_cre_mpf E_LIMIT\n130 C 1 tk_cre_mpf E_PAR\n131 C 1 tk_cre_mpf E_RSATR\n132 C 1 tk_del_mpf 0\n133 C 1 tk_cre_mpf E_NOMEM\n134 C 1 tk_cre_mpf 64\n135 C 1 tk_cre_mpl 1\n137 C 1 tk_cre_mpl 2\n139 C 1 tk_cre_mpl 3\n141 C 1 tk_cre_mpl 4\n143 C 1 tk_cre_mpl 5\n145 C 1 tk_cre_mpl 6\n147 C 1 tk_cre_mpl 7\n149 C 1 tk_cre_mpl 8\n151 C 1 tk_cre_mpl 9\n153 C 1 tk_cre_mpl 10\n155 C 1 tk_cre_mpl 11\n157 C 1 tk_cre_mpl 12\n159 C 1 tk_cre_mpl 13\n161 C 1 tk_cre_mpl 14\n163 C 1 tk_cre_mpl 15\n165 C 1 tk_cre_mpl 16\n167 C 1 tk_cre_mpl 17\n169 C 1 tk_cre_mpl 18\n171 C 1 tk_cre_mpl 19\n173 C 1 tk_cre_mpl 20\n175 C 1 tk_cre_mpl 21\n177 C 1 tk_cre_mpl 22\n179 C 1 tk_cre_mpl 23\n181 C 1 tk_cre_mpl 24\n183 C 1 tk_cre_mpl 25\n185 C 1 tk_cre_mpl 26\n187 C 1 tk_cre_mpl 27\n189 C 1 tk_cre_mpl 28\n191 C 1 tk_cre_mpl 29\n193 C 1 tk_cre_mpl 30\n195 C 1 tk_cre_mpl 31\n197 C 1 tk_cre_mpl 32\n199 C 1 tk_cre_mpl 33\n201 C 1 tk_cre_mpl 34\n203 C 1 tk_cre_mpl 35\n205 C 1 tk_cre_mpl 36\n207 C 1 tk_cre_mpl 37\n209 C 1 tk_cre_mpl 38\n211 C 1 tk_cre_mpl 39\n213 C 1 tk_cre_mpl 40\n215 C 1 tk_cre_mpl 41\n217 C 1 tk_cre_mpl 42\n219 C 1 tk_cre_mpl 43\n221 C 1 tk_cre_mpl 44\n223 C 1 tk_cre_mpl 45\n225 C 1 tk_cre_mpl 46\n227 C 1 tk_cre_mpl 47\n229 C 1 tk_cre_mpl 48\n231 C 1 tk_cre_mpl 49\n233 C 1 tk_cre_mpl 50\n235 C 1 tk_cre_mpl 51\n237 C 1 tk_cre_mpl 52\n239 C 1 tk_cre_mpl 53\n241 C 1 tk_cre_mpl 54\n243 C 1 tk_cre_mpl 55\n245 C 1 tk_cre_mpl 56\n247 C 1 tk_cre_mpl 57\n249 C 1 tk_cre_mpl 58\n251 C 1 tk_cre_mpl 59\n253 C 1 tk_cre_mpl 60\n255 C 1 tk_cre_mpl 61\n257 C 1 tk_cre_mpl 62\n259 C 1 tk_cre_mpl 63\n261 C 1 tk_cre_mpl 64\n263 C 1 tk_cre_mpl E_LIMIT\n264 C 1 tk_cre_mpl E_PAR\n265 C 1 tk_del_mpl 0\n266 C 1 tk_cre_mpl 2\n267 C 1 tk_ref_mpl 0 16 16 0\n268 C 1 tk_ext_tsk 0\n268 D 0\n268 END idle\n",
    status: Status::Done,
};

/// Blocks of both kinds of pools, who waits for them, and how much there is.
#[test]
fn pools_run(rt: HostRuntime) -> Result<(), Fail> {
    for case in [
        EVERY_ERROR,
        LEAST_GAP,
        FIRST_WITHOUT_ROOM,
        WAITERS_FOR_BLOCKS,
        MEMORY_USED_UP,
        ONE_GAP_IS_LEFT,
        LEAST_BLOCKS,
        TO_THE_LAST_BYTE,
        DELETED_POOLS,
        INHERITING_WAITER,
        FULL_TABLES,
    ] {
        let (status, output) = outcome(&rt, rt.alloc(), case.words, case.script)?;
        assert_eq!(rt; output.as_slice(), case.trace);
        assert_eq!(rt; status, case.status);
    }
    Ok(())
}

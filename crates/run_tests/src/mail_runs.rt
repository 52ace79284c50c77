//! Runs that were worked out by hand: mailboxes and message buffers, in every order of who sends and who receives.

use crate::task_runs::Case;
use crate::tests::outcome;
use std::test::Fail;
use tk_run::Status;

/// The errors of the calls on mailboxes in their order; a box by priority hands out the least number first and equals
/// as they came, another box all as they came.
const BOXES_AND_ERRORS: Case = Case {
    words: "run",
    script: b"utk 1\nboot main 10\nbody main task\ntk_cre_mbx TA_INHERIT\ntk_cre_mbx TA_TFIFO|TA_TPRI\ntk_cre_mbx TA_MFIFO|TA_MPRI\ntk_cre_mbx TA_TPRI|TA_MPRI\ntk_cre_mbx -\ntk_snd_mbx 0 0 1\ntk_snd_mbx 3 0 1\ntk_snd_mbx 3 1 -1\ntk_snd_mbx 3 1 1\ntk_rcv_mbx 65 -2\ntk_rcv_mbx 3 -2\ntk_rcv_mbx 3 0\ntk_rcv_mbx 1 0\ntk_snd_mbx 1 7 100\ntk_snd_mbx 1 3 200\ntk_snd_mbx 1 7 101\ntk_snd_mbx 1 3 201\ntk_snd_mbx 1 2147483647 0\ntk_ref_mbx 1\ntk_rcv_mbx 1 0\ntk_rcv_mbx 1 0\ntk_snd_mbx 1 8 102\ntk_rcv_mbx 1 0\ntk_rcv_mbx 1 0\ntk_rcv_mbx 1 0\ntk_rcv_mbx 1 0\ntk_snd_mbx 2 9 1\ntk_snd_mbx 2 1 2\ntk_rcv_mbx 2 0\ntk_rcv_mbx 2 -1\ntk_ref_mbx 2\ntk_ref_mbx 0\ntk_ref_mbx 3\ntk_del_mbx 65\ntk_del_mbx 3\ntk_del_mbx 1\ntk_snd_mbx 1 1 1\ntk_cre_mbx TA_ASM\nend\n",
    trace: b"0 D 1\n1 C 1 tk_cre_mbx E_RSATR\n2 C 1 tk_cre_mbx E_RSATR\n3 C 1 tk_cre_mbx E_RSATR\n4 C 1 tk_cre_mbx 1\n5 C 1 tk_cre_mbx 2\n6 C 1 tk_snd_mbx E_ID\n7 C 1 tk_snd_mbx E_PAR\n8 C 1 tk_snd_mbx E_PAR\n9 C 1 tk_snd_mbx E_NOEXS\n10 C 1 tk_rcv_mbx E_ID\n11 C 1 tk_rcv_mbx E_PAR\n12 C 1 tk_rcv_mbx E_NOEXS\n13 C 1 tk_rcv_mbx E_TMOUT\n14 C 1 tk_snd_mbx 0\n15 C 1 tk_snd_mbx 0\n16 C 1 tk_snd_mbx 0\n17 C 1 tk_snd_mbx 0\n18 C 1 tk_snd_mbx 0\n19 C 1 tk_ref_mbx 0 5 0\n20 C 1 tk_rcv_mbx 0 3 200\n21 C 1 tk_rcv_mbx 0 3 201\n22 C 1 tk_snd_mbx 0\n23 C 1 tk_rcv_mbx 0 7 100\n24 C 1 tk_rcv_mbx 0 7 101\n25 C 1 tk_rcv_mbx 0 8 102\n26 C 1 tk_rcv_mbx 0 2147483647 0\n27 C 1 tk_snd_mbx 0\n28 C 1 tk_snd_mbx 0\n29 C 1 tk_rcv_mbx 0 9 1\n30 C 1 tk_rcv_mbx 0 1 2\n31 C 1 tk_ref_mbx 0 0 0\n32 C 1 tk_ref_mbx E_ID\n33 C 1 tk_ref_mbx E_NOEXS\n34 C 1 tk_del_mbx E_ID\n35 C 1 tk_del_mbx E_NOEXS\n36 C 1 tk_del_mbx 0\n37 C 1 tk_snd_mbx E_NOEXS\n38 C 1 tk_cre_mbx 1\n39 C 1 tk_ext_tsk 0\n39 D 0\n39 END idle\n",
    status: Status::Done,
};

/// The waits of receivers: a send ends the first one's, by priority or as they began; others end by release,
/// termination, deletion and time-out, without fields, so that the registers behind r0 keep what they held.
const WAITS_AT_A_BOX: Case = Case {
    words: "run",
    script: b"utk 1\nboot main 50\nbody main task\ntk_cre_mbx TA_TPRI\ntk_cre_tsk - rx 30 512\ntk_cre_tsk - rx 20 512\ntk_cre_tsk - rx 20 512\ntk_sta_tsk 2 0\ntk_sta_tsk 3 0\ntk_sta_tsk 4 0\ntk_ref_mbx 1\ntk_snd_mbx 1 5 77\ntk_snd_mbx 1 9 78\ntk_rel_wai 3\ntk_ter_tsk 4\ntk_ref_mbx 1\ntk_del_mbx 1\ntk_cre_mbx TA_TFIFO\ntk_sta_tsk 2 0\ntk_sta_tsk 3 0\ntk_snd_mbx 1 1 1\ntk_cre_mbx -\ntk_rcv_mbx 2 1\nend\nbody rx task\ntk_rcv_mbx 1 -1\nshow r2\ntk_rcv_mbx 1 -1\nshow r0\nshow r2\nend\n",
    trace: b"0 D 1\n1 C 1 tk_cre_mbx 1\n2 C 1 tk_cre_tsk 2\n3 C 1 tk_cre_tsk 3\n4 C 1 tk_cre_tsk 4\n5 C 1 tk_sta_tsk 0\n5 D 2\n6 B 2 tk_rcv_mbx\n6 D 1\n7 C 1 tk_sta_tsk 0\n7 D 3\n8 B 3 tk_rcv_mbx\n8 D 1\n9 C 1 tk_sta_tsk 0\n9 D 4\n10 B 4 tk_rcv_mbx\n10 D 1\n11 C 1 tk_ref_mbx 0 0 3\n12 C 1 tk_snd_mbx 0\n12 W 3 tk_rcv_mbx 0 5 77\n12 D 3\n13 S 3 77\n14 B 3 tk_rcv_mbx\n14 D 1\n15 C 1 tk_snd_mbx 0\n15 W 4 tk_rcv_mbx 0 9 78\n15 D 4\n16 S 4 78\n17 B 4 tk_rcv_mbx\n17 D 1\n18 C 1 tk_rel_wai 0\n18 W 3 tk_rcv_mbx E_RLWAI\n18 D 3\n19 S 3 -49\n20 S 3 77\n21 C 3 tk_ext_tsk 0\n21 D 1\n22 C 1 tk_ter_tsk 0\n23 C 1 tk_ref_mbx 0 0 2\n24 C 1 tk_del_mbx 0\n24 W 2 tk_rcv_mbx E_DLT\n24 D 2\n25 S 2 0\n26 C 2 tk_rcv_mbx E_NOEXS\n27 S 2 -42\n28 S 2 0\n29 C 2 tk_ext_tsk 0\n29 D 1\n30 C 1 tk_cre_mbx 1\n31 C 1 tk_sta_tsk 0\n31 D 2\n32 B 2 tk_rcv_mbx\n32 D 1\n33 C 1 tk_sta_tsk 0\n33 D 3\n34 B 3 tk_rcv_mbx\n34 D 1\n35 C 1 tk_snd_mbx 0\n35 W 2 tk_rcv_mbx 0 1 1\n35 D 2\n36 S 2 1\n37 B 2 tk_rcv_mbx\n37 D 1\n38 C 1 tk_cre_mbx 2\n39 B 1 tk_rcv_mbx\n39 D 0\n40 K 1\n41 K 2\n41 W 1 tk_rcv_mbx E_TMOUT\n41 D 1\n42 C 1 tk_ext_tsk 0\n42 D 0\n42 END idle\n",
    status: Status::Done,
};

/// A message counts 16 bytes while it lies in a box, and a send at the limit is refused also while a receiver waits;
/// receipt and deletion give bytes back, as does the deletion of a buffer, a pool and a task.
const BYTES_GIVEN_BACK: Case = Case {
    words: "run",
    script: b"utk 1\nboot main 10\nbody main task\ntk_cre_mbx -\ntk_cre_mbx -\ntk_cre_tsk - rx 5 512\ntk_cre_tsk - rx 5 1046993\ntk_snd_mbx 1 1 1\ntk_snd_mbx 1 1 2\ntk_snd_mbx 1 1 3\ntk_sta_tsk 2 0\ntk_snd_mbx 2 1 4\ntk_cre_mpl - 9\ntk_cre_mpl - 8\ntk_rcv_mbx 1 0\ntk_snd_mbx 2 1 5\ntk_snd_mbx 1 1 6\ntk_snd_mbx 1 1 7\ntk_del_mbx 1\ntk_snd_mbx 1 1 8\ntk_snd_mbx 2 1 8\ntk_snd_mbx 2 1 9\ntk_snd_mbx 2 1 10\ntk_cre_mbf - 8 1\ntk_cre_mbf - 0 8\ntk_cre_mpf - 2 4\ntk_cre_mpf - 7 1\ntk_cre_mpf - 1 1\ntk_del_mpl 1\ntk_cre_mbf - 8 1\ntk_snd_mbf 2 0 1 0\ntk_del_mpf 1\ntk_del_mbf 2\ntk_cre_mbf - 16 12\ntk_cre_mbf - 15 8\ntk_snd_mbx 2 1 11\ntk_del_tsk 3\ntk_snd_mbx 2 1 11\nend\nbody rx task\ntk_rcv_mbx 2 -1\nend\n",
    trace: b"0 D 1\n1 C 1 tk_cre_mbx 1\n2 C 1 tk_cre_mbx 2\n3 C 1 tk_cre_tsk 2\n4 C 1 tk_cre_tsk 3\n5 C 1 tk_snd_mbx 0\n6 C 1 tk_snd_mbx 0\n7 C 1 tk_snd_mbx E_NOMEM\n8 C 1 tk_sta_tsk 0\n8 D 2\n9 B 2 tk_rcv_mbx\n9 D 1\n10 C 1 tk_snd_mbx E_NOMEM\n11 C 1 tk_cre_mpl E_NOMEM\n12 C 1 tk_cre_mpl 1\n13 C 1 tk_rcv_mbx 0 1 1\n14 C 1 tk_snd_mbx 0\n14 W 2 tk_rcv_mbx 0 1 5\n14 D 2\n15 C 2 tk_ext_tsk 0\n15 D 1\n16 C 1 tk_snd_mbx 0\n17 C 1 tk_snd_mbx E_NOMEM\n18 C 1 tk_del_mbx 0\n19 C 1 tk_snd_mbx E_NOEXS\n20 C 1 tk_snd_mbx 0\n21 C 1 tk_snd_mbx 0\n22 C 1 tk_snd_mbx E_NOMEM\n23 C 1 tk_cre_mbf E_NOMEM\n24 C 1 tk_cre_mbf 1\n25 C 1 tk_cre_mpf E_NOMEM\n26 C 1 tk_cre_mpf 1\n27 C 1 tk_cre_mpf E_NOMEM\n28 C 1 tk_del_mpl 0\n29 C 1 tk_cre_mbf 2\n30 C 1 tk_snd_mbf 0\n31 C 1 tk_del_mpf 0\n32 C 1 tk_del_mbf 0\n33 C 1 tk_cre_mbf E_NOMEM\n34 C 1 tk_cre_mbf 2\n35 C 1 tk_snd_mbx E_NOMEM\n36 C 1 tk_del_tsk 0\n37 C 1 tk_snd_mbx 0\n38 C 1 tk_ext_tsk 0\n38 D 0\n38 END idle\n",
    status: Status::Done,
};

/// The errors of the calls on message buffers in their order: a length that isn't 1 to the greatest, and an address
/// that leaves no room for the greatest message, are seen only once the buffer is known.
const BUFFERS_AND_ERRORS: Case = Case {
    words: "run",
    script: b"utk 1\nboot main 10\nbody main task\ntk_cre_mbf TA_MFIFO 16 0\ntk_cre_mbf TA_TFIFO|TA_TPRI 16 8\ntk_cre_mbf - 16 0\ntk_cre_mbf - 0 65533\ntk_cre_mbf - 11 8\ntk_cre_mbf - 15 9\ntk_cre_mbf - 65537 8\ntk_cre_mbf - -1 8\ntk_cre_mbf - 16 9\ntk_snd_mbf 0 -1 9 -1\ntk_snd_mbf 2 65530 7 -1\ntk_snd_mbf 2 0 -1 -1\ntk_snd_mbf 2 0 0 -2\ntk_snd_mbf 2 65536 0 -1\ntk_snd_mbf 1 65536 0 -1\ntk_snd_mbf 1 0 10 -1\ntk_snd_mbf 1 65527 9 0\ntk_rcv_mbf 0 65537 -1\ntk_rcv_mbf 2 65537 -1\ntk_rcv_mbf 2 65536 -2\ntk_rcv_mbf 2 65536 -1\ntk_rcv_mbf 1 65528 -1\ntk_rcv_mbf 1 65527 -1\ntk_ref_mbf 1\ntk_rcv_mbf 1 0 0\ntk_snd_mbf 1 0 9 0\ntk_snd_mbf 1 0 1 0\ntk_ref_mbf 1\ntk_ref_mbf 65\ntk_ref_mbf 2\ntk_del_mbf 0\ntk_del_mbf 2\ntk_del_mbf 1\ntk_cre_mbf - 0 65532\ntk_rcv_mbf 1 5 0\ntk_ref_mbf 1\nend\n",
    trace: b"0 D 1\n1 C 1 tk_cre_mbf E_RSATR\n2 C 1 tk_cre_mbf E_RSATR\n3 C 1 tk_cre_mbf E_PAR\n4 C 1 tk_cre_mbf E_PAR\n5 C 1 tk_cre_mbf E_PAR\n6 C 1 tk_cre_mbf E_PAR\n7 C 1 tk_cre_mbf E_PAR\n8 C 1 tk_cre_mbf E_PAR\n9 C 1 tk_cre_mbf 1\n10 C 1 tk_snd_mbf E_ID\n11 C 1 tk_snd_mbf E_PAR\n12 C 1 tk_snd_mbf E_PAR\n13 C 1 tk_snd_mbf E_PAR\n14 C 1 tk_snd_mbf E_NOEXS\n15 C 1 tk_snd_mbf E_PAR\n16 C 1 tk_snd_mbf E_PAR\n17 C 1 tk_snd_mbf 0\n18 C 1 tk_rcv_mbf E_ID\n19 C 1 tk_rcv_mbf E_PAR\n20 C 1 tk_rcv_mbf E_PAR\n21 C 1 tk_rcv_mbf E_NOEXS\n22 C 1 tk_rcv_mbf E_PAR\n23 C 1 tk_rcv_mbf 9\n24 C 1 tk_ref_mbf 0 0 0 16 0\n25 C 1 tk_rcv_mbf E_TMOUT\n26 C 1 tk_snd_mbf 0\n27 C 1 tk_snd_mbf E_TMOUT\n28 C 1 tk_ref_mbf 0 0 0 0 9\n29 C 1 tk_ref_mbf E_ID\n30 C 1 tk_ref_mbf E_NOEXS\n31 C 1 tk_del_mbf E_ID\n32 C 1 tk_del_mbf E_NOEXS\n33 C 1 tk_del_mbf 0\n34 C 1 tk_cre_mbf 1\n35 C 1 tk_rcv_mbf E_PAR\n36 C 1 tk_ref_mbf 0 0 0 0 0\n37 C 1 tk_ext_tsk 0\n37 D 0\n37 END idle\n",
    status: Status::Done,
};

/// Messages go round the space of a buffer, each with 4 bytes and its length rounded up; a sender's bytes are those at
/// its call, senders go in as they began to wait, and a receipt writes no byte beyond the message.
const ROUND_THE_SPACE: Case = Case {
    words: "run",
    script: b"utk 1\nboot main 10\nbody main task\ntk_cre_mbf - 20 6\ntk_cre_tsk - tx 5 512\ntk_cre_tsk - tx 3 512\nstb 0 201\nstb 1 202\nstb 2 203\nstb 3 204\nstb 4 461\nstb 5 206\ntk_snd_mbf 1 0 5 -1\ntk_ref_mbf 1\ntk_snd_mbf 1 1 3 -1\ntk_sta_tsk 2 6\ntk_sta_tsk 3 1\nstb 0 99\ntk_ref_mbf 1\ntk_rcv_mbf 1 100 -1\nldb r3 100\nshow r3\nldb r3 104\nshow r3\ntk_rcv_mbf 1 102 -1\nldb r3 104\nshow r3\ntk_rcv_mbf 1 200 -1\nldb r3 200\nshow r3\nldb r3 201\nshow r3\nldb r3 202\nshow r3\nldb r3 203\nshow r3\nldb r3 204\nshow r3\nldb r3 205\nshow r3\ntk_rcv_mbf 1 201 0\nldb r3 201\nshow r3\nldb r3 202\nshow r3\ntk_ref_mbf 1\nend\nbody tx task\ntk_snd_mbf 1 0 r1 -1\nend\n",
    trace: b"0 D 1\n1 C 1 tk_cre_mbf 1\n2 C 1 tk_cre_tsk 2\n3 C 1 tk_cre_tsk 3\n10 C 1 tk_snd_mbf 0\n11 C 1 tk_ref_mbf 0 0 0 8 5\n12 C 1 tk_snd_mbf 0\n13 C 1 tk_sta_tsk 0\n13 D 2\n14 B 2 tk_snd_mbf\n14 D 1\n15 C 1 tk_sta_tsk 0\n15 D 3\n16 B 3 tk_snd_mbf\n16 D 1\n18 C 1 tk_ref_mbf 0 0 2 0 5\n19 C 1 tk_rcv_mbf 5\n19 W 2 tk_snd_mbf 0\n19 D 2\n20 C 2 tk_ext_tsk 0\n20 D 1\n22 S 1 201\n24 S 1 205\n25 C 1 tk_rcv_mbf 3\n25 W 3 tk_snd_mbf 0\n25 D 3\n26 C 3 tk_ext_tsk 0\n26 D 1\n28 S 1 204\n29 C 1 tk_rcv_mbf 6\n31 S 1 201\n33 S 1 202\n35 S 1 203\n37 S 1 204\n39 S 1 205\n41 S 1 206\n42 C 1 tk_rcv_mbf 1\n44 S 1 201\n46 S 1 203\n47 C 1 tk_ref_mbf 0 0 0 20 0\n48 C 1 tk_ext_tsk 0\n48 D 0\n48 END idle\n",
    status: Status::Done,
};

/// A sender whose message doesn't fit keeps those behind it waiting, until its time-out or termination, while one above
/// it goes in at once; a receipt lets in as many as fit, by priority, and release and deletion end the waits of the
/// others.
const WAITS_OF_SENDERS: Case = Case {
    words: "run",
    script: b"utk 1\nboot main 50\nbody main task\ntk_cre_mbf TA_TPRI 20 12\ntk_cre_tsk - tx 30 512\ntk_cre_tsk - tx 20 512\ntk_cre_tsk - tx 40 512\ntk_snd_mbf 1 0 12 -1\ntk_sta_tsk 4 9\ntk_sta_tsk 2 1\ntk_sta_tsk 3 2\ntk_ref_mbf 1\ntk_rcv_mbf 1 100 -1\ntk_ref_mbf 1\ntk_rcv_mbf 1 100 -1\ntk_sta_tsk 3 1\ntk_rcv_mbf 1 100 -1\ntk_snd_mbf 1 0 1 0\ntk_chg_pri 4 10\ntk_sta_tsk 2 1\ntk_ref_mbf 1\ntk_dly_tsk 2\ntk_ref_mbf 1\ntk_sta_tsk 3 12\ntk_sta_tsk 2 8\ntk_sta_tsk 4 8\ntk_rcv_mbf 1 100 -1\ntk_ter_tsk 3\ntk_rel_wai 4\ntk_sta_tsk 4 3\ntk_sta_tsk 3 3\ntk_del_mbf 1\nend\nbody tx task\ntk_snd_mbf 1 0 r1 1\nend\n",
    trace: b"0 D 1\n1 C 1 tk_cre_mbf 1\n2 C 1 tk_cre_tsk 2\n3 C 1 tk_cre_tsk 3\n4 C 1 tk_cre_tsk 4\n5 C 1 tk_snd_mbf 0\n6 C 1 tk_sta_tsk 0\n6 D 4\n7 B 4 tk_snd_mbf\n7 D 1\n8 C 1 tk_sta_tsk 0\n8 D 2\n9 B 2 tk_snd_mbf\n9 D 1\n10 C 1 tk_sta_tsk 0\n10 D 3\n11 B 3 tk_snd_mbf\n11 D 1\n12 C 1 tk_ref_mbf 0 0 3 4 12\n13 C 1 tk_rcv_mbf 12\n13 W 3 tk_snd_mbf 0\n13 W 2 tk_snd_mbf 0\n13 D 3\n14 C 3 tk_ext_tsk 0\n14 D 2\n15 C 2 tk_ext_tsk 0\n15 D 1\n16 C 1 tk_ref_mbf 0 0 4 4 2\n17 C 1 tk_rcv_mbf 2\n18 C 1 tk_sta_tsk 0\n18 D 3\n19 C 3 tk_snd_mbf 0\n20 C 3 tk_ext_tsk 0\n20 D 1\n21 C 1 tk_rcv_mbf 1\n22 C 1 tk_snd_mbf E_TMOUT\n23 C 1 tk_chg_pri 0\n24 C 1 tk_sta_tsk 0\n24 D 2\n25 B 2 tk_snd_mbf\n25 D 1\n26 C 1 tk_ref_mbf 0 0 4 12 1\n27 B 1 tk_dly_tsk\n27 D 0\n28 K 1\n29 K 2\n29 W 4 tk_snd_mbf E_TMOUT\n29 W 2 tk_snd_mbf 0\n29 D 4\n30 C 4 tk_ext_tsk 0\n30 D 2\n31 C 2 tk_ext_tsk 0\n31 D 0\n32 K 3\n32 W 1 tk_dly_tsk 0\n32 D 1\n33 C 1 tk_ref_mbf 0 0 0 4 1\n34 C 1 tk_sta_tsk 0\n34 D 3\n35 B 3 tk_snd_mbf\n35 D 1\n36 C 1 tk_sta_tsk 0\n36 D 2\n37 B 2 tk_snd_mbf\n37 D 1\n38 C 1 tk_sta_tsk 0\n38 D 4\n39 B 4 tk_snd_mbf\n39 D 1\n40 C 1 tk_rcv_mbf 1\n41 C 1 tk_ter_tsk 0\n41 W 2 tk_snd_mbf 0\n41 D 2\n42 C 2 tk_ext_tsk 0\n42 D 1\n43 C 1 tk_rel_wai 0\n43 W 4 tk_snd_mbf E_RLWAI\n43 D 4\n44 C 4 tk_ext_tsk 0\n44 D 1\n45 C 1 tk_sta_tsk 0\n45 D 4\n46 B 4 tk_snd_mbf\n46 D 1\n47 C 1 tk_sta_tsk 0\n47 D 3\n48 B 3 tk_snd_mbf\n48 D 1\n49 C 1 tk_del_mbf 0\n49 W 3 tk_snd_mbf E_DLT\n49 W 4 tk_snd_mbf E_DLT\n49 D 3\n50 C 3 tk_ext_tsk 0\n50 D 4\n51 C 4 tk_ext_tsk 0\n51 D 1\n52 C 1 tk_ext_tsk 0\n52 D 0\n52 END idle\n",
    status: Status::Done,
};

/// A buffer without bytes hands a waiting sender's message to a receiver that calls; receivers stand as they began,
/// also where senders stand by priority; their waits end by release, termination, time-out and deletion.
const WAITS_OF_RECEIVERS: Case = Case {
    words: "run",
    script: b"utk 1\nboot main 50\nbody main task\ntk_cre_mbf TA_TPRI 0 8\ntk_cre_tsk - rx 30 512\ntk_cre_tsk - rx 20 512\ntk_cre_tsk - tx 40 512\ntk_sta_tsk 4 0\ntk_ref_mbf 1\ntk_rcv_mbf 1 100 0\ntk_sta_tsk 2 200\ntk_sta_tsk 3 300\ntk_ref_mbf 1\ntk_snd_mbf 1 0 8 -1\ntk_rel_wai 3\ntk_ter_tsk 2\ntk_dly_tsk 2\ntk_sta_tsk 2 200\ntk_sta_tsk 3 300\ntk_del_mbf 1\ntk_cre_mbf - 12 8\ntk_sta_tsk 2 200\ntk_snd_mbf 1 0 8 0\ntk_ref_mbf 1\nhalt\nend\nbody rx task\ntk_rcv_mbf 1 r1 -1\ntk_rcv_mbf 1 r1 1\nend\nbody tx task\ntk_snd_mbf 1 0 3 -1\nend\n",
    trace: b"0 D 1\n1 C 1 tk_cre_mbf 1\n2 C 1 tk_cre_tsk 2\n3 C 1 tk_cre_tsk 3\n4 C 1 tk_cre_tsk 4\n5 C 1 tk_sta_tsk 0\n5 D 4\n6 B 4 tk_snd_mbf\n6 D 1\n7 C 1 tk_ref_mbf 0 0 4 0 0\n8 C 1 tk_rcv_mbf 3\n8 W 4 tk_snd_mbf 0\n8 D 4\n9 C 4 tk_ext_tsk 0\n9 D 1\n10 C 1 tk_sta_tsk 0\n10 D 2\n11 B 2 tk_rcv_mbf\n11 D 1\n12 C 1 tk_sta_tsk 0\n12 D 3\n13 B 3 tk_rcv_mbf\n13 D 1\n14 C 1 tk_ref_mbf 0 2 0 0 0\n15 C 1 tk_snd_mbf 0\n15 W 2 tk_rcv_mbf 8\n15 D 2\n16 B 2 tk_rcv_mbf\n16 D 1\n17 C 1 tk_rel_wai 0\n17 W 3 tk_rcv_mbf E_RLWAI\n17 D 3\n18 B 3 tk_rcv_mbf\n18 D 1\n19 C 1 tk_ter_tsk 0\n20 B 1 tk_dly_tsk\n20 D 0\n21 K 1\n22 K 2\n22 W 3 tk_rcv_mbf E_TMOUT\n22 D 3\n23 C 3 tk_ext_tsk 0\n23 D 0\n24 K 3\n24 W 1 tk_dly_tsk 0\n24 D 1\n25 C 1 tk_sta_tsk 0\n25 D 2\n26 B 2 tk_rcv_mbf\n26 D 1\n27 C 1 tk_sta_tsk 0\n27 D 3\n28 B 3 tk_rcv_mbf\n28 D 1\n29 C 1 tk_del_mbf 0\n29 W 2 tk_rcv_mbf E_DLT\n29 W 3 tk_rcv_mbf E_DLT\n29 D 3\n30 C 3 tk_rcv_mbf E_NOEXS\n31 C 3 tk_ext_tsk 0\n31 D 2\n32 C 2 tk_rcv_mbf E_NOEXS\n33 C 2 tk_ext_tsk 0\n33 D 1\n34 C 1 tk_cre_mbf 1\n35 C 1 tk_sta_tsk 0\n35 D 2\n36 B 2 tk_rcv_mbf\n36 D 1\n37 C 1 tk_snd_mbf 0\n37 W 2 tk_rcv_mbf 8\n37 D 2\n38 B 2 tk_rcv_mbf\n38 D 1\n39 C 1 tk_ref_mbf 0 2 0 12 0\n40 END halt\n",
    status: Status::Done,
};

/// A caller that is served at once, or isn't without waiting, keeps its place before its equals, also where its call
/// releases one of them, which stands last.
const PLACES_KEPT: Case = Case {
    words: "run",
    script: b"utk 1\nboot main 10\nbody main task\ntk_cre_mtx - 0\ntk_cre_mbx -\ntk_cre_mbf - 12 8\ntk_cre_mpf - 1 1\ntk_cre_mpl - 8\ntk_cre_tsk - tx 10 512\ntk_cre_tsk - peer 10 512\ntk_snd_mbf 1 0 8 -1\ntk_snd_mbx 1 1 1\ntk_sta_tsk 2 0\ntk_rot_rdq 10\ntk_sta_tsk 3 0\ntk_loc_mtx 1 -1\ntk_rcv_mbx 1 -1\ntk_rcv_mbx 1 0\ntk_get_mpf 1 -1\ntk_get_mpf 1 0\ntk_get_mpl 1 8 -1\ntk_get_mpl 1 8 0\ntk_rcv_mbf 1 100 -1\ntk_snd_mbf 1 0 8 0\ntk_rcv_mbf 1 100 -1\ntk_snd_mbf 1 0 8 -1\ntk_rcv_mbf 1 100 -1\ntk_rcv_mbf 1 100 -1\nend\nbody tx task\ntk_snd_mbf 1 0 8 -1\nsay tx\nend\nbody peer task\ntk_snd_mbf 1 0 4 -1\nend\n",
    trace: b"0 D 1\n1 C 1 tk_cre_mtx 1\n2 C 1 tk_cre_mbx 1\n3 C 1 tk_cre_mbf 1\n4 C 1 tk_cre_mpf 1\n5 C 1 tk_cre_mpl 1\n6 C 1 tk_cre_tsk 2\n7 C 1 tk_cre_tsk 3\n8 C 1 tk_snd_mbf 0\n9 C 1 tk_snd_mbx 0\n10 C 1 tk_sta_tsk 0\n11 C 1 tk_rot_rdq 0\n11 D 2\n12 B 2 tk_snd_mbf\n12 D 1\n13 C 1 tk_sta_tsk 0\n14 C 1 tk_loc_mtx 0\n15 C 1 tk_rcv_mbx 0 1 1\n16 C 1 tk_rcv_mbx E_TMOUT\n17 C 1 tk_get_mpf 1\n18 C 1 tk_get_mpf E_TMOUT\n19 C 1 tk_get_mpl 0\n20 C 1 tk_get_mpl E_TMOUT\n21 C 1 tk_rcv_mbf 8\n21 W 2 tk_snd_mbf 0\n22 C 1 tk_snd_mbf E_TMOUT\n23 C 1 tk_rcv_mbf 8\n24 C 1 tk_snd_mbf 0\n25 C 1 tk_rcv_mbf 8\n26 B 1 tk_rcv_mbf\n26 D 3\n27 C 3 tk_snd_mbf 0\n27 W 1 tk_rcv_mbf 4\n28 C 3 tk_ext_tsk 0\n28 D 2\n29 S 2 tx\n30 C 2 tk_ext_tsk 0\n30 D 1\n31 C 1 tk_ext_tsk 0\n31 D 0\n31 END idle\n",
    status: Status::Done,
};

/// A message of all the bytes that one may have fills a buffer, and goes straight to a receiver where the buffer has no
/// bytes; it is read and written up to the last byte of memory, and one byte more is refused.
const LONGEST_MESSAGE: Case = Case {
    words: "run",
    script: b"utk 1\nboot main 50\nbody main task\ntk_cre_mbf - 65535 65532\ntk_cre_mbf - 65536 65532\ntk_cre_mbf - 0 65532\ntk_cre_tsk - rx 20 512\nstb 0 7\nstb 65531 9\ntk_snd_mbf 1 0 65532 -1\ntk_ref_mbf 1\ntk_snd_mbf 1 0 1 0\ntk_rcv_mbf 1 5 0\ntk_rcv_mbf 1 4 0\nldb r3 3\nshow r3\nldb r3 4\nshow r3\nldb r3 65535\nshow r3\ntk_snd_mbf 1 5 65532 -1\ntk_snd_mbf 1 0 65533 -1\ntk_snd_mbf 1 4 65532 0\ntk_del_mbf 1\ntk_sta_tsk 2 0\nstb 4 11\ntk_snd_mbf 2 4 65532 0\nend\nbody rx task\ntk_rcv_mbf 2 0 -1\nldb r3 0\nshow r3\nldb r3 65531\nshow r3\nldb r3 65532\nshow r3\nend\n",
    trace: b"0 D 1\n1 C 1 tk_cre_mbf E_PAR\n2 C 1 tk_cre_mbf 1\n3 C 1 tk_cre_mbf 2\n4 C 1 tk_cre_tsk 2\n7 C 1 tk_snd_mbf 0\n8 C 1 tk_ref_mbf 0 0 0 0 65532\n9 C 1 tk_snd_mbf E_TMOUT\n10 C 1 tk_rcv_mbf E_PAR\n11 C 1 tk_rcv_mbf 65532\n13 S 1 0\n15 S 1 7\n17 S 1 9\n18 C 1 tk_snd_mbf E_PAR\n19 C 1 tk_snd_mbf E_PAR\n20 C 1 tk_snd_mbf 0\n21 C 1 tk_del_mbf 0\n22 C 1 tk_sta_tsk 0\n22 D 2\n23 B 2 tk_rcv_mbf\n23 D 1\n25 C 1 tk_snd_mbf 0\n25 W 2 tk_rcv_mbf 65532\n25 D 2\n27 S 2 11\n29 S 2 9\n31 S 2 0\n32 C 2 tk_ext_tsk 0\n32 D 1\n33 C 1 tk_ext_tsk 0\n33 D 0\n33 END idle\n",
    status: Status::Done,
};

/// Messages of one byte take eight bytes each, as one of four does, and one of five takes twelve: what is left of a
/// buffer is enough for the one, and a byte too little for the other. A receipt writes one byte.
const SHORTEST_MESSAGES: Case = Case {
    words: "run",
    script: b"utk 1\nboot main 50\nbody main task\ntk_cre_mbf - 28 5\ntk_snd_mbf 1 10 1 0\nstb 10 1\ntk_snd_mbf 1 10 1 0\nstb 10 2\ntk_snd_mbf 1 10 4 0\ntk_ref_mbf 1\ntk_snd_mbf 1 10 1 0\ntk_rcv_mbf 1 20 0\ntk_ref_mbf 1\nstb 14 5\ntk_snd_mbf 1 10 5 0\ntk_ref_mbf 1\nstb 21 8\ntk_rcv_mbf 1 20 0\nldb r3 20\nshow r3\nldb r3 21\nshow r3\ntk_snd_mbf 1 10 5 0\ntk_snd_mbf 1 10 4 0\ntk_rcv_mbf 1 20 0\ntk_rcv_mbf 1 20 0\nldb r3 24\nshow r3\ntk_rcv_mbf 1 20 0\ntk_ref_mbf 1\nend\n",
    trace: b"0 D 1\n1 C 1 tk_cre_mbf 1\n2 C 1 tk_snd_mbf 0\n4 C 1 tk_snd_mbf 0\n6 C 1 tk_snd_mbf 0\n7 C 1 tk_ref_mbf 0 0 0 4 1\n8 C 1 tk_snd_mbf E_TMOUT\n9 C 1 tk_rcv_mbf 1\n10 C 1 tk_ref_mbf 0 0 0 12 1\n12 C 1 tk_snd_mbf 0\n13 C 1 tk_ref_mbf 0 0 0 0 1\n15 C 1 tk_rcv_mbf 1\n17 S 1 1\n19 S 1 8\n20 C 1 tk_snd_mbf E_TMOUT\n21 C 1 tk_snd_mbf 0\n22 C 1 tk_rcv_mbf 4\n23 C 1 tk_rcv_mbf 5\n25 S 1 5\n26 C 1 tk_rcv_mbf 4\n27 C 1 tk_ref_mbf 0 0 0 28 0\n28 C 1 tk_ext_tsk 0\n28 D 0\n28 END idle\n",
    status: Status::Done,
};

/// A buffer of size 0 in every order of waits: senders before a receiver, as they began or by priority, a suspended one
/// too; receivers before a sender, as they began in both; waits that end by their limit, by deletion in the senders'
/// order, and by termination.
const WITHOUT_BYTES: Case = Case {
    words: "run",
    script: b"utk 1\nboot main 50\nbody main task\ntk_cre_mbf TA_TFIFO 0 4\ntk_cre_mbf TA_TPRI 0 4\ntk_cre_tsk - tx 30 512\ntk_cre_tsk - tx 20 512\ntk_cre_tsk - rx 30 512\ntk_cre_tsk - rx 20 512\ntk_sta_tsk 2 1\ntk_sta_tsk 3 1\ntk_ref_mbf 1\ntk_rcv_mbf 1 100 0\ntk_rcv_mbf 1 100 0\ntk_sta_tsk 2 2\ntk_sta_tsk 3 2\ntk_ref_mbf 2\ntk_sus_tsk 3\ntk_rcv_mbf 2 100 0\ntk_rcv_mbf 2 100 0\ntk_rcv_mbf 2 100 0\ntk_rsm_tsk 3\ntk_sta_tsk 4 2\ntk_sta_tsk 5 2\ntk_ref_mbf 2\ntk_snd_mbf 2 0 1 0\ntk_snd_mbf 2 0 4 0\ntk_snd_mbf 2 0 4 1\ntk_sta_tsk 2 2\ntk_sta_tsk 3 2\ntk_del_mbf 2\ntk_sta_tsk 4 1\ntk_sta_tsk 5 1\ntk_ter_tsk 4\ntk_del_mbf 1\nend\nbody tx task\nset r5 r1\ntk_get_tid\ntk_snd_mbf r5 0 r0 -1\nend\nbody rx task\ntk_rcv_mbf r1 200 -1\nend\n",
    trace: b"0 D 1\n1 C 1 tk_cre_mbf 1\n2 C 1 tk_cre_mbf 2\n3 C 1 tk_cre_tsk 2\n4 C 1 tk_cre_tsk 3\n5 C 1 tk_cre_tsk 4\n6 C 1 tk_cre_tsk 5\n7 C 1 tk_sta_tsk 0\n7 D 2\n9 C 2 tk_get_tid 2\n10 B 2 tk_snd_mbf\n10 D 1\n11 C 1 tk_sta_tsk 0\n11 D 3\n13 C 3 tk_get_tid 3\n14 B 3 tk_snd_mbf\n14 D 1\n15 C 1 tk_ref_mbf 0 0 2 0 0\n16 C 1 tk_rcv_mbf 2\n16 W 2 tk_snd_mbf 0\n16 D 2\n17 C 2 tk_ext_tsk 0\n17 D 1\n18 C 1 tk_rcv_mbf 3\n18 W 3 tk_snd_mbf 0\n18 D 3\n19 C 3 tk_ext_tsk 0\n19 D 1\n20 C 1 tk_sta_tsk 0\n20 D 2\n22 C 2 tk_get_tid 2\n23 B 2 tk_snd_mbf\n23 D 1\n24 C 1 tk_sta_tsk 0\n24 D 3\n26 C 3 tk_get_tid 3\n27 B 3 tk_snd_mbf\n27 D 1\n28 C 1 tk_ref_mbf 0 0 3 0 0\n29 C 1 tk_sus_tsk 0\n30 C 1 tk_rcv_mbf 3\n30 W 3 tk_snd_mbf 0\n31 C 1 tk_rcv_mbf 2\n31 W 2 tk_snd_mbf 0\n31 D 2\n32 C 2 tk_ext_tsk 0\n32 D 1\n33 C 1 tk_rcv_mbf E_TMOUT\n34 C 1 tk_rsm_tsk 0\n34 D 3\n35 C 3 tk_ext_tsk 0\n35 D 1\n36 C 1 tk_sta_tsk 0\n36 D 4\n37 B 4 tk_rcv_mbf\n37 D 1\n38 C 1 tk_sta_tsk 0\n38 D 5\n39 B 5 tk_rcv_mbf\n39 D 1\n40 C 1 tk_ref_mbf 0 4 0 0 0\n41 C 1 tk_snd_mbf 0\n41 W 4 tk_rcv_mbf 1\n41 D 4\n42 C 4 tk_ext_tsk 0\n42 D 1\n43 C 1 tk_snd_mbf 0\n43 W 5 tk_rcv_mbf 4\n43 D 5\n44 C 5 tk_ext_tsk 0\n44 D 1\n45 B 1 tk_snd_mbf\n45 D 0\n46 K 1\n47 K 2\n47 W 1 tk_snd_mbf E_TMOUT\n47 D 1\n48 C 1 tk_sta_tsk 0\n48 D 2\n50 C 2 tk_get_tid 2\n51 B 2 tk_snd_mbf\n51 D 1\n52 C 1 tk_sta_tsk 0\n52 D 3\n54 C 3 tk_get_tid 3\n55 B 3 tk_snd_mbf\n55 D 1\n56 C 1 tk_del_mbf 0\n56 W 3 tk_snd_mbf E_DLT\n56 W 2 tk_snd_mbf E_DLT\n56 D 3\n57 C 3 tk_ext_tsk 0\n57 D 2\n58 C 2 tk_ext_tsk 0\n58 D 1\n59 C 1 tk_sta_tsk 0\n59 D 4\n60 B 4 tk_rcv_mbf\n60 D 1\n61 C 1 tk_sta_tsk 0\n61 D 5\n62 B 5 tk_rcv_mbf\n62 D 1\n63 C 1 tk_ter_tsk 0\n64 C 1 tk_del_mbf 0\n64 W 5 tk_rcv_mbf E_DLT\n64 D 5\n65 C 5 tk_ext_tsk 0\n65 D 1\n66 C 1 tk_ext_tsk 0\n66 D 0\n66 END idle\n",
    status: Status::Done,
};

/// Four boxes, with both orders of messages and both of receivers: three messages come out as they were sent or by
/// priority, two receivers get them as they began or by priority, and the deletion ends the waits of two others in that
/// order.
const BOX_ORDERS: Case = Case {
    words: "run",
    script: b"utk 1\nboot main 50\nbody main task\ntk_cre_mbx TA_TFIFO|TA_MFIFO\ntk_cre_mbx TA_TFIFO|TA_MPRI\ntk_cre_mbx TA_TPRI|TA_MFIFO\ntk_cre_mbx TA_TPRI|TA_MPRI\ntk_cre_tsk - rx 30 512\ntk_cre_tsk - rx 20 512\nset r5 1\nlabel again\ntk_snd_mbx r5 5 10\ntk_snd_mbx r5 2 20\ntk_snd_mbx r5 5 30\ntk_ref_mbx r5\ntk_rcv_mbx r5 0\ntk_rcv_mbx r5 0\ntk_rcv_mbx r5 0\ntk_rcv_mbx r5 0\ntk_sta_tsk 2 r5\ntk_sta_tsk 3 r5\ntk_ref_mbx r5\ntk_snd_mbx r5 9 40\ntk_snd_mbx r5 1 50\ntk_sta_tsk 2 r5\ntk_sta_tsk 3 r5\ntk_del_mbx r5\nadd r5 1\njlt r5 5 again\nend\nbody rx task\ntk_rcv_mbx r1 -1\nend\n",
    trace: b"0 D 1\n1 C 1 tk_cre_mbx 1\n2 C 1 tk_cre_mbx 2\n3 C 1 tk_cre_mbx 3\n4 C 1 tk_cre_mbx 4\n5 C 1 tk_cre_tsk 2\n6 C 1 tk_cre_tsk 3\n8 C 1 tk_snd_mbx 0\n9 C 1 tk_snd_mbx 0\n10 C 1 tk_snd_mbx 0\n11 C 1 tk_ref_mbx 0 3 0\n12 C 1 tk_rcv_mbx 0 5 10\n13 C 1 tk_rcv_mbx 0 2 20\n14 C 1 tk_rcv_mbx 0 5 30\n15 C 1 tk_rcv_mbx E_TMOUT\n16 C 1 tk_sta_tsk 0\n16 D 2\n17 B 2 tk_rcv_mbx\n17 D 1\n18 C 1 tk_sta_tsk 0\n18 D 3\n19 B 3 tk_rcv_mbx\n19 D 1\n20 C 1 tk_ref_mbx 0 0 2\n21 C 1 tk_snd_mbx 0\n21 W 2 tk_rcv_mbx 0 9 40\n21 D 2\n22 C 2 tk_ext_tsk 0\n22 D 1\n23 C 1 tk_snd_mbx 0\n23 W 3 tk_rcv_mbx 0 1 50\n23 D 3\n24 C 3 tk_ext_tsk 0\n24 D 1\n25 C 1 tk_sta_tsk 0\n25 D 2\n26 B 2 tk_rcv_mbx\n26 D 1\n27 C 1 tk_sta_tsk 0\n27 D 3\n28 B 3 tk_rcv_mbx\n28 D 1\n29 C 1 tk_del_mbx 0\n29 W 2 tk_rcv_mbx E_DLT\n29 W 3 tk_rcv_mbx E_DLT\n29 D 3\n30 C 3 tk_ext_tsk 0\n30 D 2\n31 C 2 tk_ext_tsk 0\n31 D 1\n34 C 1 tk_snd_mbx 0\n35 C 1 tk_snd_mbx 0\n36 C 1 tk_snd_mbx 0\n37 C 1 tk_ref_mbx 0 3 0\n38 C 1 tk_rcv_mbx 0 2 20\n39 C 1 tk_rcv_mbx 0 5 10\n40 C 1 tk_rcv_mbx 0 5 30\n41 C 1 tk_rcv_mbx E_TMOUT\n42 C 1 tk_sta_tsk 0\n42 D 2\n43 B 2 tk_rcv_mbx\n43 D 1\n44 C 1 tk_sta_tsk 0\n44 D 3\n45 B 3 tk_rcv_mbx\n45 D 1\n46 C 1 tk_ref_mbx 0 0 2\n47 C 1 tk_snd_mbx 0\n47 W 2 tk_rcv_mbx 0 9 40\n47 D 2\n48 C 2 tk_ext_tsk 0\n48 D 1\n49 C 1 tk_snd_mbx 0\n49 W 3 tk_rcv_mbx 0 1 50\n49 D 3\n50 C 3 tk_ext_tsk 0\n50 D 1\n51 C 1 tk_sta_tsk 0\n51 D 2\n52 B 2 tk_rcv_mbx\n52 D 1\n53 C 1 tk_sta_tsk 0\n53 D 3\n54 B 3 tk_rcv_mbx\n54 D 1\n55 C 1 tk_del_mbx 0\n55 W 2 tk_rcv_mbx E_DLT\n55 W 3 tk_rcv_mbx E_DLT\n55 D 3\n56 C 3 tk_ext_tsk 0\n56 D 2\n57 C 2 tk_ext_tsk 0\n57 D 1\n60 C 1 tk_snd_mbx 0\n61 C 1 tk_snd_mbx 0\n62 C 1 tk_snd_mbx 0\n63 C 1 tk_ref_mbx 0 3 0\n64 C 1 tk_rcv_mbx 0 5 10\n65 C 1 tk_rcv_mbx 0 2 20\n66 C 1 tk_rcv_mbx 0 5 30\n67 C 1 tk_rcv_mbx E_TMOUT\n68 C 1 tk_sta_tsk 0\n68 D 2\n69 B 2 tk_rcv_mbx\n69 D 1\n70 C 1 tk_sta_tsk 0\n70 D 3\n71 B 3 tk_rcv_mbx\n71 D 1\n72 C 1 tk_ref_mbx 0 0 3\n73 C 1 tk_snd_mbx 0\n73 W 3 tk_rcv_mbx 0 9 40\n73 D 3\n74 C 3 tk_ext_tsk 0\n74 D 1\n75 C 1 tk_snd_mbx 0\n75 W 2 tk_rcv_mbx 0 1 50\n75 D 2\n76 C 2 tk_ext_tsk 0\n76 D 1\n77 C 1 tk_sta_tsk 0\n77 D 2\n78 B 2 tk_rcv_mbx\n78 D 1\n79 C 1 tk_sta_tsk 0\n79 D 3\n80 B 3 tk_rcv_mbx\n80 D 1\n81 C 1 tk_del_mbx 0\n81 W 3 tk_rcv_mbx E_DLT\n81 W 2 tk_rcv_mbx E_DLT\n81 D 3\n82 C 3 tk_ext_tsk 0\n82 D 2\n83 C 2 tk_ext_tsk 0\n83 D 1\n86 C 1 tk_snd_mbx 0\n87 C 1 tk_snd_mbx 0\n88 C 1 tk_snd_mbx 0\n89 C 1 tk_ref_mbx 0 3 0\n90 C 1 tk_rcv_mbx 0 2 20\n91 C 1 tk_rcv_mbx 0 5 10\n92 C 1 tk_rcv_mbx 0 5 30\n93 C 1 tk_rcv_mbx E_TMOUT\n94 C 1 tk_sta_tsk 0\n94 D 2\n95 B 2 tk_rcv_mbx\n95 D 1\n96 C 1 tk_sta_tsk 0\n96 D 3\n97 B 3 tk_rcv_mbx\n97 D 1\n98 C 1 tk_ref_mbx 0 0 3\n99 C 1 tk_snd_mbx 0\n99 W 3 tk_rcv_mbx 0 9 40\n99 D 3\n100 C 3 tk_ext_tsk 0\n100 D 1\n101 C 1 tk_snd_mbx 0\n101 W 2 tk_rcv_mbx 0 1 50\n101 D 2\n102 C 2 tk_ext_tsk 0\n102 D 1\n103 C 1 tk_sta_tsk 0\n103 D 2\n104 B 2 tk_rcv_mbx\n104 D 1\n105 C 1 tk_sta_tsk 0\n105 D 3\n106 B 3 tk_rcv_mbx\n106 D 1\n107 C 1 tk_del_mbx 0\n107 W 3 tk_rcv_mbx E_DLT\n107 W 2 tk_rcv_mbx E_DLT\n107 D 3\n108 C 3 tk_ext_tsk 0\n108 D 2\n109 C 2 tk_ext_tsk 0\n109 D 1\n112 C 1 tk_ext_tsk 0\n112 D 0\n112 END idle\n",
    status: Status::Done,
};

/// The owner of a mutex waits for a message, behind a task of a higher priority. It inherits that of a task that waits
/// for its mutex, and stands first then: at a mailbox by priority, but not as the receiver of a message buffer. When
/// that one's limit is over, it stands where it stood before.
const INHERITING_RECEIVER: Case = Case {
    words: "run",
    script: b"utk 1\nboot main 50\nbody main task\ntk_cre_mtx TA_INHERIT 0\ntk_cre_mbx TA_TPRI\ntk_cre_mbf TA_TPRI 12 8\ntk_cre_tsk - low 40 512\ntk_cre_tsk - mid 30 512\ntk_cre_tsk - top 10 512\ntk_sta_tsk 3 0\ntk_sta_tsk 2 0\ntk_ref_mbx 1\ntk_sta_tsk 4 2\ntk_ref_mbx 1\ntk_ref_tsk 2\ntk_dly_tsk 2\ntk_ref_mbx 1\ntk_ref_tsk 2\ntk_sta_tsk 4 9\ntk_snd_mbx 1 1 7\ntk_snd_mbx 1 1 8\ntk_ref_mbf 1\ntk_snd_mbf 1 0 5 -1\ntk_ref_tsk 2\ntk_snd_mbf 1 0 6 -1\nend\nbody low task\ntk_loc_mtx 1 -1\ntk_rcv_mbx 1 -1\ntk_ref_tsk 0\ntk_rcv_mbf 1 100 -1\ntk_unl_mtx 1\ntk_ref_tsk 0\nend\nbody mid task\ntk_rcv_mbx 1 -1\ntk_rcv_mbf 1 200 -1\nend\nbody top task\ntk_loc_mtx 1 r1\nend\n",
    trace: b"0 D 1\n1 C 1 tk_cre_mtx 1\n2 C 1 tk_cre_mbx 1\n3 C 1 tk_cre_mbf 1\n4 C 1 tk_cre_tsk 2\n5 C 1 tk_cre_tsk 3\n6 C 1 tk_cre_tsk 4\n7 C 1 tk_sta_tsk 0\n7 D 3\n8 B 3 tk_rcv_mbx\n8 D 1\n9 C 1 tk_sta_tsk 0\n9 D 2\n10 C 2 tk_loc_mtx 0\n11 B 2 tk_rcv_mbx\n11 D 1\n12 C 1 tk_ref_mbx 0 0 3\n13 C 1 tk_sta_tsk 0\n13 D 4\n14 B 4 tk_loc_mtx\n14 D 1\n15 C 1 tk_ref_mbx 0 0 2\n16 C 1 tk_ref_tsk 0 3 10 40 0 0\n17 B 1 tk_dly_tsk\n17 D 0\n18 K 1\n19 K 2\n20 K 3\n20 W 4 tk_loc_mtx E_TMOUT\n20 W 1 tk_dly_tsk 0\n20 D 4\n21 C 4 tk_ext_tsk 0\n21 D 1\n22 C 1 tk_ref_mbx 0 0 3\n23 C 1 tk_ref_tsk 0 3 40 40 0 0\n24 C 1 tk_sta_tsk 0\n24 D 4\n25 B 4 tk_loc_mtx\n25 D 1\n26 C 1 tk_snd_mbx 0\n26 W 2 tk_rcv_mbx 0 1 7\n26 D 2\n27 C 2 tk_ref_tsk 0 1 10 40 0 0\n28 B 2 tk_rcv_mbf\n28 D 1\n29 C 1 tk_snd_mbx 0\n29 W 3 tk_rcv_mbx 0 1 8\n29 D 3\n30 B 3 tk_rcv_mbf\n30 D 1\n31 C 1 tk_ref_mbf 0 2 0 12 0\n32 C 1 tk_snd_mbf 0\n32 W 2 tk_rcv_mbf 5\n32 D 2\n33 C 2 tk_unl_mtx 0\n33 W 4 tk_loc_mtx 0\n33 D 4\n34 C 4 tk_ext_tsk 0\n34 D 2\n35 C 2 tk_ref_tsk 0 1 40 40 0 0\n36 C 2 tk_ext_tsk 0\n36 D 1\n37 C 1 tk_ref_tsk 0 6 40 40 0 0\n38 C 1 tk_snd_mbf 0\n38 W 3 tk_rcv_mbf 6\n38 D 3\n39 C 3 tk_ext_tsk 0\n39 D 1\n40 C 1 tk_ext_tsk 0\n40 D 0\n40 END idle\n",
    status: Status::Done,
};

/// The owner of a mutex waits as the second sender, with a message that would fit. A lock with time-out 0 changes
/// nothing; one that waits hands its priority on, and as the first sender the owner's message goes in at once.
const INHERITING_SENDER: Case = Case {
    words: "run",
    script: b"utk 1\nboot main 50\nbody main task\ntk_cre_mtx TA_INHERIT 0\ntk_cre_mbf TA_TPRI 20 12\ntk_cre_tsk - low 40 512\ntk_cre_tsk - mid 30 512\ntk_cre_tsk - top 10 512\ntk_snd_mbf 1 0 5 -1\ntk_sta_tsk 3 0\ntk_sta_tsk 2 0\ntk_ref_mbf 1\ntk_sta_tsk 4 0\ntk_ref_mbf 1\ntk_rcv_mbf 1 100 -1\ntk_rcv_mbf 1 100 -1\ntk_rcv_mbf 1 100 -1\nend\nbody low task\ntk_loc_mtx 1 -1\ntk_snd_mbf 1 0 1 -1\ntk_ref_tsk 0\ntk_unl_mtx 1\nend\nbody mid task\ntk_snd_mbf 1 0 8 -1\nend\nbody top task\ntk_loc_mtx 1 0\ntk_ref_tsk 2\ntk_ref_mbf 1\ntk_loc_mtx 1 -1\ntk_ref_tsk 2\nend\n",
    trace: b"0 D 1\n1 C 1 tk_cre_mtx 1\n2 C 1 tk_cre_mbf 1\n3 C 1 tk_cre_tsk 2\n4 C 1 tk_cre_tsk 3\n5 C 1 tk_cre_tsk 4\n6 C 1 tk_snd_mbf 0\n7 C 1 tk_sta_tsk 0\n7 D 3\n8 B 3 tk_snd_mbf\n8 D 1\n9 C 1 tk_sta_tsk 0\n9 D 2\n10 C 2 tk_loc_mtx 0\n11 B 2 tk_snd_mbf\n11 D 1\n12 C 1 tk_ref_mbf 0 0 3 8 5\n13 C 1 tk_sta_tsk 0\n13 D 4\n14 C 4 tk_loc_mtx E_TMOUT\n15 C 4 tk_ref_tsk 0 3 40 40 0 0\n16 C 4 tk_ref_mbf 0 0 3 8 5\n17 B 4 tk_loc_mtx\n17 W 2 tk_snd_mbf 0\n17 D 2\n18 C 2 tk_ref_tsk 0 1 10 40 0 0\n19 C 2 tk_unl_mtx 0\n19 W 4 tk_loc_mtx 0\n19 D 4\n20 C 4 tk_ref_tsk 0 2 40 40 0 0\n21 C 4 tk_ext_tsk 0\n21 D 2\n22 C 2 tk_ext_tsk 0\n22 D 1\n23 C 1 tk_ref_mbf 0 0 3 0 5\n24 C 1 tk_rcv_mbf 5\n24 W 3 tk_snd_mbf 0\n24 D 3\n25 C 3 tk_ext_tsk 0\n25 D 1\n26 C 1 tk_rcv_mbf 1\n27 C 1 tk_rcv_mbf 8\n28 C 1 tk_ext_tsk 0\n28 D 0\n28 END idle\n",
    status: Status::Done,
};

/// A handler sends to a box, and its receiver is dispatched at the handler's end. All that can wait is refused there,
/// before it is seen that an object is missing, and while dispatching is disabled, while a send to a box is not.
const FROM_A_HANDLER: Case = Case {
    words: "run",
    script: b"utk 1\nboot main 10\nbody main task\ntk_cre_mbx -\ntk_cre_mbf - 0 4\ntk_cre_mpf - 1 4\ntk_cre_mpl - 8\ntk_cre_alm - h\ntk_sta_alm 1 0\ntk_rcv_mbx 1 -1\nshow r2\ntk_dis_dsp\ntk_rcv_mbx 1 0\ntk_snd_mbf 1 0 1 0\ntk_rcv_mbf 1 0 0\ntk_get_mpf 1 0\ntk_get_mpl 1 8 0\ntk_snd_mbx 1 1 3\ntk_ref_mbx 1\ntk_ena_dsp\ntk_rcv_mbx 1 0\nend\nbody h hand\ntk_rcv_mbx 2 0\ntk_snd_mbf 2 0 1 0\ntk_rcv_mbf 2 0 0\ntk_get_mpf 2 0\ntk_get_mpl 2 8 0\ntk_snd_mbx 1 4 9\nsay more\ntk_ref_mbx 1\nend\n",
    trace: b"0 D 1\n1 C 1 tk_cre_mbx 1\n2 C 1 tk_cre_mbf 1\n3 C 1 tk_cre_mpf 1\n4 C 1 tk_cre_mpl 1\n5 C 1 tk_cre_alm 1\n6 C 1 tk_sta_alm 0\n7 B 1 tk_rcv_mbx\n7 D 0\n8 K 1\n9 I alm 1\n10 C 0 tk_rcv_mbx E_CTX\n11 C 0 tk_snd_mbf E_CTX\n12 C 0 tk_rcv_mbf E_CTX\n13 C 0 tk_get_mpf E_CTX\n14 C 0 tk_get_mpl E_CTX\n15 C 0 tk_snd_mbx 0\n15 W 1 tk_rcv_mbx 0 4 9\n16 S 0 more\n17 C 0 tk_ref_mbx 0 0 0\n18 D 1\n19 S 1 9\n20 C 1 tk_dis_dsp 0\n21 C 1 tk_rcv_mbx E_CTX\n22 C 1 tk_snd_mbf E_CTX\n23 C 1 tk_rcv_mbf E_CTX\n24 C 1 tk_get_mpf E_CTX\n25 C 1 tk_get_mpl E_CTX\n26 C 1 tk_snd_mbx 0\n27 C 1 tk_ref_mbx 0 1 0\n28 C 1 tk_ena_dsp 0\n29 C 1 tk_rcv_mbx 0 1 3\n30 C 1 tk_ext_tsk 0\n30 D 0\n30 END idle\n",
    status: Status::Done,
};

/// At most 64 mailboxes and 64 message buffers exist: a wrong attribute or number is seen before that, want of
/// simulated memory behind it, and the least free number is given.
const FULL_TABLES: Case = Case {
    words: "run",
    script: b"utk 1\nboot main 10\nbody main task\nlabel boxes\ntk_cre_mbx -\njlt r0 64 boxes\ntk_cre_mbx -\ntk_cre_mbx TA_CNT\ntk_del_mbx 7\ntk_del_mbx 3\ntk_cre_mbx -\nlabel buffers\ntk_cre_mbf - 16 4\njlt r0 64 buffers\ntk_cre_mbf - 65536 4\ntk_cre_mbf - 16 0\ntk_del_mbf 64\ntk_cre_mbf - 0 1\ntk_ref_mbf 64\nend\n",
    trace: b"0 D 1\n1 C 1 tk_cre_mbx 1\n3 C 1 tk_cre_mbx 2\n5 C 1 tk_cre_mbx 3\n7 C 1 tk_cre_mbx 4\n9 C 1 tk_cre_mbx 5\n11 C 1 tk_cre_mbx 6\n13 C 1 tk_cre_mbx 7\n15 C 1 tk_cre_mbx 8\n17 C 1 tk_cre_mbx 9\n19 C 1 tk_cre_mbx 10\n21 C 1 tk_cre_mbx 11\n23 C 1 tk_cre_mbx 12\n25 C 1 tk_cre_mbx 13\n27 C 1 tk_cre_mbx 14\n29 C 1 tk_cre_mbx 15\n31 C 1 tk_cre_mbx 16\n33 C 1 tk_cre_mbx 17\n35 C 1 tk_cre_mbx 18\n37 C 1 tk_cre_mbx 19\n39 C 1 tk_cre_mbx 20\n41 C 1 tk_cre_mbx 21\n43 C 1 tk_cre_mbx 22\n45 C 1 tk_cre_mbx 23\n47 C 1 tk_cre_mbx 24\n49 C 1 tk_cre_mbx 25\n51 C 1 tk_cre_mbx 26\n53 C 1 tk_cre_mbx 27\n55 C 1 tk_cre_mbx 28\n57 C 1 tk_cre_mbx 29\n59 C 1 tk_cre_mbx 30\n61 C 1 tk_cre_mbx 31\n63 C 1 tk_cre_mbx 32\n65 C 1 tk_cre_mbx 33\n67 C 1 tk_cre_mbx 34\n69 C 1 tk_cre_mbx 35\n71 C 1 tk_cre_mbx 36\n73 C 1 tk_cre_mbx 37\n75 C 1 tk_cre_mbx 38\n77 C 1 tk_cre_mbx 39\n79 C 1 tk_cre_mbx 40\n81 C 1 tk_cre_mbx 41\n83 C 1 tk_cre_mbx 42\n85 C 1 tk_cre_mbx 43\n87 C 1 tk_cre_mbx 44\n89 C 1 tk_cre_mbx 45\n91 C 1 tk_cre_mbx 46\n93 C 1 tk_cre_mbx 47\n95 C 1 tk_cre_mbx 48\n97 C 1 tk_cre_mbx 49\n99 C 1 tk_cre_mbx 50\n101 C 1 tk_cre_mbx 51\n103 C 1 tk_cre_mbx 52\n105 C 1 tk_cre_mbx 53\n107 C 1 tk_cre_mbx 54\n109 C 1 tk_cre_mbx 55\n111 C 1 tk_cre_mbx 56\n113 C 1 tk_cre_mbx 57\n115 C 1 tk_cre_mbx 58\n117 C 1 tk_cre_mbx 59\n119 C 1 tk_cre_mbx 60\n121 C 1 tk_cre_mbx 61\n123 C 1 tk_cre_mbx 62\n125 C 1 tk_cre_mbx 63\n127 C 1 tk_cre_mbx 64\n129 C 1 tk_cre_mbx E_LIMIT\n130 C 1 tk_cre_mbx E_RSATR\n131 C 1 tk_del_mbx 0\n132 C 1 tk_del_mbx 0\n133 C 1 tk_cre_mbx 3\n134 C 1 tk_cre_mbf 1\n136 C 1 tk_cre_mbf 2\n138 C 1 tk_cre_mbf 3\n140 C 1 tk_cre_mbf 4\n142 C 1 tk_cre_mbf 5\n144 C 1 tk_cre_mbf 6\n146 C 1 tk_cre_mbf 7\n148 C 1 tk_cre_mbf 8\n150 C 1 tk_cre_mbf 9\n152 C 1 tk_cre_mbf 10\n154 C 1 tk_cre_mbf 11\n156 C 1 tk_cre_mbf 12\n158 C 1 tk_cre_mbf 13\n160 C 1 tk_cre_mbf 14\n162 C 1 tk_cre_mbf 15\n164 C 1 tk_cre_mbf 16\n166 C 1 tk_cre_mbf 17\n168 C 1 tk_cre_mbf 18\n170 C 1 tk_cre_mbf 19\n172 C 1 tk_cre_mbf 20\n174 C 1 tk_cre_mbf 21\n176 C 1 tk_cre_mbf 22\n178 C 1 tk_cre_mbf 23\n180 C 1 tk_cre_mbf 24\n182 C 1 tk_cre_mbf 25\n184 C 1 tk_cre_mbf 26\n186 C 1 tk_cre_mbf 27\n188 C 1 tk_cre_mbf 28\n190 C 1 tk_cre_mbf 29\n192 C 1 tk_cre_mbf 30\n194 C 1 tk_cre_mbf 31\n196 C 1 tk_cre_mbf 32\n198 C 1 tk_cre_mbf 33\n200 C 1 tk_cre_mbf 34\n202 C 1 tk_cre_mbf 35\n204 C 1 tk_cre_mbf 36\n206 C 1 tk_cre_mbf 37\n208 C 1 tk_cre_mbf 38\n210 C 1 tk_cre_mbf 39\n212 C 1 tk_cre_mbf 40\n214 C 1 tk_cre_mbf 41\n216 C 1 tk_cre_mbf 42\n218 C 1 tk_cre_mbf 43\n220 C 1 tk_cre_mbf 44\n222 C 1 tk_cre_mbf 45\n224 C 1 tk_cre_mbf 46\n226 C 1 tk_cre_mbf 47\n228 C 1 tk_cre_mbf 48\n230 C 1 tk_cre_mbf 49\n232 C 1 tk_cre_mbf 50\n234 C 1 tk_cre_mbf 51\n236 C 1 tk_cre_mbf 52\n238 C 1 tk_cre_mbf 53\n240 C 1 tk_cre_mbf 54\n242 C 1 tk_cre_mbf 55\n244 C 1 tk_cre_mbf 56\n246 C 1 tk_cre_mbf 57\n248 C 1 tk_cre_mbf 58\n250 C 1 tk_cre_mbf 59\n252 C 1 tk_cre_mbf 60\n254 C 1 tk_cre_mbf 61\n256 C 1 tk_cre_mbf 62\n258 C 1 tk_cre_mbf 63\n260 C 1 tk_cre_mbf 64\n262 C 1 tk_cre_mbf E_LIMIT\n263 C 1 tk_cre_mbf E_PAR\n264 C 1 tk_del_mbf 0\n265 C 1 tk_cre_mbf 64\n266 C 1 tk_ref_mbf 0 0 0 0 0\n267 C 1 tk_ext_tsk 0\n267 D 0\n267 END idle\n",
    status: Status::Done,
};

/// Messages of mailboxes and message buffers, their waits and their bytes.
#[test]
fn messages_run(rt: HostRuntime) -> Result<(), Fail> {
    for case in [
        BOXES_AND_ERRORS,
        WAITS_AT_A_BOX,
        BYTES_GIVEN_BACK,
        BUFFERS_AND_ERRORS,
        ROUND_THE_SPACE,
        WAITS_OF_SENDERS,
        WAITS_OF_RECEIVERS,
        PLACES_KEPT,
        LONGEST_MESSAGE,
        SHORTEST_MESSAGES,
        WITHOUT_BYTES,
        BOX_ORDERS,
        INHERITING_RECEIVER,
        INHERITING_SENDER,
        FROM_A_HANDLER,
        FULL_TABLES,
    ] {
        let (status, output) = outcome(&rt, rt.alloc(), case.words, case.script)?;
        assert_eq!(rt; output.as_slice(), case.trace);
        assert_eq!(rt; status, case.status);
    }
    Ok(())
}

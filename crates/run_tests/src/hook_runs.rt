//! Runs that were worked out by hand: hooks, lists of what exists, and queues of tasks.

use crate::task_runs::Case;
use crate::tests::outcome;
use std::test::Fail;
use tk_run::Status;

/// The hook on calls stands before their lines; what was set before a call decides on its own line.
const SERVICE_HOOK: Case = Case {
    words: "run",
    script: b"utk 1\nboot main 10\nbody main task\ntd_hok_svc 1\ntk_get_tid\ntd_hok_svc 0\ntk_get_tid\nend\n",
    trace: b"0 D 1\n1 C 1 td_hok_svc 0\n2 O svc 1 tk_get_tid\n2 C 1 tk_get_tid 1\n3 O svc 1 td_hok_svc\n3 C 1 td_hok_svc 0\n4 C 1 tk_get_tid 1\n5 C 1 tk_ext_tsk 0\n5 D 0\n5 END idle\n",
    status: Status::Done,
};

/// The hooks on calls, dispatches and starts of handlers stand directly before their lines, also where a call is
/// refused or waits; the entry of a service and the end of a wait have none. A hook that a service sets stands
/// before the line of its return, and wrong values are refused.
const THREE_HOOKS: Case = Case {
    words: "run",
    script: b"utk 1\nirq 16 1\nboot main 10\nbody main task\ntk_def_int 1 h\ntk_def_ssy 1 s\ntk_cre_tsk - high 5 512\ntd_hok_svc 2\ntd_hok_dsp -1\ntd_hok_int 2\ntd_hok_dsp 1\ntd_hok_svc 1\ntk_sta_tsk 2 0\nsvc 1 0\ntk_slp_tsk 0\nend\nbody high task\ntk_slp_tsk 1\nend\nbody s svc\ntd_hok_svc 0\ntd_hok_int 1\ntd_hok_svc 1\nreturn 3\nend\nbody h hand\ntd_hok_int 0\ntk_slp_tsk 0\nend\n",
    trace: b"0 D 1\n1 C 1 tk_def_int 0\n2 C 1 tk_def_ssy 0\n3 C 1 tk_cre_tsk 2\n4 C 1 td_hok_svc E_PAR\n5 C 1 td_hok_dsp E_PAR\n6 C 1 td_hok_int E_PAR\n7 C 1 td_hok_dsp 0\n8 C 1 td_hok_svc 0\n9 O svc 1 tk_sta_tsk\n9 C 1 tk_sta_tsk 0\n9 O dsp 2\n9 D 2\n10 O svc 2 tk_slp_tsk\n10 B 2 tk_slp_tsk\n10 O dsp 1\n10 D 1\n12 O svc 1 td_hok_svc\n12 C 1 td_hok_svc 0\n13 C 1 td_hok_int 0\n14 C 1 td_hok_svc 0\n15 O svc 1 svc\n15 C 1 svc 3\n16 O int int 1\n16 I int 1\n17 O svc 0 td_hok_int\n17 C 0 td_hok_int 0\n18 O svc 0 tk_slp_tsk\n18 C 0 tk_slp_tsk E_CTX\n20 O svc 1 tk_slp_tsk\n20 C 1 tk_slp_tsk E_TMOUT\n21 O svc 1 tk_ext_tsk\n21 C 1 tk_ext_tsk 0\n21 O dsp 0\n21 D 0\n22 K 1\n23 K 2\n23 W 2 tk_slp_tsk E_TMOUT\n23 O dsp 2\n23 D 2\n24 O svc 2 tk_ext_tsk\n24 C 2 tk_ext_tsk 0\n24 O dsp 0\n24 D 0\n24 END idle\n",
    status: Status::Done,
};

/// A mailbox, a pool, an alarm, and the hook on dispatches.
const DISPATCH_HOOK: Case = Case {
    words: "run",
    script: b"utk 1\nboot main 10\nbody main task\ntk_cre_mbx TA_MPRI\ntk_snd_mbx 1 5 100\ntk_snd_mbx 1 2 200\ntk_rcv_mbx 1 0\ntk_snd_mbx 1 0 7\ntk_cre_mpf - 2 16\ntk_get_mpf 1 0\ntk_get_mpf 1 0\ntk_get_mpf 1 0\ntk_rel_mpf 1 1\ntk_get_mpf 1 0\ntk_rel_mpf 1 3\ntk_cre_alm - bell\ntk_sta_alm 1 1\ntd_lst_mpf 0 4\ntd_hok_dsp 1\nend\nbody bell hand\nsay ring\nend\n",
    trace: b"0 D 1\n1 C 1 tk_cre_mbx 1\n2 C 1 tk_snd_mbx 0\n3 C 1 tk_snd_mbx 0\n4 C 1 tk_rcv_mbx 0 2 200\n5 C 1 tk_snd_mbx E_PAR\n6 C 1 tk_cre_mpf 1\n7 C 1 tk_get_mpf 1\n8 C 1 tk_get_mpf 2\n9 C 1 tk_get_mpf E_TMOUT\n10 C 1 tk_rel_mpf 0\n11 C 1 tk_get_mpf 1\n12 C 1 tk_rel_mpf E_PAR\n13 C 1 tk_cre_alm 1\n14 C 1 tk_sta_alm 0\n15 C 1 td_lst_mpf 1\n16 C 1 td_hok_dsp 0\n17 C 1 tk_ext_tsk 0\n17 O dsp 0\n17 D 0\n18 K 1\n19 K 2\n20 I alm 1\n21 S 0 ring\n22 END idle\n",
    status: Status::Done,
};

/// The hooks on starts and on dispatches count as they stand when the line comes, so a handler decides on the
/// next one's start and on the dispatch at its own end. A service that takes the hook on calls off returns
/// without it.
const HOOKS_SET_BY_HANDLERS: Case = Case {
    words: "run",
    script: b"utk 1\nboot main 10\nbody main task\ntk_cre_cyc TA_STA c 5 0\ntk_cre_alm - a\ntk_sta_alm 1 0\ntk_def_ssy 1 s\ntd_hok_int 1\ntd_hok_svc 1\nsvc 1 0\ntk_dly_tsk 1\ntd_hok_dsp 0\ntk_del_alm 1\nend\nbody c hand\ntd_hok_int 0\ntd_hok_dsp 1\nend\nbody a hand\ntd_hok_int 1\ntk_sta_alm 1 0\ntk_stp_cyc 1\nend\nbody s svc\ntd_hok_svc 0\nreturn 9\nend\n",
    trace: b"0 D 1\n1 C 1 tk_cre_cyc 1\n2 C 1 tk_cre_alm 1\n3 C 1 tk_sta_alm 0\n4 C 1 tk_def_ssy 0\n5 C 1 td_hok_int 0\n6 C 1 td_hok_svc 0\n8 O svc 1 td_hok_svc\n8 C 1 td_hok_svc 0\n9 C 1 svc 9\n10 B 1 tk_dly_tsk\n10 D 0\n11 K 1\n12 O int cyc 1\n12 I cyc 1\n13 C 0 td_hok_int 0\n14 C 0 td_hok_dsp 0\n16 I alm 1\n17 C 0 td_hok_int 0\n18 C 0 tk_sta_alm 0\n19 C 0 tk_stp_cyc 0\n21 K 2\n21 W 1 tk_dly_tsk 0\n22 O int alm 1\n22 I alm 1\n23 C 0 td_hok_int 0\n24 C 0 tk_sta_alm 0\n25 C 0 tk_stp_cyc 0\n26 O dsp 1\n26 D 1\n27 C 1 td_hok_dsp 0\n28 C 1 tk_del_alm 0\n29 C 1 tk_ext_tsk 0\n29 D 0\n29 END idle\n",
    status: Status::Done,
};

/// The IDs are written in rising order, four bytes each, at most as many as asked for; a DORMANT task counts, a
/// deleted one doesn't. The place for all that are asked for has to lie in memory, whether there are so many or
/// not, and with none asked for its address alone.
const IDS_WRITTEN: Case = Case {
    words: "run",
    script: b"utk 1\nboot main 10\nbody main task\ntk_cre_tsk - x 10 512\ntk_cre_tsk - x 10 512\ntk_cre_tsk - x 20 512\ntk_del_tsk 2\nstb 5 255\ntd_lst_tsk 0 9\nldb r5 4\nshow r5\nldb r5 5\nshow r5\nldb r5 8\nshow r5\ntd_lst_tsk 4 2\nldb r5 8\nshow r5\ntk_def_ssy 200 s\ntk_def_ssy 7 s\ntd_lst_ssy 65528 2\nldb r5 65532\nshow r5\ntd_lst_ssy 65533 1\ntd_lst_ssy 65536 0\ntd_lst_ssy 65537 0\ntd_lst_ssy -1 0\ntd_lst_ssy 0 -1\ntd_lst_ssy 0 1073741824\ntd_lst_tsk 0 16384\ntd_lst_tsk 0 16385\nend\nbody x task\nend\nbody s svc\nend\n",
    trace: b"0 D 1\n1 C 1 tk_cre_tsk 2\n2 C 1 tk_cre_tsk 3\n3 C 1 tk_cre_tsk 4\n4 C 1 tk_del_tsk 0\n6 C 1 td_lst_tsk 3\n8 S 1 3\n10 S 1 0\n12 S 1 4\n13 C 1 td_lst_tsk 3\n15 S 1 3\n16 C 1 tk_def_ssy 0\n17 C 1 tk_def_ssy 0\n18 C 1 td_lst_ssy 2\n20 S 1 200\n21 C 1 td_lst_ssy E_PAR\n22 C 1 td_lst_ssy 2\n23 C 1 td_lst_ssy E_PAR\n24 C 1 td_lst_ssy E_PAR\n25 C 1 td_lst_ssy E_PAR\n26 C 1 td_lst_ssy E_PAR\n27 C 1 td_lst_tsk 3\n28 C 1 td_lst_tsk E_PAR\n29 C 1 tk_ext_tsk 0\n29 D 0\n29 END idle\n",
    status: Status::Done,
};

/// Each list tells how many objects of its kind there are, from a handler too, and writes no more IDs than it is
/// asked for. The first object of a kind is in the list of that kind alone; a deleted one is in none.
const OBJECTS_OF_EACH_KIND: Case = Case {
    words: "run",
    script: b"utk 1\nirq 2 1\nboot main 10\nbody main task\ntk_def_int 1 h\nend\nbody h hand\ntk_cre_sem - 0 1\ntd_lst_sem 0 1\ntd_lst_flg 0 0\ntk_cre_flg - 0\ntd_lst_flg 0 1\ntd_lst_mbx 0 0\ntk_cre_mbx -\ntd_lst_mbx 0 1\ntd_lst_mtx 0 0\ntk_cre_mtx - 0\ntd_lst_mtx 0 1\ntd_lst_mbf 0 0\ntk_cre_mbf - 64 16\ntd_lst_mbf 0 1\ntd_lst_mpf 0 0\ntk_cre_mpf - 1 16\ntd_lst_mpf 0 1\ntd_lst_mpl 0 0\ntk_cre_mpl - 64\ntd_lst_mpl 0 1\ntd_lst_cyc 0 0\ntk_cre_cyc - h 1 0\ntd_lst_cyc 0 1\ntd_lst_alm 0 0\ntk_cre_alm - h\ntd_lst_alm 0 1\ntd_lst_ssy 0 0\ntk_def_ssy 200 s\ntd_lst_ssy 0 1\ntd_lst_tsk 0 0\ntk_del_sem 1\ntd_lst_sem 0 1\nldb r5 0\nshow r5\nend\nbody s svc\nend\n",
    trace: b"0 D 1\n1 C 1 tk_def_int 0\n2 I int 1\n3 C 0 tk_cre_sem 1\n4 C 0 td_lst_sem 1\n5 C 0 td_lst_flg 0\n6 C 0 tk_cre_flg 1\n7 C 0 td_lst_flg 1\n8 C 0 td_lst_mbx 0\n9 C 0 tk_cre_mbx 1\n10 C 0 td_lst_mbx 1\n11 C 0 td_lst_mtx 0\n12 C 0 tk_cre_mtx 1\n13 C 0 td_lst_mtx 1\n14 C 0 td_lst_mbf 0\n15 C 0 tk_cre_mbf 1\n16 C 0 td_lst_mbf 1\n17 C 0 td_lst_mpf 0\n18 C 0 tk_cre_mpf 1\n19 C 0 td_lst_mpf 1\n20 C 0 td_lst_mpl 0\n21 C 0 tk_cre_mpl 1\n22 C 0 td_lst_mpl 1\n23 C 0 td_lst_cyc 0\n24 C 0 tk_cre_cyc 1\n25 C 0 td_lst_cyc 1\n26 C 0 td_lst_alm 0\n27 C 0 tk_cre_alm 1\n28 C 0 td_lst_alm 1\n29 C 0 td_lst_ssy 0\n30 C 0 tk_def_ssy 0\n31 C 0 td_lst_ssy 1\n32 C 0 td_lst_tsk 1\n33 C 0 tk_del_sem 0\n34 C 0 td_lst_sem 0\n36 S 0 200\n38 C 1 tk_ext_tsk 0\n38 D 0\n38 END idle\n",
    status: Status::Done,
};

/// The receivers and the senders of message buffers and the waiters of both kinds of pools, in the order of their
/// queue. Receivers stand by time, also where the buffer orders its senders by priority.
const QUEUES_OF_BUFFERS_AND_POOLS: Case = Case {
    words: "run",
    script: b"utk 1\nboot main 10\nbody main task\ntk_cre_mbf TA_TPRI 0 8\ntk_cre_mbf TA_TPRI 0 8\ntk_cre_mpf TA_TFIFO 1 16\ntk_cre_mpl TA_TPRI 8\ntk_get_mpf 1 -1\ntk_get_mpl 1 1 -1\ntk_cre_tsk - w 6 512\ntk_cre_tsk - w 5 512\ntk_sta_tsk 2 0\ntk_sta_tsk 3 0\ntd_rmbf_que 1 100 2\ntd_smbf_que 1 100 2\nldb r5 100\nshow r5\ntk_rel_wai 2\ntk_rel_wai 3\ntd_smbf_que 2 100 2\ntd_rmbf_que 2 100 2\nldb r5 100\nshow r5\ntk_rel_wai 2\ntk_rel_wai 3\ntd_mpf_que 1 100 2\nldb r5 104\nshow r5\ntk_rel_wai 2\ntk_rel_wai 3\ntd_mpl_que 1 100 2\nldb r5 104\nshow r5\ntd_smbf_que 65 100 1\ntd_rmbf_que 3 65533 1\ntd_mpf_que 2 100 1\ntd_mpl_que 1 -1 1\nhalt\nend\nbody w task\ntk_rcv_mbf 1 0 -1\ntk_snd_mbf 2 0 4 -1\ntk_get_mpf 1 -1\ntk_get_mpl 1 8 -1\nend\n",
    trace: b"0 D 1\n1 C 1 tk_cre_mbf 1\n2 C 1 tk_cre_mbf 2\n3 C 1 tk_cre_mpf 1\n4 C 1 tk_cre_mpl 1\n5 C 1 tk_get_mpf 1\n6 C 1 tk_get_mpl 0\n7 C 1 tk_cre_tsk 2\n8 C 1 tk_cre_tsk 3\n9 C 1 tk_sta_tsk 0\n9 D 2\n10 B 2 tk_rcv_mbf\n10 D 1\n11 C 1 tk_sta_tsk 0\n11 D 3\n12 B 3 tk_rcv_mbf\n12 D 1\n13 C 1 td_rmbf_que 2\n14 C 1 td_smbf_que 0\n16 S 1 2\n17 C 1 tk_rel_wai 0\n17 W 2 tk_rcv_mbf E_RLWAI\n17 D 2\n18 B 2 tk_snd_mbf\n18 D 1\n19 C 1 tk_rel_wai 0\n19 W 3 tk_rcv_mbf E_RLWAI\n19 D 3\n20 B 3 tk_snd_mbf\n20 D 1\n21 C 1 td_smbf_que 2\n22 C 1 td_rmbf_que 0\n24 S 1 3\n25 C 1 tk_rel_wai 0\n25 W 2 tk_snd_mbf E_RLWAI\n25 D 2\n26 B 2 tk_get_mpf\n26 D 1\n27 C 1 tk_rel_wai 0\n27 W 3 tk_snd_mbf E_RLWAI\n27 D 3\n28 B 3 tk_get_mpf\n28 D 1\n29 C 1 td_mpf_que 2\n31 S 1 3\n32 C 1 tk_rel_wai 0\n32 W 2 tk_get_mpf E_RLWAI\n32 D 2\n33 B 2 tk_get_mpl\n33 D 1\n34 C 1 tk_rel_wai 0\n34 W 3 tk_get_mpf E_RLWAI\n34 D 3\n35 B 3 tk_get_mpl\n35 D 1\n36 C 1 td_mpl_que 2\n38 S 1 2\n39 C 1 td_smbf_que E_ID\n40 C 1 td_rmbf_que E_PAR\n41 C 1 td_mpf_que E_NOEXS\n42 C 1 td_mpl_que E_PAR\n43 END halt\n",
    status: Status::Done,
};

/// The waiters of a semaphore, a flag, a mailbox and a mutex in the order of their queue; a changed priority
/// changes the place, and a suspended waiter keeps it. Of the errors the ID comes first, then the numbers, then
/// the missing object.
const QUEUES_OF_WAITERS: Case = Case {
    words: "run",
    script: b"utk 1\nboot main 10\nbody main task\ntk_cre_sem TA_TPRI 0 1\ntk_cre_flg TA_TFIFO|TA_WMUL 0\ntk_cre_mbx TA_TPRI\ntk_cre_mtx TA_TPRI 0\ntk_loc_mtx 1 -1\ntk_cre_tsk - w 6 512\ntk_cre_tsk - w 5 512\ntk_sta_tsk 2 0\ntk_sta_tsk 3 0\ntd_sem_que 1 0 2\nldb r5 0\nshow r5\ntk_rel_wai 2\ntk_rel_wai 3\ntd_flg_que 1 0 2\nldb r5 0\nshow r5\ntk_rel_wai 2\ntk_rel_wai 3\ntd_mbx_que 1 0 2\nldb r5 4\nshow r5\ntk_rel_wai 2\ntk_rel_wai 3\ntd_mtx_que 1 0 1\nldb r5 0\nshow r5\ntk_chg_pri 3 7\ntk_sus_tsk 2\ntd_mtx_que 1 0 1\nldb r5 0\nshow r5\ntd_sem_que 0 0 -1\ntd_flg_que 2 0 -1\ntd_mbx_que 2 0 1\ntd_mtx_que 64 0 0\ntd_sem_que 1 0 0\nhalt\nend\nbody w task\ntk_wai_sem 1 1 -1\ntk_wai_flg 1 1 TWF_ORW -1\ntk_rcv_mbx 1 -1\ntk_loc_mtx 1 -1\nend\n",
    trace: b"0 D 1\n1 C 1 tk_cre_sem 1\n2 C 1 tk_cre_flg 1\n3 C 1 tk_cre_mbx 1\n4 C 1 tk_cre_mtx 1\n5 C 1 tk_loc_mtx 0\n6 C 1 tk_cre_tsk 2\n7 C 1 tk_cre_tsk 3\n8 C 1 tk_sta_tsk 0\n8 D 2\n9 B 2 tk_wai_sem\n9 D 1\n10 C 1 tk_sta_tsk 0\n10 D 3\n11 B 3 tk_wai_sem\n11 D 1\n12 C 1 td_sem_que 2\n14 S 1 3\n15 C 1 tk_rel_wai 0\n15 W 2 tk_wai_sem E_RLWAI\n15 D 2\n16 B 2 tk_wai_flg\n16 D 1\n17 C 1 tk_rel_wai 0\n17 W 3 tk_wai_sem E_RLWAI\n17 D 3\n18 B 3 tk_wai_flg\n18 D 1\n19 C 1 td_flg_que 2\n21 S 1 2\n22 C 1 tk_rel_wai 0\n22 W 2 tk_wai_flg E_RLWAI\n22 D 2\n23 B 2 tk_rcv_mbx\n23 D 1\n24 C 1 tk_rel_wai 0\n24 W 3 tk_wai_flg E_RLWAI\n24 D 3\n25 B 3 tk_rcv_mbx\n25 D 1\n26 C 1 td_mbx_que 2\n28 S 1 2\n29 C 1 tk_rel_wai 0\n29 W 2 tk_rcv_mbx E_RLWAI\n29 D 2\n30 B 2 tk_loc_mtx\n30 D 1\n31 C 1 tk_rel_wai 0\n31 W 3 tk_rcv_mbx E_RLWAI\n31 D 3\n32 B 3 tk_loc_mtx\n32 D 1\n33 C 1 td_mtx_que 2\n35 S 1 3\n36 C 1 tk_chg_pri 0\n37 C 1 tk_sus_tsk 0\n38 C 1 td_mtx_que 2\n40 S 1 2\n41 C 1 td_sem_que E_ID\n42 C 1 td_flg_que E_PAR\n43 C 1 td_mbx_que E_NOEXS\n44 C 1 td_mtx_que E_NOEXS\n45 C 1 td_sem_que 0\n46 END halt\n",
    status: Status::Done,
};

/// The ready tasks of one priority in their order, the running one among them, by current and not by base
/// priority. A resumed task and one whose priority is set to what it is stand last; one that comes back from a
/// ceiling does, too.
const READY_QUEUE: Case = Case {
    words: "run",
    script: b"utk 1\nboot main 10\nbody main task\ntk_cre_tsk - x 10 512\ntk_cre_tsk - x 10 512\ntk_sta_tsk 3 0\ntk_sta_tsk 2 0\ntd_rdy_que 10 0 9\nldb r5 0\nshow r5\nldb r5 4\nshow r5\nldb r5 8\nshow r5\ntk_sus_tsk 3\ntd_rdy_que 10 0 0\ntk_rsm_tsk 3\ntk_chg_pri 2 10\ntk_cre_mtx TA_CEILING 5\ntk_loc_mtx 1 -1\ntd_rdy_que 10 12 1\nldb r5 12\nshow r5\ntd_rdy_que 5 12 1\nldb r5 12\nshow r5\ntd_rdy_que 0 0 1\ntd_rdy_que 141 0 1\ntd_rdy_que 10 65533 1\ntd_rdy_que 140 65536 0\ntk_unl_mtx 1\nend\nbody x task\ntd_rdy_que 10 20 3\nldb r5 28\nshow r5\nhalt\nend\n",
    trace: b"0 D 1\n1 C 1 tk_cre_tsk 2\n2 C 1 tk_cre_tsk 3\n3 C 1 tk_sta_tsk 0\n4 C 1 tk_sta_tsk 0\n5 C 1 td_rdy_que 3\n7 S 1 1\n9 S 1 3\n11 S 1 2\n12 C 1 tk_sus_tsk 0\n13 C 1 td_rdy_que 2\n14 C 1 tk_rsm_tsk 0\n15 C 1 tk_chg_pri 0\n16 C 1 tk_cre_mtx 1\n17 C 1 tk_loc_mtx 0\n18 C 1 td_rdy_que 2\n20 S 1 3\n21 C 1 td_rdy_que 1\n23 S 1 1\n24 C 1 td_rdy_que E_PAR\n25 C 1 td_rdy_que E_PAR\n26 C 1 td_rdy_que E_PAR\n27 C 1 td_rdy_que 0\n28 C 1 tk_unl_mtx 0\n28 D 3\n29 C 3 td_rdy_que 3\n31 S 3 1\n32 END halt\n",
    status: Status::Done,
};

/// Hooks, lists and queues.
#[test]
fn hooks_and_lists_run(rt: HostRuntime) -> Result<(), Fail> {
    for case in [
        SERVICE_HOOK,
        THREE_HOOKS,
        DISPATCH_HOOK,
        HOOKS_SET_BY_HANDLERS,
        IDS_WRITTEN,
        OBJECTS_OF_EACH_KIND,
        QUEUES_OF_BUFFERS_AND_POOLS,
        QUEUES_OF_WAITERS,
        READY_QUEUE,
    ] {
        let (status, output) = outcome(&rt, rt.alloc(), case.words, case.script)?;
        assert_eq!(rt; output.as_slice(), case.trace);
        assert_eq!(rt; status, case.status);
    }
    Ok(())
}

//! Runs that were worked out by hand: interrupts and what delays them, and services of subsystems.

use crate::task_runs::Case;
use crate::tests::outcome;
use std::test::Fail;
use tk_run::Status;

/// A tick comes before interrupts, and due handlers, one after the other, come before both; of two interrupts the lesser
/// number starts first. A number is pending once, and once more where it comes while its own handler runs.
const ORDER_OF_STARTS: Case = Case {
    words: "run",
    script: b"utk 1\npace 7\nirq 7 9\nirq 7 2\nirq 7 2\nirq 12 2\nirq 16 2\nboot main 10\nbody main task\ntk_cre_alm - c\ntk_sta_alm 1 0\ntk_cre_cyc TA_STA c 50 0\ntk_def_int 2 h\ntk_def_int 9 h\nsay on\nsay off\nhalt\nend\nbody c hand\nshow r1\nend\nbody h hand\nshow r1\nend\n",
    trace: b"0 D 1\n1 C 1 tk_cre_alm 1\n2 C 1 tk_sta_alm 0\n3 C 1 tk_cre_cyc 1\n4 C 1 tk_def_int 0\n5 C 1 tk_def_int 0\n6 S 1 on\n7 K 1\n8 I alm 1\n9 S 0 1\n11 I cyc 1\n12 S 0 1\n14 K 2\n15 I int 2\n16 S 0 2\n18 I int 2\n19 S 0 2\n21 K 3\n22 I int 9\n23 S 0 9\n25 S 1 off\n26 END halt\n",
    status: Status::Done,
};

/// Interrupts and ticks wait while interrupts are disabled; the tick comes first, and each number is kept once.
const WAITING_UNDER_DI: Case = Case {
    words: "run",
    script: b"utk 1\npace 4\nirq 3 1\nirq 4 1\nboot main 10\nbody main task\ntk_def_int 1 h\nDI\nsay a\nsay b\nEI\nsay c\nend\nbody h hand\nsay in\nend\n",
    trace: b"0 D 1\n1 C 1 tk_def_int 0\n2 C 1 DI 0\n3 S 1 a\n4 S 1 b\n5 C 1 EI 0\n6 K 1\n7 I int 1\n8 S 0 in\n10 K 2\n11 S 1 c\n12 K 3\n13 C 1 tk_ext_tsk 0\n13 D 0\n13 END idle\n",
    status: Status::Done,
};

/// A task that is preempted by what a handler made ready keeps its place before its equals. One that a handler suspends
/// is the current one no more: resumed, it stands last, and is dispatched anew, also where it is alone.
const PLACE_OF_THE_PREEMPTED: Case = Case {
    words: "run",
    script: b"utk 1\nirq 8 1\nirq 16 2\nirq 27 2\nirq 36 3\nirq 40 4\nboot main 10\nbody main task\ntk_def_int 1 up\ntk_def_int 2 sus\ntk_def_int 3 off\ntk_def_int 4 on\ntk_cre_tsk - work 10 512\ntk_cre_tsk - high 5 512\ntk_sta_tsk 2 0\nsay a\nsay b\nsay c\nsay d\nend\nbody work task\nsay w\nend\nbody high task\nsay h\nend\nbody up hand\ntk_sta_tsk 3 0\ntk_ref_tsk 1\ntk_ref_sys\nreturn -1\nend\nbody sus hand\ntk_sus_tsk 1\ntk_ref_sys\ntk_get_tid\ntk_rot_rdq 0\ntk_rsm_tsk 1\ntk_ref_tsk 1\nend\nbody off hand\ntk_sus_tsk 1\nend\nbody on hand\ntk_rsm_tsk 1\nend\n",
    trace: b"0 D 1\n1 C 1 tk_def_int 0\n2 C 1 tk_def_int 0\n3 C 1 tk_def_int 0\n4 C 1 tk_def_int 0\n5 C 1 tk_cre_tsk 2\n6 C 1 tk_cre_tsk 3\n7 C 1 tk_sta_tsk 0\n8 I int 1\n9 C 0 tk_sta_tsk 0\n10 C 0 tk_ref_tsk 0 1 10 10 0 0\n11 C 0 tk_ref_sys 0 3 1 3\n12 D 3\n13 S 3 h\n14 C 3 tk_ext_tsk 0\n14 D 1\n15 S 1 a\n16 I int 2\n17 C 0 tk_sus_tsk 0\n18 C 0 tk_ref_sys 0 3 0 2\n19 C 0 tk_get_tid 0\n20 C 0 tk_rot_rdq 0\n21 C 0 tk_rsm_tsk 0\n22 C 0 tk_ref_tsk 0 2 10 10 0 0\n23 D 2\n24 S 2 w\n25 C 2 tk_ext_tsk 0\n25 D 1\n26 S 1 b\n27 I int 2\n28 C 0 tk_sus_tsk 0\n29 C 0 tk_ref_sys 0 3 0 0\n30 C 0 tk_get_tid 0\n31 C 0 tk_rot_rdq 0\n32 C 0 tk_rsm_tsk 0\n33 C 0 tk_ref_tsk 0 2 10 10 0 0\n34 D 1\n35 S 1 c\n36 I int 3\n37 C 0 tk_sus_tsk 0\n38 D 0\n39 K 1\n40 I int 4\n41 C 0 tk_rsm_tsk 0\n42 D 1\n43 S 1 d\n44 C 1 tk_ext_tsk 0\n44 D 0\n44 END idle\n",
    status: Status::Done,
};

/// A service runs in the name of its caller, with registers of its own that hold its argument and the caller's ID, and
/// may call another. What it returns is the call's answer; a negative number is shown by an error's name where there is
/// one, also one that no call answers.
const VALUES_AND_FRAMES: Case = Case {
    words: "run",
    script: b"utk 1\nboot main 10\nbody main task\ntk_def_ssy 1 sum\ntk_def_ssy 255 neg\nset r5 7\nsvc 1 4\nshow r0\nshow r5\nsvc 255 0\nend\nbody sum svc\nshow r1\nshow r2\nshow r5\nadd r1 3\nsvc 255 r1\nshow r0\nsub r0 100\nreturn r0\nend\nbody neg svc\nshow r1\nshow r2\nreturn -52\nend\n",
    trace: b"0 D 1\n1 C 1 tk_def_ssy 0\n2 C 1 tk_def_ssy 0\n5 S 1 4\n6 S 1 1\n7 S 1 0\n10 S 1 7\n11 S 1 1\n12 C 1 svc E_DISWAI\n13 S 1 -52\n15 C 1 svc -152\n16 S 1 -152\n17 S 1 7\n19 S 1 0\n20 S 1 1\n21 C 1 svc E_DISWAI\n22 C 1 tk_ext_tsk 0\n22 D 0\n22 END idle\n",
    status: Status::Done,
};

/// A wait of a service ends for the service: by its time-out, by a wake-up, by a release. A task that is terminated
/// inside nested services starts anew in its body, and may nest eight of them again.
const ENDED_INSIDE: Case = Case {
    words: "run",
    script: b"utk 1\nboot main 10\nbody main task\ntk_cre_tsk - work 5 512\ntk_def_ssy 1 nap\ntk_def_ssy 2 deep\ntk_sta_tsk 2 1\ntk_dly_tsk 3\ntk_ter_tsk 2\ntk_ref_tsk 2\ntk_sta_tsk 2 0\ntk_wup_tsk 2\ntk_rel_wai 2\ntk_ter_tsk 2\ntk_del_tsk 2\nend\nbody work task\njeq r1 0 down\nsvc 1 2\nlabel down\nsvc 2 0\nend\nbody nap svc\ntk_slp_tsk r1\nreturn r0\nend\nbody deep svc\nsvc 2 0\ntk_slp_tsk -1\nreturn r0\nend\n",
    trace: b"0 D 1\n1 C 1 tk_cre_tsk 2\n2 C 1 tk_def_ssy 0\n3 C 1 tk_def_ssy 0\n4 C 1 tk_sta_tsk 0\n4 D 2\n7 B 2 tk_slp_tsk\n7 D 1\n8 B 1 tk_dly_tsk\n8 D 0\n9 K 1\n10 K 2\n11 K 3\n11 W 2 tk_slp_tsk E_TMOUT\n11 D 2\n12 C 2 svc E_TMOUT\n21 C 2 svc E_LIMIT\n22 B 2 tk_slp_tsk\n22 D 0\n23 K 4\n23 W 1 tk_dly_tsk 0\n23 D 1\n24 C 1 tk_ter_tsk 0\n25 C 1 tk_ref_tsk 0 6 5 5 0 0\n26 C 1 tk_sta_tsk 0\n26 D 2\n36 C 2 svc E_LIMIT\n37 B 2 tk_slp_tsk\n37 D 1\n38 C 1 tk_wup_tsk 0\n38 W 2 tk_slp_tsk 0\n38 D 2\n39 C 2 svc 0\n40 B 2 tk_slp_tsk\n40 D 1\n41 C 1 tk_rel_wai 0\n41 W 2 tk_slp_tsk E_RLWAI\n41 D 2\n42 C 2 svc E_RLWAI\n43 B 2 tk_slp_tsk\n43 D 1\n44 C 1 tk_ter_tsk 0\n45 C 1 tk_del_tsk 0\n46 C 1 tk_ext_tsk 0\n46 D 0\n46 END idle\n",
    status: Status::Done,
};

/// A number from 0 on that isn't defined is no service; a wrong number comes before the context, and the context before a
/// missing service. A service that undefines itself runs on, and its value is answered.
const SERVICE_ERRORS: Case = Case {
    words: "run",
    script: b"utk 1\nirq 22 1\nboot main 10\nbody main task\ntk_def_int 1 h\ntk_def_ssy 0 s\ntk_def_ssy 256 -\ntk_def_ssy -1 s\ntk_def_ssy 1 -\ntk_ref_ssy 0\ntk_ref_ssy 256\ntk_ref_ssy 1\ntk_def_ssy 1 s\ntk_def_ssy 1 s\ntk_ref_ssy 1\nsvc -1 0\nsvc 1 -1\nsvc 0 0\nsvc 256 0\nsvc 1 7\nsvc 1 7\ntk_ext_tsk\nend\nbody s svc\ntk_def_ssy 1 -\ntk_ref_ssy 1\nreturn r1\nend\nbody h hand\nsvc -1 0\nsvc 1 -1\nsvc 256 0\ntk_def_ssy 1 s\ntk_ref_ssy 1\ntk_def_ssy 1 s\ntk_def_ssy 1 -\ntk_def_ssy 1 -\nend\n",
    trace: b"0 D 1\n1 C 1 tk_def_int 0\n2 C 1 tk_def_ssy E_ID\n3 C 1 tk_def_ssy E_ID\n4 C 1 tk_def_ssy E_ID\n5 C 1 tk_def_ssy E_NOEXS\n6 C 1 tk_ref_ssy E_ID\n7 C 1 tk_ref_ssy E_ID\n8 C 1 tk_ref_ssy E_NOEXS\n9 C 1 tk_def_ssy 0\n10 C 1 tk_def_ssy E_OBJ\n11 C 1 tk_ref_ssy 0\n12 C 1 svc E_PAR\n13 C 1 svc E_PAR\n14 C 1 svc E_RSFN\n15 C 1 svc E_RSFN\n17 C 1 tk_def_ssy 0\n18 C 1 tk_ref_ssy E_NOEXS\n19 C 1 svc 7\n20 C 1 svc E_RSFN\n21 C 1 tk_ext_tsk 0\n21 D 0\n22 I int 1\n23 C 0 svc E_PAR\n24 C 0 svc E_PAR\n25 C 0 svc E_CTX\n26 C 0 tk_def_ssy 0\n27 C 0 tk_ref_ssy 0\n28 C 0 tk_def_ssy E_OBJ\n29 C 0 tk_def_ssy 0\n30 C 0 tk_def_ssy E_NOEXS\n31 END idle\n",
    status: Status::Done,
};

/// Interrupts start in their order, wait while they are disabled, and leave the preempted task its place.
#[test]
fn interrupts_run(rt: HostRuntime) -> Result<(), Fail> {
    for case in [ORDER_OF_STARTS, WAITING_UNDER_DI, PLACE_OF_THE_PREEMPTED] {
        let (status, output) = outcome(&rt, rt.alloc(), case.words, case.script)?;
        assert_eq!(rt; output.as_slice(), case.trace);
        assert_eq!(rt; status, case.status);
    }
    Ok(())
}

/// Services run in frames of their own, in the name of their callers, and end with them.
#[test]
fn services_run(rt: HostRuntime) -> Result<(), Fail> {
    for case in [VALUES_AND_FRAMES, ENDED_INSIDE, SERVICE_ERRORS] {
        let (status, output) = outcome(&rt, rt.alloc(), case.words, case.script)?;
        assert_eq!(rt; output.as_slice(), case.trace);
        assert_eq!(rt; status, case.status);
    }
    Ok(())
}

//! Sessions that were worked out by hand: devices, and the endings of a journal.

use crate::task_runs::Case;
use crate::tests::outcome;
use std::test::Fail;
use tk_run::Status;
use tk_types::Why;

/// The driver may cut the request off that a close asked it to abort.
const CLOSE_CUTS_THE_REQUEST_AT_THE_DRIVER: Case = Case {
    words: "replay",
    script: b"utk 1\ndevice d slow 256 3\nboot main 10\nbody main task\ntk_opn_dev d TD_WRITE\ntk_wri_dev 1 0 0 200 -1\ntk_wri_dev 1 0 0 10 -1\ntk_cls_dev 1\nend\n%journal\n5 1 1 cut 64\n",
    trace: b"0 D 1\n1 C 1 tk_opn_dev 1\n2 C 1 tk_wri_dev 1\n3 C 1 tk_wri_dev 2\n4 B 1 tk_cls_dev\n4 D 0\n5 J 1 1 cut 64\n5 W 1 tk_cls_dev 0\n5 D 1\n5 C 1 tk_ext_tsk 0\n5 D 0\n5 END idle\n",
    status: Status::Done,
};

/// A close waits for the ending of what its driver has; what is queued is dropped at once.
const CLOSE_WAITS_FOR_AN_ENDING: Case = Case {
    words: "replay",
    script: b"utk 1\ndevice d slow 256 3\nboot main 10\nbody main task\ntk_opn_dev d TD_WRITE\ntk_wri_dev 1 0 0 200 -1\ntk_wri_dev 1 0 0 10 -1\ntk_cls_dev 1\nend\n%journal\n5 1 1 done\n",
    trace: b"0 D 1\n1 C 1 tk_opn_dev 1\n2 C 1 tk_wri_dev 1\n3 C 1 tk_wri_dev 2\n4 B 1 tk_cls_dev\n4 D 0\n5 J 1 1 done 0 200\n5 W 1 tk_cls_dev 0\n5 D 1\n5 C 1 tk_ext_tsk 0\n5 D 0\n5 END idle\n",
    status: Status::Done,
};

/// A request is cut off between two blocks alone.
const CUT_INSIDE_A_BLOCK_IS_UNFIT: Case = Case {
    words: "replay",
    script: b"utk 1\ndevice d slow 256 3\nboot main 10\nbody main task\ntk_opn_dev d TD_WRITE\ntk_wri_dev 1 0 0 200 -1\ntk_wri_dev 1 0 0 10 -1\ntk_cls_dev 1\nend\n%journal\n5 1 1 cut 63\n",
    trace: b"0 D 1\n1 C 1 tk_opn_dev 1\n2 C 1 tk_wri_dev 1\n3 C 1 tk_wri_dev 2\n4 B 1 tk_cls_dev\n4 D 0\n4 END unfit 1\n",
    status: Status::Unfit { entry: 1 },
};

/// A cut leaves something of the request over.
const CUT_PAST_THE_REQUEST_IS_UNFIT: Case = Case {
    words: "replay",
    script: b"utk 1\ndevice d slow 256 3\nboot main 10\nbody main task\ntk_opn_dev d TD_WRITE\ntk_wri_dev 1 0 0 200 -1\ntk_wri_dev 1 0 0 10 -1\ntk_cls_dev 1\nend\n%journal\n5 1 1 cut 256\n",
    trace: b"0 D 1\n1 C 1 tk_opn_dev 1\n2 C 1 tk_wri_dev 1\n3 C 1 tk_wri_dev 2\n4 B 1 tk_cls_dev\n4 D 0\n4 END unfit 1\n",
    status: Status::Unfit { entry: 1 },
};

/// A request whose abort wasn't asked isn't cut off.
const CUT_THAT_WAS_NOT_ASKED_IS_UNFIT: Case = Case {
    words: "replay",
    script: b"utk 1\ndevice d slow 256 3\nboot main 10\nbody main task\ntk_opn_dev d TD_WRITE\ntk_wri_dev 1 0 0 200 -1\ntk_wri_dev 1 0 0 10 -1\ntk_cls_dev 1\nend\n%journal\n3 1 1 cut 0\n",
    trace: b"0 D 1\n1 C 1 tk_opn_dev 1\n2 C 1 tk_wri_dev 1\n2 END unfit 1\n",
    status: Status::Unfit { entry: 1 },
};

/// Endings of two devices arrive in the order of the journal.
const ENDINGS_OF_TWO_DEVICES_ARRIVE_SWAPPED: Case = Case {
    words: "replay",
    script: b"utk 1\ndevice a ram 64\ndevice b ram 64\nboot main 10\nbody main task\ntk_opn_dev a TD_UPDATE\ntk_opn_dev b TD_UPDATE\ntk_wri_dev 1 0 0 8 -1\ntk_wri_dev 2 0 0 8 -1\ntk_wai_dev 2 2 -1\ntk_wai_dev 1 1 -1\nend\n%journal\n6 2 2 done\n7 1 1 done\n",
    trace: b"0 D 1\n1 C 1 tk_opn_dev 1\n2 C 1 tk_opn_dev 2\n3 C 1 tk_wri_dev 1\n4 C 1 tk_wri_dev 2\n5 B 1 tk_wai_dev\n5 D 0\n6 J 2 2 done 0 8\n6 W 1 tk_wai_dev 2 8 0\n6 D 1\n6 B 1 tk_wai_dev\n6 D 0\n7 J 1 1 done 0 8\n7 W 1 tk_wai_dev 1 8 0\n7 D 1\n7 C 1 tk_ext_tsk 0\n7 D 0\n7 END idle\n",
    status: Status::Done,
};

/// An entry that is left at the end isn't fit, and the last line says so in place of its own.
const ENTRY_LEFT_AT_THE_END_IS_UNFIT: Case = Case {
    words: "replay",
    script: b"utk 1\ndevice d slow 256 3\nboot main 10\nbody main task\ntk_opn_dev d TD_WRITE\ntk_wri_dev 1 0 0 200 -1\ntk_wri_dev 1 0 0 10 -1\ntk_cls_dev 1\nend\n%journal\n5 1 1 done\n9 1 1 done\n",
    trace: b"0 D 1\n1 C 1 tk_opn_dev 1\n2 C 1 tk_wri_dev 1\n3 C 1 tk_wri_dev 2\n4 B 1 tk_cls_dev\n4 D 0\n5 J 1 1 done 0 200\n5 W 1 tk_cls_dev 0\n5 D 1\n5 C 1 tk_ext_tsk 0\n5 D 0\n5 END unfit 2\n",
    status: Status::Unfit { entry: 2 },
};

/// A request that ended aborted in its queue has no ending to come.
const ENTRY_OF_AN_ABORTED_REQUEST_IS_UNFIT: Case = Case {
    words: "replay",
    script: b"utk 1\ndevice d slow 256 3\nboot main 10\nbody main task\ntk_opn_dev d TD_WRITE\ntk_wri_dev 1 0 0 200 -1\ntk_wri_dev 1 0 0 10 -1\ntk_cls_dev 1\nend\n%journal\n5 1 2 done\n",
    trace: b"0 D 1\n1 C 1 tk_opn_dev 1\n2 C 1 tk_wri_dev 1\n3 C 1 tk_wri_dev 2\n4 B 1 tk_cls_dev\n4 D 0\n4 END unfit 1\n",
    status: Status::Unfit { entry: 1 },
};

/// No device has that number.
const ENTRY_OF_AN_UNKNOWN_DEVICE_IS_UNFIT: Case = Case {
    words: "replay",
    script: b"utk 1\ndevice d slow 256 3\nboot main 10\nbody main task\ntk_opn_dev d TD_WRITE\ntk_wri_dev 1 0 0 200 -1\ntk_wri_dev 1 0 0 10 -1\ntk_cls_dev 1\nend\n%journal\n5 2 1 done\n",
    trace: b"0 D 1\n1 C 1 tk_opn_dev 1\n2 C 1 tk_wri_dev 1\n3 C 1 tk_wri_dev 2\n4 B 1 tk_cls_dev\n4 D 0\n4 END unfit 1\n",
    status: Status::Unfit { entry: 1 },
};

/// Where an ending is needed, an entry with a later place isn't fit.
const ENTRY_WITH_A_LATER_PLACE_IS_UNFIT: Case = Case {
    words: "replay",
    script: b"utk 1\ndevice d slow 256 3\nboot main 10\nbody main task\ntk_opn_dev d TD_WRITE\ntk_wri_dev 1 0 0 200 -1\ntk_wri_dev 1 0 0 10 -1\ntk_cls_dev 1\nend\n%journal\n9 1 1 done\n",
    trace: b"0 D 1\n1 C 1 tk_opn_dev 1\n2 C 1 tk_wri_dev 1\n3 C 1 tk_wri_dev 2\n4 B 1 tk_cls_dev\n4 D 0\n4 END unfit 1\n",
    status: Status::Unfit { entry: 1 },
};

/// A wrong line of the journal is refused, counted from the first line of the session.
const JOURNAL_LINE_WITHOUT_ITS_CUT_IS_REFUSED: Case = Case {
    words: "replay",
    script: b"utk 1\ndevice d slow 256 3\nboot main 10\nbody main task\ntk_opn_dev d TD_WRITE\ntk_wri_dev 1 0 0 200 -1\ntk_wri_dev 1 0 0 10 -1\ntk_cls_dev 1\nend\n%journal\n5 1 1 cut\n",
    trace: b"refused 11 journal\n",
    status: Status::Refused {
        line: 11,
        why: Why::Journal,
    },
};

/// Where an ending is needed and the journal is used up, the run is starved.
const REPLAY_STARVES_WITHOUT_AN_ENTRY: Case = Case {
    words: "replay",
    script: b"utk 1\ndevice d slow 256 3\nboot main 10\nbody main task\ntk_opn_dev d TD_WRITE\ntk_wri_dev 1 0 0 200 -1\ntk_wri_dev 1 0 0 10 -1\ntk_cls_dev 1\nend\n%journal\n",
    trace: b"0 D 1\n1 C 1 tk_opn_dev 1\n2 C 1 tk_wri_dev 1\n3 C 1 tk_wri_dev 2\n4 B 1 tk_cls_dev\n4 D 0\n4 END starved\n",
    status: Status::Starved,
};

/// A request ends once; the lines of the entry before stand.
const SECOND_ENTRY_WITHOUT_A_REQUEST_IS_UNFIT: Case = Case {
    words: "replay",
    script: b"utk 1\ndevice d slow 256 3\nboot main 10\nbody main task\ntk_opn_dev d TD_WRITE\ntk_wri_dev 1 0 0 200 -1\ntk_wri_dev 1 0 0 10 -1\ntk_cls_dev 1\nend\n%journal\n5 1 1 done\n5 1 1 done\n",
    trace: b"0 D 1\n1 C 1 tk_opn_dev 1\n2 C 1 tk_wri_dev 1\n3 C 1 tk_wri_dev 2\n4 B 1 tk_cls_dev\n4 D 0\n5 J 1 1 done 0 200\n5 W 1 tk_cls_dev 0\n5 D 1\n4 END unfit 2\n",
    status: Status::Unfit { entry: 2 },
};

/// A device has sixteen unfinished requests at most.
const SEVENTEENTH_REQUEST_FINDS_NO_PLACE: Case = Case {
    words: "replay",
    script: b"utk 1\ndevice d ram 64\nboot main 10\nbody main task\ntk_opn_dev d TD_READ\nset r5 0\nlabel again\ntk_rea_dev 1 0 0 4 0\nadd r5 1\njlt r5 17 again\nhalt\nend\n%journal\n",
    trace: b"0 D 1\n1 C 1 tk_opn_dev 1\n3 C 1 tk_rea_dev 1\n6 C 1 tk_rea_dev 2\n9 C 1 tk_rea_dev 3\n12 C 1 tk_rea_dev 4\n15 C 1 tk_rea_dev 5\n18 C 1 tk_rea_dev 6\n21 C 1 tk_rea_dev 7\n24 C 1 tk_rea_dev 8\n27 C 1 tk_rea_dev 9\n30 C 1 tk_rea_dev 10\n33 C 1 tk_rea_dev 11\n36 C 1 tk_rea_dev 12\n39 C 1 tk_rea_dev 13\n42 C 1 tk_rea_dev 14\n45 C 1 tk_rea_dev 15\n48 C 1 tk_rea_dev 16\n51 C 1 tk_rea_dev E_TMOUT\n54 END halt\n",
    status: Status::Done,
};

/// A suspension sends its event to the event buffer of the device.
const SUSPENSION_SENDS_ITS_EVENT: Case = Case {
    words: "replay",
    script: b"utk 1\ndevice d ram 64\nboot main 10\nbody main task\ntk_cre_mbf - 64 12\ntk_opn_dev d TD_UPDATE\nstb 0 1\ntk_swri_dev 1 -1 0 4\ntk_sus_dev TD_SUSPEND\ntk_rcv_mbf 1 100 0\nldb r3 104\nshow r3\nend\n%journal\n",
    trace: b"0 D 1\n1 C 1 tk_cre_mbf 1\n2 C 1 tk_opn_dev 1\n4 C 1 tk_swri_dev 4\n5 C 1 tk_sus_dev 0\n6 C 1 tk_rcv_mbf 12\n8 S 1 1\n9 C 1 tk_ext_tsk 0\n9 D 0\n9 END idle\n",
    status: Status::Done,
};

/// No task waits for any request of a descriptor for which another waits.
const WAIT_FOR_ANY_IS_REFUSED_WHILE_A_TASK_WAITS: Case = Case {
    words: "replay",
    script: b"utk 1\ndevice d ram 64\nboot main 10\nbody main task\ntk_cre_tsk - wt 5 512\ntk_opn_dev d TD_READ\ntk_rea_dev 1 0 0 8 -1\ntk_wai_dev 1 1 0\ntk_sta_tsk 2 0\ntk_wai_dev 1 0 -1\ntk_ext_tsk\nend\nbody wt task\ntk_wai_dev 1 1 -1\nend\n%journal\n9 1 1 done\n",
    trace: b"0 D 1\n1 C 1 tk_cre_tsk 2\n2 C 1 tk_opn_dev 1\n3 C 1 tk_rea_dev 1\n4 C 1 tk_wai_dev E_TMOUT\n5 C 1 tk_sta_tsk 0\n5 D 2\n6 B 2 tk_wai_dev\n6 D 1\n7 C 1 tk_wai_dev E_OBJ\n8 C 1 tk_ext_tsk 0\n8 D 0\n9 J 1 1 done 0 8\n9 W 2 tk_wai_dev 1 8 0\n9 D 2\n9 C 2 tk_ext_tsk 0\n9 D 0\n9 END idle\n",
    status: Status::Done,
};

/// Sessions with all that devices do, to their ends.
#[test]
fn sessions_run(rt: HostRuntime) -> Result<(), Fail> {
    for case in [
        CLOSE_CUTS_THE_REQUEST_AT_THE_DRIVER,
        CLOSE_WAITS_FOR_AN_ENDING,
        CUT_INSIDE_A_BLOCK_IS_UNFIT,
        CUT_PAST_THE_REQUEST_IS_UNFIT,
        CUT_THAT_WAS_NOT_ASKED_IS_UNFIT,
        ENDINGS_OF_TWO_DEVICES_ARRIVE_SWAPPED,
        ENTRY_LEFT_AT_THE_END_IS_UNFIT,
        ENTRY_OF_AN_ABORTED_REQUEST_IS_UNFIT,
        ENTRY_OF_AN_UNKNOWN_DEVICE_IS_UNFIT,
        ENTRY_WITH_A_LATER_PLACE_IS_UNFIT,
        JOURNAL_LINE_WITHOUT_ITS_CUT_IS_REFUSED,
        REPLAY_STARVES_WITHOUT_AN_ENTRY,
        SECOND_ENTRY_WITHOUT_A_REQUEST_IS_UNFIT,
        SEVENTEENTH_REQUEST_FINDS_NO_PLACE,
        SUSPENSION_SENDS_ITS_EVENT,
        WAIT_FOR_ANY_IS_REFUSED_WHILE_A_TASK_WAITS,
    ] {
        let (status, output) = outcome(&rt, rt.alloc(), case.words, case.script)?;
        assert_eq!(rt; output.as_slice(), case.trace);
        assert_eq!(rt; status, case.status);
    }
    Ok(())
}

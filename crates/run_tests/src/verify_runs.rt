//! Traces that stand behind their scripts: those that their own runs write, those with a line turned, and hostile ones.

use crate::task_runs::Case;
use crate::tests::outcome;
use std::test::Fail;
use tk_run::Status;
use tk_types::Why;

/// A trace that its own run writes.
const SAME: Case = Case {
    words: "verify",
    script: b"utk 1\nboot main 10\nbody main task\nsay hello\ntk_ext_tsk\nend\n%trace\n0 D 1\n1 S 1 hello\n2 C 1 tk_ext_tsk 0\n2 D 0\n2 END idle\n",
    trace: b"same 5\n",
    status: Status::Done,
};

/// The last line may lack its line feed.
const SAME_WITHOUT_THE_LAST_LINE_FEED: Case = Case {
    words: "verify --sync",
    script: b"utk 1\nboot main 10\nbody main task\nsay hello\ntk_ext_tsk\nend\n%trace\n0 D 1\n1 S 1 hello\n2 C 1 tk_ext_tsk 0\n2 D 0\n2 END idle",
    trace: b"same 5\n",
    status: Status::Done,
};

/// The budget is that of the words, and a run that ends at it is one that can be verified.
const SAME_UP_TO_A_BUDGET: Case = Case {
    words: "verify --budget 1",
    script: b"utk 1\nboot main 10\nbody main task\nsay hello\ntk_ext_tsk\nend\n%trace\n0 D 1\n1 S 1 hello\n1 END budget\n",
    trace: b"same 3\n",
    status: Status::Done,
};

/// The endings are those that the trace's own lines record.
const SAME_WITH_AN_ENDING: Case = Case {
    words: "verify",
    script: b"utk 1\ndevice d slow 256 3\nboot main 10\nbody main task\ntk_opn_dev d TD_WRITE\ntk_wri_dev 1 0 0 200 -1\ntk_wri_dev 1 0 0 10 -1\ntk_cls_dev 1\nend\n%trace\n0 D 1\n1 C 1 tk_opn_dev 1\n2 C 1 tk_wri_dev 1\n3 C 1 tk_wri_dev 2\n4 B 1 tk_cls_dev\n4 D 0\n5 J 1 1 cut 64\n5 W 1 tk_cls_dev 0\n5 D 1\n5 C 1 tk_ext_tsk 0\n5 D 0\n5 END idle\n",
    trace: b"same 12\n",
    status: Status::Done,
};

/// An answer that the call doesn't give.
const ANSWER_IS_CHANGED: Case = Case {
    words: "verify",
    script: b"utk 1\nboot main 10\nbody main task\nsay hello\ntk_ext_tsk\nend\n%trace\n0 D 1\n1 S 1 hello\n2 C 1 tk_ext_tsk 1\n2 D 0\n2 END idle\n",
    trace: b"differs 3\nwant 2 C 1 tk_ext_tsk 0\nhave 2 C 1 tk_ext_tsk 1\n",
    status: Status::Differs { line: 3 },
};

const LINE_IS_DROPPED: Case = Case {
    words: "verify",
    script: b"utk 1\nboot main 10\nbody main task\nsay hello\ntk_ext_tsk\nend\n%trace\n0 D 1\n2 C 1 tk_ext_tsk 0\n2 D 0\n2 END idle\n",
    trace: b"differs 2\nwant 1 S 1 hello\nhave 2 C 1 tk_ext_tsk 0\n",
    status: Status::Differs { line: 2 },
};

const LINE_IS_DOUBLED: Case = Case {
    words: "verify",
    script: b"utk 1\nboot main 10\nbody main task\nsay hello\ntk_ext_tsk\nend\n%trace\n0 D 1\n0 D 1\n1 S 1 hello\n2 C 1 tk_ext_tsk 0\n2 D 0\n2 END idle\n",
    trace: b"differs 2\nwant 1 S 1 hello\nhave 0 D 1\n",
    status: Status::Differs { line: 2 },
};

const LINES_ARE_SWAPPED: Case = Case {
    words: "verify",
    script: b"utk 1\nboot main 10\nbody main task\nsay hello\ntk_ext_tsk\nend\n%trace\n0 D 1\n1 S 1 hello\n2 C 1 tk_ext_tsk 0\n2 END idle\n2 D 0\n",
    trace: b"differs 4\nwant 2 D 0\nhave 2 END idle\n",
    status: Status::Differs { line: 4 },
};

const END_IS_OF_ANOTHER_KIND: Case = Case {
    words: "verify",
    script: b"utk 1\nboot main 10\nbody main task\nsay hello\ntk_ext_tsk\nend\n%trace\n0 D 1\n1 S 1 hello\n2 C 1 tk_ext_tsk 0\n2 D 0\n2 END halt\n",
    trace: b"differs 5\nwant 2 END idle\nhave 2 END halt\n",
    status: Status::Differs { line: 5 },
};

/// A run lacks nothing, and its trace says that it starved.
const END_SAYS_STARVED: Case = Case {
    words: "verify",
    script: b"utk 1\nboot main 10\nbody main task\nsay hello\ntk_ext_tsk\nend\n%trace\n0 D 1\n1 S 1 hello\n2 C 1 tk_ext_tsk 0\n2 D 0\n2 END starved\n",
    trace: b"differs 5\nwant 2 END idle\nhave 2 END starved\n",
    status: Status::Differs { line: 5 },
};

/// The given trace ends before its run does.
const TRACE_IS_SHORTER: Case = Case {
    words: "verify",
    script: b"utk 1\nboot main 10\nbody main task\nsay hello\ntk_ext_tsk\nend\n%trace\n0 D 1\n1 S 1 hello\n2 C 1 tk_ext_tsk 0\n2 D 0\n",
    trace: b"differs 5\nwant 2 END idle\nhave\n",
    status: Status::Differs { line: 5 },
};

/// The given trace goes on behind the end of its run.
const TRACE_IS_LONGER: Case = Case {
    words: "verify",
    script: b"utk 1\nboot main 10\nbody main task\nsay hello\ntk_ext_tsk\nend\n%trace\n0 D 1\n1 S 1 hello\n2 C 1 tk_ext_tsk 0\n2 D 0\n2 END idle\n3 S 1 more\n",
    trace: b"differs 6\nwant\nhave 3 S 1 more\n",
    status: Status::Differs { line: 6 },
};

const TRACE_HAS_NO_LINES: Case = Case {
    words: "verify",
    script: b"utk 1\nboot main 10\nbody main task\nsay hello\ntk_ext_tsk\nend\n%trace\n",
    trace: b"differs 1\nwant 0 D 1\nhave\n",
    status: Status::Differs { line: 1 },
};

/// A run that has no end by itself is left at the first line that differs, or at its budget.
const ENDLESS_RUN_DIFFERS: Case = Case {
    words: "verify --budget 1000000",
    script: b"utk 1\nboot main 10\nbody main task\nlabel a\nsay on\njump a\nend\n%trace\n0 D 1\n1 S 1 off\n",
    trace: b"differs 2\nwant 1 S 1 on\nhave 1 S 1 off\n",
    status: Status::Differs { line: 2 },
};

/// The journal fits, and the size that its line tells isn't that of the request.
const ENDING_FITS_AND_ITS_SIZE_DIFFERS: Case = Case {
    words: "verify",
    script: b"utk 1\ndevice d slow 256 3\nboot main 10\nbody main task\ntk_opn_dev d TD_WRITE\ntk_wri_dev 1 0 0 200 -1\ntk_wri_dev 1 0 0 10 -1\ntk_cls_dev 1\nend\n%trace\n0 D 1\n1 C 1 tk_opn_dev 1\n2 C 1 tk_wri_dev 1\n3 C 1 tk_wri_dev 2\n4 B 1 tk_cls_dev\n4 D 0\n5 J 1 1 done 0 199\n5 W 1 tk_cls_dev 0\n5 D 1\n5 C 1 tk_ext_tsk 0\n5 D 0\n5 END idle\n",
    trace: b"differs 7\nwant 5 J 1 1 done 0 200\nhave 5 J 1 1 done 0 199\n",
    status: Status::Differs { line: 7 },
};

/// A trace of a run that starved tells so, also where it is the one that its replay writes.
const STARVED: Case = Case {
    words: "verify",
    script: b"utk 1\ndevice d slow 256 3\nboot main 10\nbody main task\ntk_opn_dev d TD_WRITE\ntk_wri_dev 1 0 0 200 -1\ntk_wri_dev 1 0 0 10 -1\ntk_cls_dev 1\nend\n%trace\n0 D 1\n1 C 1 tk_opn_dev 1\n2 C 1 tk_wri_dev 1\n3 C 1 tk_wri_dev 2\n4 B 1 tk_cls_dev\n4 D 0\n4 END starved\n",
    trace: b"starved 4\n",
    status: Status::Starved,
};

/// That an ending is missing comes before a line that differs.
const STARVED_BEFORE_DIFFERENT: Case = Case {
    words: "verify",
    script: b"utk 1\ndevice d slow 256 3\nboot main 10\nbody main task\ntk_opn_dev d TD_WRITE\ntk_wri_dev 1 0 0 200 -1\ntk_wri_dev 1 0 0 10 -1\ntk_cls_dev 1\nend\n%trace\n0 D 2\n",
    trace: b"starved 4\n",
    status: Status::Starved,
};

/// So does an ending that isn't fit: a request that waits in the queue has none.
const UNFIT_BEFORE_DIFFERENT: Case = Case {
    words: "verify",
    script: b"utk 1\ndevice d slow 256 3\nboot main 10\nbody main task\ntk_opn_dev d TD_WRITE\ntk_wri_dev 1 0 0 200 -1\ntk_wri_dev 1 0 0 10 -1\ntk_cls_dev 1\nend\n%trace\n0 D 2\n5 J 1 2 done 0 10\n",
    trace: b"unfit 1\n",
    status: Status::Unfit { entry: 1 },
};

/// The entries are counted from the first, and one that is left at the end isn't fit.
const UNFIT_AT_THE_END: Case = Case {
    words: "verify",
    script: b"utk 1\ndevice d slow 256 3\nboot main 10\nbody main task\ntk_opn_dev d TD_WRITE\ntk_wri_dev 1 0 0 200 -1\ntk_wri_dev 1 0 0 10 -1\ntk_cls_dev 1\nend\n%trace\n5 J 1 1 done 0 200\n9 J 1 1 done 0 200\n",
    trace: b"unfit 2\n",
    status: Status::Unfit { entry: 2 },
};

const NO_DIVIDER: Case = Case {
    words: "verify",
    script: b"utk 1\nboot main 10\nbody main task\nsay hello\ntk_ext_tsk\nend\n",
    trace: b"refused 7 end\n",
    status: Status::Refused {
        line: 7,
        why: Why::End,
    },
};

/// The divider of a journal is no line of a script.
const DIVIDER_OF_A_JOURNAL: Case = Case {
    words: "verify",
    script: b"utk 1\nboot main 10\nbody main task\nsay hello\ntk_ext_tsk\nend\n%journal\n5 1 1 done\n",
    trace: b"refused 7 order\n",
    status: Status::Refused {
        line: 7,
        why: Why::Order,
    },
};

/// The script's own refusal comes before that of its trace.
const SCRIPT_IS_REFUSED_FIRST: Case = Case {
    words: "verify",
    script: b"utk 1\nboot main 10\nbody main task\nsay Hello\nend\n%trace\n0 D one\n",
    trace: b"refused 4 name\n",
    status: Status::Refused {
        line: 4,
        why: Why::Name,
    },
};

/// A line of no kind, counted from the first line of the input.
const LINE_OF_NO_KIND: Case = Case {
    words: "verify",
    script: b"utk 1\nboot main 10\nbody main task\nsay hello\ntk_ext_tsk\nend\n%trace\n0 D 1\n1 S 1\n2 C 1 tk_ext_tsk 0\n2 D 0\n2 END idle\n",
    trace: b"refused 9 trace\n",
    status: Status::Refused {
        line: 9,
        why: Why::Trace,
    },
};

/// A line that ends in the middle of a sequence of bytes that stands for one character.
const LINE_IS_CUT_IN_A_CHARACTER: Case = Case {
    words: "verify",
    script: b"utk 1\nboot main 10\nbody main task\nsay hello\ntk_ext_tsk\nend\n%trace\n0 D 1\n1 S 1 hell\xc3",
    trace: b"refused 9 trace\n",
    status: Status::Refused {
        line: 9,
        why: Why::Trace,
    },
};

/// What `verify` says of each trace, and its status.
#[test]
fn traces_are_verified(rt: HostRuntime) -> Result<(), Fail> {
    for case in [
        SAME,
        SAME_WITHOUT_THE_LAST_LINE_FEED,
        SAME_UP_TO_A_BUDGET,
        SAME_WITH_AN_ENDING,
        ANSWER_IS_CHANGED,
        LINE_IS_DROPPED,
        LINE_IS_DOUBLED,
        LINES_ARE_SWAPPED,
        END_IS_OF_ANOTHER_KIND,
        END_SAYS_STARVED,
        TRACE_IS_SHORTER,
        TRACE_IS_LONGER,
        TRACE_HAS_NO_LINES,
        ENDLESS_RUN_DIFFERS,
        ENDING_FITS_AND_ITS_SIZE_DIFFERS,
        STARVED,
        STARVED_BEFORE_DIFFERENT,
        UNFIT_BEFORE_DIFFERENT,
        UNFIT_AT_THE_END,
        NO_DIVIDER,
        DIVIDER_OF_A_JOURNAL,
        SCRIPT_IS_REFUSED_FIRST,
        LINE_OF_NO_KIND,
        LINE_IS_CUT_IN_A_CHARACTER,
    ] {
        let (status, output) = outcome(&rt, rt.alloc(), case.words, case.script)?;
        assert_eq!(rt; output.as_slice(), case.trace);
        assert_eq!(rt; status, case.status);
    }
    Ok(())
}

/// Words that are nearly those of `verify` are no command.
#[test]
fn words_of_verify_are_whole(rt: HostRuntime) -> Result<(), Fail> {
    for words in [
        "verify --budget",
        "verify --budget 0",
        "verify --free",
        "verify all",
    ] {
        let (status, output) = outcome(&rt, rt.alloc(), words, SAME.script)?;
        assert_eq!(rt; output.as_slice(), b"usage\n".as_slice());
        assert_eq!(rt; status, Status::Usage);
    }
    Ok(())
}

//! Calls one after another on a fresh table, with answers from the rules of the calls.

use super::*;
use kernel_base::Base;
use std::alloc::{AllocError, Global};
use std::test::Fail;
use tk_types::{ContextCall, Er, Outcome, Who};

/// What a call answers or enters: the value and the first three fields of its answer, or the body of its service.
fn shown(outcome: Outcome) -> (i32, [i32; 3], u8) {
    match outcome {
        Outcome::Returned(answer) => {
            let [context, current, chosen, _, _] = answer.fields;
            (answer.value, [context, current, chosen], 0)
        }
        Outcome::Blocked => (-1, [0, 0, 0], 0),
        Outcome::Entered(body) => (0, [0, 0, 0], body),
    }
}

/// The value that a call of task 1 answers as the first one.
fn first_answer(alloc: Global, call: &ContextCall) -> Result<i32, AllocError> {
    let mut base = Base::new(alloc, 10)?;
    let mut table = Contexts::new(alloc)?;
    let (value, _, _) = shown(crate::call(&mut base, &mut table, Who::Task(1), call));
    Ok(value)
}

#[test]
fn nothing_is_defined_at_first(rt: HostRuntime) -> Result<(), Fail> {
    let alloc = rt.alloc();
    let calls: [(ContextCall, i32); 10] = [
        (
            ContextCall::DefInt {
                number: 255,
                body: 3,
            },
            0,
        ),
        (
            ContextCall::DefInt {
                number: 256,
                body: 3,
            },
            Er::Par.main_code(),
        ),
        (
            ContextCall::DefSsy { number: 0, body: 3 },
            Er::Id.main_code(),
        ),
        (
            ContextCall::DefSsy { number: 1, body: 0 },
            Er::NoExs.main_code(),
        ),
        (ContextCall::DefSsy { number: 1, body: 3 }, 0),
        (ContextCall::RefSsy { number: 255 }, Er::NoExs.main_code()),
        (ContextCall::RefSsy { number: 256 }, Er::Id.main_code()),
        (
            ContextCall::Svc {
                number: 1,
                value: -1,
            },
            Er::Par.main_code(),
        ),
        (
            ContextCall::Svc {
                number: 256,
                value: 0,
            },
            Er::RsFn.main_code(),
        ),
        (ContextCall::Di, 0),
    ];
    for (call, value) in &calls {
        assert_eq!(rt; first_answer(alloc, call)?, *value);
    }
    Ok(())
}

#[test]
fn each_context_has_its_number(rt: HostRuntime) -> Result<(), Fail> {
    let mut base = Base::new(rt.alloc(), 10)?;
    let mut table = Contexts::new(rt.alloc())?;
    let calls: [(ContextCall, [i32; 3]); 10] = [
        (ContextCall::RefSys, [0, 1, 1]),
        (ContextCall::DisDsp, [0, 0, 0]),
        (ContextCall::RefSys, [1, 1, 1]),
        (ContextCall::Di, [0, 0, 0]),
        (ContextCall::RefSys, [2, 1, 1]),
        (ContextCall::EnaDsp, [0, 0, 0]),
        (ContextCall::RefSys, [2, 1, 1]),
        (ContextCall::Ei, [0, 0, 0]),
        (ContextCall::RefSys, [0, 1, 1]),
        (ContextCall::RefSys, [0, 1, 1]),
    ];
    base.dispatch();
    for (call, fields) in &calls {
        let outcome = crate::call(&mut base, &mut table, Who::Task(1), call);
        assert_eq!(rt; shown(outcome), (0, *fields, 0));
    }
    Ok(())
}

#[test]
fn services_nest_eight_deep(rt: HostRuntime) -> Result<(), Fail> {
    let mut base = Base::new(rt.alloc(), 10)?;
    let mut table = Contexts::new(rt.alloc())?;
    let enter = ContextCall::Svc {
        number: 7,
        value: 5,
    };
    let define = ContextCall::DefSsy { number: 7, body: 9 };
    assert_eq!(rt;
        shown(crate::call(&mut base, &mut table, Who::Handler, &define)),
        (0, [0, 0, 0], 0)
    );
    assert!(rt; table.has_ssy(7));
    for depth in 0..8u8 {
        assert_eq!(rt; depth_in(&table, 1), depth);
        assert_eq!(rt;
            shown(crate::call(&mut base, &mut table, Who::Task(1), &enter)),
            (0, [0, 0, 0], 9)
        );
    }
    assert_eq!(rt;
        shown(crate::call(&mut base, &mut table, Who::Task(1), &enter)),
        (Er::Limit.main_code(), [0, 0, 0], 0)
    );
    assert_eq!(rt;
        shown(crate::call(&mut base, &mut table, Who::Handler, &enter)),
        (Er::Ctx.main_code(), [0, 0, 0], 0)
    );
    left(&mut table, 1, false);
    assert_eq!(rt; depth_in(&table, 1), 7);
    left(&mut table, 1, true);
    assert_eq!(rt; depth_in(&table, 1), 0);
    left(&mut table, 1, false);
    assert_eq!(rt; depth_in(&table, 1), 0);
    Ok(())
}

#[test]
fn a_handler_takes_the_place_of_another(rt: HostRuntime) -> Result<(), Fail> {
    let mut base = Base::new(rt.alloc(), 10)?;
    let mut table = Contexts::new(rt.alloc())?;
    assert_eq!(rt; handler(&table, 4), None);
    for body in [3u8, 200, 0, 5] {
        let define = ContextCall::DefInt { number: 4, body };
        assert_eq!(rt;
            shown(crate::call(&mut base, &mut table, Who::Task(1), &define)),
            (0, [0, 0, 0], 0)
        );
        assert_eq!(rt; handler(&table, 4).unwrap_or(0), body);
    }
    assert_eq!(rt; handler(&table, 5), None);
    Ok(())
}

//! First calls on fresh tables, with answers from the rules of the calls.

use super::*;
use kernel_base::Base;
use std::alloc::{AllocError, Global};
use std::test::Fail;
use tk_types::{Attributes, Er, FlagMode, Outcome, SemFlagCall, Who};

/// What task 1 gets for a call where there is no semaphore and no event flag yet: the value, or none where it waits.
fn first_answer(alloc: Global, call: &SemFlagCall) -> Result<Option<i32>, AllocError> {
    let mut base = Base::new(alloc, 10)?;
    let mut table = SemFlags::new(alloc)?;
    match crate::call(&mut base, &mut table, Who::Task(1), call) {
        Outcome::Returned(answer) => Ok(Some(answer.value)),
        Outcome::Blocked => Ok(None),
        Outcome::Entered(_) => Ok(None),
    }
}

#[test]
fn tables_are_empty_at_first(rt: HostRuntime) -> Result<(), Fail> {
    let alloc = rt.alloc();
    let all = FlagMode::of_bits(1);
    let id = 1;
    let calls: [(SemFlagCall, i32); 12] = [
        (
            SemFlagCall::CreSem {
                attributes: Attributes::of_bits(0),
                count: 2,
                most: 9,
            },
            1,
        ),
        (
            SemFlagCall::CreSem {
                attributes: Attributes::of_bits(0),
                count: 10,
                most: 9,
            },
            Er::Par.main_code(),
        ),
        (
            SemFlagCall::CreFlg {
                attributes: Attributes::of_bits(0),
                pattern: -1,
            },
            1,
        ),
        (SemFlagCall::SigSem { id, count: 1 }, Er::NoExs.main_code()),
        (
            SemFlagCall::WaiSem {
                id,
                count: 0,
                timeout: -1,
            },
            Er::Par.main_code(),
        ),
        (SemFlagCall::RefSem { id }, Er::NoExs.main_code()),
        (
            SemFlagCall::SetFlg { id, pattern: 1 },
            Er::NoExs.main_code(),
        ),
        (
            SemFlagCall::ClrFlg { id, pattern: 1 },
            Er::NoExs.main_code(),
        ),
        (
            SemFlagCall::WaiFlg {
                id,
                pattern: 1,
                mode: all,
                timeout: -1,
            },
            Er::NoExs.main_code(),
        ),
        (SemFlagCall::RefFlg { id: 65 }, Er::Id.main_code()),
        (SemFlagCall::DelSem { id }, Er::NoExs.main_code()),
        (SemFlagCall::DelFlg { id }, Er::NoExs.main_code()),
    ];
    for (call, value) in &calls {
        assert_eq!(rt; first_answer(alloc, call)?, Some(*value));
    }
    Ok(())
}

#[test]
fn nothing_is_served_at_first(rt: HostRuntime) -> Result<(), Fail> {
    let mut base = Base::new(rt.alloc(), 10)?;
    let mut table = SemFlags::new(rt.alloc())?;
    assert!(rt; !table.has_sem(1));
    assert!(rt; !table.has_flg(64));
    assert!(rt; !serve(&mut base, &mut table, 64));
    Ok(())
}

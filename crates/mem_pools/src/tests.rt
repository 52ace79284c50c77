//! First calls on fresh tables, with answers from the rules of the calls.

use super::*;
use kernel_base::Base;
use std::alloc::{AllocError, Global};
use std::test::Fail;
use tk_types::{Attributes, Er, Outcome, PoolCall, Who};

/// What task 1 gets for a call where there is no pool yet: the value, or none where it waits.
fn first_answer(alloc: Global, call: &PoolCall) -> Result<Option<i32>, AllocError> {
    let mut base = Base::new(alloc, 10)?;
    let mut table = Pools::new(alloc)?;
    match crate::call(&mut base, &mut table, Who::Task(1), call)? {
        Outcome::Returned(answer) => Ok(Some(answer.value)),
        Outcome::Blocked => Ok(None),
        Outcome::Entered(_) => Ok(None),
    }
}

/// A fixed pool is made.
fn fixed(count: i32, size: i32) -> PoolCall {
    PoolCall::CreMpf {
        attributes: Attributes::of_bits(0),
        count,
        size,
    }
}

/// A variable pool is made.
fn variable(size: i32) -> PoolCall {
    PoolCall::CreMpl {
        attributes: Attributes::of_bits(0),
        size,
    }
}

#[test]
fn tables_are_empty_at_first(rt: HostRuntime) -> Result<(), Fail> {
    let alloc = rt.alloc();
    let id = 1;
    let timeout = -1;
    let calls: [(PoolCall, i32); 13] = [
        (fixed(2, 10), 1),
        (fixed(1025, 1), Er::Par.main_code()),
        (fixed(16, 65_472), 1),
        (fixed(16, 65_473), Er::NoMem.main_code()),
        (variable(9), 1),
        (variable(7), Er::Par.main_code()),
        (PoolCall::DelMpf { id }, Er::NoExs.main_code()),
        (PoolCall::GetMpf { id, timeout }, Er::NoExs.main_code()),
        (PoolCall::RelMpf { id, block: -1 }, Er::Par.main_code()),
        (PoolCall::RefMpf { id: 65 }, Er::Id.main_code()),
        (PoolCall::DelMpl { id }, Er::NoExs.main_code()),
        (
            PoolCall::GetMpl {
                id,
                size: 0,
                timeout,
            },
            Er::Par.main_code(),
        ),
        (PoolCall::RelMpl { id, offset: 0 }, Er::NoExs.main_code()),
    ];
    for (call, value) in &calls {
        assert_eq!(rt; first_answer(alloc, call)?, Some(*value));
    }
    Ok(())
}

#[test]
fn nothing_is_served_at_first(rt: HostRuntime) -> Result<(), Fail> {
    let mut base = Base::new(rt.alloc(), 10)?;
    let mut table = Pools::new(rt.alloc())?;
    assert!(rt; !table.has_mpf(1));
    assert!(rt; !table.has_mpl(64));
    assert!(rt; !serve(&mut base, &mut table, 63));
    Ok(())
}

//! First calls on a fresh table, with answers from the rules of the calls.

use super::*;
use kernel_base::Base;
use std::alloc::{AllocError, Global};
use std::test::Fail;
use tk_types::{Attributes, Er, MutexCall, Outcome, Who};

/// What task 1 gets for a call where there is no mutex yet: the value, or none where it waits.
fn first_answer(alloc: Global, call: &MutexCall) -> Result<Option<i32>, AllocError> {
    let mut base = Base::new(alloc, 10)?;
    let mut table = Mutexes::new(alloc)?;
    match crate::call(&mut base, &mut table, Who::Task(1), call) {
        Outcome::Returned(answer) => Ok(Some(answer.value)),
        Outcome::Blocked => Ok(None),
        Outcome::Entered(_) => Ok(None),
    }
}

/// A mutex is made, with attributes by their bits.
fn made(bits: u32, ceiling: i32) -> MutexCall {
    MutexCall::CreMtx {
        attributes: Attributes::of_bits(bits),
        ceiling,
    }
}

#[test]
fn table_is_empty_at_first(rt: HostRuntime) -> Result<(), Fail> {
    let alloc = rt.alloc();
    let calls: [(MutexCall, i32); 8] = [
        (made(0, 0), 1),
        (made(1 << 15, 140), 1),
        (made(1 << 15, 141), Er::Par.main_code()),
        (made((1 << 14) + (1 << 15), 5), Er::RsAtr.main_code()),
        (
            MutexCall::LocMtx { id: 1, timeout: -2 },
            Er::Par.main_code(),
        ),
        (MutexCall::UnlMtx { id: 1 }, Er::NoExs.main_code()),
        (MutexCall::RefMtx { id: 65 }, Er::Id.main_code()),
        (MutexCall::DelMtx { id: 1 }, Er::NoExs.main_code()),
    ];
    for (call, value) in &calls {
        assert_eq!(rt; first_answer(alloc, call)?, Some(*value));
    }
    Ok(())
}

#[test]
fn nothing_is_held_at_first(rt: HostRuntime) -> Result<(), Fail> {
    let mut base = Base::new(rt.alloc(), 10)?;
    let mut table = Mutexes::new(rt.alloc())?;
    assert!(rt; !table.has_mtx(1));
    assert!(rt; !serve(&mut base, &mut table, 256));
    assert!(rt; !free_last(&base, &mut table, 1));
    assert!(rt; ceiling_allows(&base, &table, 1, 1));
    assert_eq!(rt; current_of(&base, &table, 1), 10);
    Ok(())
}

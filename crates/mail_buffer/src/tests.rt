//! First calls on fresh tables, with answers from the rules of the calls.

use super::*;
use kernel_base::Base;
use std::alloc::{AllocError, Global};
use std::test::Fail;
use task_machine::new_memory;
use tk_types::{Attributes, Er, MailCall, Outcome, Who};

/// What task 1 gets for a call where there is no mailbox and no message buffer yet: the value, or none where it waits.
fn first_answer(alloc: Global, call: &MailCall) -> Result<Option<i32>, AllocError> {
    let mut base = Base::new(alloc, 10)?;
    let mut table = Mails::new(alloc)?;
    let mut memory = new_memory(alloc)?;
    match crate::call(&mut base, &mut table, &mut memory, Who::Task(1), call)? {
        Outcome::Returned(answer) => Ok(Some(answer.value)),
        Outcome::Blocked => Ok(None),
        Outcome::Entered(_) => Ok(None),
    }
}

/// A message buffer is made.
fn buffer(size: i32, most: i32) -> MailCall {
    MailCall::CreMbf {
        attributes: Attributes::of_bits(0),
        size,
        most,
    }
}

#[test]
fn tables_are_empty_at_first(rt: HostRuntime) -> Result<(), Fail> {
    let alloc = rt.alloc();
    let id = 1;
    let calls: [(MailCall, i32); 14] = [
        (
            MailCall::CreMbx {
                attributes: Attributes::of_bits(0),
            },
            1,
        ),
        (MailCall::DelMbx { id }, Er::NoExs.main_code()),
        (
            MailCall::SndMbx {
                id,
                priority: 0,
                value: 1,
            },
            Er::Par.main_code(),
        ),
        (
            MailCall::SndMbx {
                id,
                priority: 1,
                value: 1,
            },
            Er::NoExs.main_code(),
        ),
        (MailCall::RcvMbx { id, timeout: -2 }, Er::Par.main_code()),
        (MailCall::RefMbx { id: 65 }, Er::Id.main_code()),
        (buffer(0, 4), 1),
        (buffer(12, 5), 1),
        (buffer(11, 5), Er::Par.main_code()),
        (buffer(65536, 65532), 1),
        (buffer(65536, 65533), Er::Par.main_code()),
        (
            MailCall::SndMbf {
                id,
                address: 65535,
                length: 2,
                timeout: -1,
            },
            Er::Par.main_code(),
        ),
        (
            MailCall::RcvMbf {
                id,
                address: 0,
                timeout: -1,
            },
            Er::NoExs.main_code(),
        ),
        (MailCall::DelMbf { id }, Er::NoExs.main_code()),
    ];
    for (call, value) in &calls {
        assert_eq!(rt; first_answer(alloc, call)?, Some(*value));
    }
    Ok(())
}

#[test]
fn nothing_is_served_at_first(rt: HostRuntime) -> Result<(), Fail> {
    let mut base = Base::new(rt.alloc(), 10)?;
    let mut table = Mails::new(rt.alloc())?;
    let mut memory = new_memory(rt.alloc())?;
    assert!(rt; !table.has_mbx(1));
    assert!(rt; !table.has_mbf(64));
    assert!(rt; !serve(&mut base, &mut table, &mut memory, 320));
    Ok(())
}

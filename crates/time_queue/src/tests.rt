//! A queue at work, with ample memory.

use crate::Due;
use std::test::Fail;
use tk_types::Event;

/// Events come out by due time, equals in the order in which they were set.
#[test]
fn events_come_in_order(rt: HostRuntime) -> Result<(), Fail> {
    let mut due = Due::reserve(rt.alloc(), 4)?;
    assert!(rt; due.is_empty());
    assert_eq!(rt; due.add(20, Event::Wait(3)), 0);
    assert_eq!(rt; due.add(10, Event::Cyclic(1)), 1);
    assert_eq!(rt; due.add(20, Event::Alarm(2)), 2);
    assert_eq!(rt; due.len(), 3);
    assert_eq!(rt; due.pop_due(9), None);
    assert_eq!(rt; due.pop_due(10), Some(Event::Cyclic(1)));
    assert_eq!(rt; due.pop_due(30), Some(Event::Wait(3)));
    assert_eq!(rt; due.pop_due(30), Some(Event::Alarm(2)));
    assert_eq!(rt; due.pop_due(30), None);
    Ok(())
}

/// What is taken back doesn't fall due.
#[test]
fn events_are_taken_back(rt: HostRuntime) -> Result<(), Fail> {
    let mut due = Due::reserve(rt.alloc(), 4)?;
    let alarm = due.add(10, Event::Alarm(5));
    due.add(15, Event::Wait(5));
    due.add(15, Event::Wait(6));
    assert!(rt; due.cancel(alarm));
    assert!(rt; !due.cancel(alarm));
    assert_eq!(rt; due.limit_of(5), Some(15));
    due.drop_wait(5);
    assert_eq!(rt; due.limit_of(5), None);
    assert_eq!(rt; due.pop_due(15), Some(Event::Wait(6)));
    assert!(rt; due.is_empty());
    Ok(())
}

//! One call of each function of the wait queues, with answers taken from the rules of their orders.

ghost use Rattle.std.specs.Prelude.{◌≡◌};

use crate::Waits;
use std::alloc::{AllocError, Global};
use std::marker::Brand;
use std::sync::ledger::{Blank, Ledger};
use std::test::Fail;
use step_counter::Steps;
use tk_types::Order;

/// The first tasks of objects 0 and 1, the one behind task 5, and the last of object 0.
#[derive(Clone, Copy, Debug, PartialEq, Eq)]
struct Heads {
    first: Option<u8>,
    second: Option<u8>,
    behind: Option<u8>,
    last: Option<u8>,
}

fn heads_of(waits: &Waits) -> Heads {
    Heads {
        first: if waits.objects() > 0 {
            waits.head(0)
        } else {
            None
        },
        second: if waits.objects() > 1 {
            waits.head(1)
        } else {
            None
        },
        behind: if waits.waits(5) {
            waits.next_after(5)
        } else {
            None
        },
        last: if waits.objects() > 0 {
            waits.in_place(0, waits.count(0).saturating_sub(1))
        } else {
            None
        },
    }
}

/// Two tasks wait for object 0 in this order; then the first gets priority 20, and the second leaves.
fn three_steps<L: Ledger>(
    alloc: Global,
    blank: Blank,
    order: Order,
) -> Result<[Heads; 3], AllocError>
    requires name { blank.name ≡ L.name }
    requires parts { blank.parts ≡ L.parts }
    requires one_part { blank.parts ≡ 1 }
{
    let mut steps = Steps::<L>::new(blank);
    let mut waits = Waits::new(alloc, 2)?;
    waits.join(0, 5, order, 10, &mut steps);
    waits.join(0, 6, order, 10, &mut steps);
    let joined = heads_of(&waits);
    if waits.waits(5) {
        waits.reorder(5, 20, &mut steps);
    }
    let reordered = heads_of(&waits);
    if waits.waits(6) {
        waits.leave(6, &mut steps);
    }
    Ok([joined, reordered, heads_of(&waits)])
}

#[test]
fn tasks_wait_in_order(rt: HostRuntime) -> Result<(), AllocError> {
    let [joined, reordered, left] = three_steps::<Brand>(rt.alloc(), Blank::new(1), Order::Fifo)?;
    let in_turn = Heads {
        first: Some(5),
        second: None,
        behind: Some(6),
        last: Some(6),
    };
    let alone = Heads {
        first: Some(5),
        second: None,
        behind: None,
        last: Some(5),
    };
    assert_eq!(rt; joined, in_turn);
    assert_eq!(rt; reordered, in_turn);
    assert_eq!(rt; left, alone);
    Ok(())
}

#[test]
fn tasks_wait_by_priority(rt: HostRuntime) -> Result<(), AllocError> {
    let [joined, reordered, left] = three_steps::<Brand>(
        rt.alloc(),
        Blank::new(1),
        Order::Priority,
    )?;
    let in_turn = Heads {
        first: Some(5),
        second: None,
        behind: Some(6),
        last: Some(6),
    };
    let behind = Heads {
        first: Some(6),
        second: None,
        behind: None,
        last: Some(5),
    };
    let alone = Heads {
        first: Some(5),
        second: None,
        behind: None,
        last: Some(5),
    };
    assert_eq!(rt; joined, in_turn);
    assert_eq!(rt; reordered, behind);
    assert_eq!(rt; left, alone);
    Ok(())
}

//! One call of each function of the ready queue, with answers taken from the rules of precedence.

ghost use Rattle.std.specs.Prelude.{◌≡◌};

use crate::Ready;
use std::alloc::{AllocError, Global};
use std::marker::Brand;
use std::sync::ledger::{Blank, Ledger};
use std::test::Fail;
use step_counter::Steps;

/// What the queue says of itself: the highest task, the first of priority 10, and the one behind task 5.
#[derive(Clone, Copy, Debug, PartialEq, Eq)]
struct Seen {
    highest: Option<u8>,
    first: Option<u8>,
    next: Option<u8>,
}

fn look_at<L: Ledger>(ready: &Ready, steps: &mut Steps<L>) -> Seen {
    Seen {
        highest: ready.highest(steps),
        first: ready.first_of(10),
        next: if ready.holds(5) {
            ready.next_of(5)
        } else {
            None
        },
    }
}

/// Four tasks become ready, those of priority 10 are rotated, and the highest one is removed.
fn three_steps<L: Ledger>(alloc: Global, blank: Blank) -> Result<[Seen; 3], AllocError>
    requires name { blank.name ≡ L.name }
    requires parts { blank.parts ≡ L.parts }
    requires one_part { blank.parts ≡ 1 }
{
    let mut steps = Steps::<L>::new(blank);
    let mut ready = Ready::new(alloc)?;
    for (task, priority) in [(5, 10), (6, 4), (7, 10), (8, 10)] {
        if !ready.holds(task) {
            ready.put_back(task, priority, &mut steps);
        }
    }
    let before = look_at(&ready, &mut steps);
    ready.rotate(10, &mut steps);
    let rotated = look_at(&ready, &mut steps);
    if ready.holds(6) {
        ready.remove(6, &mut steps);
    }
    Ok([before, rotated, look_at(&ready, &mut steps)])
}

#[test]
fn tasks_run_by_priority_and_precedence(rt: HostRuntime) -> Result<(), AllocError> {
    let [before, rotated, removed] = three_steps::<Brand>(rt.alloc(), Blank::new(1))?;
    let at_first = Seen {
        highest: Some(6),
        first: Some(5),
        next: Some(7),
    };
    assert_eq!(rt; before, at_first);
    let then = Seen {
        highest: Some(6),
        first: Some(7),
        next: None,
    };
    assert_eq!(rt; rotated, then);
    let at_last = Seen {
        highest: Some(7),
        first: Some(7),
        next: None,
    };
    assert_eq!(rt; removed, at_last);
    Ok(())
}

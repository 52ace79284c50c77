//! A counter that is made from nothing, and two steps.

ghost use Rattle.std.specs.Prelude.{◌≡◌};

use crate::Steps;
use std::marker::Brand;
use std::mem;
use std::sync::ledger::{Blank, Ledger};
use std::test::Fail;

/// Takes two steps, for a caller that counts nothing.
fn two_steps<L: Ledger>(blank: Blank) -> usize
    requires name { blank.name ≡ L.name }
    requires parts { blank.parts ≡ L.parts }
    requires one_part { blank.parts ≡ 1 }
{
    let mut steps = Steps::<L>::new(blank);
    steps.tick();
    steps.tick();
    mem::size_of::<Steps<L>>()
}

#[test]
fn steps_take_no_bytes(rt: HostRuntime) {
    assert_eq!(rt; two_steps::<Brand>(Blank::new(1)), 0);
}

//! A map that is set and cleared, with answers taken from the rule of the least number.

ghost use Rattle.std.specs.Prelude.{◌≡◌};

use crate::PriorityMap;
use std::marker::Brand;
use std::sync::ledger::{Blank, Ledger};
use std::test::Fail;
use step_counter::Steps;

/// The highest priority at first, with 140 set, with 64 and 63 set as well, and without 63 again.
fn highest_of_each<L: Ledger>(blank: Blank) -> [Option<u8>; 4]
    requires name { blank.name ≡ L.name }
    requires parts { blank.parts ≡ L.parts }
    requires one_part { blank.parts ≡ 1 }
{
    let mut steps = Steps::<L>::new(blank);
    let mut map = PriorityMap::new();
    let empty = map.highest(&mut steps);
    map.set(140, &mut steps);
    let lowest = map.highest(&mut steps);
    map.set(64, &mut steps);
    map.set(63, &mut steps);
    let highest = map.highest(&mut steps);
    map.clear(63, &mut steps);
    [empty, lowest, highest, map.highest(&mut steps)]
}

#[test]
fn the_least_number_is_the_highest(rt: HostRuntime) {
    let expected = [None, Some(140), Some(63), Some(64)];
    assert_eq!(rt; highest_of_each::<Brand>(Blank::new(1)), expected);
}

//! The map of priorities.

ghost use Rattle.std.specs.Prelude.{◌≡◌, ◌+◌, ◌<◌, ◌≤◌, false, slice_set, true};
ghost use Rattle.priority_map.specs.Flags.{first_set, nothing_set};

use crate::words::{look, put};
use std::marker::Model;
use std::sync::ledger::Ledger;
use step_counter::Steps;

/// Whether each priority below 192 is set. It takes no memory but its three words, and each touch of a word is a step.
#[derive(Drop)]
pub struct PriorityMap {
    words: [u64; 3],
}

impl Model for PriorityMap {
    ghost use Rattle.std.specs.Prelude.{Bool, List};
    ghost use Rattle.priority_map.specs.Flags.{flags};

    ghost Value = { List Bool };

    ghost view = { λ map. flags map.words };
}

impl PriorityMap {
    /// No priority is set.
    pub fn new() -> PriorityMap
        ensures { result ≡ nothing_set }
    {
        PriorityMap { words: [0; 3] }
    }

    /// A priority below 192 is set.
    pub fn set<L: Ledger>(&mut self, priority: u8, steps: &mut Steps<L>)
        requires { priority < 192 }
        ensures flags { self.new ≡ slice_set self.old priority true }
        ensures two_steps { steps.new ≡ steps.old + 2 }
    {
        let index = (priority / 64) as usize;
        let word = look(&self.words, index, steps);
        put(&mut self.words, index, word | 1 << (priority % 64), steps);
    }

    /// A priority below 192 is no longer set.
    pub fn clear<L: Ledger>(&mut self, priority: u8, steps: &mut Steps<L>)
        requires { priority < 192 }
        ensures flags { self.new ≡ slice_set self.old priority false }
        ensures two_steps { steps.new ≡ steps.old + 2 }
    {
        let index = (priority / 64) as usize;
        let word = look(&self.words, index, steps);
        put(
            &mut self.words,
            index,
            word & !(1 << (priority % 64)),
            steps,
        );
    }

    /// The highest priority that is set, which is the least number, or `None` exactly where none is.
    pub fn highest<L: Ledger>(&self, steps: &mut Steps<L>) -> Option<u8>
        ensures priority { result ≡ first_set 0 self.now }
        ensures one_at_least { steps.old + 1 ≤ steps.new }
        ensures three_at_most { steps.new ≤ steps.old + 3 }
    {
        'words: for index in 0..3usize {
            let word = look(&self.words, index, steps);
            if word != 0 {
                return Some(64 * index as u8 + word.trailing_zeros() as u8);
            }
        }
        None
    }
}

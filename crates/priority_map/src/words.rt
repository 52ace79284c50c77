//! The three words, and the two ways to touch one.

ghost use Rattle.std.specs.Prelude.{◌≡◌, ◌+◌, ◌<◌, slice_index, slice_set};

use std::sync::ledger::Ledger;
use step_counter::Steps;

/// The word at an index. That is one step.
pub(crate) fn look<L: Ledger>(words: &[u64; 3], index: usize, steps: &mut Steps<L>) -> u64
    requires { index < 3 }
    ensures word { result ≡ slice_index words.now index }
    ensures one_step { steps.new ≡ steps.old + 1 }
{
    steps.tick();
    words[index]
}

/// The word at an index becomes another one. That is one step.
pub(crate) fn put<L: Ledger>(words: &mut [u64; 3], index: usize, word: u64, steps: &mut Steps<L>)
    requires { index < 3 }
    ensures words { words.new ≡ slice_set words.old index word }
    ensures one_step { steps.new ≡ steps.old + 1 }
{
    steps.tick();
    words[index] = word;
}

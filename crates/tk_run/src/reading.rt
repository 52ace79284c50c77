//! How the input is read as a script.

ghost use Rattle.std.specs.Prelude.{◌≡◌, IfOk};
ghost use Rattle.tk_run.specs.Readings.{IsRunReading, reading_of};

use std::alloc::Global;
use tk_script::read_script;
use tk_types::{OutOfMemory, Reading};

/// What a text is read as: a script, which can be run, or a refusal.
#[tactic(auto, unfolding(crate::specs::Readings::reading_of))]
pub(crate) fn reading_of(alloc: Global, text: &[u8]) -> Result<Reading, OutOfMemory>
    ensures exact { IfOk result (λ reading. reading ≡ reading_of text.now) }
    ensures runs { IfOk result IsRunReading }
{
    read_script(alloc, text)
}

//! The first pass of the reader of scripts.

ghost use Rattle.std.specs.Prelude.{◌≡◌, IfOk};
ghost use Rattle.tk_raw.specs.Answers.{answer};
ghost use Rattle.tk_raw.specs.RawReading.{raw_reading};
ghost use Rattle.tk_raw.specs.Spelling.{SpellsRaw};
ghost use Rattle.tk_raw.specs.declared.raw.RawScript.{RawScript};
ghost use Rattle.tk_raw.specs.declared.read.RawReading.TheVariants as readings;

use crate::errors::TextError;
use crate::raw::RawScript;
use crate::reading::raw_reading;
use std::alloc::Global;
use tk_types::{OutOfMemory, Why};

/// What a text is read as: a script whose names aren't resolved yet, or a refusal.
#[derive(Drop, Debug)]
pub enum RawReading {
    Raw(RawScript),
    /// The first line that is wrong, counted from 1, and why; line 0 is the text as a whole.
    Refused { line: u32, why: Why },
}

/// The answer to a text.
fn answer(alloc: Global, text: &[u8]) -> Result<RawReading, OutOfMemory>
    ensures { IfOk result (λ reading. reading ≡ answer (raw_reading text.now)) }
{
    match raw_reading(alloc, text) {
        Ok(raw) => Ok(RawReading::Raw(raw)),
        Err(TextError::Memory) => Err(OutOfMemory),
        Err(TextError::Refused { line, why }) => Ok(RawReading::Refused { line, why }),
    }
}

/// Reads a text line by line, up to the names of labels and bodies, which are kept as they are. The first line that is
/// wrong is refused, and a text of more than 1,048,576 bytes as line 0. `OutOfMemory` says that the host's memory ran
/// out.
pub fn read_raw(alloc: Global, text: &[u8]) -> Result<RawReading, OutOfMemory>
    ensures exact { IfOk result (λ reading. reading ≡ answer (raw_reading text.now)) }
    ensures found { IfOk result (λ reading. (raw : RawScript) → reading ≡ readings.Raw raw → SpellsRaw text.now raw) }
    ensures only { (raw : RawScript) → SpellsRaw text.now raw → IfOk result (λ reading. reading ≡ readings.Raw raw) }
{
    answer(alloc, text)
}

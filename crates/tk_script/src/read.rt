//! Reading a script.

ghost use Rattle.std.specs.Prelude.{◌≡◌, IfOk};
ghost use Rattle.tk_types.specs.declared.script.Script.{Script};
ghost use Rattle.tk_types.specs.declared.script.Reading.TheVariants as readings;
ghost use Rattle.tk_model.specs.ScriptText.{Spells};
ghost use Rattle.tk_script.specs.Reading.{answer, reading};
ghost use Rattle.tk_script.specs.Resolving.{AreShort, resolved};

use crate::errors::LineError;
use crate::lines::resolved;
use std::alloc::Global;
use tk_raw::{RawReading, RawScript, read_raw};
use tk_types::{OutOfMemory, Reading, Script};

/// The answer to a script whose lines are read.
fn answer_resolved(alloc: Global, raw: RawScript) -> Result<Reading, OutOfMemory>
    requires { AreShort raw.bodies }
    ensures { IfOk result (λ reading. reading ≡ answer (resolved raw)) }
{
    match resolved(alloc, raw) {
        Ok(script) => Ok(Reading::Script(script)),
        Err(LineError::Memory) => Err(OutOfMemory),
        Err(LineError::Refused { line, why }) => Ok(Reading::Refused { line, why }),
    }
}

/// The answer to a text.
#[tactic(auto, unfolding(crate::specs::Reading::reading))]
fn answer_text(alloc: Global, text: &[u8]) -> Result<Reading, OutOfMemory>
    ensures { IfOk result (λ read. read ≡ answer (reading text.now)) }
{
    match read_raw(alloc, text)? {
        RawReading::Raw(raw) => answer_resolved(alloc, raw),
        RawReading::Refused { line, why } => Ok(Reading::Refused { line, why }),
    }
}

/// Reads a text as a script: line by line, and then with the names of labels and bodies looked up. The first line that
/// is wrong is refused, with its number from 1 on, or 0 for a text of more than 1,048,576 bytes; a name that stands
/// for nothing is refused only where no line is wrong by itself. `OutOfMemory` says that the host's memory ran out.
pub fn read_script(alloc: Global, text: &[u8]) -> Result<Reading, OutOfMemory>
    ensures exact { IfOk result (λ read. read ≡ answer (reading text.now)) }
    ensures found { IfOk result (λ read. (script : Script) → read ≡ readings.Script script → Spells text.now script) }
    ensures only { (script : Script) → Spells text.now script → IfOk result (λ read. read ≡ readings.Script script) }
{
    answer_text(alloc, text)
}

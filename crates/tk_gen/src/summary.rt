//! The line that sums up a run.

ghost use Rattle.std.specs.Prelude.{◌≡◌, ◌++◌, IfOk, OnOk, codes, decimal};
ghost use Rattle.tk_gen.specs.Summaries.{summed_text};

use itoa::Buffer;
use std::alloc::Global;
use tk_types::{End, OutOfMemory};

/// What is told of the run of the script with a number.
#[derive(Clone, Copy, Debug, PartialEq, Eq)]
pub struct Summary {
    /// The number of the script.
    pub number: u16,
    /// The steps that were done.
    pub steps: u32,
    /// How often a call returned without waiting, or an extended call returned.
    pub calls: u32,
    /// How often a task began to wait.
    pub waits: u32,
    /// How many ticks passed.
    pub ticks: u32,
    /// How many requests ended.
    pub endings: u32,
    /// How the run ended.
    pub last: End,
}

/// Puts a word and the digits of a number behind a text.
#[tactic(auto, using(std::proofs::Common::append_assoc))]
fn put_count(text: &mut Vec<u8>, word: &str, count: u32) -> Result<(), OutOfMemory>
    ensures { OnOk result (text.new.items ≡ text.old.items ++ (word.now ++ decimal count)) }
{
    let mut buffer = Buffer::new();
    text.extend_from_slice(word.as_bytes())?;
    text.extend_from_slice(buffer.format(count).as_bytes())?;
    Ok(())
}

/// The line of a summary: `gen N steps S calls C waits B ticks K endings J` and a line feed, each number in digits. `OutOfMemory`
/// comes only where the host's memory runs out.
#[tactic(auto, using(std::proofs::Common::append_assoc), unfolding(crate::specs::Summaries::summed_text))]
pub fn summary_text(alloc: Global, summary: &Summary) -> Result<Vec<u8>, OutOfMemory>
    ensures { IfOk result (λ text. text.items ≡ summed_text summary.now) }
{
    let mut text = Vec::new(alloc);
    put_count(&mut text, "gen ", u32::from(summary.number))?;
    put_count(&mut text, " steps ", summary.steps)?;
    put_count(&mut text, " calls ", summary.calls)?;
    put_count(&mut text, " waits ", summary.waits)?;
    put_count(&mut text, " ticks ", summary.ticks)?;
    put_count(&mut text, " endings ", summary.endings)?;
    text.extend_from_slice(b"\n")?;
    Ok(text)
}

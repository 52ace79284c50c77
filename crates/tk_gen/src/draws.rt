//! The draws of the generator.

ghost use Rattle.std.specs.Prelude.{◌≡◌, IfOk, length};
ghost use Rattle.machine_model.specs.Runs.Generator.{drawn, draws};

use std::alloc::Global;
use tk_types::OutOfMemory;

/// The number behind one of the generator's.
#[tactic(auto, using(crate::proofs::DrawnNumbers::drawn_small))]
fn next_number(number: u32) -> u32
    ensures { result ≡ drawn number }
{
    ((1_103_515_245 * u64::from(number) + 12_345) % 2_147_483_648) as u32
}

/// So many draws from a number on. Each is below 32,768.
#[tactic(auto, using(crate::proofs::DrawnNumbers::next_draw, crate::proofs::DrawnNumbers::last_draw))]
pub(crate) fn draws(alloc: Global, count: usize, number: u32) -> Result<Vec<u16>, OutOfMemory>
    ensures drawn { IfOk result (λ list. list.items ≡ draws count number) }
    ensures many { IfOk result (λ list. length list.items ≡ count) }
{
    let mut list = Vec::with_capacity(alloc, count)?;
    let mut last = number;
    'drawing: for _done in 0..count {
        last = next_number(last);
        list.push((last / 65_536) as u16)?;
    }
    Ok(list)
}

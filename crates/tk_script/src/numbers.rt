//! The numbers of lines: those from a line on, in the order of the lines.

ghost use Rattle.std.specs.Prelude.{◌≡◌, drop};
ghost use Rattle.tk_script.specs.Resolving.{behind_body, boot_numbers, first_number, pace_count};

use tk_raw::{RawBody, RawScript};

/// The number of the first line of these.
pub(crate) fn first_number(numbers: &[u32]) -> u32
    ensures { result ≡ first_number numbers.now }
{
    match numbers {
        [] => 0,
        [number, ..] => *number,
    }
}

/// The numbers behind the first ones.
pub(crate) fn behind(count: usize, numbers: &[u32]) -> &[u32]
    ensures { result.now ≡ drop count numbers.now }
{
    if count < numbers.len() {
        &numbers[count..]
    } else {
        &[]
    }
}

/// The numbers behind a body, which has a first line and a last one.
#[tactic(auto, unfolding(crate::specs::Resolving::behind_body))]
pub(crate) fn behind_body<'a>(body: &RawBody, numbers: &'a [u32]) -> &'a [u32]
    ensures { result.now ≡ behind_body body.now numbers.now }
{
    behind(1, behind(body.items.len(), behind(1, numbers)))
}

/// How many `pace` lines there are.
pub(crate) fn pace_count(pace: Option<u32>) -> usize
    ensures { result ≡ pace_count pace }
{
    match pace {
        None => 0,
        Some(_) => 1,
    }
}

/// The numbers from the boot line on.
#[tactic(auto, unfolding(crate::specs::Resolving::boot_numbers))]
pub(crate) fn boot_numbers(raw: &RawScript) -> &[u32]
    ensures { result.now ≡ boot_numbers raw.now }
{
    let behind_devices = behind(raw.devices.len(), raw.lines.as_slice());
    let behind_pace = behind(pace_count(raw.pace), behind_devices);
    behind(raw.irqs.len(), behind_pace)
}

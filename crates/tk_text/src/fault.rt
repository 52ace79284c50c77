//! What a line shows by itself.

ghost use Rattle.std.specs.Prelude.{◌≡◌, ◌<◌, ◌^◌, false, length, IfSome};
ghost use Rattle.std.specs.Option.{option_map};
ghost use Rattle.std.specs.List.{list_all};
ghost use Rattle.tk_text.specs.Scans.{IsFirstFault};
ghost use Rattle.tk_model.specs.Words.{is_text_byte, line_fault, fault_at};

use crate::cutting::cut;
use crate::token::TextFault;
use tk_types::Why;

/// The most bytes of a line before its line feed.
const LONGEST_LINE: usize = 200;

/// Whether a byte may stand in a line.
#[tactic(auto, unfolding(tk_model::specs::Words::is_text_byte))]
fn is_text_byte(byte: u8) -> bool
    ensures { result ≡ is_text_byte byte }
{
    32 <= byte && byte <= 126
}

/// Whether each byte of a line may stand in it.
fn is_text_line(line: &[u8]) -> bool
    ensures value { result ≡ list_all is_text_byte line.now }
{
    line.iter().all(|byte| is_text_byte(*byte))
}

/// What a line shows by itself: first a byte that may not stand there, then too many bytes.
#[tactic(auto, unfolding(tk_model::specs::Words::line_fault), using(crate::proofs::Faults::fault_has_bytes))]
pub fn line_fault(line: &[u8]) -> Option<Why>
    ensures value { result ≡ line_fault line.now }
    ensures bytes { IfSome result (λ _. 0 < length line.now) }
{
    if !is_text_line(line) {
        return Some(Why::Byte);
    }
    if line.len() > LONGEST_LINE {
        Some(Why::Line)
    } else {
        None
    }
}

/// The first of the lines that shows a fault by itself.
fn first_fault(text: &[u8]) -> Option<TextFault>
    requires { length text.now < 2 ^ 32 }
    ensures { option_map (λ fault. (fault.line, fault.why)) result ≡ fault_at text.now }
{
    let mut number: usize = 0;
    let mut left = Some(text);
    'lines: while let Some(bytes) = left {
        let (line, rest) = cut(bytes, b'\n');
        number += 1;
        if let Some(why) = line_fault(line) {
            return Some(TextFault {
                line: number as u32,
                why,
            });
        }
        left = rest;
    }
    None
}

/// The first line that shows a fault by itself: a byte that isn't printable ASCII, or more than 200 bytes before
/// its line feed. It takes no memory. The text has fewer than 2 to the power of 32 bytes.
pub fn fault_of(text: &[u8]) -> Option<TextFault>
    requires { length text.now < 2 ^ 32 }
    ensures value { option_map (λ fault. (fault.line, fault.why)) result ≡ fault_at text.now }
    ensures first { IfSome result (IsFirstFault text.now) }
{
    first_fault(text)
}

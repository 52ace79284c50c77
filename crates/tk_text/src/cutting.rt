//! A slice of bytes cut at a mark.

ghost use Rattle.std.specs.Prelude.{◌≡◌, ◌+◌, ◌<◌, ◌==◌, ◌∷◌, length, IfOk, IfSome};
ghost use Rattle.std.specs.List.{position};
ghost use Rattle.std.specs.Option.{option_copied};
ghost use Rattle.tk_model.specs.Words.{parts_of, words_of};
ghost use Rattle.tk_model.specs.Lists.{texts};
ghost use Rattle.tk_text.specs.Tokens.{parts_left, room_left};

use std::alloc::Global;
use tk_types::OutOfMemory;

/// Where the first mark lies.
fn first_mark(bytes: &[u8], mark: u8) -> Option<usize>
    ensures place { result ≡ position (λ byte. byte == mark) bytes.now }
    ensures within { IfSome result (λ at. at < length bytes.now) }
{
    bytes.iter().position(|byte| *byte == mark)
}

/// The bytes before the first mark, and those behind it where there is a mark.
pub fn cut(bytes: &[u8], mark: u8) -> (&[u8], Option<&[u8]>)
    ensures parts { parts_of mark bytes.now ≡ result.0.now ∷ parts_left mark (option_copied result.1) }
    ensures room { length result.0.now + room_left (option_copied result.1) ≡ length bytes.now }
{
    match first_mark(bytes, mark) {
        Some(at) => (&bytes[..at], Some(&bytes[at + 1..])),
        None => (bytes, None),
    }
}

/// The words of a line, in order.
pub fn line_words<'a>(alloc: Global, line: &'a [u8]) -> Result<Vec<&'a [u8]>, OutOfMemory>
    ensures { IfOk result (λ words. texts words.items ≡ words_of line.now) }
{
    let words = line
        .split(|byte| *byte == b' ')
        .filter(|part| !part.is_empty())
        .collect(alloc)?;
    Ok(words)
}

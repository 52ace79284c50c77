//! Single words and what they spell.

ghost use Rattle.std.specs.Prelude.{◌≡◌, ◌≤◌, ◌<◌, ◌^◌, ◌++◌, [], length, drop, IfSome, IfOk, map};
ghost use Rattle.std.specs.Int.{w32};
ghost use Rattle.std.specs.Int.RustNames.{FitsSigned};
ghost use Rattle.std.specs.List.{All};
ghost use Rattle.tk_model.specs.Lists.{texts};
ghost use Rattle.tk_model.specs.LineRanges.{no_fields, IsAnswer};
ghost use Rattle.tk_trace.specs.Reading.{u8_at, u32_at, value_at, fields_at, answer_at, handler_at};

use tk_text::{natural, number};
use tk_types::{Answer, Er, HandlerKind};

/// The number of 8 bits that a word spells.
#[tactic(auto, unfolding(crate::specs::Reading::u8_at))]
pub(crate) fn u8_at(word: &[u8]) -> Option<u8>
    ensures value { result ≡ u8_at word.now }
    ensures fits { IfSome result (λ n. n < 2 ^ 8) }
{
    let read = natural(word)?;
    if read < 256 { Some(read as u8) } else { None }
}

/// The number of 32 bits that a word spells.
#[tactic(auto, unfolding(crate::specs::Reading::u32_at))]
pub(crate) fn u32_at(word: &[u8]) -> Option<u32>
    ensures value { result ≡ u32_at word.now }
    ensures fits { IfSome result (λ n. n < 2 ^ 32) }
{
    let read = natural(word)?;
    if read <= 4_294_967_295 {
        Some(read as u32)
    } else {
        None
    }
}

/// The value that a word spells: a number, or the name of an error code.
#[tactic(auto, unfolding(crate::specs::Reading::value_at))]
pub(crate) fn value_at(word: &[u8]) -> Option<i32>
    ensures value { result ≡ value_at word.now }
    ensures fits { IfSome result (λ value. FitsSigned w32 value) }
{
    match number(word) {
        Some(read) => Some(read),
        None => match Er::of_name(word) {
            Some(error) => Some(error.main_code()),
            None => None,
        },
    }
}

/// The five places of the fields that words spell.
#[tactic(auto, unfolding(crate::specs::Reading::fields_at))]
fn fields_at(words: &[&[u8]]) -> Option<[i32; 5]>
    ensures value { result ≡ fields_at (texts words.now) }
    ensures within { IfSome result (λ _. length words.now ≤ 5) }
    ensures fits { IfSome result (λ fields. All (FitsSigned w32) fields) }
    ensures behind { IfSome result (λ fields. drop (length words.now) fields ≡ drop (length words.now) no_fields) }
{
    if words.len() > 5 {
        return None;
    }
    let mut fields = [0; 5];
    'words: for (place, word) in words.iter().enumerate() {
        fields[place] = number(word)?;
    }
    Some(fields)
}

/// The answer that words spell: a value, and the fields behind it.
#[tactic(auto, unfolding(crate::specs::Reading::answer_at))]
pub(crate) fn answer_at(words: &[&[u8]]) -> Option<Answer>
    ensures value { result ≡ answer_at (texts words.now) }
    ensures answer { IfSome result IsAnswer }
{
    let [value, rest @ ..] = words else {
        return None;
    };
    let value = value_at(value)?;
    let fields = fields_at(rest)?;
    Some(Answer {
        value,
        fields,
        used: rest.len() as u8,
    })
}

/// The kind of handler that a word names.
#[tactic(auto, unfolding(crate::specs::Reading::handler_at))]
pub(crate) fn handler_at(word: &[u8]) -> Option<HandlerKind>
    ensures { result ≡ handler_at word.now }
{
    if word == b"int".as_slice() {
        Some(HandlerKind::Interrupt)
    } else if word == b"cyc".as_slice() {
        Some(HandlerKind::Cyclic)
    } else if word == b"alm".as_slice() {
        Some(HandlerKind::Alarm)
    } else {
        None
    }
}

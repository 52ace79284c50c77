//! Numbers as words: each has one spelling, with no leading zero, no plus and no `-0`.

ghost use Rattle.std.specs.Prelude.{◌≡◌, ◌≢◌, ℕ, ℤ, ◌<◌, ◌^◌, IfSome, IfNone};
ghost use Rattle.std.specs.Fmt.{decimal, signed_decimal};
ghost use Rattle.std.specs.Int.{w32};
ghost use Rattle.std.specs.Int.RustNames.{FitsSigned};
ghost use Rattle.tk_model.specs.Decimals.{natural_at, number_at};

use itoa::Buffer;
use std::str;

/// The signed number whose text a word is. What std reads is printed again and compared with the word.
fn signed_of_text(word: &[u8]) -> Option<i32>
    ensures some { IfSome result (λ z. (word.now ≡ signed_decimal z) × FitsSigned w32 z) }
    ensures none { IfNone result ((z : ℤ) → FitsSigned w32 z → word.now ≢ signed_decimal z) }
{
    let Ok(text) = str::from_utf8(word) else {
        return None;
    };
    let Ok(read) = text.parse::<i32>() else {
        return None;
    };
    let mut buffer = Buffer::new();
    if buffer.format(read).as_bytes() == word {
        Some(read)
    } else {
        None
    }
}

/// The number without a sign whose text a word is.
fn unsigned_of_text(word: &[u8]) -> Option<u64>
    ensures some { IfSome result (λ n. (word.now ≡ decimal n) × (n < 2 ^ 64)) }
    ensures none { IfNone result ((n : ℕ) → n < 2 ^ 64 → word.now ≢ decimal n) }
{
    let Ok(text) = str::from_utf8(word) else {
        return None;
    };
    let Ok(read) = text.parse::<u64>() else {
        return None;
    };
    let mut buffer = Buffer::new();
    if buffer.format(read).as_bytes() == word {
        Some(read)
    } else {
        None
    }
}

/// The number that a word spells: `0`, or an optional `-` and digits of which the first isn't 0, in the range of
/// an `i32`. `None` where the word spells none.
pub fn number(word: &[u8]) -> Option<i32>
    ensures value { result ≡ number_at word.now }
    ensures some { IfSome result (λ z. (word.now ≡ signed_decimal z) × FitsSigned w32 z) }
    ensures none { IfNone result ((z : ℤ) → FitsSigned w32 z → word.now ≢ signed_decimal z) }
{
    signed_of_text(word)
}

/// The number without a sign that a word spells: `0`, or digits of which the first isn't 0, below 2 to the power
/// of 64. `None` where the word spells none.
pub fn natural(word: &[u8]) -> Option<u64>
    ensures value { result ≡ natural_at word.now }
    ensures some { IfSome result (λ n. (word.now ≡ decimal n) × (n < 2 ^ 64)) }
    ensures none { IfNone result ((n : ℕ) → n < 2 ^ 64 → word.now ≢ decimal n) }
{
    unsigned_of_text(word)
}

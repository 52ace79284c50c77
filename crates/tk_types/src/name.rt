//! Names as a script spells them.

ghost use Rattle.std.specs.Prelude.{◌≡◌, ◌≤◌, ◌++◌, if◌then◌else◌, true, length, drop};
ghost use Rattle.std.specs.List.{list_all};
ghost use Rattle.tk_types.specs.Names.{name_at_most, is_name_byte};
ghost use Rattle.tk_types.specs.Zeros.{zeros};

use std::marker::Model;

/// Whether a byte may stand in a name: a lower-case letter, a digit or an underscore.
#[tactic(auto, unfolding(crate::specs::Names::is_name_byte))]
fn is_name_byte(byte: u8) -> bool
    ensures { result ≡ is_name_byte byte }
{
    byte.is_ascii_lowercase() || byte.is_ascii_digit() || byte == b'_'
}

/// Whether each byte of a word may stand in a name.
fn has_name_bytes(word: &[u8]) -> bool
    ensures { result ≡ list_all is_name_byte word.now }
{
    word.iter().all(|byte| is_name_byte(*byte))
}

/// Whether a word is a name of at most `most` bytes: a lower-case letter, and then lower-case letters, digits
/// and underscores.
#[tactic(auto, unfolding(crate::specs::Names::name_at_most))]
pub fn is_name(word: &[u8], most: usize) -> bool
    ensures value { result ≡ name_at_most most word.now }
    ensures within { result ≡ true → length word.now ≤ most }
{
    word.len() <= most && !word.is_empty() && word[0].is_ascii_lowercase() && has_name_bytes(word)
}

/// The bytes of a word, and zeros behind them.
fn padded(word: &[u8]) -> [u8; 16]
    requires { length word.now ≤ 16 }
    ensures { result ≡ word.now ++ drop (length word.now) zeros }
{
    let mut bytes = [0; 16];
    bytes[..word.len()].copy_from_slice(word);
    bytes
}

/// A name: a lower-case letter, and then at most 15 lower-case letters, digits and underscores. Contracts see
/// it as its bytes.
#[derive(Clone, Copy, Debug, PartialEq, Eq)]
pub struct Name {
    bytes: [u8; 16],
    used: u8,
}

impl Model for Name {
    ghost use Rattle.std.specs.Prelude.{ℕ, List};

    ghost Value = { List ℕ };

    ghost use Rattle.tk_types.specs.NameCells.{name_bytes, IsNameCells, cells_of, cells_again};

    ghost view = { name_bytes };

    ghost invariant = { IsNameCells };

    ghost inverse = { cells_of };

    ghost inverse_ok = { λ cells is. cells_again cells is };
}

impl Name {
    /// The name that a word spells, or `None` where it spells none.
    #[tactic(auto, using(crate::proofs::NameCells::cells_are))]
    pub fn new(word: &[u8]) -> Option<Name>
        ensures { result ≡ (if name_at_most 16 word.now then Some word.now else None) }
    {
        if !is_name(word, 16) {
            return None;
        }
        Some(Name {
            bytes: padded(word),
            used: word.len() as u8,
        })
    }

    /// The bytes of the name.
    pub fn as_bytes(&self) -> &[u8]
        ensures value { result.now ≡ self.now }
        ensures named { name_at_most 16 self.now ≡ true }
    {
        &self.bytes[..self.used as usize]
    }
}

//! Lists: `-`, or words of a table in the table's order, none twice, with `|` between.

ghost use Rattle.std.specs.Prelude.{◌≡◌, ◌≢◌, ℕ, ◌<◌, ◌≤◌, ◌^◌, ◌++◌, true, length, IfSome, IfNone, OnOk};
ghost use Rattle.std.specs.Option.{option_copied};
ghost use Rattle.tk_model.specs.Lists.{texts, chosen, bits_of, list_at, list_text_of, barred, between_bars, is_table};
ghost use Rattle.tk_text.specs.Tokens.{parts_left};

use crate::cutting::cut;
use tk_types::OutOfMemory;

/// The bits of the parts that are left, which must be words of the table in its order.
#[tactic(auto, unfolding(tk_model::specs::Lists::bits_of))]
fn bits_of(table: &[&'static str], left: Option<&[u8]>) -> Option<u32>
    requires { length table.now ≤ 31 }
    ensures value { result ≡ bits_of (texts table.now) (parts_left 124 (option_copied left.entry)) }
    ensures below { IfSome result (λ bits. bits < 2 ^ length table.now) }
{
    match table {
        [] => match left {
            None => Some(0),
            Some(_) => None,
        },
        [word, rest @ ..] => match left {
            None => Some(0),
            Some(bytes) => {
                let (part, later) = cut(bytes, b'|');
                if part == word.as_bytes() {
                    let bits = bits_of(rest, later)?;
                    Some(2 * bits + 1)
                } else {
                    let bits = bits_of(rest, left)?;
                    Some(2 * bits)
                }
            }
        },
    }
}

/// The bits of a word that is `-` or has the table's words with bars between.
#[tactic(auto, unfolding(tk_model::specs::Lists::list_at))]
fn bits_of_word(table: &[&'static str], word: &[u8]) -> Option<u32>
    requires { length table.now ≤ 31 }
    ensures value { result ≡ list_at (texts table.now) word.now }
    ensures below { IfSome result (λ bits. bits < 2 ^ length table.now) }
{
    if word == b"-".as_slice() {
        return Some(0);
    }
    bits_of(table, Some(word))
}

/// The bits of a word that is a list of a table of at most 31 words: the lowest bit stands for the first word.
/// `None` where the word is no list.
pub fn list_bits(table: &[&'static str], word: &[u8]) -> Option<u32>
    requires { length table.now ≤ 31 }
    ensures value { result ≡ list_at (texts table.now) word.now }
    ensures below { IfSome result (λ bits. bits < 2 ^ length table.now) }
    ensures some { IfSome result (λ bits. list_text_of (texts table.now) bits ≡ word.now) }
    ensures none { is_table (texts table.now) ≡ true → IfNone result ((bits : ℕ) → bits < 2 ^ length table.now → list_text_of (texts table.now) bits ≢ word.now) }
{
    bits_of_word(table, word)
}

/// Puts the words whose bits are set behind what is there, with a bar before each.
#[tactic(auto, unfolding(tk_model::specs::Lists::chosen, tk_model::specs::Lists::barred))]
fn push_barred(out: &mut Vec<u8>, table: &[&'static str], bits: u32) -> Result<(), OutOfMemory>
    ensures { OnOk result (out.new.items ≡ out.old.items ++ barred (chosen (texts table.now) bits)) }
{
    match table {
        [] => Ok(()),
        [word, rest @ ..] => {
            if bits % 2 == 0 {
                return push_barred(out, rest, bits / 2);
            }
            out.push(b'|')?;
            out.extend_from_slice(word.as_bytes())?;
            push_barred(out, rest, bits / 2)
        }
    }
}

/// Puts the words whose bits are set behind what is there, with a bar between.
#[tactic(auto, unfolding(tk_model::specs::Lists::chosen, tk_model::specs::Lists::between_bars))]
fn push_chosen(out: &mut Vec<u8>, table: &[&'static str], bits: u32) -> Result<(), OutOfMemory>
    ensures { OnOk result (out.new.items ≡ out.old.items ++ between_bars (chosen (texts table.now) bits)) }
{
    match table {
        [] => Ok(()),
        [word, rest @ ..] => {
            if bits % 2 == 0 {
                return push_chosen(out, rest, bits / 2);
            }
            out.extend_from_slice(word.as_bytes())?;
            push_barred(out, rest, bits / 2)
        }
    }
}

/// Puts the list that has these bits behind what is there. Where memory runs out, a front of it may be there.
#[tactic(auto, unfolding(tk_model::specs::Lists::list_text_of), using(crate::proofs::Lists::joined))]
pub fn push_list(out: &mut Vec<u8>, table: &[&'static str], bits: u32) -> Result<(), OutOfMemory>
    ensures { OnOk result (out.new.items ≡ out.old.items ++ list_text_of (texts table.now) bits) }
{
    if bits == 0 {
        out.push(b'-')?;
        return Ok(());
    }
    push_chosen(out, table, bits)
}

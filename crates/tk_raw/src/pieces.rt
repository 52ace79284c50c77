//! Words as numbers, names, lists and registers, and the words behind a first word as arguments.

ghost use Rattle.std.specs.Prelude.{◌≡◌, ◌≤◌, ◌<◌, ◌^◌, IfOk, IfSome};
ghost use Rattle.tk_model.specs.Lists.{texts};
ghost use Rattle.tk_raw.specs.Gives.{Gives};
ghost use Rattle.tk_raw.specs.Pieces.{arguments_at, name_at, list_piece, name_or_dash_at, name_piece, number_between, piece_at, pieces_from, raw_stmt_at, register_at, register_piece, short_name_at, stmt_from, value_at};

use crate::errors::ReadError;
use crate::head::Head;
use crate::raw::{Piece, RawStmt};
use std::alloc::Global;
use tk_text::{is_name, list_bits, natural, number};
use tk_types::{
    ATTRIBUTE_WORDS, ArgumentKind, FLAG_MODE_WORDS, Name, OPEN_MODE_WORDS, SUSPEND_MODE_WORDS,
    Sequence, Why,
};

/// The register that a word spells: `r` and a number from 0 to 15.
#[tactic(auto, unfolding(crate::specs::Pieces::register_at))]
fn register_at(word: &[u8]) -> Option<u8>
    ensures { result ≡ register_at word.now }
{
    match word {
        [] => None,
        [first, digits @ ..] => {
            if *first != b'r' {
                return None;
            }
            let number = natural(digits)?;
            if number < 16 {
                Some(number as u8)
            } else {
                None
            }
        }
    }
}

/// The number of a range that a word spells.
#[tactic(auto, unfolding(crate::specs::Pieces::number_between))]
pub(crate) fn number_between(low: u32, high: u32, word: &[u8]) -> Result<u32, Why>
    ensures value { result ≡ number_between low high word.now }
    ensures within { IfOk result (λ number. number ≤ high) }
{
    match natural(word) {
        None => Err(Why::Number),
        Some(number) => {
            if u64::from(low) <= number && number <= u64::from(high) {
                Ok(number as u32)
            } else {
                Err(Why::Number)
            }
        }
    }
}

/// The name that a word spells.
#[tactic(auto, unfolding(crate::specs::Pieces::name_at))]
pub(crate) fn name_at(word: &[u8]) -> Result<Name, Why>
    ensures { result ≡ name_at word.now }
{
    match Name::new(word) {
        Some(name) => Ok(name),
        None => Err(Why::Name),
    }
}

/// The name of a device that a word spells.
#[tactic(auto, unfolding(crate::specs::Pieces::short_name_at))]
pub(crate) fn short_name_at(word: &[u8]) -> Result<Name, Why>
    ensures { result ≡ short_name_at word.now }
{
    if is_name(word, 8) {
        name_at(word)
    } else {
        Err(Why::Name)
    }
}

fn register_piece(register: Option<u8>, why: Why) -> Result<Piece, Why>
    ensures { result ≡ register_piece register why }
{
    match register {
        Some(register) => Ok(Piece::Register(register)),
        None => Err(why),
    }
}

/// A number or a register.
#[tactic(auto, unfolding(crate::specs::Pieces::value_at))]
fn value_at(word: &[u8]) -> Result<Piece, Why>
    ensures { result ≡ value_at word.now }
{
    match number(word) {
        Some(number) => Ok(Piece::Number(number)),
        None => register_piece(register_at(word), Why::Number),
    }
}

fn name_piece(name: Result<Name, Why>) -> Result<Piece, Why>
    ensures { result ≡ name_piece name }
{
    match name {
        Ok(name) => Ok(Piece::Name(name)),
        Err(why) => Err(why),
    }
}

/// The name of a body, or `-` for none.
#[tactic(auto, unfolding(crate::specs::Pieces::name_or_dash_at))]
fn name_or_dash_at(word: &[u8]) -> Result<Piece, Why>
    ensures { result ≡ name_or_dash_at word.now }
{
    if word == b"-".as_slice() {
        Ok(Piece::Dash)
    } else {
        name_piece(name_at(word))
    }
}

/// A list of a table.
fn list_piece(bits: Option<u32>) -> Result<Piece, Why>
    ensures { result ≡ list_piece bits }
{
    match bits {
        Some(bits) => Ok(Piece::List(bits)),
        None => Err(Why::List),
    }
}

/// The argument that a word is in a place of that kind.
#[tactic(auto, unfolding(crate::specs::Pieces::piece_at, tk_model::specs::ScriptText::table_of))]
fn piece_at(kind: ArgumentKind, word: &[u8]) -> Result<Piece, Why>
    ensures { result ≡ piece_at kind word.now }
{
    match kind {
        ArgumentKind::Value => value_at(word),
        ArgumentKind::Attributes => list_piece(list_bits(&ATTRIBUTE_WORDS, word)),
        ArgumentKind::FlagMode => list_piece(list_bits(&FLAG_MODE_WORDS, word)),
        ArgumentKind::OpenMode => list_piece(list_bits(&OPEN_MODE_WORDS, word)),
        ArgumentKind::SuspendMode => list_piece(list_bits(&SUSPEND_MODE_WORDS, word)),
        ArgumentKind::TaskBody => name_piece(name_at(word)),
        ArgumentKind::HandlerBody => name_piece(name_at(word)),
        ArgumentKind::HandlerBodyOrNone => name_or_dash_at(word),
        ArgumentKind::ServiceBodyOrNone => name_or_dash_at(word),
        ArgumentKind::DeviceName => name_piece(short_name_at(word)),
        ArgumentKind::Register => register_piece(register_at(word), Why::Name),
        ArgumentKind::Label => name_piece(name_at(word)),
        ArgumentKind::Text => name_piece(name_at(word)),
    }
}

/// The arguments that words are in the places of a form, behind those that are there already.
#[tactic(auto, unfolding(crate::specs::Pieces::pieces_from))]
fn pieces_from(
    form: &[ArgumentKind],
    words: &[&[u8]],
    mut pieces: Sequence<Piece>,
) -> Result<Sequence<Piece>, ReadError>
    ensures { Gives (λ pieces. pieces) result (pieces_from form.now (texts words.now) pieces) }
{
    match form {
        [] => match words {
            [] => Ok(pieces),
            [_word, ..] => Err(ReadError::Refused(Why::Count)),
        },
        [kind, form @ ..] => match words {
            [] => Err(ReadError::Refused(Why::Count)),
            [word, words @ ..] => {
                let piece = piece_at(*kind, word)?;
                pieces.push(piece)?;
                pieces_from(form, words, pieces)
            }
        },
    }
}

/// As many arguments as the form has, and each as its place wants.
#[tactic(auto, unfolding(crate::specs::Pieces::arguments_at))]
fn arguments_at(
    alloc: Global,
    form: &[ArgumentKind],
    words: &[&[u8]],
) -> Result<Sequence<Piece>, ReadError>
    ensures { Gives (λ pieces. pieces) result (arguments_at form.now (texts words.now)) }
{
    if words.len() == form.len() {
        pieces_from(form, words, Sequence::new(alloc))
    } else {
        Err(ReadError::Refused(Why::Count))
    }
}

/// The statement of a line that begins with that word: first the word is looked up, then the words are counted, and
/// then the leftmost wrong argument decides.
#[tactic(auto, unfolding(crate::specs::Pieces::raw_stmt_at))]
pub(crate) fn raw_stmt_at(
    alloc: Global,
    first: &[u8],
    words: &[&[u8]],
) -> Result<RawStmt, ReadError>
    ensures { Gives (λ stmt. stmt) result (raw_stmt_at first.now (texts words.now)) }
{
    match Head::of_text(first) {
        None => Err(ReadError::Refused(Why::Word)),
        Some(head) => {
            let pieces = arguments_at(alloc, head.form(), words)?;
            Ok(RawStmt { head, pieces })
        }
    }
}

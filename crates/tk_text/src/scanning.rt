//! A text as its words.

ghost use Rattle.std.specs.Prelude.{◌≡◌, ◌+◌, ◌-◌, ◌<◌, ◌≤◌, ◌^◌, [], ◌++◌, length, map, take, OnOk, IfOk};
ghost use Rattle.tk_model.specs.Words.{parts_of, lines_of, words_from, numbered_words};
ghost use Rattle.tk_text.specs.Scans.{IsScan};
ghost use Rattle.tk_text.specs.Tokens.{part_token, line_tokens, text_tokens, read_token, SpansRise};

use crate::cutting::cut;
use crate::fault::fault_of;
use crate::token::{Scanned, Token, Tokens};
use std::alloc::Global;
use tk_types::OutOfMemory;

/// Puts the token of a part behind the others, where the part has bytes.
fn push_part(tokens: &mut Tokens, number: usize, at: usize, size: usize) -> Result<(), OutOfMemory>
    requires counted { number ≤ at + 1 }
    requires room { at + size < 2 ^ 32 }
    ensures { OnOk result (tokens.new ≡ tokens.old ++ part_token number at size) }
{
    if size == 0 {
        return Ok(());
    }
    tokens.push(Token {
        line: number as u32,
        from: at as u32,
        to: (at + size) as u32,
    })
}

/// Puts the tokens of a line behind the others. The line has this number, and its first byte lies at `start`.
fn push_line(
    tokens: &mut Tokens,
    number: usize,
    start: usize,
    line: &[u8],
) -> Result<(), OutOfMemory>
    requires counted { number ≤ start + 1 }
    requires room { start + length line.now < 2 ^ 32 }
    ensures { OnOk result (tokens.new ≡ tokens.old ++ line_tokens number start (parts_of 32 line.now)) }
{
    let mut at = start;
    let mut left = Some(line);
    'parts: while let Some(bytes) = left {
        let (part, rest) = cut(bytes, b' ');
        push_part(tokens, number, at, part.len())?;
        at += part.len() + 1;
        left = rest;
    }
    Ok(())
}

/// The tokens of the first lines, at most so many.
fn first_tokens(alloc: Global, text: &[u8], most: usize) -> Result<Tokens, OutOfMemory>
    requires { length text.now < 2 ^ 32 }
    ensures { IfOk result (λ tokens. tokens ≡ text_tokens 1 0 (take most (lines_of text.now))) }
{
    let mut tokens = Tokens::new(alloc);
    let mut number: usize = 0;
    let mut at: usize = 0;
    let mut left = Some(text);
    'lines: while let Some(bytes) = left {
        if number == most {
            break;
        }
        let (line, rest) = cut(bytes, b'\n');
        number += 1;
        push_line(&mut tokens, number, at, line)?;
        at += line.len() + 1;
        left = rest;
    }
    Ok(tokens)
}

/// The words of a text, with the lines that they stand in. The text has fewer than 2 to the power of 32 bytes.
pub fn tokens_of(alloc: Global, text: &[u8]) -> Result<Tokens, OutOfMemory>
    requires { length text.now < 2 ^ 32 }
    ensures words { IfOk result (λ tokens. map (read_token text.now) tokens ≡ numbered_words text.now) }
    ensures rise { IfOk result (λ tokens. SpansRise 0 (length text.now) tokens) }
{
    first_tokens(alloc, text, text.len() + 1)
}

/// The words of the lines before a line, which is counted from 1. The text has fewer than 2 to the power of 32
/// bytes.
pub fn tokens_before(alloc: Global, text: &[u8], line: u32) -> Result<Tokens, OutOfMemory>
    requires { length text.now < 2 ^ 32 }
    ensures words { IfOk result (λ tokens. map (read_token text.now) tokens ≡ words_from 1 (take (line - 1) (lines_of text.now))) }
    ensures rise { IfOk result (λ tokens. SpansRise 0 (length text.now) tokens) }
{
    first_tokens(alloc, text, line.saturating_sub(1) as usize)
}

/// The words of a text, or the first line that shows a fault by itself. The text has fewer than 2 to the power of
/// 32 bytes.
pub fn scan(alloc: Global, text: &[u8]) -> Result<Scanned, OutOfMemory>
    requires { length text.now < 2 ^ 32 }
    ensures { IfOk result (λ scanned. IsScan text.now scanned) }
{
    if let Some(fault) = fault_of(text) {
        return Ok(Scanned::Fault(fault));
    }
    let tokens = tokens_of(alloc, text)?;
    Ok(Scanned::Tokens(tokens))
}

//! The lines of a text, one by one.

ghost use Rattle.std.specs.Prelude.{◌≡◌, ◌≤◌, ◌+◌, ◌<◌, ◌∷◌, length};
ghost use Rattle.std.specs.Option.{option_copied};
ghost use Rattle.tk_model.specs.TextLines.{text_lines};
ghost use Rattle.tk_raw.specs.TextLoops.{text_behind};

use tk_text::cut;

/// What stands behind a line: nothing where no line feed ends it.
fn behind(rest: Option<&[u8]>) -> &[u8]
    ensures { result.now ≡ text_behind (option_copied rest.entry) }
{
    match rest {
        None => &[],
        Some(bytes) => bytes,
    }
}

/// The first line of a text that has bytes, without its line feed, and what stands behind it.
pub(crate) fn first_line(text: &[u8]) -> (&[u8], &[u8])
    requires { 0 < length text.now }
    ensures lines { text_lines text.now ≡ result.0.now ∷ text_lines result.1.now }
    ensures shorter { length result.1.now < length text.now }
{
    let (line, rest) = cut(text, b'\n');
    (line, behind(rest))
}

/// How many lines a text has. A last line may lack its line feed, and behind the last line feed there is none.
pub(crate) fn line_count(text: &[u8]) -> usize
    ensures count { result ≡ length (text_lines text.now) }
    ensures within { result ≤ length text.now }
{
    let mut count: usize = 0;
    let mut left = text;
    'lines: while !left.is_empty() {
        let (_, rest) = first_line(left);
        count += 1;
        left = rest;
    }
    count
}

//! Laws of the texts of lines and of entries, each the contract of a call that does nothing.

ghost use Rattle.std.specs.Prelude.{◌≡◌, ◌≢◌};
ghost use Rattle.std.specs.List.{All};
ghost use Rattle.tk_types.specs.declared.line.Entry.{Entry as TheEntry};
ghost use Rattle.tk_types.specs.declared.line.Line.{Line as TheLine};
ghost use Rattle.tk_model.specs.Journal.{IsEntry, text_of_entry};
ghost use Rattle.tk_model.specs.LineRanges.{IsLine};
ghost use Rattle.tk_model.specs.LineText.{text_of_line};

/// No two lines have one text.
pub fn lines_differ_in_text()
    ensures { (a b : TheLine) → IsLine a → IsLine b → text_of_line a ≡ text_of_line b → a ≡ b }
{}

/// No line's text has a line feed.
pub fn no_text_has_a_line_feed()
    ensures { (line : TheLine) → IsLine line → All (λ byte. byte ≢ 10) (text_of_line line) }
{}

/// No two entries of a journal have one text.
pub fn entries_differ_in_text()
    ensures { (a b : TheEntry) → IsEntry a → IsEntry b → text_of_entry a ≡ text_of_entry b → a ≡ b }
{}

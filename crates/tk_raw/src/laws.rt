//! Laws of texts as scripts whose names aren't resolved yet. Each function does nothing; its contract is the law,
//! which holds of every text.

ghost use Rattle.std.specs.Prelude.{◌≡◌, ◌↔◌, ℕ, List, Ok};
ghost use Rattle.tk_raw.specs.declared.raw.RawScript.{RawScript};
ghost use Rattle.tk_raw.specs.RawReading.{raw_reading};
ghost use Rattle.tk_raw.specs.Spelling.{SpellsRaw};

/// A text is read as a script exactly where it spells that script.
pub fn reading()
    ensures { (text : List ℕ) (raw : RawScript) → (raw_reading text ≡ Ok raw) ↔ SpellsRaw text raw }
{}

/// No text spells two scripts.
pub fn one_script()
    ensures { (text : List ℕ) (one other : RawScript) → SpellsRaw text one → SpellsRaw text other → one ≡ other }
{}

//! Laws of scripts as texts. Each function does nothing; its contract is the law, which holds of every text.

ghost use Rattle.std.specs.Prelude.{◌≡◌, ◌≢◌, ◌↔◌, ◌<◌, ◌≤◌, ◌++◌, ◌∷◌, [], ℕ, List, Ok, Err, length};
ghost use Rattle.tk_types.specs.declared.script.Script.{Script};
ghost use Rattle.tk_model.specs.ScriptText.{Spells, printed};
ghost use Rattle.tk_raw.specs.RawReading.{Refusal};
ghost use Rattle.tk_script.specs.Reading.{reading};

/// A text is read as a script exactly where it spells that script.
pub fn reading()
    ensures { (text : List ℕ) (script : Script) → (reading text ≡ Ok script) ↔ Spells text script }
{}

/// No text spells two scripts.
pub fn one_script()
    ensures { (text : List ℕ) (one other : Script) → Spells text one → Spells text other → one ≡ other }
{}

/// A text is refused exactly where it spells no script.
pub fn refused()
    ensures spelled { (text : List ℕ) (script : Script) (refusal : Refusal) → Spells text script → reading text ≡ Err refusal → ⊥ }
    ensures unspelled { (text : List ℕ) → ((script : Script) → Spells text script → ⊥) → (refusal : Refusal) × (reading text ≡ Err refusal) }
{}

/// The printed form of a script that a text spells is read again as that script, unless it has more bytes than a text
/// may have. Then the text has just as many as it may have, and its last line has no line feed.
pub fn printed_again()
    ensures again { (text : List ℕ) (script : Script) → Spells text script → length (printed script) ≤ 1048576 → Spells (printed script) script }
    ensures longer { (text : List ℕ) (script : Script) → Spells text script → 1048576 < length (printed script) → length text ≡ 1048576 }
    ensures open_ended { (text : List ℕ) (script : Script) (front : List ℕ) → Spells text script → 1048576 < length (printed script) → text ≢ front ++ 10 ∷ [] }
{}

//! Laws of sessions as texts. Each function does nothing; its contract is the law, which holds of every text.

ghost use Rattle.std.specs.Prelude.{◌≡◌, ◌↔◌, ℕ, List, Ok, Err};
ghost use Rattle.tk_raw.specs.RawReading.{Refusal};
ghost use Rattle.tk_session.specs.Reading.{session_reading};
ghost use Rattle.tk_session.specs.Spelling.{SpellsSession};
ghost use Rattle.tk_session.specs.TracedReading.{TracedScript, traced_reading};
ghost use Rattle.tk_session.specs.TracedSpelling.{SpellsTraced};
ghost use Rattle.tk_session.specs.declared.session.Session.{Session};

/// A text is read as a session exactly where it spells that session.
pub fn reading()
    ensures { (text : List ℕ) (session : Session) → (session_reading text ≡ Ok session) ↔ SpellsSession text session }
{}

/// No text spells two sessions.
pub fn one_session()
    ensures { (text : List ℕ) (one other : Session) → SpellsSession text one → SpellsSession text other → one ≡ other }
{}

/// A text is refused exactly where it spells no session.
pub fn refused()
    ensures spelled { (text : List ℕ) (session : Session) (refusal : Refusal) → SpellsSession text session → session_reading text ≡ Err refusal → ⊥ }
    ensures unspelled { (text : List ℕ) → ((session : Session) → SpellsSession text session → ⊥) → (refusal : Refusal) × (session_reading text ≡ Err refusal) }
{}

/// A text is read as a script with a trace exactly where it spells them.
pub fn traced()
    ensures { (text : List ℕ) (traced : TracedScript) → (traced_reading text ≡ Ok traced) ↔ SpellsTraced text traced }
{}

/// No text spells two scripts with their traces.
pub fn one_traced()
    ensures { (text : List ℕ) (one other : TracedScript) → SpellsTraced text one → SpellsTraced text other → one ≡ other }
{}

/// A text is refused exactly where it spells no script with a trace.
pub fn traced_refused()
    ensures spelled { (text : List ℕ) (traced : TracedScript) (refusal : Refusal) → SpellsTraced text traced → traced_reading text ≡ Err refusal → ⊥ }
    ensures unspelled { (text : List ℕ) → ((traced : TracedScript) → SpellsTraced text traced → ⊥) → (refusal : Refusal) × (traced_reading text ≡ Err refusal) }
{}

//! Laws of journals, each the contract of a function that does nothing.

ghost use Rattle.std.specs.Prelude.{◌≡◌, ◌++◌, ℕ, true, List};
ghost use Rattle.tk_types.specs.declared.line.Entry.{Entry};
ghost use Rattle.tk_types.specs.declared.run.Mode.{Mode};
ghost use Rattle.tk_types.specs.declared.script.Script.{Script};
ghost use Rattle.tk_model.specs.Journal.{journal_of};
ghost use Rattle.machine_model.specs.Runs.Trace.{lines_of, trace};
ghost use Rattle.journal_laws.specs.Fed.{is_whole};

/// A trace tells the endings that it was fed: the entries that its lines make are a front of the journal, in its order, and all
/// of it where the run ended by itself, neither for want of an ending nor at an entry that isn't fit. So from what such a run
/// wrote it is done again, with the same trace.
pub fn a_trace_tells_the_endings_that_it_was_fed()
    ensures front { (script : Script) (mode : Mode) (budget : ℕ) (entries : List Entry) →
        (left : List Entry) × (entries ≡ journal_of (lines_of (trace script mode budget entries)) ++ left) }
    ensures whole { (script : Script) (mode : Mode) (budget : ℕ) (entries : List Entry) → is_whole (trace script mode budget entries).last ≡ true →
        journal_of (lines_of (trace script mode budget entries)) ≡ entries }
    ensures again { (script : Script) (mode : Mode) (budget : ℕ) (entries : List Entry) → is_whole (trace script mode budget entries).last ≡ true →
        trace script mode budget (journal_of (lines_of (trace script mode budget entries))) ≡ trace script mode budget entries }
{}

//! Laws of the definitions, each the contract of a function that does nothing.

ghost use Rattle.std.specs.Prelude.{◌≡◌, ◌<◌, ◌+◌, ◌*◌, ◌≤◌, ◌⊎◌, ℕ, suc, true, List, Some, length};
ghost use Rattle.tk_types.specs.declared.error_code.Er.TheVariants as er;
ghost use Rattle.tk_types.specs.declared.script.Kind.{Kind};
ghost use Rattle.device_model.specs.declared.messages.Ending.{Ending};
ghost use Rattle.driver_model.specs.Cores.{ending_out};
ghost use Rattle.driver_model.specs.Drives.{Event, driving_start, ran};
ghost use Rattle.driver_laws.specs.Words.{EndsWithStop, HasTaken, is_cut};

/// After every list of events a driver has counted the messages that it has taken (`counted`), an ending that it gives out tells
/// how many these are (`told`), and where it was stopped the last of them is a Stop (`stopped`).
pub fn a_driver_knows_what_it_has_taken()
    ensures counted { (d : ℕ) (kind : Kind) (events : List Event) → (ran (driving_start d kind) events).core.taken ≡ length (ran (driving_start d kind) events).taken }
    ensures told { (d : ℕ) (kind : Kind) (events : List Event) (ending : Ending) → ending_out (ran (driving_start d kind) events).core ≡ Some ending →
        ending.taken ≡ length (ran (driving_start d kind) events).taken }
    ensures stopped { (d : ℕ) (kind : Kind) (events : List Event) → (ran (driving_start d kind) events).core.stopped ≡ true →
        EndsWithStop (ran (driving_start d kind) events).taken }
{}

/// A driver cuts a request off only where it was told to: where an ending that it gives out is cut off, it has taken the Abort of
/// the request with that number.
pub fn a_driver_cuts_off_only_what_it_was_told_to()
    ensures { (d : ℕ) (kind : Kind) (events : List Event) (ending : Ending) → ending_out (ran (driving_start d kind) events).core ≡ Some ending →
        is_cut ending.how ≡ true → HasTaken ending.number (ran (driving_start d kind) events).taken }
{}

//! Answers of calls, and who makes them.

ghost use Rattle.std.specs.Prelude.{◌≡◌};
ghost use Rattle.kernel_model.specs.Words.Checks.{done, failed, plain};
ghost use Rattle.kernel_model.specs.Tasks.Calls.{caller};

use tk_types::{Answer, Er, Outcome, Who};

/// An answer with a value alone.
pub fn plain(value: i32) -> Answer
    ensures { result ≡ plain value }
{
    Answer {
        value,
        fields: [0; 5],
        used: 0,
    }
}

/// The answer of a call that is refused.
pub fn failed(error: Er) -> Outcome
    ensures { result ≡ failed error }
{
    Outcome::Returned(plain(error.main_code()))
}

/// The answer of a call that has done its work.
pub fn done(value: i32) -> Outcome
    ensures { result ≡ done value }
{
    Outcome::Returned(plain(value))
}

/// The ID of the calling task, or 0 for a handler.
pub fn caller(who: Who) -> u8
    ensures { result ≡ caller who }
{
    match who {
        Who::Task(task) => task,
        Who::Handler => 0,
    }
}

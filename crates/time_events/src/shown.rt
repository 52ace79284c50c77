//! Answers of two numbers: a time in its halves, and what a handler shows.

ghost use Rattle.std.specs.Prelude.{◌≡◌, ◌%◌, ◌^◌, ◌∷◌, [], pos};
ghost use Rattle.std.specs.Int.{cast_signed, w32};
ghost use Rattle.tk_types.specs.declared.answer.Outcome.TheVariants.{Returned};
ghost use Rattle.kernel_model.specs.Words.Checks.{answer};
ghost use Rattle.context_model.specs.Clocks.Calls.{handler_shown};
ghost use Rattle.context_model.specs.Clocks.Tables.{halves};

use kernel_base::Base;
use tk_types::{Answer, Event, Outcome};

/// One more than the greatest number of 32 bits: what the high half of a time counts.
pub(crate) const HALF: u64 = 4294967296;

/// The answer 0 with two fields.
fn told(first: i32, second: i32) -> Outcome
    ensures { result ≡ Returned (answer (pos 0) (first ∷ second ∷ [])) }
{
    Outcome::Returned(Answer {
        value: 0,
        fields: [first, second, 0, 0, 0],
        used: 2,
    })
}

/// The lower 32 bits of a number, read as a number with a sign.
fn low_half(number: u64) -> i32
    ensures { result ≡ cast_signed w32 (number % 2 ^ 32) }
{
    ((number % HALF) as u32).cast_signed()
}

/// A time in milliseconds in two halves of 32 bits, the high one first.
pub(crate) fn halves(time: u64) -> Outcome
    ensures { result ≡ Returned (answer (pos 0) (halves time)) }
{
    told(low_half(time / HALF), low_half(time))
}

/// What a handler shows: the milliseconds from now to the time for which it is set, as 32 bits, or 0, and 1 where it is
/// set or 0.
pub(crate) fn handler_shown(base: &Base, what: Event) -> Outcome
    ensures { result ≡ Returned (answer (pos 0) (handler_shown base.now what)) }
{
    match base.handler_due(what) {
        None => told(0, 0),
        Some(due) => told(low_half(due.saturating_sub(base.now())), 1),
    }
}

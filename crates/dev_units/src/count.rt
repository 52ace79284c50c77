//! A count that contracts see and that the running program doesn't keep.

ghost use Rattle.std.specs.Prelude.{◌≡◌, ◌+◌};

use std::marker::Model;
use std::snapshot::Snapshot;

/// A number from 0 on, without a bound: it is one more than the one before it.
#[derive(Drop)]
#[cycle(count)]
pub(crate) struct Count {
    before: Option<Snapshot<Count>>,
}

impl Model for Count {
    ghost use Rattle.std.specs.Prelude.{ℕ};
    ghost use Rattle.dev_units.specs.Counts.{count_behind};

    ghost Value = { ℕ };

    ghost view = { λ count. count_behind count.before };

    ghost size = { λ number. number };
}

impl Count {
    /// The number 0.
    pub(crate) fn zero() -> Count
        ensures { result ≡ 0 }
    {
        Count { before: None }
    }

    /// The number that is one more.
    pub(crate) fn next(&self) -> Count
        ensures { result ≡ self.now + 1 }
    {
        Count {
            before: Some(Snapshot::of(self)),
        }
    }
}

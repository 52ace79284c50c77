//! Bytes that contracts see and that the running program doesn't keep.

ghost use Rattle.std.specs.Prelude.{◌≡◌, [], ◌∷◌, ◌++◌};

use std::marker::Model;
use std::snapshot::Snapshot;

/// A list of bytes. The program keeps its last byte alone.
#[derive(Drop)]
#[cycle(bytes)]
pub(crate) struct Bytes {
    before: Option<Snapshot<Bytes>>,
    last: u8,
}

impl Model for Bytes {
    ghost use Rattle.std.specs.Prelude.{List, ℕ, length};
    ghost use Rattle.trace_compare.specs.Bytes.{bytes_behind};

    ghost Value = { List ℕ };

    ghost view = { λ bytes. bytes_behind bytes.before bytes.last };

    ghost size = { length };

    ghost use Rattle.std.proofs.Common.{arith, length-append};

    ghost size_decreases = { λ a h. Prim.grind (arith, length-append) };
}

impl Bytes {
    /// No bytes.
    pub(crate) fn none() -> Bytes
        ensures { result ≡ [] }
    {
        Bytes {
            before: None,
            last: 0,
        }
    }

    /// The bytes with one more behind them.
    pub(crate) fn with(&self, byte: u8) -> Bytes
        ensures { result ≡ self.now ++ byte ∷ [] }
    {
        Bytes {
            before: Some(Snapshot::of(self)),
            last: byte,
        }
    }
}

//! The traits of what lies outside.

ghost use Rattle.std.specs.Prelude.{◌≡◌, ℕ, ◌+◌, ◌<◌, ◌≤◌, List, length, take, Option, IfOk, IsOk, IsOkAnd, OnErr};
ghost use Rattle.tk_ports.specs.Streams.{Appends, TakesFront, IsUsedUp, Rose, Counts};

use thiserror::Error;

/// A stream failed. Its count of faults rose in the call that answered this.
#[derive(Clone, Copy, Debug, PartialEq, Eq, Error)]
#[error("a stream failed")]
pub struct Failed;

/// Where bytes come from.
pub trait Source {
    // What is left to be read, where the source tells it.
    ghost left: { Self → Option (List ℕ) };

    // How often the source was read, where it tells it.
    ghost turns: { Self → Option ℕ };

    // What `faults` answers.
    ghost faulted: { Self → ℕ };

    // That no read from here on fails, where the source says so.
    ghost never_fails: { Self → Type 0 } = { λ _. ⊥ };

    /// Fills a front of `into` and answers its length. The answer 0 means the end of the input, if there
    /// was a place to fill. A read that fails takes nothing.
    fn read(&mut self, into: &mut [u8]) -> Result<usize, Failed>
        ensures bound { IfOk result (λ count. count ≤ length into.new) }
        ensures taken { IfOk result (λ count. TakesFront (left self.old) (left self.new) (take count into.new)) }
        ensures end { IfOk result (λ count. count ≡ 0 → 0 < length into.new → IsUsedUp (left self.old)) }

        // A failure takes nothing, and shows in the count.
        ensures kept { OnErr result (left self.new ≡ left self.old) }
        ensures fault { OnErr result (Rose (faulted self.old) (faulted self.new)) }

        ensures faults_stay { faulted self.old ≤ faulted self.new }
        ensures counted { Counts (turns self.old) (turns self.new) }

        // A source that never fails answers, and goes on so.
        ensures certain { never_fails self.old → IsOk result × never_fails self.new × (faulted self.new ≡ faulted self.old) };

    /// How many reads failed; the count stays at the greatest `u64`.
    fn faults(&self) -> u64
        ensures { result ≡ faulted self.now };
}

/// Where bytes go to.
pub trait Sink {
    // What the sink holds, where it tells it.
    ghost held: { Self → Option (List ℕ) };

    // What `faults` answers.
    ghost faulted: { Self → ℕ };

    // How many bytes the sink takes from here on with no failure, as far as it says so.
    ghost sure_room: { Self → ℕ } = { λ _. 0 };

    /// Takes a front of `piece` and answers its length. To take nothing of a piece that has bytes is a
    /// failure. A write that fails takes nothing.
    fn write(&mut self, piece: &[u8]) -> Result<usize, Failed>
        ensures bound { IfOk result (λ count. count ≤ length piece.now) }
        ensures appended { IfOk result (λ count. Appends (held self.old) (held self.new) (take count piece.now)) }
        ensures progress { IfOk result (λ count. 0 < length piece.now → 0 < count) }

        // A failure takes nothing, and shows in the count.
        ensures kept { OnErr result (held self.new ≡ held self.old) }
        ensures fault { OnErr result (Rose (faulted self.old) (faulted self.new)) }

        ensures faults_stay { faulted self.old ≤ faulted self.new }

        // A piece that surely has room does not fail, and what it leaves of that room stays sure.
        ensures certain { 0 < length piece.now → length piece.now ≤ sure_room self.old
            → IsOkAnd result (λ count. sure_room self.old ≤ sure_room self.new + count) × (faulted self.new ≡ faulted self.old) };

    /// How many writes failed; the count stays at the greatest `u64`.
    fn faults(&self) -> u64
        ensures { result ≡ faulted self.now };
}

/// What a driver passes on its way. A gate may wait there, and no contract speaks of it.
pub trait Gate {
    /// Passes with so many blocks of its request done.
    fn pass(&self, device: u8, block: u32);
}

//! A sink that compares.

ghost use Rattle.std.specs.Prelude.{◌≡◌, ℕ, ◌+◌, ◌<◌, ◌≤◌, ◌^◌, ◌↔◌, ◌||◌, ◌&&◌, IsTrue, true, false, List, ◌∷◌, [], ◌++◌, length, take, Some, None, IfOk, IsErr, IsOkAnd, OnErr};
ghost use Rattle.tk_model.specs.TextLines.{text_lines};
ghost use Rattle.tk_ports.specs.Streams.{Appends, Rose};
ghost use Rattle.trace_compare.specs.Answers.{IfSame, IfDiffers};
ghost use Rattle.trace_compare.specs.Comparisons.{IsOver, faults_behind, fresh, told};
ghost use Rattle.trace_compare.specs.Differences.{difference_of};

use crate::bytes::Bytes;
use crate::compared::Compared;
use crate::walk::Walk;
use std::alloc::Global;
use std::marker::Model;
use tk_ports::{Failed, Sink};
use tk_types::OutOfMemory;

/// A sink that compares the text of a trace, as it is written, with the lines of a given text. It keeps the line that is being
/// written and the first difference, and nothing else of what it takes. Contracts see all bytes taken.
#[derive(Drop)]
pub struct Comparing<'a> {
    given: &'a [u8],
    stops: bool,
    is_short: bool,
    faults: u64,
    walk: Walk<'a>,
    taken: Bytes,
}

impl<'a> Model for Comparing<'a> {
    ghost use Rattle.trace_compare.specs.Comparisons.{Comparison};

    ghost Value = { Comparison };

    ghost use Rattle.trace_compare.specs.Sinks.{IsComparing};

    ghost view = { λ sink. record {
      given = sink.given.now;
      stops = sink.stops;
      taken = sink.taken;
      faults = sink.faults;
      short = sink.is_short;
    } };

    ghost invariant = { IsComparing };
}

/// Whether no more is taken.
fn is_over(is_short: bool, stops: bool, differs: bool) -> bool
    ensures { result ≡ (is_short || (stops && differs)) }
{
    is_short || stops && differs
}

impl<'a> Comparing<'a> {
    /// A sink that has taken nothing yet.
    ///
    /// `given`: the lines of a trace, each ended by a line feed but for the last, which may lack it; fewer than 2^32 - 1 bytes.
    /// `stops`: whether a write fails once a whole line differs, so that a run whose end can't matter any more isn't gone on with.
    pub fn new(alloc: Global, given: &'a [u8], stops: bool) -> Result<Comparing<'a>, OutOfMemory>
        requires { length given.now + 1 < 2 ^ 32 }
        ensures { IfOk result (λ sink. sink ≡ fresh given.now stops) }
    {
        Ok(Comparing {
            given,
            stops,
            is_short: false,
            faults: 0,
            walk: Walk::new(alloc, given)?,
            taken: Bytes::none(),
        })
    }

    /// Takes a byte, and answers whether it was taken.
    fn take(&mut self, byte: u8) -> bool
        ensures taken { result ≡ true → self.new ≡ record self.old { taken = self.old.taken ++ byte ∷ [] } }
        ensures refused { result ≡ false → self.new ≡ record self.old { short = self.new.short } }
        ensures cause { result ≡ false → IsOver self.new }
        ensures over { IsOver self.old → result ≡ false }
    {
        if is_over(self.is_short, self.stops, self.walk.has_decided()) {
            return false;
        }
        let Ok(()) = self.walk.take(byte) else {
            self.is_short = true;
            return false;
        };
        self.taken = self.taken.with(byte);
        true
    }

    /// Takes a front of a piece, and answers its length.
    fn take_front(&mut self, piece: &[u8]) -> usize
        ensures within { result ≤ length piece.now }
        ensures taken { self.new ≡ record self.old { taken = self.old.taken ++ take result piece.now; short = self.new.short } }
        ensures cause { result < length piece.now → IsOver self.new }
        ensures over { IsOver self.old → result ≡ 0 }
    {
        for (at, byte) in piece.iter().enumerate() {
            if !self.take(*byte) {
                return at;
            }
        }
        piece.len()
    }

    /// What the comparison came to, where no more bytes follow. A last line may lack its line feed in either text.
    pub fn finish(self) -> Compared<'a>
        ensures same { IfSame result (λ lines. difference_of self.entry.taken self.entry.given ≡ None) }
        ensures lines { IfSame result (λ lines. lines ≡ length (text_lines self.entry.given)) }
        ensures differs { IfDiffers result (λ found. difference_of self.entry.taken self.entry.given ≡ Some found) }
        ensures short { (result ≡ Compared.OutOfMemory) ↔ IsTrue self.entry.short }

        // Where a write failed, the difference is that of the whole text, however it goes on.
        ensures whole { 0 < self.entry.faults → IfDiffers result (λ found. (more : List ℕ) → difference_of (self.entry.taken ++ more) self.entry.given ≡ Some found) }
        ensures never_cut { IfSame result (λ lines. self.entry.faults ≡ 0) }
    {
        let Comparing {
            given: _,
            stops: _,
            is_short,
            faults: _,
            walk,
            taken: _,
        } = self;
        if is_short {
            return Compared::OutOfMemory;
        }
        walk.finish()
    }
}

impl Sink for Comparing<'_> {
    // A run over any sink says of this one what it tells and how many writes failed, and no more. So it tells the given text too.
    ghost held = { λ sink. Some (told sink) };

    ghost faulted = { λ sink. sink.faults };

    fn write(&mut self, piece: &[u8]) -> Result<usize, Failed>
        // Exactly what this sink does.
        ensures given { self.new.given ≡ self.old.given }
        ensures stops { self.new.stops ≡ self.old.stops }
        ensures taken { IfOk result (λ count. self.new.taken ≡ self.old.taken ++ take count piece.now) }
        ensures untaken { OnErr result (self.new.taken ≡ self.old.taken) }
        ensures count { self.new.faults ≡ faults_behind result self.old.faults }
        // A write that takes less than the whole piece has a cause, and what is over stays so.
        ensures failed { OnErr result (IsOver self.new) }
        ensures cut { IfOk result (λ count. count < length piece.now → IsOver self.new) }
        ensures over { IsOver self.old → 0 < length piece.now → IsErr result }

        // What each sink does.
        ensures bound { IfOk result (λ count. count ≤ length piece.now) }
        ensures appended { IfOk result (λ count. Appends (Some (told self.old)) (Some (told self.new)) (take count piece.now)) }
        ensures progress { IfOk result (λ count. 0 < length piece.now → 0 < count) }
        ensures kept { OnErr result (Some (told self.new) ≡ Some (told self.old)) }
        ensures fault { OnErr result (Rose self.old.faults self.new.faults) }
        ensures faults_stay { self.old.faults ≤ self.new.faults }
        ensures certain { 0 < length piece.now → length piece.now ≤ 0
            → IsOkAnd result (λ count. 0 ≤ 0 + count) × (self.new.faults ≡ self.old.faults) }
    {
        let count = self.take_front(piece);
        if count == 0 && !piece.is_empty() {
            self.faults = self.faults.saturating_add(1);
            return Err(Failed);
        }
        Ok(count)
    }

    fn faults(&self) -> u64 {
        self.faults
    }
}

//! The streams of the process. They tell nothing of content.

ghost use Rattle.std.specs.Prelude.{◌≡◌, ℕ, ◌+◌, ◌<◌, ◌≤◌, length, take, None, is_ok, IfOk, IsOkAnd, OnErr, if◌then◌else◌};
ghost use Rattle.tk_ports.specs.Streams.{Appends, TakesFront, IsUsedUp, Rose, told_nothing};
ghost use Rattle.tk_ports.specs.MemStreams.{one_more};

use crate::ports::{Failed, Sink, Source};
use std::io::Read;
use std::marker::Model;

/// The standard input. Contracts see in it how many reads failed.
#[derive(Drop)]
pub struct StdSource<I: Input> {
    reader: I::Reader,
    faults: u64,
}

impl<I: Input> Model for StdSource<I> {
    ghost Value = { ℕ };

    ghost view = { λ source. source.faults };
}

impl<I: Input> StdSource<I> {
    /// The standard input of the runtime, before any read.
    pub fn new(rt: &I) -> StdSource<I>
        ensures { result ≡ 0 }
    {
        StdSource {
            reader: rt.reader(),
            faults: 0,
        }
    }
}

impl<I: Input> Source for StdSource<I> {
    ghost left = { λ _. told_nothing };

    ghost turns = { λ _. None };

    ghost faulted = { λ faults. faults };

    fn read(&mut self, into: &mut [u8]) -> Result<usize, Failed>
        // Each error counts, and nothing else does.
        ensures count { self.new ≡ (if is_ok result then self.old else one_more self.old) }

        // What each source does.
        ensures bound { IfOk result (λ count. count ≤ length into.new) }
        ensures taken { IfOk result (λ count. TakesFront told_nothing told_nothing (take count into.new)) }
        ensures end { IfOk result (λ count. count ≡ 0 → 0 < length into.new → IsUsedUp told_nothing) }
        ensures fault { OnErr result (Rose self.old self.new) }
        ensures faults_stay { self.old ≤ self.new }
    {
        match self.reader.read(into) {
            Ok(count) => Ok(count),
            Err(_) => {
                self.faults = self.faults.saturating_add(1);
                Err(Failed)
            }
        }
    }

    fn faults(&self) -> u64 {
        self.faults
    }
}

/// The standard output. It keeps no bytes back: each write goes to the system. Contracts see in it how many
/// writes failed.
#[derive(Drop)]
pub struct StdSink<'a, P: Print> {
    to: &'a P,
    faults: u64,
}

impl<'a, P: Print> Model for StdSink<'a, P> {
    ghost Value = { ℕ };

    ghost view = { λ sink. sink.faults };
}

impl<'a, P: Print> StdSink<'a, P> {
    /// The standard output of the runtime, before any write.
    pub fn new(rt: &'a P) -> StdSink<'a, P>
        ensures { result ≡ 0 }
    {
        StdSink { to: rt, faults: 0 }
    }
}

impl<P: Print> Sink for StdSink<'_, P> {
    ghost held = { λ _. told_nothing };

    ghost faulted = { λ faults. faults };

    fn write(&mut self, piece: &[u8]) -> Result<usize, Failed>
        // Each error counts, also to take nothing of some bytes, and nothing else does.
        ensures count { self.new ≡ (if is_ok result then self.old else one_more self.old) }

        // What each sink does.
        ensures bound { IfOk result (λ count. count ≤ length piece.now) }
        ensures appended { IfOk result (λ count. Appends told_nothing told_nothing (take count piece.now)) }
        ensures progress { IfOk result (λ count. 0 < length piece.now → 0 < count) }
        ensures kept { OnErr result (told_nothing ≡ told_nothing) }
        ensures fault { OnErr result (Rose self.old self.new) }
        ensures faults_stay { self.old ≤ self.new }
        ensures certain { 0 < length piece.now → length piece.now ≤ 0
            → IsOkAnd result (λ count. 0 ≤ 0 + count) × (self.new ≡ self.old) }
    {
        if let Ok(count) = self.to.write_some(piece) {
            if count > 0 || piece.is_empty() {
                return Ok(count);
            }
        }
        self.faults = self.faults.saturating_add(1);
        Err(Failed)
    }

    fn faults(&self) -> u64 {
        self.faults
    }
}

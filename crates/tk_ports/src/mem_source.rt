//! A source in memory.

ghost use Rattle.std.specs.Prelude.{◌≡◌, ℕ, ◌+◌, ◌<◌, ◌≤◌, [], ◌++◌, length, take, drop, min, Some, IfOk, IsOk, OnErr};
ghost use Rattle.tk_ports.specs.Streams.{TakesFront, IsUsedUp, Rose, Counts};
ghost use Rattle.tk_ports.specs.MemStreams.{SourceView, told_calls, read_answer, after_read, filled_places};

use crate::calls::Calls;
use crate::ports::{Failed, Source};
use std::alloc::Global;
use std::marker::Model;
use tk_types::OutOfMemory;

/// A source of given bytes, some reads of which fail. It tells its bytes.
#[derive(Drop)]
pub struct MemSource {
    bytes: Vec<u8>,
    given: usize,
    calls: Calls,
}

impl Model for MemSource {
    ghost use Rattle.std.specs.Prelude.{◌≤◌, length, drop};
    ghost use Rattle.tk_ports.specs.MemStreams.{SourceView};

    ghost Value = { SourceView };

    ghost view = { λ source. record {
      left = drop source.given source.bytes.items;
      calls = source.calls.count;
      fails = source.calls.fails.items;
      faults = source.calls.faults;
    } };

    ghost invariant = { λ source. source.given ≤ length source.bytes.items };
}

impl MemSource {
    /// A source of `bytes`. `fails` lists the numbers of the reads that are to fail, counted from 1.
    pub fn new(alloc: Global, bytes: &[u8], fails: &[u64]) -> Result<MemSource, OutOfMemory>
        ensures { IfOk result (λ source. source ≡ record { left = bytes.now; calls = 0; fails = fails.now; faults = 0 }) }
    {
        Ok(MemSource {
            bytes: Vec::from_slice(alloc, bytes)?,
            given: 0,
            calls: Calls::new(alloc, fails)?,
        })
    }
}

/// Copies as many bytes as both have, and answers how many.
fn copy_front(from: &[u8], into: &mut [u8]) -> usize
    ensures count { result ≡ min (length into.old) (length from.now) }
    ensures filled { into.new ≡ take result from.now ++ drop result into.old }
    ensures front { from.now ≡ take result into.new ++ drop result from.now }
{
    let count = into.len().min(from.len());
    into[..count].copy_from_slice(&from[..count]);
    count
}

impl Source for MemSource {
    ghost left = { λ source. Some source.left };

    ghost turns = { λ source. told_calls source.calls };

    ghost faulted = { λ source. source.faults };

    ghost never_fails = { λ source. source.fails ≡ [] };

    fn read(&mut self, into: &mut [u8]) -> Result<usize, Failed>
        // Exactly what this source does.
        ensures answer { result ≡ read_answer self.old (length into.old) }
        ensures after { self.new ≡ after_read self.old (length into.old) }
        ensures filled { into.new ≡ filled_places self.old into.old }

        // What each source does.
        ensures bound { IfOk result (λ count. count ≤ length into.new) }
        ensures taken { IfOk result (λ count. TakesFront (Some self.old.left) (Some self.new.left) (take count into.new)) }
        ensures end { IfOk result (λ count. count ≡ 0 → 0 < length into.new → IsUsedUp (Some self.old.left)) }
        ensures kept { OnErr result (Some self.new.left ≡ Some self.old.left) }
        ensures fault { OnErr result (Rose self.old.faults self.new.faults) }
        ensures faults_stay { self.old.faults ≤ self.new.faults }
        ensures counted { Counts (told_calls self.old.calls) (told_calls self.new.calls) }
        ensures certain { self.old.fails ≡ [] → IsOk result × (self.new.fails ≡ []) × (self.new.faults ≡ self.old.faults) }
    {
        if self.calls.begin() {
            self.calls.fail();
            return Err(Failed);
        }
        let count = copy_front(&self.bytes[self.given..], into);
        self.given += count;
        Ok(count)
    }

    fn faults(&self) -> u64 {
        self.calls.faults
    }
}

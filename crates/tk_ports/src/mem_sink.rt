//! A sink in memory.

ghost use Rattle.std.specs.Prelude.{◌≡◌, ℕ, ◌+◌, ◌<◌, ◌≤◌, [], length, take, Some, IfOk, IsOkAnd, OnErr};
ghost use Rattle.tk_ports.specs.Streams.{Appends, Rose};
ghost use Rattle.tk_ports.specs.MemStreams.{SinkView, is_full, sure_room, write_answer, after_write};

use crate::calls::Calls;
use crate::ports::{Failed, Sink};
use std::alloc::Global;
use std::marker::Model;
use tk_types::OutOfMemory;

/// A sink with room for so many bytes, some writes of which fail. It tells what it holds.
#[derive(Drop)]
pub struct MemSink {
    bytes: Vec<u8>,
    room: usize,
    calls: Calls,
}

impl Model for MemSink {
    ghost use Rattle.std.specs.Prelude.{◌+◌, ◌≤◌, vec_len, vec_capacity};
    ghost use Rattle.tk_ports.specs.MemStreams.{SinkView};

    ghost Value = { SinkView };

    ghost view = { λ sink. record {
      held = sink.bytes.items;
      room = sink.room;
      calls = sink.calls.count;
      fails = sink.calls.fails.items;
      faults = sink.calls.faults;
    } };

    ghost invariant = { λ sink. vec_len sink.bytes + sink.room ≤ vec_capacity sink.bytes };
}

impl MemSink {
    /// An empty sink with room for `room` bytes, which are reserved here, so a write takes no memory.
    /// `fails` lists the numbers of the writes that are to fail, counted from 1.
    pub fn new(alloc: Global, room: u32, fails: &[u64]) -> Result<MemSink, OutOfMemory>
        ensures { IfOk result (λ sink. sink ≡ record { held = []; room = room; calls = 0; fails = fails.now; faults = 0 }) }
    {
        Ok(MemSink {
            bytes: Vec::with_capacity(alloc, room as usize)?,
            room: room as usize,
            calls: Calls::new(alloc, fails)?,
        })
    }

    /// What the sink holds.
    pub fn bytes(&self) -> &[u8]
        ensures { result.now ≡ self.now.held }
    {
        self.bytes.as_slice()
    }
}

/// Whether there is no room for anything of a piece of `size` bytes.
fn is_full(room: usize, size: usize) -> bool
    ensures { result ≡ is_full room size }
{
    room == 0 && size > 0
}

impl Sink for MemSink {
    ghost held = { λ sink. Some sink.held };

    ghost faulted = { λ sink. sink.faults };

    ghost sure_room = { λ sink. sure_room sink.fails sink.room };

    fn write(&mut self, piece: &[u8]) -> Result<usize, Failed>
        // Exactly what this sink does.
        ensures answer { result ≡ write_answer self.old (length piece.now) }
        ensures after { self.new ≡ after_write self.old piece.now }

        // What each sink does.
        ensures bound { IfOk result (λ count. count ≤ length piece.now) }
        ensures appended { IfOk result (λ count. Appends (Some self.old.held) (Some self.new.held) (take count piece.now)) }
        ensures progress { IfOk result (λ count. 0 < length piece.now → 0 < count) }
        ensures kept { OnErr result (Some self.new.held ≡ Some self.old.held) }
        ensures fault { OnErr result (Rose self.old.faults self.new.faults) }
        ensures faults_stay { self.old.faults ≤ self.new.faults }
        ensures certain { 0 < length piece.now → length piece.now ≤ sure_room self.old.fails self.old.room
            → IsOkAnd result (λ count. sure_room self.old.fails self.old.room ≤ sure_room self.new.fails self.new.room + count)
            × (self.new.faults ≡ self.old.faults) }
    {
        let is_listed = self.calls.begin();
        if is_listed || is_full(self.room, piece.len()) {
            self.calls.fail();
            return Err(Failed);
        }
        let count = self.room.min(piece.len());
        self.bytes.extend_from_slice(&piece[..count]).unwrap();
        self.room -= count;
        Ok(count)
    }

    fn faults(&self) -> u64 {
        self.calls.faults
    }
}

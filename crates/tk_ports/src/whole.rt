//! Whole texts over the traits: to write all of one, and to read all of an input within a limit.

ghost use Rattle.std.specs.Prelude.{◌≡◌, ◌≢◌, ℕ, ◌+◌, ◌-◌, ◌<◌, ◌≤◌, ◌++◌, length, take, vec_len, IfSome, IfOk, IsOk, OnOk, OnErr};
ghost use Rattle.tk_ports.specs.Streams.{Appends, AppendsFront, TakesFront, TakesAtMost, TakesWithin, Counts, CountsWithin, IsUsedUp, Rose};

use crate::ports::{Failed, Sink, Source};
use std::alloc::Global;
use thiserror::Error;

/// Why a reading ended without its bytes.
#[derive(Clone, Copy, Debug, PartialEq, Eq, Error)]
pub enum ReadError {
    /// The source failed; its count of faults rose.
    #[error("a stream failed")]
    Failed,
    /// The host had no memory left for the bytes.
    #[error("out of memory")]
    OutOfMemory,
}

/// How many bytes one turn of reading asks for at most.
const PIECE: usize = 8192;

/// Writes all of `bytes`. After a failure the sink has taken some front of them.
pub fn write_whole<K: Sink>(sink: &mut K, bytes: &[u8]) -> Result<(), Failed>
    ensures written { OnOk result (Appends (K.held sink.old) (K.held sink.new) bytes.now) }
    ensures front { OnErr result (AppendsFront (K.held sink.old) (K.held sink.new) bytes.now) }

    // A failure shows in the count.
    ensures fault { OnErr result (Rose (K.faulted sink.old) (K.faulted sink.new)) }
    ensures faults_stay { K.faulted sink.old ≤ K.faulted sink.new }

    // What surely has room is written.
    ensures certain { length bytes.now ≤ K.sure_room sink.old
        → IsOk result × (K.faulted sink.new ≡ K.faulted sink.old) × (K.sure_room sink.old ≤ K.sure_room sink.new + length bytes.now) }
{
    let mut written = 0;
    'pieces: while written < bytes.len() {
        match sink.write(&bytes[written..]) {
            Ok(count) => written += count,
            Err(failed) => return Err(failed),
        }
    }
    Ok(())
}

/// Reads to the end of the input, or until there is one byte more than `limit`, so the caller sees that the
/// input is too long. It asks for no byte past that one.
pub fn read_within<S: Source>(
    alloc: Global,
    source: &mut S,
    limit: u32,
) -> Result<Vec<u8>, ReadError>
    ensures read { IfOk result (λ bytes. TakesFront (S.left source.old) (S.left source.new) bytes.items) }
    ensures whole { IfOk result (λ bytes. IfSome (S.left source.old) (λ input. bytes.items ≡ take (limit + 1) input)) }
    ensures bound { IfOk result (λ bytes. vec_len bytes ≤ limit + 1) }

    // Whatever the answer is: at most so many bytes were taken, and each turn that went on took one.
    ensures within { TakesWithin (S.left source.old) (S.left source.new) (S.turns source.old) (S.turns source.new) (limit + 1) }
    ensures turns { CountsWithin (S.turns source.old) (S.turns source.new) (limit + 1) }

    // A failure shows in the count.
    ensures fault { result ≡ Err ReadError.Failed → Rose (S.faulted source.old) (S.faulted source.new) }
    ensures faults_stay { S.faulted source.old ≤ S.faulted source.new }

    // A source that never fails gives no failure.
    ensures certain { S.never_fails source.old
        → (result ≢ Err ReadError.Failed) × S.never_fails source.new × (S.faulted source.new ≡ S.faulted source.old) }
{
    let mut buffer = [0u8; PIECE];
    read_through(alloc, source, limit as usize + 1, &mut buffer)
}

/// Reads to the end of the input, or until there are `most` bytes, by way of the buffer.
fn read_through<S: Source>(
    alloc: Global,
    source: &mut S,
    most: usize,
    buffer: &mut [u8],
) -> Result<Vec<u8>, ReadError>
    requires some { 0 < most }
    requires place { 0 < length buffer.old }
    ensures read { IfOk result (λ bytes. TakesFront (S.left source.old) (S.left source.new) bytes.items) }
    ensures whole { IfOk result (λ bytes. IfSome (S.left source.old) (λ input. bytes.items ≡ take most input)) }
    ensures bound { IfOk result (λ bytes. vec_len bytes ≤ most) }
    ensures within { TakesWithin (S.left source.old) (S.left source.new) (S.turns source.old) (S.turns source.new) most }
    ensures turns { CountsWithin (S.turns source.old) (S.turns source.new) most }
    ensures fault { result ≡ Err ReadError.Failed → Rose (S.faulted source.old) (S.faulted source.new) }
    ensures faults_stay { S.faulted source.old ≤ S.faulted source.new }
    ensures certain { S.never_fails source.old
        → (result ≢ Err ReadError.Failed) × S.never_fails source.new × (S.faulted source.new ≡ S.faulted source.old) }
{
    let mut taken = Vec::new(alloc);
    'turns: while taken.len() < most {
        match take_turn(source, most, buffer, &mut taken) {
            Ok(0) => return Ok(taken),
            Ok(_) => {}
            Err(error) => return Err(error),
        }
    }
    Ok(taken)
}

/// Reads once into the buffer, asks for no more than is wanted, and puts what came behind `taken`. Answers how
/// many bytes came, 0 for the end of the input.
fn take_turn<S: Source>(
    source: &mut S,
    most: usize,
    buffer: &mut [u8],
    taken: &mut Vec<u8>,
) -> Result<usize, ReadError>
    requires wanted { vec_len taken.old < most }
    requires place { 0 < length buffer.old }
    ensures read { IfOk result (λ count. TakesFront (S.left source.old) (S.left source.new) (take count buffer.new)) }
    ensures appended { IfOk result (λ count. taken.new.items ≡ taken.old.items ++ take count buffer.new) }
    ensures bound { IfOk result (λ count. (count ≤ length buffer.new) × (vec_len taken.old + count ≤ most)) }
    ensures end { IfOk result (λ count. count ≡ 0 → IsUsedUp (S.left source.old)) }
    ensures lost { OnErr result (TakesAtMost (S.left source.old) (S.left source.new) (most - vec_len taken.old)) }
    ensures counted { Counts (S.turns source.old) (S.turns source.new) }
    ensures fault { result ≡ Err ReadError.Failed → Rose (S.faulted source.old) (S.faulted source.new) }
    ensures faults_stay { S.faulted source.old ≤ S.faulted source.new }
    ensures certain { S.never_fails source.old
        → (result ≢ Err ReadError.Failed) × S.never_fails source.new × (S.faulted source.new ≡ S.faulted source.old) }
{
    let wanted = (most - taken.len()).min(buffer.len());
    let Ok(count) = source.read(&mut buffer[..wanted]) else {
        return Err(ReadError::Failed);
    };
    if taken.extend_from_slice(&buffer[..count]).is_err() {
        return Err(ReadError::OutOfMemory);
    }
    Ok(count)
}

//! One message buffer: its messages, as bytes in a ring.

ghost use Rattle.std.specs.Prelude.{◌≡◌, ◌≤◌, ◌+◌, ◌-◌, ◌∷◌, ◌++◌, ◌==◌, [], IfOk, drop, length, nat_le, take, true};
ghost use Rattle.kernel_model.specs.Bodies.Statements.{memory_size};
ghost use Rattle.circular_buffer.specs.Buffer.{buffer};
ghost use Rattle.object_model.specs.Mails.Buffers.{space_of, space_taken, takes_length};
ghost use Rattle.object_model.specs.Mails.Bytes.{with_bytes};
ghost use Rattle.object_model.specs.Mails.Calls.{first_length, has_place};
ghost use Rattle.mail_buffer.specs.Cuts.{MayEnter, oldest_of};

use circular_buffer::HeapCircularBuffer;
use std::alloc::{AllocError, Global};
use std::marker::Model;
use task_machine::{Memory, write_bytes};
use tk_types::Order;

/// A message buffer: how its senders queue, how many bytes it has for messages, the most bytes of a message, and the
/// messages that lie in it, as their bytes, one message behind the other, and their lengths, the oldest in front.
#[derive(Drop)]
pub(crate) struct MessageBuffer {
    order: Order,
    size: u32,
    most: u16,
    /// The space that the messages take together.
    taken: u32,
    bytes: HeapCircularBuffer<u8>,
    lengths: HeapCircularBuffer<u16>,
}

impl Model for MessageBuffer {
    ghost use Rattle.object_model.specs.Mails.Tables.{MessageBuffer as BufferView};
    ghost use Rattle.mail_buffer.specs.Cuts.{cut, IsBuffer};

    ghost Value = { BufferView };

    ghost view = { λ k. record { order = k.order; size = k.size; most = k.most; messages = cut k.lengths.items k.bytes.items } };

    ghost invariant = { λ k. IsBuffer k.size k.most k.taken k.bytes k.lengths };
}

/// The space that a message of so many bytes takes: 4 bytes and its length rounded up to 4.
pub(crate) fn space_of(length: u32) -> u32
    requires { length ≤ 65536 }
    ensures { result ≡ space_of length }
{
    4 + 4 * ((length + 3) / 4)
}

/// The first bytes of a ring leave it, and go into memory from an address on.
#[tactic(auto, using(crate::proofs::Rings::written_twice))]
fn read_out(ring: &mut HeapCircularBuffer<u8>, count: usize, memory: &mut Memory, address: u32)
    requires inside { count ≤ length ring.old.items }
    requires place { address + count ≤ memory_size }
    ensures read { memory.new ≡ with_bytes memory.old address (take count ring.old.items) }
    ensures left { ring.new ≡ buffer (drop count ring.old.items) ring.old.capacity }
{
    let (front, back) = ring.as_slices();
    let in_front = front.len().min(count);
    write_bytes(memory, address, &front[..in_front]);
    write_bytes(memory, address + in_front as u32, &back[..count - in_front]);
    let left = ring.len() - count;
    ring.truncate_front(left);
}

impl MessageBuffer {
    /// A message buffer in which no message lies. All memory that its messages take is taken here.
    pub(crate) fn new(
        alloc: Global,
        order: Order,
        size: u32,
        most: u16,
    ) -> Result<MessageBuffer, AllocError>
        requires { size ≤ 65536 }
        ensures { IfOk result (λ k. k ≡ record { order = order; size = size; most = most; messages = [] }) }
    {
        Ok(MessageBuffer {
            order,
            size,
            most,
            taken: 0,
            bytes: HeapCircularBuffer::with_capacity(alloc, size as usize)?,
            lengths: HeapCircularBuffer::with_capacity(alloc, size as usize / 8)?,
        })
    }

    /// How its senders queue.
    pub(crate) fn order(&self) -> Order
        ensures { result ≡ self.now.order }
    {
        self.order
    }

    /// How many bytes it has for messages.
    pub(crate) fn size(&self) -> u32
        ensures size { result ≡ self.now.size }
        ensures few { result ≤ 65536 }
    {
        self.size
    }

    /// The most bytes of a message.
    pub(crate) fn most(&self) -> u16
        ensures { result ≡ self.now.most }
    {
        self.most
    }

    /// Whether no message lies in it.
    #[tactic(auto, using(crate::proofs::Rings::cut_length))]
    pub(crate) fn is_empty(&self) -> bool
        ensures { result ≡ (length self.now.messages == 0) }
    {
        self.lengths.is_empty()
    }

    /// The bytes that no message takes.
    #[tactic(auto, using(crate::proofs::Rings::space_of_cut))]
    pub(crate) fn free(&self) -> u32
        ensures free { result ≡ self.now.size - space_taken self.now.messages }
        ensures few { result ≤ 65536 }
    {
        self.size - self.taken
    }

    /// Whether a message of so many bytes fits into what is free.
    #[tactic(auto, using(crate::proofs::Rings::space_of_cut))]
    pub(crate) fn has_space(&self, length: usize) -> bool
        ensures { result ≡ nat_le (space_taken self.now.messages + space_of length) self.now.size }
    {
        if length > self.size as usize {
            return false;
        }
        self.taken + space_of(length as u32) <= self.size
    }

    /// Whether it takes messages of so many bytes.
    pub(crate) fn takes_length(&self, length: usize) -> bool
        ensures takes { result ≡ takes_length length self.now }
        ensures few { result ≡ true → length ≤ 65535 }
    {
        length >= 1 && length <= self.most as usize
    }

    /// The length of the oldest message, or 0 where none lies there.
    pub(crate) fn first_length(&self) -> u16
        ensures { result ≡ first_length self.now.messages }
    {
        match self.lengths.front() {
            Some(length) => *length,
            None => 0,
        }
    }

    /// A message goes behind all that lie there. Its bytes are copied once.
    pub(crate) fn store(&mut self, bytes: &[u8])
        requires { MayEnter self.old bytes.now }
        ensures { self.new ≡ record self.old { messages = self.old.messages ++ bytes.now ∷ [] } }
    {
        self.bytes.fill_from_slice(bytes);
        self.lengths.push_back(bytes.len() as u16);
        self.taken += space_of(bytes.len() as u32);
    }

    /// The oldest message leaves, and its bytes go into memory from an address on, where the longest has its place. Answers
    /// its length; 0, with nothing changed, comes where no message lies there.
    pub(crate) fn take_into(&mut self, memory: &mut Memory, address: u32) -> u16
        requires { has_place address self.old ≡ true }
        ensures length { result ≡ length (oldest_of self.old.messages) }
        ensures read { memory.new ≡ with_bytes memory.old address (oldest_of self.old.messages) }
        ensures left { self.new ≡ record self.old { messages = drop 1 self.old.messages } }
    {
        let Some(length) = self.lengths.pop_front() else {
            return 0;
        };
        self.taken -= space_of(length as u32);
        read_out(&mut self.bytes, length as usize, memory, address);
        length
    }
}

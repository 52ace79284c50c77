//! Waiters of message buffers are served, one at a time.

ghost use Rattle.std.specs.Prelude.{◌≡◌, ◌≤◌, ◌+◌, ℕ, List, Some, drop, length, true, unwrap_or};
ghost use Rattle.std.specs.Option.{is_some};
ghost use Rattle.kernel_model.specs.Bodies.Statements.{memory_size};
ghost use Rattle.object_model.specs.Mails.Buffers.{delivered, message_stored, sender_ended, serve_buffer, serve_buffers, with_messages};
ghost use Rattle.object_model.specs.Mails.Calls.{has_place};
ghost use Rattle.object_model.specs.Mails.Tables.{MessageBuffer, buffer_at, bytes_of, place_of};
ghost use Rattle.mail_buffer.specs.Cuts.{MayEnter, oldest_of};
ghost use Rattle.mail_buffer.specs.Parts.{AreQueued, HaveAsked, parts_of};

use crate::table::Mails;
use kernel_base::answers::plain;
use kernel_base::{Base, Order};
use task_machine::{Memory, write_bytes};

/// The number of the object of the first message buffer's senders.
pub(crate) const FIRST_SENDERS: u32 = 320;

/// The number of the object of the first message buffer's receivers.
pub(crate) const FIRST_RECEIVERS: u32 = 384;

/// A waiting receiver takes the oldest message.
fn serve_receiver(base: &mut Base, table: &mut Mails, memory: &mut Memory, id: u8, receiver: u8)
    requires high { id ≤ 64 }
    requires place { (k : MessageBuffer) → buffer_at table.old id ≡ Some k → has_place (place_of table.old receiver) k ≡ true }
    ensures { (k : MessageBuffer) → buffer_at table.old id ≡ Some k → parts_of base.new table.new memory.new ≡ delivered (with_messages (parts_of base.old table.old memory.old) id k (drop 1 k.messages)) receiver (oldest_of k.messages) }
{
    let place = table.place_of(receiver);
    let length = table.take_into(id, memory, place);
    base.release(receiver, plain(length as i32));
}

/// A waiting receiver takes the message of a waiting sender, and both waits end, the receiver's first.
fn pass_on(base: &mut Base, table: &Mails, memory: &mut Memory, receiver: u8, sender: u8)
    requires { place_of table.now receiver + length (bytes_of table.now sender) ≤ memory_size }
    ensures { parts_of base.new table.now memory.new ≡ sender_ended (delivered (parts_of base.old table.now memory.old) receiver (bytes_of table.now sender)) sender }
{
    let bytes = table.bytes_of(sender);
    write_bytes(memory, table.place_of(receiver), bytes);
    base.release(receiver, plain(bytes.len() as i32));
    base.release(sender, plain(0));
}

/// The message of a waiting sender goes in, and its wait ends.
fn admit(base: &mut Base, table: &mut Mails, id: u8, sender: u8)
    requires high { id ≤ 64 }
    requires may { (k : MessageBuffer) → buffer_at table.old id ≡ Some k → MayEnter k (bytes_of table.old sender) }
    ensures { (k : MessageBuffer) → buffer_at table.old id ≡ Some k → (memory : List ℕ) → parts_of base.new table.new memory ≡ sender_ended (message_stored (parts_of base.old table.old memory) id k (bytes_of table.old sender)) sender }
{
    table.store_sent(id, sender);
    base.release(sender, plain(0));
}

/// One serving of a message buffer, where one can be: a waiting receiver takes the oldest message, or that of the first
/// waiting sender where none lies there; where nobody receives, the first sender's message goes in, if it fits.
pub(crate) fn serve_buffer(base: &mut Base, table: &mut Mails, memory: &mut Memory, id: u8) -> bool
    requires low { 1 ≤ id }
    requires high { id ≤ 64 }
    requires queued { AreQueued base.old table.old }
    requires asked { HaveAsked base.old table.old }
    ensures served { result ≡ is_some (serve_buffer (parts_of base.old table.old memory.old) id) }
    ensures left { parts_of base.new table.new memory.new ≡ unwrap_or (serve_buffer (parts_of base.old table.old memory.old) id) (parts_of base.old table.old memory.old) }
{
    let Some(row) = table.buffer(id) else {
        return false;
    };
    let sender = base.waiter(row.order(), FIRST_SENDERS - 1 + id as u32, 0);
    if let Some(receiver) = base.waiter(Order::Fifo, FIRST_RECEIVERS - 1 + id as u32, 0) {
        if !row.is_empty() {
            serve_receiver(base, table, memory, id, receiver);
            return true;
        }
        let Some(sender) = sender else {
            return false;
        };
        pass_on(base, table, memory, receiver, sender);
        return true;
    }
    let Some(sender) = sender else {
        return false;
    };
    if !row.has_space(table.bytes_of(sender).len()) {
        return false;
    }
    admit(base, table, id, sender);
    true
}

/// Serves once at the first message buffer by ID that can serve. False, with nothing changed, comes exactly where none can.
/// It takes no memory of the host.
#[tactic(auto, unfolding(object_model::specs::Mails::Buffers::serve_buffers))]
pub fn serve_first_buffer(base: &mut Base, table: &mut Mails, memory: &mut Memory) -> bool
    requires queued { AreQueued base.old table.old }
    requires asked { HaveAsked base.old table.old }
    ensures served { result ≡ is_some (serve_buffers (parts_of base.old table.old memory.old)) }
    ensures left { parts_of base.new table.new memory.new ≡ unwrap_or (serve_buffers (parts_of base.old table.old memory.old)) (parts_of base.old table.old memory.old) }
{
    let used = table.buffers_used();
    'buffers: for id in 1..used {
        if serve_buffer(base, table, memory, id) {
            return true;
        }
    }
    false
}

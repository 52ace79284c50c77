//! The kernel itself sends.

ghost use Rattle.std.specs.Prelude.{◌≡◌, ◌≤◌, unwrap_or};
ghost use Rattle.std.specs.Option.{is_some};
ghost use Rattle.object_model.specs.Mails.Buffers.{post};
ghost use Rattle.mail_buffer.specs.Parts.{AreQueued, HaveAsked, parts_of};

use crate::buffer_serving::{FIRST_RECEIVERS, FIRST_SENDERS};
use crate::table::Mails;
use kernel_base::answers::plain;
use kernel_base::{Base, Order};
use task_machine::{Memory, write_bytes};

/// Sends bytes to the message buffer with that ID, from 1 to 64, behind all senders that wait. False, with nothing changed,
/// comes where there is no such buffer, where it doesn't take messages of this length, and where the message can neither
/// go to a receiver nor in. It takes no memory of the host.
#[tactic(auto, unfolding(object_model::specs::Mails::Buffers::post))]
pub fn post(base: &mut Base, table: &mut Mails, memory: &mut Memory, id: u8, bytes: &[u8]) -> bool
    requires low { 1 ≤ id }
    requires high { id ≤ 64 }
    requires queued { AreQueued base.old table.old }
    requires asked { HaveAsked base.old table.old }
    ensures sent { result ≡ is_some (post (parts_of base.old table.old memory.old) id bytes.now) }
    ensures left { parts_of base.new table.new memory.new ≡ unwrap_or (post (parts_of base.old table.old memory.old) id bytes.now) (parts_of base.old table.old memory.old) }
{
    let Some(row) = table.buffer(id) else {
        return false;
    };
    if !row.takes_length(bytes.len()) {
        return false;
    }
    if base
        .waiter(row.order(), FIRST_SENDERS - 1 + id as u32, 0)
        .is_some()
    {
        return false;
    }
    if let Some(receiver) = base.waiter(Order::Fifo, FIRST_RECEIVERS - 1 + id as u32, 0) {
        if !row.is_empty() {
            return false;
        }
        write_bytes(memory, table.place_of(receiver), bytes);
        base.release(receiver, plain(bytes.len() as i32));
        return true;
    }
    if !row.has_space(bytes.len()) {
        return false;
    }
    table.store(id, bytes);
    true
}

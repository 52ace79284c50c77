//! Waiters of mailboxes are served, one at a time.

ghost use Rattle.std.specs.Prelude.{◌≡◌, ◌≤◌, ℕ, List, drop, unwrap_or};
ghost use Rattle.std.specs.Option.{is_some};
ghost use Rattle.object_model.specs.Mails.Boxes.{message_answer, serve_box, serve_mailboxes};
ghost use Rattle.mail_buffer.specs.Parts.{AreQueued, parts_of};

use crate::table::Mails;
use kernel_base::Base;
use object_model::mails::Message;
use tk_types::Answer;

/// The number of the object of the first mailbox.
pub(crate) const FIRST_BOX: u32 = 192;

/// How many bytes of simulated memory a message takes while it lies in a mailbox.
pub(crate) const MESSAGE_BYTES: u32 = 16;

/// The answer of a call that receives a message.
pub(crate) fn message_answer(message: Message) -> Answer
    ensures { result ≡ message_answer message }
{
    Answer {
        value: 0,
        fields: [message.priority, message.value, 0, 0, 0],
        used: 2,
    }
}

/// The first waiter of a mailbox gets its first message, where there are both.
#[tactic(auto, unfolding(object_model::specs::Mails::Boxes::serve_box))]
pub(crate) fn serve_box(base: &mut Base, table: &mut Mails, id: u8) -> bool
    requires low { 1 ≤ id }
    requires high { id ≤ 64 }
    requires queued { AreQueued base.old table.old }
    ensures served { (memory : List ℕ) → result ≡ is_some (serve_box (parts_of base.old table.old memory) id) }
    ensures left { (memory : List ℕ) → parts_of base.new table.new memory ≡ unwrap_or (serve_box (parts_of base.old table.old memory) id) (parts_of base.old table.old memory) }
{
    let Some(row) = table.mailbox(id) else {
        return false;
    };
    let Some(task) = base.waiter(row.order(), FIRST_BOX - 1 + id as u32, 0) else {
        return false;
    };
    let Some(message) = table.take_from_box(id) else {
        return false;
    };
    base.release(task, message_answer(message));
    base.give_bytes(MESSAGE_BYTES);
    true
}

/// Serves one waiter at the first mailbox by ID that can serve one. False, with nothing changed, comes exactly where none
/// can. Serving leaves the script's memory as it is, whatever that is, and takes no memory of the host.
#[tactic(auto, unfolding(object_model::specs::Mails::Boxes::serve_mailboxes))]
pub fn serve_first_mailbox(base: &mut Base, table: &mut Mails) -> bool
    requires queued { AreQueued base.old table.old }
    ensures served { (memory : List ℕ) → result ≡ is_some (serve_mailboxes (parts_of base.old table.old memory)) }
    ensures left { (memory : List ℕ) → parts_of base.new table.new memory ≡ unwrap_or (serve_mailboxes (parts_of base.old table.old memory)) (parts_of base.old table.old memory) }
{
    let used = table.boxes_used();
    'boxes: for id in 1..used {
        if serve_box(base, table, id) {
            return true;
        }
    }
    false
}

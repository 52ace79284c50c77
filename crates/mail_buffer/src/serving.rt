//! One object is served.

ghost use Rattle.std.specs.Prelude.{◌≡◌, unwrap_or};
ghost use Rattle.std.specs.Option.{is_some};
ghost use Rattle.mail_buffer.specs.Parts.{AreQueued, HaveAsked, parts_of, serve_object};

use crate::box_serving::{FIRST_BOX, serve_box};
use crate::buffer_serving::{FIRST_SENDERS, serve_buffer};
use crate::table::Mails;
use kernel_base::Base;
use task_machine::Memory;

/// Serves once at the object with that number, where that can be: a mailbox, or a message buffer by the number of its
/// senders. False, with nothing changed, comes exactly where it can't. It takes no memory of the host.
pub fn serve(base: &mut Base, table: &mut Mails, memory: &mut Memory, obj: u32) -> bool
    requires queued { AreQueued base.old table.old }
    requires asked { HaveAsked base.old table.old }
    ensures served { result ≡ is_some (serve_object (parts_of base.old table.old memory.old) obj) }
    ensures left { parts_of base.new table.new memory.new ≡ unwrap_or (serve_object (parts_of base.old table.old memory.old) obj) (parts_of base.old table.old memory.old) }
{
    if obj >= FIRST_BOX && obj < FIRST_BOX + 64 {
        return serve_box(base, table, (obj - (FIRST_BOX - 1)) as u8);
    }
    if obj >= FIRST_SENDERS && obj < FIRST_SENDERS + 64 {
        return serve_buffer(base, table, memory, (obj - (FIRST_SENDERS - 1)) as u8);
    }
    false
}

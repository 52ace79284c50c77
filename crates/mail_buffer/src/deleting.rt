//! Mailboxes and message buffers are deleted.

ghost use Rattle.std.specs.Prelude.{◌≡◌, ◌<◌, ℕ, List};
ghost use Rattle.kernel_model.specs.Tasks.Queues.{AreOfOrder};
ghost use Rattle.kernel_model.specs.SemFlags.Calls.{end_waits};
ghost use Rattle.object_model.specs.Mails.Calls.{delete_box, delete_buffer};
ghost use Rattle.mail_buffer.specs.Parts.{AreQueued, left_with, parts_of};

use crate::attributes::object_id;
use crate::box_serving::{FIRST_BOX, MESSAGE_BYTES};
use crate::buffer_serving::{FIRST_RECEIVERS, FIRST_SENDERS};
use crate::table::Mails;
use kernel_base::answers::{done, failed, plain};
use kernel_base::{Base, Order};
use tk_types::{Er, Outcome};

/// The waits for an object end with E_DLT, in the order of its queue.
fn end_waits(base: &mut Base, order: Order, obj: u32)
    requires object { obj < 1024 }
    requires order { AreOfOrder order base.old obj }
    ensures { base.new ≡ end_waits order obj base.old }
{
    let count = base.waiter_count(order, obj);
    'waiters: for _ended in 0..count {
        let Some(task) = base.waiter(order, obj, 0) else {
            return;
        };
        base.release(task, plain(Er::Dlt.main_code()));
    }
}

/// `tk_del_mbx`: the box is gone, its messages with it, and its waiters' waits end.
#[tactic(auto, unfolding(object_model::specs::Mails::Calls::delete_box))]
pub(crate) fn delete_box(base: &mut Base, table: &mut Mails, id: i32) -> Outcome
    requires queued { AreQueued base.old table.old }
    ensures { (memory : List ℕ) → delete_box (parts_of base.old table.old memory) id ≡ left_with base.new table.new memory result }
{
    let Some(id) = object_id(id) else {
        return failed(Er::Id);
    };
    let Some(row) = table.mailbox(id) else {
        return failed(Er::NoExs);
    };
    end_waits(base, row.order(), FIRST_BOX - 1 + id as u32);
    base.give_bytes(row.count() * MESSAGE_BYTES);
    table.set_box(id, None);
    done(0)
}

/// `tk_del_mbf`: the buffer is gone, its messages with it, and the waits of its senders end, and then those of its
/// receivers.
#[tactic(auto, unfolding(object_model::specs::Mails::Calls::delete_buffer), using(crate::proofs::Ending::still_alike))]
pub(crate) fn delete_buffer(base: &mut Base, table: &mut Mails, id: i32) -> Outcome
    requires queued { AreQueued base.old table.old }
    ensures { (memory : List ℕ) → delete_buffer (parts_of base.old table.old memory) id ≡ left_with base.new table.new memory result }
{
    let Some(id) = object_id(id) else {
        return failed(Er::Id);
    };
    let Some(row) = table.buffer(id) else {
        return failed(Er::NoExs);
    };
    end_waits(base, row.order(), FIRST_SENDERS - 1 + id as u32);
    end_waits(base, Order::Fifo, FIRST_RECEIVERS - 1 + id as u32);
    base.give_bytes(row.size());
    table.set_buffer(id, None);
    done(0)
}

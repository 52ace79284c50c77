//! Calls on mailboxes.

ghost use Rattle.std.specs.Prelude.{◌≡◌, ◌∷◌, ◌<◌, ◌^◌, ℕ, List, [], IfOk, OnErr, pos};
ghost use Rattle.kernel_model.specs.Words.Checks.{answer};
ghost use Rattle.object_model.specs.Mails.Calls.{create_box, receive_box, refer_box, send_box};
ghost use Rattle.mail_buffer.specs.Parts.{AreQueued, left_with, parts_of};

use crate::attributes::{has_box_attributes, object_id, order_of};
use crate::box_serving::{FIRST_BOX, MESSAGE_BYTES, message_answer};
use crate::boxes::Mailbox;
use crate::table::Mails;
use kernel_base::Base;
use kernel_base::answers::{caller, done, failed};
use kernel_model::marks::Mark;
use object_model::mails::Message;
use std::alloc::AllocError;
use tk_types::{Answer, Attributes, Er, Outcome, Who};

/// `tk_cre_mbx`: a mailbox with the least free ID.
#[tactic(auto, unfolding(object_model::specs::Mails::Calls::create_box))]
pub(crate) fn create_box(base: &Base, table: &mut Mails, attributes: Attributes) -> Outcome
    ensures { (memory : List ℕ) → create_box (parts_of base.now table.old memory) attributes ≡ left_with base.now table.new memory result }
{
    if !has_box_attributes(attributes) {
        return failed(Er::RsAtr);
    }
    let id = table.free_box();
    if id == 0 {
        return failed(Er::Limit);
    }
    let row = Mailbox::new(table.alloc(), order_of(attributes), attributes.ta_mpri);
    table.set_box(id, Some(row));
    done(id as i32)
}

/// `tk_snd_mbx`: a message goes into the box, and its bytes are counted. An error says that there was no memory, and that
/// nothing changed.
#[tactic(auto, unfolding(object_model::specs::Mails::Calls::send_box))]
pub(crate) fn send_box(
    base: &mut Base,
    table: &mut Mails,
    id: i32,
    priority: i32,
    value: i32,
) -> Result<Outcome, AllocError>
    ensures ok { IfOk result (λ outcome. (memory : List ℕ) → send_box (parts_of base.old table.old memory) id priority value ≡ left_with base.new table.new memory outcome) }
    ensures err { OnErr result ((base.new ≡ base.old) × (table.new ≡ table.old)) }
{
    let Some(id) = object_id(id) else {
        return Ok(failed(Er::Id));
    };
    if priority < 1 {
        return Ok(failed(Er::Par));
    }
    if value < 0 {
        return Ok(failed(Er::Par));
    }
    if !table.has_mbx(id) {
        return Ok(failed(Er::NoExs));
    }
    if !base.has_room(MESSAGE_BYTES) {
        return Ok(failed(Er::NoMem));
    }
    table.put_in_box(id, Message { priority, value })?;
    base.take_bytes(MESSAGE_BYTES);
    Ok(done(0))
}

/// `tk_rcv_mbx`: answers the first message, or waits.
#[tactic(auto, unfolding(object_model::specs::Mails::Calls::receive_box))]
pub(crate) fn receive_box(
    base: &mut Base,
    table: &mut Mails,
    who: Who,
    id: i32,
    timeout: i32,
) -> Outcome
    requires few { base.old.made < 2 ^ 63 }
    requires early { base.old.time < 2 ^ 63 }
    requires queued { AreQueued base.old table.old }
    ensures { (memory : List ℕ) → receive_box (parts_of base.old table.old memory) who id timeout ≡ left_with base.new table.new memory result }
{
    let Some(id) = object_id(id) else {
        return failed(Er::Id);
    };
    if timeout < -1 {
        return failed(Er::Par);
    }
    if !base.allows(who, Mark::MayWait) {
        return failed(Er::Ctx);
    }
    let Some(row) = table.mailbox(id) else {
        return failed(Er::NoExs);
    };
    let order = row.order();
    if let Some(message) = table.take_from_box(id) {
        base.give_bytes(MESSAGE_BYTES);
        return Outcome::Returned(message_answer(message));
    }
    if timeout == 0 {
        return failed(Er::TmOut);
    }
    base.make_wait(caller(who), FIRST_BOX - 1 + id as u32, order, timeout);
    Outcome::Blocked
}

/// What a mailbox shows: how many messages lie in it, and the first waiter or 0.
fn shown(count: u32, first: u8) -> Answer
    requires { count < 2 ^ 31 }
    ensures { result ≡ answer (pos 0) (pos count ∷ pos first ∷ []) }
{
    Answer {
        value: 0,
        fields: [count as i32, first as i32, 0, 0, 0],
        used: 2,
    }
}

/// `tk_ref_mbx`: how many messages lie in the box, and the first waiter or 0.
#[tactic(auto, unfolding(object_model::specs::Mails::Calls::refer_box))]
pub(crate) fn refer_box(base: &Base, table: &Mails, id: i32) -> Outcome
    requires queued { AreQueued base.now table.now }
    ensures { (memory : List ℕ) → refer_box (parts_of base.now table.now memory) id ≡ left_with base.now table.now memory result }
{
    let Some(id) = object_id(id) else {
        return failed(Er::Id);
    };
    let Some(row) = table.mailbox(id) else {
        return failed(Er::NoExs);
    };
    let first = base.first_waiter(row.order(), FIRST_BOX - 1 + id as u32);
    Outcome::Returned(shown(row.count(), first))
}

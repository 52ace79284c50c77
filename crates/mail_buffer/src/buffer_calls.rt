//! Calls on message buffers that neither send nor receive.

ghost use Rattle.std.specs.Prelude.{◌≡◌, ◌∷◌, ◌≤◌, ℕ, List, [], IfOk, OnErr, pos};
ghost use Rattle.kernel_model.specs.Words.Checks.{answer};
ghost use Rattle.object_model.specs.Mails.Calls.{create_buffer, is_size, refer_buffer};
ghost use Rattle.mail_buffer.specs.Parts.{AreQueued, left_with, parts_of};

use crate::attributes::{has_order_attributes, object_id, order_of};
use crate::buffer_serving::{FIRST_RECEIVERS, FIRST_SENDERS};
use crate::buffers::{MessageBuffer, space_of};
use crate::table::Mails;
use kernel_base::answers::{done, failed};
use kernel_base::{Base, Order};
use std::alloc::AllocError;
use tk_types::{Answer, Attributes, Er, Outcome};

/// Whether a buffer may have so many bytes for messages: none, or enough for one of the greatest length.
fn is_size(most: u16, size: i32) -> bool
    ensures { result ≡ is_size (pos most) size }
{
    size == 0 || (size >= 0 && size as u32 >= space_of(most as u32) && size <= 65536)
}

/// `tk_cre_mbf`: a message buffer with the least free ID, whose bytes are counted. An error says that there was no memory for
/// its rings, and that nothing changed.
#[tactic(auto, unfolding(object_model::specs::Mails::Calls::create_buffer))]
pub(crate) fn create_buffer(
    base: &mut Base,
    table: &mut Mails,
    attributes: Attributes,
    size: i32,
    most: i32,
) -> Result<Outcome, AllocError>
    ensures ok { IfOk result (λ outcome. (memory : List ℕ) → create_buffer (parts_of base.old table.old memory) attributes size most ≡ left_with base.new table.new memory outcome) }
    ensures err { OnErr result ((base.new ≡ base.old) × (table.new ≡ table.old)) }
{
    if !has_order_attributes(attributes) {
        return Ok(failed(Er::RsAtr));
    }
    if most < 1 || most > 65532 {
        return Ok(failed(Er::Par));
    }
    if !is_size(most as u16, size) {
        return Ok(failed(Er::Par));
    }
    let id = table.free_buffer();
    if id == 0 {
        return Ok(failed(Er::Limit));
    }
    if !base.has_room(size as u32) {
        return Ok(failed(Er::NoMem));
    }
    let row = MessageBuffer::new(
        table.alloc(),
        order_of(attributes),
        size as u32,
        most as u16,
    )?;
    base.take_bytes(size as u32);
    table.set_buffer(id, Some(row));
    Ok(done(id as i32))
}

/// What a message buffer shows: the first receiver or 0, the first sender or 0, the free bytes, and the length of the first
/// message or 0.
fn shown(receiver: u8, sender: u8, free: u32, first: u16) -> Answer
    requires { free ≤ 65536 }
    ensures { result ≡ answer (pos 0) (pos receiver ∷ pos sender ∷ pos free ∷ pos first ∷ []) }
{
    Answer {
        value: 0,
        fields: [receiver as i32, sender as i32, free as i32, first as i32, 0],
        used: 4,
    }
}

/// `tk_ref_mbf`: the first receiver or 0, the first sender or 0, the free bytes, and the length of the first message or 0.
#[tactic(auto, unfolding(object_model::specs::Mails::Calls::refer_buffer))]
pub(crate) fn refer_buffer(base: &Base, table: &Mails, id: i32) -> Outcome
    requires queued { AreQueued base.now table.now }
    ensures { (memory : List ℕ) → refer_buffer (parts_of base.now table.now memory) id ≡ left_with base.now table.now memory result }
{
    let Some(id) = object_id(id) else {
        return failed(Er::Id);
    };
    let Some(row) = table.buffer(id) else {
        return failed(Er::NoExs);
    };
    let receiver = base.first_waiter(Order::Fifo, FIRST_RECEIVERS - 1 + id as u32);
    let sender = base.first_waiter(row.order(), FIRST_SENDERS - 1 + id as u32);
    Outcome::Returned(shown(receiver, sender, row.free(), row.first_length()))
}

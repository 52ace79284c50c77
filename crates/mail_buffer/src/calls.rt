//! The calls on mailboxes and message buffers.

ghost use Rattle.std.specs.Prelude.{◌≡◌, ◌<◌, ◌^◌, IfOk, OnErr};
ghost use Rattle.object_model.specs.Mails.Calls.{mail_call};
ghost use Rattle.mail_buffer.specs.Parts.{AreQueued, HaveAsked, TakesMemory, left_with, parts_of};

use crate::table::Mails;
use crate::{box_calls, buffer_calls, deleting, receiving, sending};
use kernel_base::Base;
use std::alloc::AllocError;
use task_machine::Memory;
use tk_types::{MailCall, Outcome, Who};

/// A call on mailboxes or message buffers, by its row of the table of calls: the error of the first check that fails, with
/// nothing changed, or its effect up to the first settling. Memory of the host is taken by `tk_snd_mbx` for a message, by
/// `tk_cre_mbf` for its rings, and by `tk_snd_mbf` for the bytes of a task that waits; where there is none of it, these
/// calls change nothing. So does `tk_snd_mbx` where 65,536 messages lie in the box, for which all of the simulated memory
/// is taken, so that a kernel in which each message has its bytes answers E_NOMEM before.
#[tactic(auto, unfolding(object_model::specs::Mails::Calls::mail_call))]
pub fn call(
    base: &mut Base,
    table: &mut Mails,
    memory: &mut Memory,
    who: Who,
    call: &MailCall,
) -> Result<Outcome, AllocError>
    requires few { base.old.made < 2 ^ 63 }
    requires early { base.old.time < 2 ^ 63 }
    requires queued { AreQueued base.old table.old }
    requires asked { HaveAsked base.old table.old }
    ensures ok { IfOk result (λ outcome. mail_call (parts_of base.old table.old memory.old) who call.now ≡ left_with base.new table.new memory.new outcome) }
    ensures err { OnErr result ((base.new ≡ base.old) × ((table.new ≡ table.old) × (memory.new ≡ memory.old))) }
    ensures taken { OnErr result (TakesMemory call.now) }
{
    match *call {
        MailCall::CreMbx { attributes } => Ok(box_calls::create_box(base, table, attributes)),
        MailCall::DelMbx { id } => Ok(deleting::delete_box(base, table, id)),
        MailCall::SndMbx {
            id,
            priority,
            value,
        } => box_calls::send_box(base, table, id, priority, value),
        MailCall::RcvMbx { id, timeout } => {
            Ok(box_calls::receive_box(base, table, who, id, timeout))
        }
        MailCall::RefMbx { id } => Ok(box_calls::refer_box(base, table, id)),
        MailCall::CreMbf {
            attributes,
            size,
            most,
        } => buffer_calls::create_buffer(base, table, attributes, size, most),
        MailCall::SndMbf {
            id,
            address,
            length,
            timeout,
        } => sending::send_buffer(base, table, memory, who, id, address, length, timeout),
        MailCall::RcvMbf {
            id,
            address,
            timeout,
        } => Ok(receiving::receive_buffer(base, table, memory, who, id, address, timeout)),
        MailCall::RefMbf { id } => Ok(buffer_calls::refer_buffer(base, table, id)),
        MailCall::DelMbf { id } => Ok(deleting::delete_buffer(base, table, id)),
    }
}

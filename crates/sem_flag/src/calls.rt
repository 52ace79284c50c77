//! The calls on semaphores and event flags.

ghost use Rattle.std.specs.Prelude.{◌≡◌, ◌<◌, ◌^◌};
ghost use Rattle.kernel_model.specs.SemFlags.Calls.{sem_flag_call};
ghost use Rattle.sem_flag.specs.Parts.{AreQueued};

use crate::table::SemFlags;
use crate::{deleting, flag_waits, flags, sem_waits, semaphores};
use kernel_base::Base;
use tk_types::{Outcome, SemFlagCall, Who};

/// A call on semaphores or event flags, by its row of the table of calls: the error of the first check that fails, with
/// nothing changed, or its effect up to the first settling. It takes no memory.
#[tactic(auto, unfolding(kernel_model::specs::SemFlags::Calls::sem_flag_call))]
pub fn call(base: &mut Base, table: &mut SemFlags, who: Who, call: &SemFlagCall) -> Outcome
    requires few { base.old.made < 2 ^ 63 }
    requires early { base.old.time < 2 ^ 63 }
    requires queued { AreQueued base.old table.old }
    ensures { sem_flag_call base.old table.old who call.now ≡ record { base = base.new; table = table.new; outcome = result } }
{
    match *call {
        SemFlagCall::CreSem {
            attributes,
            count,
            most,
        } => semaphores::create_sem(base, table, attributes, count, most),
        SemFlagCall::SigSem { id, count } => semaphores::signal_sem(base, table, id, count),
        SemFlagCall::WaiSem { id, count, timeout } => {
            sem_waits::wait_sem(base, table, who, id, count, timeout)
        }
        SemFlagCall::RefSem { id } => semaphores::refer_sem(base, table, id),
        SemFlagCall::CreFlg {
            attributes,
            pattern,
        } => flags::create_flag(base, table, attributes, pattern),
        SemFlagCall::SetFlg { id, pattern } => flags::set_flag(base, table, id, pattern),
        SemFlagCall::ClrFlg { id, pattern } => flags::clear_flag(base, table, id, pattern),
        SemFlagCall::WaiFlg {
            id,
            pattern,
            mode,
            timeout,
        } => flag_waits::wait_flag(base, table, who, id, pattern, mode, timeout),
        SemFlagCall::RefFlg { id } => flags::refer_flag(base, table, id),
        SemFlagCall::DelSem { id } => deleting::delete_sem(base, table, id),
        SemFlagCall::DelFlg { id } => deleting::delete_flag(base, table, id),
    }
}

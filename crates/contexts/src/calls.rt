//! The calls on interrupts, on what delays dispatching, and on subsystems.

ghost use Rattle.std.specs.Prelude.{◌≡◌};
ghost use Rattle.context_model.specs.Contexts.Calls.{context_call};

use crate::table::Contexts;
use crate::{dispatching, interrupts, services};
use kernel_base::Base;
use tk_types::{ContextCall, Outcome, Who};

/// A call on interrupts, on what delays dispatching, or on subsystems, by its row of the table of calls: the error of the
/// first check that fails, with nothing changed, or its effect up to the first settling. `svc` answers `Entered` with the
/// body of the service, where the calling task enters it. It takes no memory.
#[tactic(auto, unfolding(context_model::specs::Contexts::Calls::context_call))]
pub fn call(base: &mut Base, table: &mut Contexts, who: Who, call: &ContextCall) -> Outcome
    ensures { context_call base.old table.old who call.now ≡ record { base = base.new; table = table.new; outcome = result } }
{
    match *call {
        ContextCall::DefInt { number, body } => {
            interrupts::define_handler(base, table, number, body)
        }
        ContextCall::DisDsp => dispatching::disable_dispatch(base, table, who),
        ContextCall::EnaDsp => dispatching::enable_dispatch(base, table, who),
        ContextCall::Di => dispatching::disable_interrupts(base, table, who),
        ContextCall::Ei => dispatching::enable_interrupts(base, table, who),
        ContextCall::RefSys => dispatching::refer_system(base, table),
        ContextCall::DefSsy { number, body } => {
            services::define_service(base, table, number, body)
        }
        ContextCall::RefSsy { number } => services::refer_service(base, table, number),
        ContextCall::Svc { number, value } => {
            services::enter_service(base, table, who, number, value)
        }
    }
}

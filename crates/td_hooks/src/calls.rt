//! The calls of a debugger.

ghost use Rattle.std.specs.Prelude.{◌≡◌};
ghost use Rattle.context_model.specs.Hooks.Calls.{hook_call};
ghost use Rattle.td_hooks.specs.Seen.{seen};

use crate::hooks::{Hooks, set_hook};
use crate::listing::{list_existing, list_queue, list_ready};
use crate::requests::{Request, request_of};
use crate::views::Views;
use kernel_base::Base;
use task_machine::Memory;
use tk_types::{HookCall, Outcome, Who};

/// A call on lists, queues or hooks, by its row of the table of calls: the error of the first check that fails, with nothing
/// changed, or its effect, which is on the script's memory or on the hooks alone. Anybody may make it. It takes no memory.
#[tactic(auto, using(crate::proofs::Requested::by_request))]
pub fn call(
    base: &Base,
    hooks: &mut Hooks,
    views: &Views,
    memory: &mut Memory,
    who: Who,
    call: &HookCall,
) -> Outcome
    ensures { hook_call (seen base.now views.now) hooks.old memory.old who call.now ≡ record { hooks = hooks.new; memory = memory.new; outcome = result } }
{
    match request_of(call) {
        Request::Existing(kind, address, most) => {
            list_existing(base, views, memory, kind, address, most)
        }
        Request::Ready(priority, address, most) => {
            list_ready(base, views, memory, priority, address, most)
        }
        Request::Waiting(queue, id, address, most) => {
            list_queue(base, views, memory, queue, id, address, most)
        }
        Request::Setting(hook, value) => set_hook(hooks, hook, value),
    }
}

//! What falls due.

ghost use Rattle.std.specs.Prelude.{◌≡◌, ◌<◌, ◌^◌};
ghost use Rattle.kernel_model.specs.Tasks.Base.{take_due};
ghost use Rattle.kernel_model.specs.Words.Events.{due_event};
ghost use Rattle.context_model.specs.Clocks.Tables.{again};
ghost use Rattle.time_events.specs.Ticks.{again_if};

use crate::table::Clocks;
use kernel_base::Base;
use tk_types::Event;

/// A cyclic handler that falls due now is set for one period later; what else falls due isn't set again.
#[tactic(auto, unfolding(context_model::specs::Clocks::Tables::again))]
fn again(base: &mut Base, table: &Clocks, what: Event)
    requires few { base.old.made < 2 ^ 63 }
    requires early { base.old.time < 2 ^ 63 }
    ensures { base.new ≡ again base.old table.now what }
{
    let Event::Cyclic(id) = what else {
        return;
    };
    let Some(row) = table.cyclic(id) else {
        return;
    };
    let due = base.now() + row.period as u64;
    base.set_handler(due, what);
}

/// Takes the first event that is due by now, and sets its cyclic handler again, where it has one. `None` where nothing is
/// due. What the event starts or ends is left to the caller.
pub fn tick(base: &mut Base, table: &Clocks) -> Option<Event>
    requires few { base.old.made < 2 ^ 63 }
    requires early { base.old.time < 2 ^ 63 }
    ensures event { result ≡ due_event base.old.time base.old.events }
    ensures left { base.new ≡ again_if (take_due base.old) table.now result }
{
    let what = base.pop_due()?;
    again(base, table, what);
    Some(what)
}

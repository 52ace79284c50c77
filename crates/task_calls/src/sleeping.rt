//! Sleep and delay.

ghost use Rattle.std.specs.Prelude.{◌≡◌, ◌<◌, ◌^◌};
ghost use Rattle.kernel_model.specs.Tasks.Queues.{AreOfOrder};
ghost use Rattle.tk_types.specs.declared.task.Order.TheVariants.{Fifo};
ghost use Rattle.kernel_model.specs.Tasks.Calls.{delay, sleep};

use kernel_base::answers::{caller, done, failed};
use kernel_base::{Base, Order};
use kernel_model::marks::Mark;
use tk_types::{Er, Outcome, Who};

/// The object for which a sleeping task waits.
pub(crate) const SLEEP: u32 = 0;

/// The object for which a task in a delay waits.
const DELAY: u32 = 1;

/// `tk_slp_tsk`: the caller takes a wake-up request, or waits for one.
#[tactic(auto, unfolding(kernel_model::specs::Tasks::Calls::sleep))]
pub(crate) fn sleep(base: &mut Base, who: Who, timeout: i32) -> Outcome
    requires few { base.old.made < 2 ^ 63 }
    requires early { base.old.time < 2 ^ 63 }
    requires sleepers { AreOfOrder Fifo base.old 0 }
    ensures { sleep base.old who timeout ≡ record { base = base.new; outcome = result } }
{
    if timeout < -1 {
        return failed(Er::Par);
    }
    if !base.allows(who, Mark::MayWait) {
        return failed(Er::Ctx);
    }
    let task = caller(who);
    let requests = base.wakeups_of(task);
    if requests > 0 {
        base.set_wakeups(task, requests as u32 - 1);
        return done(0);
    }
    if timeout == 0 {
        return failed(Er::TmOut);
    }
    base.make_wait(task, SLEEP, Order::Fifo, timeout);
    Outcome::Blocked
}

/// `tk_dly_tsk`: the caller waits for a time; one of 0 milliseconds is over at once.
#[tactic(auto, unfolding(kernel_model::specs::Tasks::Calls::delay))]
pub(crate) fn delay(base: &mut Base, who: Who, time: i32) -> Outcome
    requires few { base.old.made < 2 ^ 63 }
    requires early { base.old.time < 2 ^ 63 }
    requires delayed { AreOfOrder Fifo base.old 1 }
    ensures { delay base.old who time ≡ record { base = base.new; outcome = result } }
{
    if time < 0 {
        return failed(Er::Par);
    }
    if !base.allows(who, Mark::MayWait) {
        return failed(Er::Ctx);
    }
    if time == 0 {
        return done(0);
    }
    base.make_wait(caller(who), DELAY, Order::Fifo, time);
    Outcome::Blocked
}

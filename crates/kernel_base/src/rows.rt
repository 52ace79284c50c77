//! A task's row with one of its parts changed.

ghost use Rattle.std.specs.Prelude.{◌≡◌};
ghost use Rattle.tk_types.specs.declared.task.Phase.TheVariants.{Dormant, Ready, Waiting};
ghost use Rattle.tk_types.specs.declared.task.Order.TheVariants.{Fifo};

use tk_types::{Order, Phase, Task};

/// The task that exists at the start: it is READY.
pub(crate) fn booted(priority: u8) -> Task
    ensures { result ≡ record { phase = Ready; queue = Fifo; base = priority; initial = priority; current = priority; wakeups = 0; suspensions = 0; stack = 1024 } }
{
    Task {
        phase: Phase::Ready,
        queue: Order::Fifo,
        base: priority,
        initial: priority,
        current: priority,
        wakeups: 0,
        suspensions: 0,
        stack: 1024,
    }
}

/// A new task, DORMANT.
pub(crate) fn created(priority: u8, stack: u32) -> Task
    ensures { result ≡ record { phase = Dormant; queue = Fifo; base = priority; initial = priority; current = priority; wakeups = 0; suspensions = 0; stack = stack } }
{
    Task {
        phase: Phase::Dormant,
        queue: Order::Fifo,
        base: priority,
        initial: priority,
        current: priority,
        wakeups: 0,
        suspensions: 0,
        stack,
    }
}

/// A task that is ready, or suspended.
pub(crate) fn readied(row: Task) -> Task
    ensures { result ≡ record row { phase = Ready } }
{
    Task {
        phase: Phase::Ready,
        ..row
    }
}

/// A task that waits for an object, in the order of its queue.
pub(crate) fn waiting(row: Task, object: u32, order: Order) -> Task
    ensures { result ≡ record row { phase = Waiting object; queue = order } }
{
    Task {
        phase: Phase::Waiting(object),
        queue: order,
        ..row
    }
}

/// A task that has ended.
pub(crate) fn ended(row: Task) -> Task
    ensures { result ≡ record row { phase = Dormant; base = row.initial; current = row.initial; wakeups = 0; suspensions = 0 } }
{
    Task {
        phase: Phase::Dormant,
        base: row.initial,
        current: row.initial,
        wakeups: 0,
        suspensions: 0,
        ..row
    }
}

/// A task with that many suspensions.
pub(crate) fn with_suspensions(row: Task, count: u16) -> Task
    ensures { result ≡ record row { suspensions = count } }
{
    Task {
        suspensions: count,
        ..row
    }
}

/// A task with that many wake-up requests.
pub(crate) fn with_wakeups(row: Task, count: u16) -> Task
    ensures { result ≡ record row { wakeups = count } }
{
    Task {
        wakeups: count,
        ..row
    }
}

/// A task with that base priority.
pub(crate) fn with_base(row: Task, priority: u8) -> Task
    ensures { result ≡ record row { base = priority } }
{
    Task {
        base: priority,
        ..row
    }
}

/// A task with that current priority.
pub(crate) fn with_current(row: Task, priority: u8) -> Task
    ensures { result ≡ record row { current = priority } }
{
    Task {
        current: priority,
        ..row
    }
}

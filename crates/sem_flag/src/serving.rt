//! Waiters are served, one at a time.

ghost use Rattle.std.specs.Prelude.{◌≡◌, ◌<◌, ◌≤◌, Some, drop, unwrap_or};
ghost use Rattle.std.specs.List.{find};
ghost use Rattle.std.specs.Option.{is_some};
ghost use Rattle.kernel_model.specs.Tasks.Base.{queue};
ghost use Rattle.kernel_model.specs.Words.Orders.{taken_from};
ghost use Rattle.kernel_model.specs.Tasks.Queues.{AreOfOrder};
ghost use Rattle.kernel_model.specs.SemFlags.Tables.{cleared_by, cleared_flag, first_if, first_served, flag_answer, has_bits, is_fulfilled, is_there, sem_pick, serve_flag, serve_sem, serve_sem_flag, taken_from_sem};
ghost use Rattle.sem_flag.specs.Parts.{AreQueued, parts_of, serve_object};

use crate::table::SemFlags;
use kernel_base::Base;
use kernel_base::answers::plain;
use kernel_model::objects::{EventFlag, FlagWish, Semaphore};
use tk_types::Answer;

/// The number of the object of the first semaphore, and of the first event flag.
pub(crate) const FIRST_SEM: u32 = 64;

pub(crate) const FIRST_FLAG: u32 = 128;

/// Whether a semaphore's count is there for a waiter.
fn is_there(table: &SemFlags, row: Semaphore, task: u8) -> bool
    ensures { result ≡ is_there table.now row task }
{
    table.count_of(task) <= row.count
}

/// The first waiter of an object whose count is there.
fn find_there(base: &Base, table: &SemFlags, row: Semaphore, obj: u32) -> Option<u8>
    requires object { obj < 1024 }
    requires order { AreOfOrder row.order base.now obj }
    ensures { result ≡ find (is_there table.now row) (queue row.order base.now obj) }
{
    let count = base.waiter_count(row.order, obj);
    'waiters: for place in 0..count {
        let task = base.waiter(row.order, obj, place)?;
        if is_there(table, row, task) {
            return Some(task);
        }
    }
    None
}

/// The first waiter of an object, if its count is there.
fn first_there(base: &Base, table: &SemFlags, row: Semaphore, obj: u32) -> Option<u8>
    requires object { obj < 1024 }
    requires order { AreOfOrder row.order base.now obj }
    ensures { result ≡ first_if (is_there table.now row) (queue row.order base.now obj) }
{
    let task = base.waiter(row.order, obj, 0)?;
    if is_there(table, row, task) {
        return Some(task);
    }
    None
}

/// The waiter that a semaphore serves, if it can serve one.
fn pick(base: &Base, table: &SemFlags, row: Semaphore, obj: u32) -> Option<u8>
    requires object { obj < 1024 }
    requires order { AreOfOrder row.order base.now obj }
    ensures { result ≡ sem_pick row.any_place (is_there table.now row) (queue row.order base.now obj) }
{
    if row.any_place {
        find_there(base, table, row, obj)
    } else {
        first_there(base, table, row, obj)
    }
}

/// Takes from the count of a semaphore.
pub(crate) fn take_count(table: &mut SemFlags, id: u8, row: Semaphore, count: u16)
    requires { id ≤ 64 }
    ensures { table.new ≡ taken_from_sem table.old id row count }
{
    table.set_sem(
        id,
        Some(Semaphore {
            count: row.count.saturating_sub(count),
            ..row
        }),
    );
}

/// Whether a pattern has all bits of a wish, or one of them.
pub(crate) fn has_bits(pattern: u32, wish: FlagWish) -> bool
    ensures { result ≡ has_bits pattern wish }
{
    if wish.mode.twf_andw {
        return pattern & wish.bits == wish.bits;
    }
    pattern & wish.bits != 0
}

/// What a clear leaves of a pattern.
fn cleared_by(wish: FlagWish, pattern: u32) -> u32
    ensures { result ≡ cleared_by wish pattern }
{
    if wish.mode.twf_clr {
        return 0;
    }
    if wish.mode.twf_bitclr {
        return pattern ^ (pattern & wish.bits);
    }
    pattern
}

/// The clear of a wish acts on an event flag.
pub(crate) fn clear(table: &mut SemFlags, id: u8, row: EventFlag, wish: FlagWish)
    requires { id ≤ 64 }
    ensures { table.new ≡ cleared_flag table.old id row wish }
{
    table.set_flag(
        id,
        Some(EventFlag {
            pattern: cleared_by(wish, row.pattern),
            ..row
        }),
    );
}

/// The answer of a wait for an event flag: 0, with the pattern before its clear.
pub(crate) fn flag_answer(row: EventFlag) -> Answer
    ensures { result ≡ flag_answer row }
{
    Answer {
        value: 0,
        fields: [row.pattern.cast_signed(), 0, 0, 0, 0],
        used: 1,
    }
}

/// Whether an event flag's pattern has what a task asked for.
fn is_fulfilled(table: &SemFlags, row: EventFlag, task: u8) -> bool
    ensures { result ≡ is_fulfilled table.now row task }
{
    has_bits(row.pattern, table.wish_of(task))
}

/// The first waiter of an object whose condition holds.
fn find_fulfilled(base: &Base, table: &SemFlags, row: EventFlag, obj: u32) -> Option<u8>
    requires object { obj < 1024 }
    requires order { AreOfOrder row.order base.now obj }
    ensures { result ≡ find (is_fulfilled table.now row) (queue row.order base.now obj) }
{
    let count = base.waiter_count(row.order, obj);
    'waiters: for place in 0..count {
        let task = base.waiter(row.order, obj, place)?;
        if is_fulfilled(table, row, task) {
            return Some(task);
        }
    }
    None
}

/// Serves one waiter of a semaphore, where one can be served.
#[tactic(auto, unfolding(kernel_model::specs::SemFlags::Tables::serve_sem))]
fn serve_sem(base: &mut Base, table: &mut SemFlags, id: u8) -> bool
    requires low { 1 ≤ id }
    requires high { id ≤ 64 }
    requires queued { AreQueued base.old table.old }
    ensures served { result ≡ is_some (serve_sem base.old table.old id) }
    ensures left { parts_of base.new table.new ≡ unwrap_or (serve_sem base.old table.old id) (parts_of base.old table.old) }
{
    let Some(row) = table.sem(id) else {
        return false;
    };
    let Some(task) = pick(base, table, row, FIRST_SEM - 1 + id as u32) else {
        return false;
    };
    let count = table.count_of(task);
    base.release(task, plain(0));
    take_count(table, id, row, count);
    true
}

/// Serves one waiter of an event flag, where one can be served.
#[tactic(auto, unfolding(kernel_model::specs::SemFlags::Tables::serve_flag))]
fn serve_flag(base: &mut Base, table: &mut SemFlags, id: u8) -> bool
    requires low { 1 ≤ id }
    requires high { id ≤ 64 }
    requires queued { AreQueued base.old table.old }
    ensures served { result ≡ is_some (serve_flag base.old table.old id) }
    ensures left { parts_of base.new table.new ≡ unwrap_or (serve_flag base.old table.old id) (parts_of base.old table.old) }
{
    let Some(row) = table.flag(id) else {
        return false;
    };
    let Some(task) = find_fulfilled(base, table, row, FIRST_FLAG - 1 + id as u32) else {
        return false;
    };
    let wish = table.wish_of(task);
    base.release(task, flag_answer(row));
    clear(table, id, row, wish);
    true
}

/// Serves one waiter of the object with that number, where one can be served: a semaphore or an event flag. False, with
/// nothing changed, comes exactly where none can be.
pub fn serve(base: &mut Base, table: &mut SemFlags, obj: u32) -> bool
    requires queued { AreQueued base.old table.old }
    ensures served { result ≡ is_some (serve_object base.old table.old obj) }
    ensures left { parts_of base.new table.new ≡ unwrap_or (serve_object base.old table.old obj) (parts_of base.old table.old) }
{
    if obj >= FIRST_SEM && obj < FIRST_FLAG {
        return serve_sem(base, table, (obj - (FIRST_SEM - 1)) as u8);
    }
    if obj >= FIRST_FLAG && obj < FIRST_FLAG + 64 {
        return serve_flag(base, table, (obj - (FIRST_FLAG - 1)) as u8);
    }
    false
}

/// Serves one waiter at the first semaphore by ID that can serve one, where there is one.
fn serve_first_sem(base: &mut Base, table: &mut SemFlags) -> bool
    requires queued { AreQueued base.old table.old }
    ensures served { result ≡ is_some (first_served (serve_sem base.old table.old) (taken_from 1 (drop 1 table.old.sems))) }
    ensures left { parts_of base.new table.new ≡ unwrap_or (first_served (serve_sem base.old table.old) (taken_from 1 (drop 1 table.old.sems))) (parts_of base.old table.old) }
{
    let used = table.sems_used();
    'sems: for id in 1..used {
        if serve_sem(base, table, id) {
            return true;
        }
    }
    false
}

/// Serves one waiter at the first event flag by ID that can serve one, where there is one.
fn serve_first_flag(base: &mut Base, table: &mut SemFlags) -> bool
    requires queued { AreQueued base.old table.old }
    ensures served { result ≡ is_some (first_served (serve_flag base.old table.old) (taken_from 1 (drop 1 table.old.flags))) }
    ensures left { parts_of base.new table.new ≡ unwrap_or (first_served (serve_flag base.old table.old) (taken_from 1 (drop 1 table.old.flags))) (parts_of base.old table.old) }
{
    let used = table.flags_used();
    'flags: for id in 1..used {
        if serve_flag(base, table, id) {
            return true;
        }
    }
    false
}

/// Serves one waiter at the first object that can serve one: semaphores by rising ID, then event flags. False, with
/// nothing changed, comes exactly where no object can serve one.
#[tactic(auto, unfolding(kernel_model::specs::SemFlags::Tables::serve_sem_flag))]
pub fn serve_first(base: &mut Base, table: &mut SemFlags) -> bool
    requires queued { AreQueued base.old table.old }
    ensures served { result ≡ is_some (serve_sem_flag base.old table.old) }
    ensures left { parts_of base.new table.new ≡ unwrap_or (serve_sem_flag base.old table.old) (parts_of base.old table.old) }
{
    if serve_first_sem(base, table) {
        return true;
    }
    serve_first_flag(base, table)
}

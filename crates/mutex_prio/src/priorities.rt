//! Current priorities by definition, and their taking over.

ghost use Rattle.std.specs.Prelude.{◌≡◌, ◌==◌, ◌≤◌, drop, fold, if◌then◌else◌, true};
ghost use Rattle.std.specs.Option.{is_some};
ghost use Rattle.kernel_model.specs.Tasks.Base.{task_at};
ghost use Rattle.kernel_model.specs.Words.Orders.{taken_from};
ghost use Rattle.object_model.specs.Mutexes.Tables.{owner_of};
ghost use Rattle.object_model.specs.Mutexes.Priority.{capped, current_of, lowered, own, refresh, resettle, under};
ghost use Rattle.mutex_prio.specs.Lent.{AreFit, set_to, settled};
ghost use Rattle.mutex_prio.specs.Tables.{fits_ceiling};

use crate::chains::{is_alive, lends_to};
use crate::lent::{Priorities, lent};
use crate::table::Mutexes;
use kernel_base::Base;

/// A priority under a ceiling, where there is one: the higher of the two, which is the smaller number.
fn under(ceiling: Option<u8>, pri: u8) -> u8
    requires { fits_ceiling ceiling ≡ true }
    ensures under { result ≡ under ceiling pri }
    ensures low { 1 ≤ pri → 1 ≤ result }
    ensures high { result ≤ pri }
{
    match ceiling {
        None => pri,
        Some(ceiling) => ceiling.min(pri),
    }
}

/// A priority under the ceiling of a mutex, where a task holds that.
fn under_held(table: &Mutexes, task: u8, pri: u8, id: u8) -> u8
    ensures under { result ≡ (if owner_of table.now id == task then capped table.now pri id else pri) }
    ensures low { 1 ≤ pri → 1 ≤ result }
    ensures high { result ≤ pri }
{
    if table.owner_of(id) != task {
        return pri;
    }
    under(table.ceiling_of(id), pri)
}

/// The priority that a task has by itself: the highest of its base and of the ceilings of the mutexes that it holds.
pub(crate) fn own(base: &Base, table: &Mutexes, task: u8) -> u8
    ensures own { result ≡ own base.now table.now task }
    ensures low { is_some (task_at base.now task) ≡ true → 1 ≤ result }
    ensures high { result ≤ 140 }
{
    let mut pri = base.base_of(task);
    'locks: for id in table.locks() {
        pri = under_held(table, task, pri, *id);
    }
    pri
}

/// The least priority so far, or that of one more task, where it lends a lower one.
fn lowered(base: &Base, table: &Mutexes, task: u8, least: u8, from: u8) -> u8
    ensures lowered { result ≡ lowered base.now table.now task least from }
    ensures low { 1 ≤ least → 1 ≤ result }
    ensures high { result ≤ least }
{
    if lends_to(base, table, task, from) {
        return own(base, table, from).min(least);
    }
    least
}

/// The highest priority that is lent to a task, its own among them.
fn least_lent(base: &Base, table: &Mutexes, task: u8) -> u8
    ensures least { result ≡ fold (lowered base.now table.now task) (own base.now table.now task) (taken_from 1 (drop 1 base.now.tasks)) }
    ensures low { is_some (task_at base.now task) ≡ true → 1 ≤ result }
    ensures high { result ≤ 140 }
{
    let mut least = own(base, table, task);
    let ids = base.ids();
    'tasks: for from in 1..ids {
        least = lowered(base, table, task, least, from as u8);
    }
    least
}

/// The current priority of a task by definition: the highest that it has by itself, or that one of those has whose chain comes to
/// it; a DORMANT task has its base. It is from 1 to 140 for a task that exists, and 0 for no other one.
#[tactic(auto, unfolding(object_model::specs::Mutexes::Priority::current_of))]
pub fn current_of(base: &Base, table: &Mutexes, task: u8) -> u8
    ensures priority { result ≡ current_of base.now table.now task }
    ensures low { is_some (task_at base.now task) ≡ true → 1 ≤ result }
    ensures high { result ≤ 140 }
{
    if !is_alive(base, task) {
        return base.base_of(task);
    }
    if table.is_unlocked() {
        return base.base_of(task);
    }
    least_lent(base, table, task)
}

/// A task whose current priority isn't that of its definition takes that one, with a new stamp.
fn refresh(base: &mut Base, table: &Mutexes, task: u8)
    ensures { base.new ≡ refresh table.now base.old task }
{
    if !base.exists(task) {
        return;
    }
    let now = current_of(base, table, task);
    if base.current(task) != now {
        base.set_current(task, now);
    }
}

/// The same for each task, in rising ID.
#[tactic(auto, unfolding(object_model::specs::Mutexes::Priority::resettle))]
fn refresh_each(base: &mut Base, table: &Mutexes)
    ensures { base.new ≡ resettle base.old table.now }
{
    let ids = base.ids();
    'tasks: for task in 1..ids {
        refresh(base, table, task as u8);
    }
}

/// A task whose current priority isn't a given one, from 1 to 140, takes that one, with a new stamp.
#[tactic(auto, using(crate::proofs::Folded::set_none))]
fn set_to(base: &mut Base, task: u8, pri: u8)
    requires low { is_some (task_at base.old task) ≡ true → 1 ≤ pri }
    requires high { pri ≤ 140 }
    ensures { base.new ≡ set_to base.old task pri }
{
    if !base.exists(task) {
        return;
    }
    if base.current(task) != pri {
        base.set_current(task, pri);
    }
}

/// The priority that is lent to a living task, and the base of another one.
fn settled(base: &Base, least: &Priorities, task: u8) -> u8
    requires { AreFit base.now least.now }
    ensures settled { result ≡ settled base.now least.now task }
    ensures low { is_some (task_at base.now task) ≡ true → 1 ≤ result }
    ensures high { result ≤ 140 }
{
    if is_alive(base, task) {
        return least[task as usize];
    }
    base.base_of(task)
}

/// The same for each task, in rising ID, with all priorities that are lent found at once: none of them changes on the way.
#[tactic(auto, unfolding(object_model::specs::Mutexes::Priority::resettle))]
fn set_each(base: &mut Base, table: &Mutexes)
    ensures { base.new ≡ resettle base.old table.now }
{
    let least = lent(base, table);
    let ids = base.ids();
    'tasks: for task in 1..ids {
        let pri = settled(base, &least, task as u8);
        set_to(base, task as u8, pri);
    }
}

/// Each changed current priority is taken over, in rising ID. Where no mutex is locked each task's base is looked at once, and
/// else the chain of each living task.
pub fn resettle(base: &mut Base, table: &Mutexes)
    ensures { base.new ≡ resettle base.old table.now }
{
    if table.is_unlocked() {
        refresh_each(base, table);
    } else {
        set_each(base, table);
    }
}

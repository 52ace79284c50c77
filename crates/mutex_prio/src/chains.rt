//! Chains of tasks that wait for each other's mutexes with inheritance.

ghost use Rattle.std.specs.Prelude.{◌≡◌, true};
ghost use Rattle.std.specs.Option.{is_some};
ghost use Rattle.kernel_model.specs.Tasks.Base.{task_at};
ghost use Rattle.object_model.specs.Mutexes.Priority.{chain_has, heir_in, is_alive, lends_to, next_in_chain};

use crate::ceilings::awaited;
use crate::table::Mutexes;
use kernel_base::Base;
use object_model::mutexes::Mutex;

/// The owner of a mutex with inheritance, or 0.
fn heir_in(slot: Option<Mutex>) -> u8
    ensures { result ≡ heir_in slot }
{
    match slot {
        None => 0,
        Some(row) => if row.inherits { row.owner } else { 0 },
    }
}

/// The task that a waiting task's chain goes on with: the owner of the mutex with inheritance that it waits for, or 0.
pub(crate) fn next_in_chain(base: &Base, table: &Mutexes, task: u8) -> u8
    ensures { result ≡ next_in_chain base.now table.now task }
{
    heir_in(table.mutex(awaited(base, task)))
}

/// Whether a task stands in the chain of another one. No chain passes more than 255 tasks before it comes to one of them again.
#[tactic(auto, unfolding(object_model::specs::Mutexes::Priority::chain_has))]
fn chain_has(base: &Base, table: &Mutexes, task: u8, of: u8) -> bool
    ensures { result ≡ chain_has (next_in_chain base.now table.now) task 255 of }
{
    let mut at = of;
    'chain: for _passed in 0..255usize {
        if at == task {
            return true;
        }
        let next = next_in_chain(base, table, at);
        if next == 0 {
            return false;
        }
        at = next;
    }
    at == task
}

/// Whether a task exists and isn't DORMANT.
pub(crate) fn is_alive(base: &Base, task: u8) -> bool
    ensures alive { result ≡ is_alive (task_at base.now task) }
    ensures exists { result ≡ true → is_some (task_at base.now task) ≡ true }
{
    base.exists(task) && !base.is_dormant(task)
}

/// Whether a task lends its priority to another one: it is alive, and that one stands in its chain.
pub(crate) fn lends_to(base: &Base, table: &Mutexes, task: u8, from: u8) -> bool
    ensures lends { result ≡ lends_to base.now table.now task from }
    ensures exists { result ≡ true → is_some (task_at base.now from) ≡ true }
{
    is_alive(base, from) && chain_has(base, table, task, from)
}

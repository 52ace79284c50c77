//! The least priority that is lent to each task, for all at once: each living task carries its own along its chain.

ghost use Rattle.std.specs.Prelude.{◌≡◌, ◌<◌, ◌≤◌, ℕ, slice_index, true};
ghost use Rattle.kernel_model.specs.Tasks.Base.{task_at};
ghost use Rattle.object_model.specs.Mutexes.Priority.{is_alive, lowered, next_in_chain, own};
ghost use Rattle.mutex_prio.specs.Lent.{AreFit, least_lent, reached};

use crate::chains::{is_alive, next_in_chain};
use crate::priorities::own;
use crate::table::Mutexes;
use kernel_base::Base;

/// A priority by task ID, 256 of them.
pub(crate) type Priorities = [u8; 256];

/// The priority that each task has by itself.
fn owns(base: &Base, table: &Mutexes) -> Priorities
    ensures owns { (t : ℕ) → t < 256 → slice_index result t ≡ own base.now table.now t }
    ensures fit { AreFit base.now result }
{
    let mut all = [0; 256];
    'tasks: for task in 0..256usize {
        all[task] = own(base, table, task as u8);
    }
    all
}

/// A task carries a priority along its chain: each task there has the higher of the two.
fn carry(base: &Base, table: &Mutexes, pri: u8, from: u8, all: &mut Priorities)
    ensures { (t : ℕ) → t < 256 → slice_index all.new t ≡ reached (next_in_chain base.now table.now) t 255 from pri (slice_index all.old t) }
{
    let mut at = from;
    'chain: for _passed in 0..255usize {
        all[at as usize] = pri.min(all[at as usize]);
        let next = next_in_chain(base, table, at);
        if next == 0 {
            return;
        }
        at = next;
    }
    all[at as usize] = pri.min(all[at as usize]);
}

/// A task lends the priority that it has by itself, where it is alive.
fn lend(base: &Base, table: &Mutexes, from: u8, all: &mut Priorities)
    requires { AreFit base.now all.old }
    ensures lent { (t : ℕ) → t < 256 → slice_index all.new t ≡ lowered base.now table.now t (slice_index all.old t) from }
    ensures fit { AreFit base.now all.new }
{
    if !is_alive(base, from) {
        return;
    }
    let pri = own(base, table, from);
    carry(base, table, pri, from, all);
}

/// The highest priority that is lent to each task, its own among them. Each chain is walked once.
pub(crate) fn lent(base: &Base, table: &Mutexes) -> Priorities
    ensures lent { (t : ℕ) → t < 256 → slice_index result t ≡ least_lent base.now table.now t }
    ensures fit { AreFit base.now result }
{
    let mut all = owns(base, table);
    let ids = base.ids();
    'tasks: for from in 1..ids {
        lend(base, table, from as u8, &mut all);
    }
    all
}

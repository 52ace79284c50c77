//! The calls that list IDs.

ghost use Rattle.std.specs.Prelude.{◌≡◌, ◌≤◌, ◌+◌, ◌*◌, length, List, ℕ, pos};
ghost use Rattle.context_model.specs.Hooks.Calls.{list_existing, list_queue, list_ready};
ghost use Rattle.context_model.specs.Hooks.Lists.{existing, with_ids};
ghost use Rattle.context_model.specs.Hooks.Tables.{Hooks};
ghost use Rattle.td_hooks.specs.Kinds.{exists, greatest, kind_of, object_of};
ghost use Rattle.td_hooks.specs.Places.{IsInside};
ghost use Rattle.td_hooks.specs.Seen.{seen};
ghost use Rattle.td_hooks.specs.Tasks.{IsList, in_list};

use crate::kinds::{Kind, Queue};
use crate::places::{Place, place_of, write_id};
use crate::tasks::TaskList;
use crate::views::Views;
use kernel_base::Base;
use kernel_base::answers::{done, failed};
use task_machine::Memory;
use tk_types::{Er, Outcome};

/// Writes the IDs that exist of a kind, as far as their place goes, and answers how many there are.
fn write_existing(base: &Base, views: &Views, memory: &mut Memory, kind: Kind, place: Place) -> u32
    requires { IsInside place memory.old }
    ensures count { result ≡ length (existing (exists (seen base.now views.now) kind) (greatest kind)) }
    ensures few { result ≤ 255 }
    ensures written { memory.new ≡ with_ids memory.old place.address place.most (existing (exists (seen base.now views.now) kind) (greatest kind)) }
{
    let mut count = 0;
    'ids: for id in 1..kind.greatest() as u32 + 1 {
        if kind.exists(base, views, id as u8) {
            write_id(memory, place, count, id as u8);
            count += 1;
        }
    }
    count
}

/// Writes the IDs of a list of tasks, as far as their place goes, and answers how many there are.
fn write_tasks(base: &Base, memory: &mut Memory, list: TaskList, place: Place) -> u32
    requires list { IsList list }
    requires inside { IsInside place memory.old }
    ensures count { result ≡ length (in_list base.now list) }
    ensures few { result ≤ 256 }
    ensures written { memory.new ≡ with_ids memory.old place.address place.most (in_list base.now list) }
{
    base.known_of_tasks();
    base.known_of_orders();
    let mut count = 0;
    let mut next = list.first(base);
    'tasks: while let Some(task) = next {
        write_id(memory, place, count, task);
        count += 1;
        next = list.next(base, task);
    }
    count
}

/// `td_lst_tsk` and the calls like it: answers how many of a kind exist, and writes their IDs in rising order.
#[tactic(auto, unfolding(context_model::specs::Hooks::Calls::list_existing))]
pub(crate) fn list_existing(
    base: &Base,
    views: &Views,
    memory: &mut Memory,
    kind: Kind,
    address: i32,
    most: i32,
) -> Outcome
    ensures { (hooks : Hooks) → list_existing hooks memory.old address most (existing (exists (seen base.now views.now) kind) (greatest kind)) ≡ record { hooks = hooks; memory = memory.new; outcome = result } }
{
    let Some(place) = place_of(memory, address, most) else {
        return failed(Er::Par);
    };
    done(write_existing(base, views, memory, kind, place) as i32)
}

/// `td_rdy_que`: answers how many tasks of a priority are ready, and writes their IDs in order.
#[tactic(auto, unfolding(context_model::specs::Hooks::Calls::list_ready))]
pub(crate) fn list_ready(
    base: &Base,
    views: &Views,
    memory: &mut Memory,
    priority: i32,
    address: i32,
    most: i32,
) -> Outcome
    ensures { (hooks : Hooks) → list_ready (seen base.now views.now) hooks memory.old priority address most ≡ record { hooks = hooks; memory = memory.new; outcome = result } }
{
    if priority < 1 || priority > 140 {
        return failed(Er::Par);
    }
    let Some(place) = place_of(memory, address, most) else {
        return failed(Er::Par);
    };
    done(write_tasks(base, memory, TaskList::Ready(priority as u8), place) as i32)
}

/// `td_sem_que` and the calls like it: answers how many tasks wait in the queue of an object, and writes their IDs in order.
#[tactic(auto, unfolding(context_model::specs::Hooks::Calls::list_queue))]
pub(crate) fn list_queue(
    base: &Base,
    views: &Views,
    memory: &mut Memory,
    queue: Queue,
    id: i32,
    address: i32,
    most: i32,
) -> Outcome
    ensures { (hooks : Hooks) → list_queue (seen base.now views.now) hooks memory.old id address most (exists (seen base.now views.now) (kind_of queue)) (object_of queue) ≡ record { hooks = hooks; memory = memory.new; outcome = result } }
{
    if id < 1 || id > 64 {
        return failed(Er::Id);
    }
    let Some(place) = place_of(memory, address, most) else {
        return failed(Er::Par);
    };
    if !queue.kind().exists(base, views, id as u8) {
        return failed(Er::NoExs);
    }
    let list = TaskList::Waiting(queue.object(id as u8));
    done(write_tasks(base, memory, list, place) as i32)
}

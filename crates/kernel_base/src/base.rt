//! What the kernel keeps of tasks.

ghost use Rattle.std.specs.Prelude.{◌≡◌, ◌≤◌, IfOk, None, replicate};
ghost use Rattle.kernel_model.specs.Tasks.Base.{base_start};

use crate::ids::Ids;
use crate::queueing::requeue;
use crate::releases::Releases;
use crate::rows::booted;
use ready_queue::Ready;
use std::alloc::{AllocError, Global};
use std::marker::Model;
use time_queue::Due;
use tk_types::{Flags, Task};
use wait_queue::Waits;

/// How many events can be set: the end of a wait for each task, and each cyclic and alarm handler that an ID names.
const MOST_EVENTS: u32 = 768;

/// How many objects there are for which a task can wait, from 0 on.
const OBJECTS: u32 = 1024;

/// The tasks by ID, their orders, the queue of the ready ones and that of those that wait, what is set for a time, the current task, what delays dispatching, the simulated
/// memory that is taken, and the ends of waits that weren't taken yet.
#[derive(Drop)]
pub struct Base {
    pub(crate) tasks: Vec<Option<Task>>,
    pub(crate) order: Ids,
    pub(crate) since: Ids,
    pub(crate) ready: Ready,
    pub(crate) waits: Waits,
    pub(crate) due: Due,
    pub(crate) time: u64,
    pub(crate) cur: Option<u8>,
    pub(crate) flags: Flags,
    pub(crate) bytes: u32,
    pub(crate) released: Releases,
}

impl Model for Base {
    ghost use Rattle.kernel_model.specs.Tasks.Base.{Base as BaseView};
    ghost use Rattle.kernel_base.specs.Room.{IsBase};

    ghost Value = { BaseView };

    ghost view = { λ b. record { tasks = b.tasks.items; order = b.order; since = b.since; events = b.due.events; made = b.due.made; time = b.time; cur = b.cur; flags = b.flags; bytes = b.bytes; released = b.released } };

    ghost invariant = { λ b. IsBase b.tasks.items b.order b.since b.ready b.waits b.due.events b.due.most };
}

/// A slot for each ID, all free.
fn free_slots(alloc: Global) -> Result<Vec<Option<Task>>, AllocError>
    ensures { IfOk result (λ slots. slots.items ≡ replicate 256 None) }
{
    let mut slots = Vec::with_capacity(alloc, 256)?;
    'slots: for _id in 0..256usize {
        slots.push(None)?;
    }
    Ok(slots)
}

impl Base {
    /// The start: task 1 is READY with the boot priority, from 1 to 140, and its stack takes 1,024 bytes. All room
    /// that the base ever needs is taken here: no move takes memory.
    pub fn new(alloc: Global, boot_pri: u8) -> Result<Base, AllocError>
        requires low { 1 ≤ boot_pri }
        requires high { boot_pri ≤ 140 }
        ensures { IfOk result (λ base. base ≡ base_start boot_pri) }
    {
        let mut tasks = free_slots(alloc)?;
        let first = Some(booted(boot_pri));
        let mut ready = Ready::new(alloc)?;
        requeue(&mut ready, 1, first);
        tasks[1] = first;
        Ok(Base {
            tasks,
            order: Ids::one(alloc, 1)?,
            since: Ids::one(alloc, 1)?,
            ready,
            waits: Waits::new(alloc, OBJECTS)?,
            due: Due::reserve(alloc, MOST_EVENTS)?,
            time: 0,
            cur: None,
            flags: Flags {
                dispatch_off: false,
                di: false,
                handler: false,
            },
            bytes: 1024,
            released: Releases::none(alloc)?,
        })
    }
}

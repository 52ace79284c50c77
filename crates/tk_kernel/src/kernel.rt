//! The state of a run: the kernel's parts, and what the script's bodies have come to.

ghost use Rattle.std.specs.Prelude.{◌≡◌, IfOk, [], length, pos, replicate, slice_set, unwrap_or};
ghost use Rattle.kernel_model.specs.Tasks.Waits.{HavePlaces};
ghost use Rattle.kernel_model.specs.Bodies.Statements.{IsRunnable, start_frame};
ghost use Rattle.dev_layer.specs.Tables.{AreDevices};
ghost use Rattle.kernel_model.specs.SemFlags.Tables.{sem_flags_start};
ghost use Rattle.object_model.specs.Mutexes.Tables.{mutexes_start};
ghost use Rattle.context_model.specs.Clocks.Tables.{clocks_start};
ghost use Rattle.context_model.specs.Contexts.Tables.{contexts_start};
ghost use Rattle.object_model.specs.Mails.Tables.{mails_start};
ghost use Rattle.object_model.specs.Pools.Tables.{pools_start};
ghost use Rattle.step_lemmas.specs.Known.{HasDevices};
ghost use Rattle.step_lemmas.specs.Sound.{IsWhole};
ghost use Rattle.tk_kernel.specs.Tables.{AreTables};
ghost use Rattle.machine_model.specs.States.State.{frame_of, no_frame, state_start, with_frame};

use contexts::Contexts;
use dev_layer::Devices;
use kernel_base::{Base, Event};
use mail_buffer::Mails;
use mem_pools::Pools;
use mutex_prio::Mutexes;
use sem_flag::SemFlags;
use std::alloc::{AllocError, Global};
use std::collections::VecDeque;
use std::marker::Model;
use task_machine::{Memory, new_memory, size, start_frame};
use td_hooks::Hooks;
use time_events::Clocks;
use tk_types::{Frame, Script};

/// What the kernel keeps of tasks, the tables of the objects, and what the script's bodies have come to.
#[derive(Drop)]
pub(crate) struct Kernel {
    pub(crate) base: Base,
    pub(crate) sem_flags: SemFlags,
    pub(crate) mutexes: Mutexes,
    pub(crate) mails: Mails,
    pub(crate) pools: Pools,
    pub(crate) clocks: Clocks,
    pub(crate) contexts: Contexts,
    pub(crate) devices: Devices,
    pub(crate) hooks: Hooks,
    /// By task: the body that a start begins.
    pub(crate) bodies: Vec<u8>,
    /// By task: where its body is being done; in place 0 that of the running handler.
    pub(crate) frames: Vec<Frame>,
    /// Eight places for each task: frames that wait for a service's return, the outermost first.
    pub(crate) saved: Vec<Frame>,
    pub(crate) memory: Memory,
    /// Handlers that fell due and haven't started, the first to start in front.
    pub(crate) due: VecDeque<Event>,
    /// Interrupts that are pending, each once, in rising number.
    pub(crate) pending: Vec<u8>,
    /// How many ticks are pending.
    pub(crate) ticks: u32,
    /// Whether `halt` was done.
    pub(crate) halted: bool,
    /// How many steps are done.
    pub(crate) steps: u32,
}

impl Model for Kernel {
    ghost use Rattle.machine_model.specs.States.State.{State};
    ghost use Rattle.tk_kernel.specs.Tables.{AreTables};

    ghost Value = { State };

    ghost view = { λ k. record { base = k.base; objects = record { sem_flags = k.sem_flags; mutexes = k.mutexes; mails = k.mails; pools = k.pools; clocks = k.clocks; contexts = k.contexts; devices = k.devices }; bodies = k.bodies.items; frames = k.frames.items; saved = k.saved.items; memory = k.memory; due = k.due.items; pending = k.pending.items; ticks = k.ticks; hooks = k.hooks; halted = k.halted; steps = k.steps } };

    ghost invariant = { λ k. AreTables k.bodies.items k.frames.items k.saved.items };
}

/// No body for any task.
fn no_bodies(alloc: Global) -> Result<Vec<u8>, AllocError>
    ensures none { IfOk result (λ bodies. bodies.items ≡ replicate 256 0) }
    ensures all { IfOk result (λ bodies. length bodies.items ≡ 256) }
{
    let mut bodies = Vec::with_capacity(alloc, 256)?;
    'slots: for _task in 0..256usize {
        bodies.push(0u8)?;
    }
    Ok(bodies)
}

/// So many frames of no body.
fn no_frames(alloc: Global, count: usize) -> Result<Vec<Frame>, AllocError>
    ensures none { IfOk result (λ frames. frames.items ≡ replicate count no_frame) }
    ensures all { IfOk result (λ frames. length frames.items ≡ count) }
{
    let mut frames = Vec::with_capacity(alloc, count)?;
    'slots: for _place in 0..count {
        frames.push(start_frame(0, 0, 0))?;
    }
    Ok(frames)
}

/// The tables of mailboxes, message buffers and memory pools, in which there is none.
fn no_stores(alloc: Global) -> Result<(Mails, Pools), AllocError>
    ensures mails { IfOk result (λ tables. tables.0 ≡ mails_start) }
    ensures pools { IfOk result (λ tables. tables.1 ≡ pools_start) }
{
    let mails = Mails::new(alloc)?;
    let pools = Pools::new(alloc)?;
    Ok((mails, pools))
}

/// The tables of the other objects, in which there is none.
fn no_objects(alloc: Global) -> Result<(SemFlags, Mutexes, Clocks, Contexts), AllocError>
    ensures sem_flags { IfOk result (λ tables. tables.0 ≡ sem_flags_start) }
    ensures mutexes { IfOk result (λ tables. tables.1 ≡ mutexes_start) }
    ensures clocks { IfOk result (λ tables. tables.2 ≡ clocks_start) }
    ensures contexts { IfOk result (λ tables. tables.3 ≡ contexts_start) }
{
    let sem_flags = SemFlags::new(alloc)?;
    let mutexes = Mutexes::new(alloc)?;
    let clocks = Clocks::new(alloc)?;
    let contexts = Contexts::new(alloc)?;
    Ok((sem_flags, mutexes, clocks, contexts))
}

/// The bodies that starts begin, the frames that act and those that wait, where task 1 is at the start of a body.
fn first_frames(alloc: Global, body: u8) -> Result<(Vec<u8>, Vec<Frame>, Vec<Frame>), AllocError>
    ensures bodies { IfOk result (λ tables. tables.0.items ≡ slice_set (replicate 256 0) 1 body) }
    ensures frames { IfOk result (λ tables. tables.1.items ≡ slice_set (replicate 256 no_frame) 1 (start_frame body (pos 0) (pos 0))) }
    ensures saved { IfOk result (λ tables. tables.2.items ≡ replicate 2048 no_frame) }
    ensures all { IfOk result (λ tables. AreTables tables.0.items tables.1.items tables.2.items) }
{
    let mut bodies = no_bodies(alloc)?;
    bodies[1] = body;
    let mut frames = no_frames(alloc, 256)?;
    frames[1] = start_frame(body, 0, 0);
    let saved = no_frames(alloc, 2048)?;
    Ok((bodies, frames, saved))
}

impl Kernel {
    /// The start: task 1 is READY, at the start of the boot body.
    pub(crate) fn new(alloc: Global, script: &Script) -> Result<Kernel, AllocError>
        requires runnable { IsRunnable script.now }
        requires devices { AreDevices script.now.devices }
        ensures { IfOk result (λ kernel. kernel ≡ state_start script.now) }
    {
        let devices = Devices::new(alloc, script)?;
        let objects = no_objects(alloc)?;
        let stores = no_stores(alloc)?;
        let tables = first_frames(alloc, script.boot.body)?;
        let memory = new_memory(alloc)?;
        let base = Base::new(alloc, script.boot.priority)?;
        let (sem_flags, mutexes, clocks, contexts) = objects;
        let (mails, pools) = stores;
        let (bodies, frames, saved) = tables;
        Ok(Kernel {
            base,
            sem_flags,
            mutexes,
            mails,
            pools,
            clocks,
            contexts,
            devices,
            hooks: Hooks::new(),
            bodies,
            frames,
            saved,
            memory,
            due: VecDeque::new(alloc),
            pending: Vec::new(alloc),
            ticks: 0,
            halted: false,
            steps: 0,
        })
    }

    /// The frame with a number: where a task's body is being done, and that of the running handler in 0.
    pub(crate) fn frame(&self, number: u8) -> Frame
        ensures { result ≡ frame_of self.now number }
    {
        self.frames[number as usize]
    }

    /// Sets the frame with a number.
    pub(crate) fn set_frame(&mut self, number: u8, frame: Frame)
        ensures { self.new ≡ with_frame self.old number frame }
    {
        self.frames[number as usize] = frame;
    }

    /// States, at no cost, that there is a place for each task in all tables, that each task that waits has its places
    /// among the stamps and by the beginning of its wait, and what the table of devices always is.
    pub(crate) fn known_of_tasks(&self)
        ensures whole { IsWhole self.now }
        ensures slots { length self.now.base.tasks ≡ 256 }
        ensures places { HavePlaces self.now.base }
        ensures devices { HasDevices self.now }
    {
        self.base.known_of_tasks();
        self.mails.known_of_tasks();
        self.pools.known_of_tasks();
        self.devices.known_of_devices();
        let _bytes = size(&self.memory);
    }

    /// How many steps are done.
    pub(crate) fn steps(&self) -> u32
        ensures { result ≡ self.now.steps }
    {
        self.steps
    }

    /// Sets how many steps are done.
    pub(crate) fn set_steps(&mut self, steps: u32)
        ensures { self.new ≡ record self.old { steps = steps } }
    {
        self.steps = steps;
    }

    /// The current task, 0 where there is none.
    pub(crate) fn running(&self) -> u8
        ensures { result ≡ unwrap_or self.now.base.cur 0 }
    {
        self.base.cur().unwrap_or(0)
    }
}

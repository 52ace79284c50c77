//! The kinds of what has a list of its IDs, and the queues of objects.

ghost use Rattle.std.specs.Prelude.{◌≡◌, ◌≤◌, ◌<◌};
ghost use Rattle.td_hooks.specs.Kinds.{exists, greatest, kind_of, object_of};
ghost use Rattle.td_hooks.specs.Seen.{seen};

use crate::views::Views;
use kernel_base::Base;

/// What a call can list.
#[derive(Clone, Copy)]
pub(crate) enum Kind {
    Task,
    Semaphore,
    EventFlag,
    Mailbox,
    Mutex,
    MessageBuffer,
    FixedPool,
    VariablePool,
    CyclicHandler,
    AlarmHandler,
    Subsystem,
}

impl Kind {
    /// The greatest ID that there can be: 64, but 255 for a task or a subsystem.
    pub(crate) fn greatest(self) -> u8
        ensures { result ≡ greatest self }
    {
        match self {
            Kind::Task | Kind::Subsystem => 255,
            _ => 64,
        }
    }

    /// Whether there is one with that ID.
    pub(crate) fn exists(self, base: &Base, views: &Views, id: u8) -> bool
        ensures { result ≡ exists (seen base.now views.now) self id }
    {
        match self {
            Kind::Task => base.exists(id),
            Kind::Semaphore => views.sem_flags.has_sem(id),
            Kind::EventFlag => views.sem_flags.has_flg(id),
            Kind::Mailbox => views.mails.has_mbx(id),
            Kind::Mutex => views.mutexes.has_mtx(id),
            Kind::MessageBuffer => views.mails.has_mbf(id),
            Kind::FixedPool => views.pools.has_mpf(id),
            Kind::VariablePool => views.pools.has_mpl(id),
            Kind::CyclicHandler => views.clocks.has_cyc(id),
            Kind::AlarmHandler => views.clocks.has_alm(id),
            Kind::Subsystem => views.contexts.has_ssy(id),
        }
    }
}

/// The queue of an object: a message buffer has one of tasks that send, and one of tasks that receive.
#[derive(Clone, Copy)]
pub(crate) enum Queue {
    Semaphore,
    EventFlag,
    Mailbox,
    Mutex,
    Senders,
    Receivers,
    FixedPool,
    VariablePool,
}

impl Queue {
    /// What has such a queue.
    pub(crate) fn kind(self) -> Kind
        ensures { result ≡ kind_of self }
    {
        match self {
            Queue::Semaphore => Kind::Semaphore,
            Queue::EventFlag => Kind::EventFlag,
            Queue::Mailbox => Kind::Mailbox,
            Queue::Mutex => Kind::Mutex,
            Queue::Senders | Queue::Receivers => Kind::MessageBuffer,
            Queue::FixedPool => Kind::FixedPool,
            Queue::VariablePool => Kind::VariablePool,
        }
    }

    /// The number of the object for which the tasks in the queue wait.
    pub(crate) fn object(self, id: u8) -> u32
        requires { id ≤ 64 }
        ensures object { result ≡ object_of self id }
        ensures below { result < 1024 }
    {
        let before: u32 = match self {
            Queue::Semaphore => 63,
            Queue::EventFlag => 127,
            Queue::Mailbox => 191,
            Queue::Mutex => 255,
            Queue::Senders => 319,
            Queue::Receivers => 383,
            Queue::FixedPool => 447,
            Queue::VariablePool => 511,
        };
        before + id as u32
    }
}

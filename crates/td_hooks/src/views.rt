//! What the calls on lists and queues look at beside the base.

use contexts::Contexts;
use mail_buffer::Mails;
use mem_pools::Pools;
use mutex_prio::Mutexes;
use sem_flag::SemFlags;
use time_events::Clocks;

/// The tables of all objects that have a list or a queue.
#[derive(Clone, Copy)]
pub struct Views<'a> {
    /// Semaphores and event flags.
    pub sem_flags: &'a SemFlags,
    /// Mutexes.
    pub mutexes: &'a Mutexes,
    /// Mailboxes and message buffers.
    pub mails: &'a Mails,
    /// Fixed and variable memory pools.
    pub pools: &'a Pools,
    /// Cyclic and alarm handlers.
    pub clocks: &'a Clocks,
    /// Subsystems.
    pub contexts: &'a Contexts,
}

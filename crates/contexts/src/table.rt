//! The table of interrupt handlers, subsystems, and depths.

ghost use Rattle.std.specs.Prelude.{◌≡◌, ◌≤◌, ◌<◌, IfOk, IfSome, MatchOption, replicate};
ghost use Rattle.context_model.specs.Contexts.Tables.{contexts_start, deeper, depth_in, handler_of, has_ssy, left, service_of, with_handler, with_service};

use std::alloc::{AllocError, Global};
use std::marker::Model;

/// The most services that a task may be in at once.
pub(crate) const MOST_NESTINGS: u8 = 8;

/// The bodies of interrupt handlers by interrupt number, the bodies of services by the number of their subsystem, and by
/// task how many services it has entered that haven't returned. A body of 0 says that there is none.
#[derive(Drop)]
pub struct Contexts {
    handlers: Vec<u8>,
    services: Vec<u8>,
    depths: Vec<u8>,
}

impl Model for Contexts {
    ghost use Rattle.context_model.specs.Contexts.Tables.{Contexts as ContextsView};
    ghost use Rattle.contexts.specs.Tables.{AreTables};

    ghost Value = { ContextsView };

    ghost view = { λ c. record { handlers = c.handlers.items; services = c.services.items; depths = c.depths.items } };

    ghost invariant = { λ c. AreTables c.handlers.items c.services.items c.depths.items };
}

/// A 0 for each number from 0 to 255.
fn zeros(alloc: Global) -> Result<Vec<u8>, AllocError>
    ensures { IfOk result (λ slots. slots.items ≡ replicate 256 0) }
{
    let mut slots = Vec::with_capacity(alloc, 256)?;
    'slots: for _number in 0..256usize {
        slots.push(0u8)?;
    }
    Ok(slots)
}

impl Contexts {
    /// No handler, no subsystem, and no task in a service. All room that the table ever needs is taken here: no call takes
    /// memory.
    #[tactic(auto, using(crate::proofs::Tables::fit_at_start))]
    pub fn new(alloc: Global) -> Result<Contexts, AllocError>
        ensures { IfOk result (λ table. table ≡ contexts_start) }
    {
        Ok(Contexts {
            handlers: zeros(alloc)?,
            services: zeros(alloc)?,
            depths: zeros(alloc)?,
        })
    }

    /// Whether a subsystem with that number, from 1 to 255, is defined.
    pub fn has_ssy(&self, id: u8) -> bool
        ensures { result ≡ has_ssy self.now id }
    {
        self.service(id as usize) != 0
    }

    /// The body of the service of the subsystem with a number, or 0 where that isn't defined or there is no such number.
    pub(crate) fn service(&self, number: usize) -> u8
        ensures { result ≡ service_of self.now number }
    {
        if number >= self.services.len() {
            return 0;
        }
        self.services[number]
    }

    /// Writes the body of the handler of an interrupt, where 0 says that it has none.
    pub(crate) fn set_handler(&mut self, number: u8, body: u8)
        ensures { self.new ≡ with_handler self.old number body }
    {
        self.handlers[number as usize] = body;
    }

    /// Writes the body of the service of a subsystem, where 0 says that it isn't defined.
    pub(crate) fn set_service(&mut self, id: u8, body: u8)
        ensures { self.new ≡ with_service self.old id body }
    {
        self.services[id as usize] = body;
    }

    /// A task enters one service more.
    #[tactic(auto, using(crate::proofs::Tables::shallow_written))]
    pub(crate) fn enter(&mut self, task: u8)
        requires { depth_in self.old task < 8 }
        ensures { self.new ≡ deeper self.old task }
    {
        self.depths[task as usize] += 1;
    }
}

/// The body of the handler that is defined for an interrupt, from 1 on, or `None` where it has none.
pub fn handler(table: &Contexts, number: u8) -> Option<u8>
    ensures found { MatchOption result (handler_of table.now number ≡ 0) (λ body. handler_of table.now number ≡ body) }
    ensures low { IfSome result (λ body. 1 ≤ body) }
{
    let body = table.handlers[number as usize];
    if body == 0 {
        return None;
    }
    Some(body)
}

/// How many services a task has entered that haven't returned, at most 8.
pub fn depth_in(table: &Contexts, task: u8) -> u8
    ensures depth { result ≡ depth_in table.now task }
    ensures few { result ≤ 8 }
{
    table.depths[task as usize]
}

/// A task leaves the service that it entered last, or `all` of them. One that is in none stays in none.
#[tactic(auto, using(crate::proofs::Tables::shallow_written), unfolding(context_model::specs::Contexts::Tables::left))]
pub fn left(table: &mut Contexts, task: u8, all: bool)
    ensures { table.new ≡ left table.old task all }
{
    let depth = table.depths[task as usize];
    table.depths[task as usize] = if all { 0 } else { depth.saturating_sub(1) };
}

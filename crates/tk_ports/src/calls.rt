//! The calls of a stream in memory: how many there were, which are to fail, and how many failed.

ghost use Rattle.std.specs.Prelude.{◌≡◌, ℕ, [], IfOk};
ghost use Rattle.tk_ports.specs.MemStreams.{is_listed, one_more};

use std::alloc::Global;
use tk_types::OutOfMemory;

#[derive(Drop)]
pub(crate) struct Calls {
    pub(crate) count: u64,
    pub(crate) fails: Vec<u64>,
    pub(crate) faults: u64,
}

impl Calls {
    /// No call yet. `fails` lists the numbers of the calls that are to fail, counted from 1.
    pub(crate) fn new(alloc: Global, fails: &[u64]) -> Result<Calls, OutOfMemory>
        ensures listed { IfOk result (λ calls. calls.fails.items ≡ fails.now) }
        ensures count { IfOk result (λ calls. calls.count ≡ 0) }
        ensures faults { IfOk result (λ calls. calls.faults ≡ 0) }
    {
        Ok(Calls {
            count: 0,
            fails: Vec::from_slice(alloc, fails)?,
            faults: 0,
        })
    }

    /// Counts a call, and says whether its number is listed.
    pub(crate) fn begin(&mut self) -> bool
        ensures listed { result ≡ is_listed self.old.fails.items self.old.count }
        ensures after { self.new ≡ record self.old { count = one_more self.old.count } }
    {
        self.count = self.count.saturating_add(1);
        self.fails.contains(&self.count)
    }

    /// Counts a fault.
    pub(crate) fn fail(&mut self)
        ensures { self.new ≡ record self.old { faults = one_more self.old.faults } }
    {
        self.faults = self.faults.saturating_add(1);
    }
}

//! The turns of a driver on its thread.

ghost use Rattle.std.specs.Prelude.{◌≡◌, ◌<◌, ◌-◌, ◌^◌, true, false};
ghost use Rattle.dev_drivers.specs.Logs.{Drove, IsOver};

use crate::log::DriverLog;
use crossbeam_utils::sync::Unparker;
use tk_ports::Gate;

impl DriverLog {
    /// Whether the driver takes no more messages.
    pub(crate) fn is_over(&self) -> bool
        ensures over { result ≡ true → IsOver self.now }
        ensures few { result ≡ false → self.now.core.taken < 2 ^ 64 - 1 }
    {
        self.core.is_stopped() || self.core.taken_so_far() == u64::MAX
    }

    /// Takes a message, where one is there that the driver takes now. A Serve stays in the inbox while the driver has a request, or
    /// an ending that is ready.
    #[tactic(auto, using(crate::proofs::Steps::takes, crate::proofs::Wholes::may_take, crate::proofs::Steps::stays))]
    fn take(&mut self) -> bool
        requires { self.old.core.taken < 2 ^ 64 - 1 }
        ensures { Drove self.old self.new }
    {
        if self.inbox.is_empty() {
            return false;
        }
        if !self.core.can_take(self.inbox.peek_known()) {
            return false;
        }
        let m = self.inbox.pop_known();
        self.core.message(m);
        true
    }

    /// Makes a turn with the request, if there is one. The gate is passed before each block.
    #[tactic(auto, using(crate::proofs::Steps::blocks))]
    fn work<G: Gate>(&mut self, device: u8, gate: &G) -> bool
        ensures { Drove self.old self.new }
    {
        if let Some(block) = self.core.block_due() {
            gate.pass(device, block);
            self.blocks = block.saturating_add(1);
        }
        self.core.block()
    }

    /// Puts an ending that is ready into the outbox, where it has room.
    #[tactic(auto, using(crate::proofs::Steps::ends_so, crate::proofs::Steps::ends_without, crate::proofs::Steps::stays))]
    fn give(&mut self) -> bool
        ensures { Drove self.old self.new }
    {
        if self.outbox.is_full() {
            return false;
        }
        let Some(ending) = self.core.ending() else {
            return false;
        };
        self.outbox.push_reserved(ending);
        true
    }

    /// Passes the gate behind the last block of a request, whose ending has gone out.
    #[tactic(auto, using(crate::proofs::Steps::stays))]
    fn pass_end<G: Gate>(&mut self, device: u8, gate: &G)
        ensures { Drove self.old self.new }
    {
        gate.pass(device, self.blocks);
        self.blocks = 0;
    }

    /// Does what there is to do next, and answers whether there was something: a message to take, a turn to make, or an ending to
    /// give out. Whatever may let the kernel go on wakes it.
    #[tactic(auto, using(crate::proofs::Steps::drove_on, crate::proofs::Steps::stays))]
    pub(crate) fn turn<G: Gate>(&mut self, device: u8, kernel: &Unparker, gate: &G) -> bool
        requires { self.old.core.taken < 2 ^ 64 - 1 }
        ensures { Drove self.old self.new }
    {
        if self.take() {
            kernel.unpark();
            return true;
        }
        if self.work(device, gate) {
            return true;
        }
        if self.give() {
            kernel.unpark();
            self.pass_end(device, gate);
            return true;
        }
        false
    }
}

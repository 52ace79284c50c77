//! The driver of a device, without a thread.

ghost use Rattle.std.specs.Prelude.{◌≡◌, ◌<◌, ◌+◌, ◌-◌, ◌^◌, true, IfOk, None, Some};
ghost use Rattle.device_model.specs.Units.Function.{IsWhole};
ghost use Rattle.driver_model.specs.Cores.{aborted, after_block, after_ending, after_message, begun, can_take, core_start, ending_out, has_work, is_empty_turn, is_idle, turned, worked};
ghost use Rattle.dev_units.specs.Cores.{MayTake, block_due, block_of, has_number, holding};

use crate::block_end::BlockEnd;
use crate::serving::{Serving, ending};
use crate::unit::Unit;
use device_model::messages::{Ending, Message, Request};
use std::alloc::Global;
use std::marker::Model;
use tk_types::{Er, How, OutOfMemory};

/// The driver of a device, with its unit: the request that it works on, or the ending that is ready, whether it was stopped, and
/// how many messages it has taken.
#[derive(Drop)]
pub struct DriverCore {
    alloc: Global,
    device: u8,
    unit: Unit,
    serving: Option<Serving>,
    ready: Option<Ending>,
    stopped: bool,
    taken: u64,
}

impl Model for DriverCore {
    ghost use Rattle.driver_model.specs.Cores.{Core};
    ghost use Rattle.dev_units.specs.Cores.{blocks_in, content_in, request_in, turns_in};

    ghost Value = { Core };

    ghost view = { λ core. record {
      device = core.device;
      kind = core.unit.kind;
      store = core.unit.store;
      given = request_in core.serving;
      blocks = blocks_in core.serving;
      turns = turns_in core.serving;
      content = content_in core.serving;
      ready = core.ready;
      stopped = core.stopped;
      taken = core.taken;
    } };
}

impl DriverCore {
    /// The driver of a device with its unit, which has no request and has taken no message.
    pub fn new(alloc: Global, device: u8, unit: Unit) -> Result<DriverCore, OutOfMemory>
        ensures { IfOk result (λ core. core ≡ record (core_start device unit.kind) { store = unit.store }) }
    {
        Ok(DriverCore {
            alloc,
            device,
            unit,
            serving: None,
            ready: None,
            stopped: false,
            taken: 0,
        })
    }

    /// Whether the driver has neither a request nor an ending that is ready. A Serve may come then.
    pub fn is_idle(&self) -> bool
        ensures { result ≡ is_idle self.now }
    {
        self.serving.is_none() && self.ready.is_none()
    }

    /// Whether the driver was stopped.
    pub fn is_stopped(&self) -> bool
        ensures { result ≡ self.now.stopped }
    {
        self.stopped
    }

    /// Whether the driver takes a message now: none after a Stop, and a Serve only where it has no request and no ending that is
    /// ready.
    #[tactic(auto, unfolding(driver_model::specs::Cores::can_take))]
    pub fn can_take(&self, m: &Message) -> bool
        ensures { result ≡ can_take self.now m.now }
    {
        if self.stopped {
            return false;
        }
        match m {
            Message::Serve { .. } => self.is_idle(),
            Message::Abort { .. } => true,
            Message::Stop { .. } => true,
        }
    }

    /// How many messages the driver has taken.
    pub fn taken_so_far(&self) -> u64
        ensures { result ≡ self.now.taken }
    {
        self.taken
    }

    /// The number of the block that the driver does at its next turn. None where that turn is an empty one or there is no turn, and
    /// for a request that moves no bytes.
    pub fn block_due(&self) -> Option<u32>
        ensures { result ≡ block_due self.now }
    {
        if self.stopped {
            return None;
        }
        match &self.serving {
            Some(serving) => self.block_of(serving),
            None => None,
        }
    }

    /// The number of the block of a request that the driver does at its next turn, if it does one.
    fn block_of(&self, serving: &Serving) -> Option<u32>
        ensures { result ≡ block_of self.now (Some serving.now) }
    {
        if self.unit.has_block(&serving.request, serving.blocks)
            && serving.turns >= self.unit.empty_turns()
        {
            return Some(serving.blocks);
        }
        None
    }

    /// Takes a message. A Serve begins its request; it has a whole request, and the driver has none then, and no ending that is
    /// ready. An Abort cuts off the request that the driver works on, where it has that number, and else does nothing. A Stop
    /// leaves a request or an ending where it is. Fewer than 2^64 - 1 messages were taken before.
    #[tactic(auto, unfolding(driver_model::specs::Cores::after_message))]
    pub fn message(&mut self, m: Message)
        requires takes { MayTake self.old m }
        requires few { self.old.taken < 2 ^ 64 - 1 }
        ensures { self.new ≡ after_message self.old m }
    {
        match m {
            Message::Serve { device: _, request } => self.begin(request),
            Message::Abort { device: _, number } => self.abort(number),
            Message::Stop { device: _ } => self.stopped = true,
        }
        self.taken += 1;
    }

    /// Begins a request.
    fn begin(&mut self, request: Request)
        requires { IsWhole request }
        ensures { self.new ≡ begun self.old request }
    {
        self.unit.begin(&request);
        self.serving = Some(Serving::new(self.alloc, request));
    }

    /// Whether the driver works on the request with a number.
    fn works_on(&self, number: u64) -> bool
        ensures { result ≡ has_number number self.now.given }
    {
        match &self.serving {
            Some(serving) => serving.request.number == number,
            None => false,
        }
    }

    /// Cuts off the request that the driver works on, where it has that number.
    fn abort(&mut self, number: u64)
        ensures { self.new ≡ aborted number self.old self.old.given }
    {
        if !self.works_on(number) {
            return;
        }
        let Some(serving) = self.serving.take() else {
            return;
        };
        let moved = 64 * serving.blocks;
        let ending = serving.ended(self.device, How::Cut(moved), moved, Er::Abort);
        self.finish(ending);
    }

    /// Makes a turn: an empty one, or the next block of the request. The last block makes its ending ready. Answers whether there
    /// was a turn to make: not where the driver has no request, and not after a Stop. It takes no memory.
    #[tactic(auto, unfolding(driver_model::specs::Cores::after_block))]
    pub fn block(&mut self) -> bool
        ensures result { result ≡ has_work self.old }
        ensures core { self.new ≡ after_block self.old }
    {
        if self.stopped {
            return false;
        }
        let Some(serving) = self.serving.take() else {
            return false;
        };
        self.turn(serving);
        true
    }

    /// Makes a turn with a request, which the driver has no more.
    fn turn(&mut self, serving: Serving)
        ensures { self.new ≡ turned (holding self.old (Some serving)) (Some serving.request) }
    {
        if self.is_empty_turn(&serving) {
            let mut serving = serving;
            serving.turns += 1;
            self.keep(serving);
        } else {
            self.work(serving);
        }
    }

    /// Whether the next turn with a request is an empty one.
    fn is_empty_turn(&self, serving: &Serving) -> bool
        ensures empty { result ≡ is_empty_turn (holding self.now (Some serving.now)) serving.now.request }
        ensures few { result ≡ true → serving.now.turns + 1 < 2 ^ 32 }
    {
        serving.turns < self.unit.empty_turns()
            && self.unit.has_block(&serving.request, serving.blocks)
    }

    /// Does the next block of a request, which the driver has no more.
    fn work(&mut self, serving: Serving)
        ensures { self.new ≡ worked (holding self.old (Some serving)) serving.request }
    {
        let Serving {
            request,
            mut out,
            blocks,
            turns: _,
        } = serving;
        match self.unit.serve_block(&request, blocks, &mut out) {
            BlockEnd::More => self.keep(Serving {
                request,
                out,
                blocks: blocks + 1,
                turns: 0,
            }),
            BlockEnd::Ended(size, error) => {
                let device = self.device;
                self.finish(ending(device, request, out, How::Done, size, error));
            }
        }
    }

    /// The driver goes on with a request.
    fn keep(&mut self, serving: Serving)
        ensures { self.new ≡ holding self.old (Some serving) }
    {
        self.serving = Some(serving);
    }

    /// The driver is done with its request, and its ending is ready.
    fn finish(&mut self, ending: Ending)
        ensures { self.new ≡ record (holding self.old None) { ready = Some ending } }
    {
        self.serving = None;
        self.ready = Some(ending);
    }

    /// Gives out the ending that is ready, with the number of messages that were taken by then. Answers none where none is ready,
    /// and after a Stop. It takes no memory.
    #[tactic(auto, unfolding(driver_model::specs::Cores::ending_out, driver_model::specs::Cores::after_ending))]
    pub fn ending(&mut self) -> Option<Ending>
        ensures result { result ≡ ending_out self.old }
        ensures core { self.new ≡ after_ending self.old }
    {
        if self.stopped {
            return None;
        }
        let Some(mut ending) = self.ready.take() else {
            return None;
        };
        ending.taken = self.taken;
        Some(ending)
    }
}

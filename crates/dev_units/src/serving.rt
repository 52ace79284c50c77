//! A request that a driver works on.

ghost use Rattle.std.specs.Prelude.{◌≡◌, ◌<◌, ◌*◌, ◌^◌, [], true, false};
ghost use Rattle.device_model.specs.Units.Stores.{Store};
ghost use Rattle.device_model.specs.Units.Function.{IsWhole, block_size};
ghost use Rattle.device_model.specs.Devices.Endings.{ending_of};
ghost use Rattle.dev_units.specs.Cores.{as_it_came, served_with};

use device_model::bytes::Bytes;
use device_model::messages::{Ending, Request};
use std::alloc::Global;
use std::marker::Model;
use tk_types::{Er, How};

/// A request, what it has brought, the blocks that are done, and the empty turns since the last of them. Of a read the room that
/// the request came with is what the bytes go into.
#[derive(Drop)]
pub(crate) struct Serving {
    pub(crate) request: Request,
    pub(crate) out: Bytes,
    pub(crate) blocks: u32,
    pub(crate) turns: u32,
}

impl Model for Serving {
    ghost use Rattle.dev_units.specs.Cores.{IsServing, Progress, as_it_came};

    ghost Value = { Progress };

    ghost view = { λ it. record { request = as_it_came it.request it.out; blocks = it.blocks; turns = it.turns; content = it.out.items } };

    ghost invariant = { λ it. IsServing it.request it.out it.blocks };
}

impl Serving {
    /// A whole request that was begun.
    pub(crate) fn new(alloc: Global, request: Request) -> Serving
        requires { IsWhole request }
        ensures { result ≡ record { request = request; blocks = 0; turns = 0; content = [] } }
    {
        let mut request = request;
        let mut out = Bytes::new(alloc);
        if !request.write {
            out = std::mem::replace(&mut request.bytes, out);
        }
        Serving {
            request,
            out,
            blocks: 0,
            turns: 0,
        }
    }

    /// The ending of the request, which ended in one way with so many bytes moved and an error.
    pub(crate) fn ended(self, device: u8, how: How, size: u32, error: Er) -> Ending
        ensures { (store : Store) → result ≡ ending_of device self.request how (served_with store size error self.content) }
    {
        let Serving {
            request,
            out,
            blocks: _,
            turns: _,
        } = self;
        ending(device, request, out, how, size, error)
    }
}

/// The ending of a request that has brought these bytes: a write brings none, and has no room for any.
pub(crate) fn ending(
    device: u8,
    request: Request,
    out: Bytes,
    how: How,
    size: u32,
    error: Er,
) -> Ending
    requires { request.write ≡ true → out ≡ record { items = []; room = 0 } }
    ensures { (store : Store) → result ≡ ending_of device (as_it_came request out) how (served_with store size error out.items) }
{
    Ending {
        device,
        request: request.id,
        number: request.number,
        how,
        size,
        error,
        taken: 0,
        bytes: out,
    }
}

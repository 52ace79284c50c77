//! The driver of the device, which serves each request inline.

ghost use Rattle.std.specs.Prelude.{◌≡◌, ◌<◌, ◌+◌, ◌-◌, ◌^◌};
ghost use Rattle.tk_types.specs.declared.line.How.TheVariants as hows;
ghost use Rattle.device_model.specs.Devices.Endings.{ending_of};
ghost use Rattle.device_model.specs.Units.Function.{IsWhole, unit};
ghost use Rattle.tk_gen.specs.Serving.{IsFree};

use dev_units::DriverCore;
use device_model::messages::{Ending, Message, Request};

/// The ID of the device of a generated script.
pub(crate) const DEVICE: u8 = 1;

/// A driver serves a request, block by block, to its ending.
pub(crate) fn served(driver: &mut DriverCore, request: Request) -> Ending
    requires free { IsFree driver.old }
    requires whole { IsWhole request }
    requires few { driver.old.taken < 2 ^ 64 - 1 }
    ensures ending { result ≡ record (ending_of driver.old.device request hows.Done (unit driver.old.kind driver.old.store request)) { taken = driver.old.taken + 1 } }
    ensures driver { driver.new ≡ record driver.old { store = (unit driver.old.kind driver.old.store request).store; taken = driver.old.taken + 1 } }
{
    driver.message(Message::Serve {
        device: DEVICE,
        request,
    });
    'turns: while driver.block() {}
    let Some(ending) = driver.ending() else {
        unreachable!();
    };
    ending
}

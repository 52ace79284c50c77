//! Endings that come from the drivers, and messages that go to them.

ghost use Rattle.std.specs.Prelude.{◌≡◌, ◌⊎◌, []};
ghost use Rattle.fleet_model.specs.Fleets.{HasChannel, device_of};
ghost use Rattle.turn_lemmas.specs.Going.{Hands, MayHand, OfferAnswers};

use dev_drivers::{Fleet, Started};
use device_model::messages::{Ending, Message};
use tk_kernel::{Arrival, Machine};
use tk_types::OutOfMemory;

/// Offers an ending to the machine, which takes it in exactly where the fleet lets it through and it is fit: the answer is true
/// then. Else it is dropped and counted in the fleet, and the machine is as before. Where the host's memory runs out the fleet
/// is as before.
pub fn offer<P: Started>(
    fleet: &mut Fleet<P>,
    machine: &mut Machine,
    ending: Ending,
) -> Result<bool, OutOfMemory>
    ensures { OfferAnswers fleet.old fleet.new machine.old machine.new ending result }
{
    if !fleet.may_accept(&ending) {
        fleet.drop_ending(ending.device);
        return Ok(false);
    }
    let device = ending.device;
    match machine.arrive(ending) {
        Ok(()) => Ok(true),
        Err(Arrival::Unfit) => {
            fleet.drop_ending(device);
            Ok(false)
        }
        Err(Arrival::OutOfMemory) => Err(OutOfMemory),
    }
}

/// The device of a request that a message brings, or else the one that was told before.
fn served_by(message: &Message, told: u8) -> u8
    ensures { (result ≡ device_of message.now) ⊎ (result ≡ told) }
{
    match message {
        Message::Serve { device, request: _ } => *device,
        Message::Abort { .. } => told,
        Message::Stop { .. } => told,
    }
}

/// Hands messages to the drivers of their devices, in order. Tells the device of the last request among them, or else the one
/// that was told before.
pub(crate) fn hand_all<P: Started>(fleet: &mut Fleet<P>, messages: Vec<Message>, told: u8) -> u8
    requires places { MayHand fleet.old messages.items }
    requires told { HasChannel fleet.old told }
    ensures hands { Hands fleet.old messages.items fleet.new [] }
    ensures told { HasChannel fleet.new result }
{
    let mut served = told;
    'messages: for message in messages {
        served = served_by(&message, served);
        fleet.hand(message);
    }
    served
}

//! What the kernel promises a driver of each message.

use device_model::messages::Message;
use rtrb::Protocol;

/// Each request in the inbox of a driver is whole.
#[derive(Clone, Copy)]
pub(crate) struct WholeServes;

impl Protocol<Message> for WholeServes {
    ghost use Rattle.std.specs.Prelude.{◌≡◌, true};
    ghost use Rattle.dev_drivers.specs.Wholes.{is_whole};

    ghost allows = { λ _ m. is_whole m ≡ true };
}

//! Messages to drivers that leave the kernel's tables.

ghost use Rattle.std.specs.Prelude.{◌≡◌, ◌++◌, OnOk};
ghost use Rattle.device_model.specs.Devices.Handing.{messages};
ghost use Rattle.machine_model.specs.States.State.{taken};

use crate::kernel::Kernel;
use device_model::messages::Message;
use std::alloc::AllocError;

/// Messages go behind others.
fn append(all: &mut Vec<Message>, mut new: Vec<Message>) -> Result<(), AllocError>
    ensures { OnOk result (all.new.items ≡ all.old.items ++ new.items) }
{
    all.append(&mut new)?;
    Ok(())
}

impl Kernel {
    /// The messages to drivers that wait in the table leave it.
    fn take_messages(&mut self) -> Vec<Message>
        ensures state { self.new ≡ taken self.old }
        ensures messages { result.items ≡ messages self.old.objects.devices }
    {
        dev_layer::messages(&mut self.devices)
    }

    /// The messages of an event go behind those that wait to be taken.
    pub(crate) fn gather(&mut self, all: &mut Vec<Message>) -> Result<(), AllocError>
        ensures state { OnOk result (self.new ≡ taken self.old) }
        ensures messages { OnOk result (all.new.items ≡ all.old.items ++ messages self.old.objects.devices) }
    {
        let new = self.take_messages();
        append(all, new)
    }
}

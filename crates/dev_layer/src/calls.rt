//! The calls on devices.

ghost use Rattle.std.specs.Prelude.{◌≡◌, ◌<◌, ◌^◌, IfOk, OnErr};
ghost use Rattle.device_model.specs.Devices.Calls.{device_call};
ghost use Rattle.dev_layer.specs.Parts.{AreFit, AreQueued, TakesMemory, left_with, parts_of};

use crate::requesting::Wanted;
use crate::table::Devices;
use crate::{closing, opening, requesting, suspending, waiting};
use kernel_base::Base;
use mail_buffer::Mails;
use std::alloc::AllocError;
use task_machine::Memory;
use tk_types::{DeviceCall, Outcome, Who};

/// A call on devices, by its row of the table of calls: the error of the first check that fails, with nothing changed, or its
/// effect up to the first settling. Memory of the host is taken by the four calls that make a request, for its bytes or for the room
/// of those that it reads, and by `tk_cls_dev`, for the message to a driver; where there is none of it, these calls change nothing.
/// The same error would come from the request that is the 2^64th of all, as none ever is.
#[tactic(auto, unfolding(device_model::specs::Devices::Calls::device_call))]
pub fn call(
    base: &mut Base,
    table: &mut Devices,
    mails: &mut Mails,
    memory: &mut Memory,
    who: Who,
    call: &DeviceCall,
) -> Result<Outcome, AllocError>
    requires few { base.old.made < 2 ^ 63 }
    requires early { base.old.time < 2 ^ 63 }
    requires queued { AreQueued base.old }
    requires fit { AreFit base.old mails.old }
    ensures ok { IfOk result (λ outcome. device_call (parts_of base.old table.old mails.old memory.old) who call.now ≡ left_with (parts_of base.new table.new mails.new memory.new) outcome) }
    ensures err { OnErr result (parts_of base.new table.new mails.new memory.new ≡ parts_of base.old table.old mails.old memory.old) }
    ensures taken { OnErr result (TakesMemory call.now) }
{
    match *call {
        DeviceCall::OpnDev { device, mode } => Ok(opening::open_device(table, device, mode)),
        DeviceCall::ReaDev {
            descriptor,
            start,
            address,
            size,
            timeout,
        } => {
            let wanted = Wanted {
                descriptor,
                write: false,
                start,
                address,
                size,
            };
            requesting::request(base, table, mails, memory, who, &wanted, timeout)
        }
        DeviceCall::WriDev {
            descriptor,
            start,
            address,
            size,
            timeout,
        } => {
            let wanted = Wanted {
                descriptor,
                write: true,
                start,
                address,
                size,
            };
            requesting::request(base, table, mails, memory, who, &wanted, timeout)
        }
        DeviceCall::SreaDev {
            descriptor,
            start,
            address,
            size,
        } => {
            let wanted = Wanted {
                descriptor,
                write: false,
                start,
                address,
                size,
            };
            requesting::request_whole(base, table, mails, memory, who, &wanted)
        }
        DeviceCall::SwriDev {
            descriptor,
            start,
            address,
            size,
        } => {
            let wanted = Wanted {
                descriptor,
                write: true,
                start,
                address,
                size,
            };
            requesting::request_whole(base, table, mails, memory, who, &wanted)
        }
        DeviceCall::WaiDev {
            descriptor,
            request,
            timeout,
        } => Ok(waiting::wait_ending(base, table, who, descriptor, request, timeout)),
        DeviceCall::ClsDev { descriptor } => closing::close_device(base, table, who, descriptor),
        DeviceCall::SusDev { mode } => {
            Ok(suspending::suspend_devices(base, table, mails, memory, who, mode))
        }
        DeviceCall::RefDev { device } => Ok(opening::refer_device(table, device)),
    }
}

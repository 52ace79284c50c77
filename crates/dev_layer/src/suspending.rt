//! The devices are suspended, and that is disabled and enabled.

ghost use Rattle.std.specs.Prelude.{◌≡◌, ◌≤◌, ◌<◌, ◌^◌, ◌&&◌, ◌==◌, List, Some, ℕ, if◌then◌else◌, false, reverse, true, unwrap_or};
ghost use Rattle.std.specs.List.{fold};
ghost use Rattle.std.specs.Option.{is_some};
ghost use Rattle.device_model.specs.Devices.Calls.{is_any_task, is_suspend_mode, may_suspend, suspend_devices, suspend_effect, suspended};
ghost use Rattle.device_model.specs.Devices.Handing.{any_given};
ghost use Rattle.device_model.specs.Devices.Servings.{serve_suspension};
ghost use Rattle.device_model.specs.Devices.Suspension.{event_sent, events_sent};
ghost use Rattle.device_model.specs.Devices.Tables.{device_ids, link_at};
ghost use Rattle.kernel_model.specs.Tasks.Base.{Base as BaseView};
ghost use Rattle.object_model.specs.Mails.Tables.{Mails as MailsView};
ghost use Rattle.dev_layer.specs.Parts.{AreFit, AreQueued, left_with, parts_of};

use crate::handing::SUSPENSION;
use crate::opening::one_of_three;
use crate::table::Devices;
use crate::waiters::{first_waiter, somebody_waits};
use kernel_base::answers::{caller, done, failed, plain};
use kernel_base::{Base, Order};
use kernel_model::marks::Mark;
use mail_buffer::{Mails, post};
use task_machine::Memory;
use tk_types::{Er, Outcome, SuspendMode, Who};

/// The event of a device that is suspended, and of one that goes on.
const SUSPENDED: u8 = 1;

const GOES_ON: u8 = 2;

/// How often suspending may be disabled.
const MOST: u16 = 65_535;

/// An event of a device goes to its event buffer; without one, and where it would be refused, it is dropped.
fn send_event(
    base: &mut Base,
    table: &Devices,
    mails: &mut Mails,
    memory: &mut Memory,
    event: u8,
    device: u8,
)
    requires small { device ≤ 8 }
    requires fit { AreFit base.old mails.old }
    ensures sent { parts_of base.new table.now mails.new memory.new ≡ event_sent event (parts_of base.old table.now mails.old memory.old) device }
    ensures fit { AreFit base.new mails.new }
{
    let id = table.buffer(device);
    mails.known_of_buffers();
    if !mails.has_mbf(id) {
        return;
    }
    let bytes = [event, 0, 0, 0, device, 0, 0, 0, 0, 0, 0, 0];
    let _sent = post(base, mails, memory, id, &bytes);
}

/// An event goes to the event buffer of a device, where there is that device.
fn send_if(
    base: &mut Base,
    table: &Devices,
    mails: &mut Mails,
    memory: &mut Memory,
    event: u8,
    device: u8,
)
    requires fit { AreFit base.old mails.old }
    ensures sent { parts_of base.new table.now mails.new memory.new ≡ (if is_some (link_at table.now device) then event_sent event (parts_of base.old table.now mails.old memory.old) device else parts_of base.old table.now mails.old memory.old) }
    ensures fit { AreFit base.new mails.new }
{
    table.known_of_device(device);
    if table.has_device(device) {
        send_event(base, table, mails, memory, event, device);
    }
}

/// An event goes to the event buffers of the devices by falling ID.
fn send_falling(base: &mut Base, table: &Devices, mails: &mut Mails, memory: &mut Memory, event: u8)
    requires fit { AreFit base.old mails.old }
    ensures sent { parts_of base.new table.now mails.new memory.new ≡ fold (event_sent event) (parts_of base.old table.now mails.old memory.old) (reverse (device_ids table.now)) }
    ensures fit { AreFit base.new mails.new }
{
    let count = table.device_slots();
    'devices: for passed in 1..count {
        send_if(base, table, mails, memory, event, count - passed);
    }
}

/// An event goes to the event buffers of the devices by rising ID.
fn send_rising(base: &mut Base, table: &Devices, mails: &mut Mails, memory: &mut Memory, event: u8)
    requires fit { AreFit base.old mails.old }
    ensures sent { parts_of base.new table.now mails.new memory.new ≡ fold (event_sent event) (parts_of base.old table.now mails.old memory.old) (device_ids table.now) }
    ensures fit { AreFit base.new mails.new }
{
    let count = table.device_slots();
    'devices: for device in 1..count {
        send_if(base, table, mails, memory, event, device);
    }
}

/// A suspension sends event 1 to the devices by falling ID, and then event 2 by rising ID.
#[tactic(auto, unfolding(device_model::specs::Devices::Suspension::events_sent))]
fn send_events(base: &mut Base, table: &Devices, mails: &mut Mails, memory: &mut Memory)
    requires fit { AreFit base.old mails.old }
    ensures { parts_of base.new table.now mails.new memory.new ≡ events_sent (parts_of base.old table.now mails.old memory.old) }
{
    send_falling(base, table, mails, memory, SUSPENDED);
    send_rising(base, table, mails, memory, GOES_ON);
}

/// The caller of a suspension goes on once no driver has a request: its wait ends first, and then the events are sent.
/// False, with nothing changed, comes exactly where it can't. It takes no memory of the host.
#[tactic(auto, unfolding(device_model::specs::Devices::Servings::serve_suspension))]
pub fn serve_suspension(
    base: &mut Base,
    table: &Devices,
    mails: &mut Mails,
    memory: &mut Memory,
) -> bool
    requires queued { AreQueued base.old }
    requires fit { AreFit base.old mails.old }
    ensures served { result ≡ is_some (serve_suspension (parts_of base.old table.now mails.old memory.old)) }
    ensures left { parts_of base.new table.now mails.new memory.new ≡ unwrap_or (serve_suspension (parts_of base.old table.now mails.old memory.old)) (parts_of base.old table.now mails.old memory.old) }
{
    let Some(task) = first_waiter(base, SUSPENSION) else {
        return false;
    };
    if table.any_given() {
        return false;
    }
    base.release(task, plain(table.off() as i32));
    send_events(base, table, mails, memory);
    true
}

/// Whether exactly one of the four words is given, and TD_FORCE beside TD_SUSPEND alone.
fn is_suspend_mode(mode: SuspendMode) -> bool
    ensures { result ≡ is_suspend_mode mode }
{
    if mode.td_suspend {
        return !(mode.td_dissus || (mode.td_enasus || mode.td_check));
    }
    one_of_three(mode.td_dissus, mode.td_enasus, mode.td_check) && !mode.td_force
}

/// Whether the devices may be suspended: it isn't disabled, or is forced, and no other task waits for that.
fn may_suspend(base: &Base, table: &Devices, mode: SuspendMode) -> bool
    requires { AreQueued base.now }
    ensures { (mails : MailsView) → (memory : List ℕ) → result ≡ may_suspend (parts_of base.now table.now mails memory) mode }
{
    (table.off() == 0 || mode.td_force) && !somebody_waits(base, SUSPENSION)
}

/// The devices are suspended at once where no driver has a request; else the caller waits for that.
fn suspend(
    base: &mut Base,
    table: &Devices,
    mails: &mut Mails,
    memory: &mut Memory,
    task: u8,
) -> Outcome
    requires few { base.old.made < 2 ^ 63 }
    requires early { base.old.time < 2 ^ 63 }
    requires queued { AreQueued base.old }
    requires fit { AreFit base.old mails.old }
    ensures { suspended (any_given table.now) (parts_of base.old table.now mails.old memory.old) task ≡ left_with (parts_of base.new table.now mails.new memory.new) result }
{
    if table.any_given() {
        base.make_wait(task, SUSPENSION, Order::Fifo, -1);
        return Outcome::Blocked;
    }
    send_events(base, table, mails, memory);
    done(table.off() as i32)
}

/// Suspending is disabled once more, or once less, or asked for.
fn count(table: &mut Devices, mode: SuspendMode) -> Outcome
    requires more { mode.td_dissus ≡ true → table.old.off < 65535 }
    requires counts { mode.td_suspend ≡ false }
    ensures { (b : BaseView) → (mails : MailsView) → (memory : List ℕ) → (task : ℕ) → suspend_effect (parts_of b table.old mails memory) task mode ≡ left_with (parts_of b table.new mails memory) result }
{
    let before = table.off();
    let mut off = before;
    if mode.td_dissus {
        off = before + 1;
    } else if mode.td_enasus {
        off = before.saturating_sub(1);
    }
    table.set_off(off);
    done(off as i32)
}

/// Whether suspending would be disabled more often than it may.
fn is_most(table: &Devices, mode: SuspendMode) -> bool
    ensures most { result ≡ (mode.td_dissus && table.now.off == 65535) }
    ensures less { result ≡ false → mode.td_dissus ≡ true → table.now.off < 65535 }
{
    mode.td_dissus && table.off() == MOST
}

/// `tk_sus_dev`: suspends the devices, disables or enables that, or asks. It takes no memory of the host.
#[tactic(auto, unfolding(device_model::specs::Devices::Calls::suspend_devices))]
pub(crate) fn suspend_devices(
    base: &mut Base,
    table: &mut Devices,
    mails: &mut Mails,
    memory: &mut Memory,
    who: Who,
    mode: SuspendMode,
) -> Outcome
    requires few { base.old.made < 2 ^ 63 }
    requires early { base.old.time < 2 ^ 63 }
    requires queued { AreQueued base.old }
    requires fit { AreFit base.old mails.old }
    ensures { suspend_devices (parts_of base.old table.old mails.old memory.old) who mode ≡ left_with (parts_of base.new table.new mails.new memory.new) result }
{
    if !is_suspend_mode(mode) {
        return failed(Er::Par);
    }
    if !base.allows(who, Mark::MayWait) {
        return failed(Er::Ctx);
    }
    if is_most(table, mode) {
        return failed(Er::QOvr);
    }
    if !mode.td_suspend {
        return count(table, mode);
    }
    if !may_suspend(base, table, mode) {
        return failed(Er::Busy);
    }
    suspend(base, table, mails, memory, caller(who))
}

//! Devices are opened, and found.

ghost use Rattle.std.specs.Prelude.{◌≡◌, List, ℕ};
ghost use Rattle.std.specs.List.{list_any};
ghost use Rattle.object_model.specs.Mails.Tables.{Mails};
ghost use Rattle.kernel_model.specs.Tasks.Base.{Base};
ghost use Rattle.device_model.specs.Devices.Calls.{clashes_with, excludes, is_busy, is_open_mode, one_of_three, open_device, reads, refer_device, writes};
ghost use Rattle.dev_layer.specs.Parts.{left_with, parts_of};

use crate::table::Devices;
use device_model::rows::Opened;
use kernel_base::answers::{done, failed};
use tk_types::{Er, OpenMode, Outcome};

/// Whether exactly one of three words is given.
pub(crate) fn one_of_three(a: bool, b: bool, c: bool) -> bool
    ensures { result ≡ one_of_three a b c }
{
    a && !(b || c) || !a && (b && !c || !b && c)
}

/// Whether a device may be opened so: to read, to write or for both, with one exclusion at most.
fn is_open_mode(mode: OpenMode) -> bool
    ensures { result ≡ is_open_mode mode }
{
    if !one_of_three(mode.td_read, mode.td_write, mode.td_update) {
        return false;
    }
    if !(mode.td_excl || (mode.td_wexcl || mode.td_rexcl)) {
        return true;
    }
    one_of_three(mode.td_excl, mode.td_wexcl, mode.td_rexcl)
}

/// Whether a device that is opened so is read from.
pub(crate) fn reads(mode: OpenMode) -> bool
    ensures { result ≡ reads mode }
{
    mode.td_read || mode.td_update
}

/// Whether a device that is opened so is written to.
pub(crate) fn writes(mode: OpenMode) -> bool
    ensures { result ≡ writes mode }
{
    mode.td_write || mode.td_update
}

/// Whether one way of opening leaves no room for another's access.
fn excludes(mode: OpenMode, other: OpenMode) -> bool
    ensures { result ≡ excludes mode other }
{
    mode.td_excl || mode.td_wexcl && writes(other) || mode.td_rexcl && reads(other)
}

/// Whether a descriptor is of a device and clashes with a way of opening it.
fn clashes_with(slot: Option<Opened>, device: u8, mode: OpenMode) -> bool
    ensures { result ≡ clashes_with device mode slot }
{
    let Some(opened) = slot else {
        return false;
    };
    if opened.device != device {
        return false;
    }
    excludes(mode, opened.mode) || excludes(opened.mode, mode)
}

/// Whether a device is open already in a way that clashes.
fn is_busy(table: &Devices, device: u8, mode: OpenMode) -> bool
    ensures { result ≡ is_busy table.now device mode }
{
    table
        .descriptors()
        .iter()
        .any(|slot| clashes_with(*slot, device, mode))
}

/// `tk_opn_dev`: answers the least free descriptor, which is one for the device from now on.
#[tactic(auto, unfolding(device_model::specs::Devices::Calls::open_device))]
pub(crate) fn open_device(table: &mut Devices, device: u8, mode: OpenMode) -> Outcome
    ensures { (b : Base) → (mails : Mails) → (memory : List ℕ) → open_device (parts_of b table.old mails memory) device mode ≡ left_with (parts_of b table.new mails memory) result }
{
    if !is_open_mode(mode) {
        return failed(Er::Par);
    }
    if !table.has_device(device) {
        return failed(Er::NoExs);
    }
    table.known_of_device(device);
    if is_busy(table, device, mode) {
        return failed(Er::Busy);
    }
    let descriptor = table.free_descriptor();
    if descriptor == 0 {
        return failed(Er::Limit);
    }
    table.set_opened(
        descriptor,
        Opened {
            device,
            mode,
            closing: false,
        },
    );
    done(descriptor as i32)
}

/// `tk_ref_dev`: answers the ID of a device.
#[tactic(auto, unfolding(device_model::specs::Devices::Calls::refer_device))]
pub(crate) fn refer_device(table: &Devices, device: u8) -> Outcome
    ensures { (b : Base) → (mails : Mails) → (memory : List ℕ) → refer_device (parts_of b table.now mails memory) device ≡ left_with (parts_of b table.now mails memory) result }
{
    if !table.has_device(device) {
        return failed(Er::NoExs);
    }
    done(device as i32)
}

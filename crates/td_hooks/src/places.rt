//! Where a list of IDs stands in the script's memory.

ghost use Rattle.std.specs.Prelude.{◌≡◌, ◌≤◌, ◌+◌, ◌*◌, ◌&&◌, pos, int_le, IfSome, Some, None, if◌then◌else◌};
ghost use Rattle.kernel_model.specs.Bodies.Statements.{memory_size};
ghost use Rattle.kernel_model.specs.Words.Checks.{natural};
ghost use Rattle.object_model.specs.Mails.Calls.{is_inside};
ghost use Rattle.td_hooks.specs.Places.{IsInside, with_id};

use task_machine::{Memory, size, write_bytes};

/// A place for IDs: it begins at an address, and has room for so many, four bytes each.
#[derive(Clone, Copy)]
pub(crate) struct Place {
    pub(crate) address: u32,
    pub(crate) most: u32,
}

/// The place that a call names, where that lies inside the script's memory.
pub(crate) fn place_of(memory: &Memory, address: i32, most: i32) -> Option<Place>
    ensures known { result ≡ (if int_le (pos 0) most && is_inside address (pos (4 * natural most)) then Some (record { address = natural address; most = natural most }) else None) }
    ensures inside { IfSome result (λ place. IsInside place memory.now) }
{
    if most < 0 || address < 0 {
        return None;
    }
    if address as u64 + 4 * most as u64 > size(memory) as u64 {
        return None;
    }
    Some(Place {
        address: address as u32,
        most: most as u32,
    })
}

/// Writes an ID behind so many others, where there is room for it.
pub(crate) fn write_id(memory: &mut Memory, place: Place, count: u32, id: u8)
    requires { place.address + 4 * place.most ≤ memory_size }
    ensures { memory.new ≡ with_id memory.old place.address place.most count id }
{
    if count < place.most {
        write_bytes(
            memory,
            place.address + 4 * count,
            &(id as u32).to_le_bytes(),
        );
    }
}

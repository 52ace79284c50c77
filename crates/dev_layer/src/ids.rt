//! Request IDs in an order, the earliest first.

ghost use Rattle.std.specs.Prelude.{◌≡◌, ◌<◌, true, vec_capacity, vec_len};
ghost use Rattle.kernel_model.specs.Words.Orders.{without};
ghost use Rattle.device_model.specs.Devices.Tables.{joined};

/// Takes an ID out of an order.
pub(crate) fn take_out(list: &mut Vec<u8>, id: u8)
    ensures items { list.new.items ≡ without id list.old.items }
    ensures capacity { vec_capacity list.new ≡ vec_capacity list.old }
{
    let mut kept = 0;
    'places: for place in 0..list.len() {
        let other = list[place];
        if other != id {
            list[kept] = other;
            kept += 1;
        }
    }
    list.truncate(kept);
}

/// Puts an ID behind the last one, where it belongs there. There is room for it.
pub(crate) fn join(list: &mut Vec<u8>, belongs: bool, id: u8)
    requires { belongs ≡ true → vec_len list.old < vec_capacity list.old }
    ensures items { list.new.items ≡ joined belongs id list.old.items }
    ensures capacity { vec_capacity list.new ≡ vec_capacity list.old }
{
    if belongs {
        list.push_reserved(id);
    }
}

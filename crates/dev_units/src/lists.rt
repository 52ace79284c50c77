//! Bytes that take the place of others. Nothing here takes memory.

ghost use Rattle.std.specs.Prelude.{◌≡◌, ◌≤◌, ◌+◌, length, vec_capacity};
ghost use Rattle.device_model.specs.Units.Stores.{write_at};

/// Bytes take the place of those that stand in a list from a start on.
pub(crate) fn overwrite(list: &mut Vec<u8>, start: usize, bytes: &[u8])
    requires { start + length bytes.now ≤ length list.old.items }
    ensures items { list.new.items ≡ write_at list.old.items start bytes.now }
    ensures capacity { vec_capacity list.new ≡ vec_capacity list.old }
{
    list[start..start + bytes.len()].copy_from_slice(bytes);
}

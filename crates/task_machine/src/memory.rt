//! The script's memory: one byte for each address.

ghost use Rattle.std.specs.Prelude.{◌≡◌, ◌+◌, ◌<◌, ◌≤◌, IfOk, drop, length, replicate, slice_index, slice_set, take};
ghost use Rattle.kernel_model.specs.Bodies.Statements.{memory_size};
ghost use Rattle.task_machine.specs.Bytes.{with_run};

use std::alloc::{AllocError, Global};
use std::marker::Model;

/// How many bytes the script's memory has.
pub(crate) const SIZE: u32 = 65_536;

/// The 65,536 bytes that the statements of a script load and store.
#[derive(Drop)]
pub struct Memory {
    bytes: Vec<u8>,
}

impl Model for Memory {
    ghost use Rattle.std.specs.Prelude.{ℕ, List};
    ghost use Rattle.task_machine.specs.Bytes.{IsMemory};

    ghost Value = { List ℕ };

    ghost view = { λ memory. memory.bytes.items };

    ghost invariant = { λ memory. IsMemory memory.bytes.items };
}

/// That many zeros.
fn zeros(alloc: Global, count: usize) -> Result<Vec<u8>, AllocError>
    ensures { IfOk result (λ bytes. bytes.items ≡ replicate count 0) }
{
    vec![in alloc; 0u8; count]
}

/// The memory at the start: each byte is zero.
pub fn new_memory(alloc: Global) -> Result<Memory, AllocError>
    ensures { IfOk result (λ memory. memory ≡ replicate memory_size 0) }
{
    Ok(Memory {
        bytes: zeros(alloc, SIZE as usize)?,
    })
}

/// The byte at an address below 65,536.
pub fn byte(memory: &Memory, addr: u32) -> u8
    requires { addr < memory_size }
    ensures { result ≡ slice_index memory.now addr }
{
    memory.bytes[addr as usize]
}

/// Writes the byte at an address below 65,536.
pub fn set_byte(memory: &mut Memory, addr: u32, value: u8)
    requires { addr < memory_size }
    ensures { memory.new ≡ slice_set memory.old addr value }
{
    memory.bytes[addr as usize] = value;
}

/// How many bytes the script's memory has: 65,536.
pub fn size(memory: &Memory) -> u32
    ensures size { result ≡ memory_size }
    ensures bytes { result ≡ length memory.now }
{
    memory.bytes.len() as u32
}

/// So many bytes from an address on, which end by 65,536.
pub fn bytes(memory: &Memory, addr: u32, count: u32) -> &[u8]
    requires { addr + count ≤ memory_size }
    ensures bytes { result.now ≡ take count (drop addr memory.now) }
    ensures len { length result.now ≡ count }
{
    &memory.bytes[addr as usize..(addr + count) as usize]
}

/// Writes bytes from an address on, which end by 65,536.
pub fn write_bytes(memory: &mut Memory, addr: u32, bytes: &[u8])
    requires { addr + length bytes.now ≤ memory_size }
    ensures whole { length memory.old ≡ memory_size }
    ensures written { memory.new ≡ with_run memory.old addr bytes.now }
{
    let start = addr as usize;
    memory.bytes[start..start + bytes.len()].copy_from_slice(bytes);
}

/// Copies so many bytes from one address on to another. Both runs end by 65,536; where they share bytes, those that stood
/// there before are copied.
pub fn move_bytes(memory: &mut Memory, from: u32, to: u32, count: u32)
    requires source { from + count ≤ memory_size }
    requires place { to + count ≤ memory_size }
    ensures whole { length memory.old ≡ memory_size }
    ensures moved { memory.new ≡ with_run memory.old to (take count (drop from memory.old)) }
{
    let start = from as usize;
    memory
        .bytes
        .copy_within(start..start + count as usize, to as usize);
}

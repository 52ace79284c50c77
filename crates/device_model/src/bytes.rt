//! Bytes with room for more. What is put into room that is there takes no memory.

ghost use Rattle.std.specs.Prelude.{◌≡◌, ◌≤◌, ◌<◌, ◌+◌, ◌-◌, ◌∷◌, ◌++◌, [], IfOk, length, vec_capacity};

use std::alloc::Global;
use std::marker::Model;
use tk_types::OutOfMemory;

/// A list of bytes, and how many more go in before memory would be needed.
#[derive(Drop, Debug)]
pub struct Bytes {
    list: Vec<u8>,
}

impl Model for Bytes {
    ghost use Rattle.std.specs.Prelude.{◌-◌, length, vec_capacity};
    ghost use Rattle.device_model.specs.RoomyBytes.{RoomyBytes};

    ghost Value = { RoomyBytes };

    ghost view = { λ bytes. record { items = bytes.list.items; room = vec_capacity bytes.list - length bytes.list.items } };
}

/// Puts bytes behind the last one of a list that has room for them. It takes no memory.
pub fn append(list: &mut Vec<u8>, bytes: &[u8])
    requires { length list.old.items + length bytes.now ≤ vec_capacity list.old }
    ensures items { list.new.items ≡ list.old.items ++ bytes.now }
    ensures capacity { vec_capacity list.new ≡ vec_capacity list.old }
{
    'bytes: for place in 0..bytes.len() {
        list.push_reserved(bytes[place]);
    }
}

impl Bytes {
    /// No byte, and no room. It takes no memory.
    pub fn new(alloc: Global) -> Bytes
        ensures items { result.items ≡ [] }
        ensures room { result.room ≡ 0 }
    {
        Bytes {
            list: Vec::new(alloc),
        }
    }

    /// No byte, and room for so many.
    pub fn with_room(alloc: Global, count: u32) -> Result<Bytes, OutOfMemory>
        ensures empty { IfOk result (λ bytes. bytes.items ≡ []) }
        ensures room { IfOk result (λ bytes. bytes.room ≡ count) }
    {
        Ok(Bytes {
            list: Vec::with_capacity(alloc, count as usize)?,
        })
    }

    /// The bytes of a vector, which it keeps with its room. It takes no memory.
    pub fn from_vec(list: Vec<u8>) -> Bytes
        ensures items { result.items ≡ list.items }
        ensures room { result.room ≡ vec_capacity list - length list.items }
    {
        Bytes { list }
    }

    /// The vector of the bytes, with its room. It takes no memory.
    pub fn into_vec(self) -> Vec<u8>
        ensures items { result.items ≡ self.items }
        ensures room { vec_capacity result - length result.items ≡ self.room }
    {
        let Bytes { list } = self;
        list
    }

    /// The bytes in order.
    pub fn as_slice(&self) -> &[u8]
        ensures { result.now ≡ self.now.items }
    {
        self.list.as_slice()
    }

    /// How many bytes more there is room for.
    pub fn room(&self) -> usize
        ensures { result ≡ self.now.room }
    {
        self.list.capacity() - self.list.len()
    }

    /// A byte goes behind the last one, where there is room. It takes no memory.
    pub fn push(&mut self, byte: u8)
        requires { 0 < self.old.room }
        ensures items { self.new.items ≡ self.old.items ++ byte ∷ [] }
        ensures room { self.new.room + 1 ≡ self.old.room }
    {
        self.list.push_reserved(byte);
    }

    /// Bytes go behind the last one, where there is room for all of them. It takes no memory.
    pub fn append(&mut self, bytes: &[u8])
        requires { length bytes.now ≤ self.old.room }
        ensures items { self.new.items ≡ self.old.items ++ bytes.now }
        ensures room { self.new.room + length bytes.now ≡ self.old.room }
    {
        append(&mut self.list, bytes);
    }
}

//! What passes between the kernel and the drivers of its devices.

use crate::bytes::Bytes;
use tk_types::{Er, How};

/// A request as its driver gets it. `number` counts the requests of its device that were handed over, from 1. A write has
/// `size` bytes; a read has none, and room for so many.
#[derive(Drop, Debug)]
pub struct Request {
    pub id: u8,
    pub number: u64,
    pub write: bool,
    pub start: u32,
    pub size: u32,
    pub bytes: Bytes,
}

/// A message of the kernel to a driver: a request to serve, the wish that the request with that number be aborted, and the
/// end of the run.
#[derive(Drop, Debug)]
pub enum Message {
    Serve { device: u8, request: Request },
    Abort { device: u8, number: u64 },
    Stop { device: u8 },
}

/// What a driver answers: how the request ended that it had, with the bytes that were read, and how many messages it had
/// taken by then. The bytes stand in the room that the request came with; of a write there are none.
#[derive(Drop, Debug)]
pub struct Ending {
    pub device: u8,
    pub request: u8,
    pub number: u64,
    pub how: How,
    pub size: u32,
    pub error: Er,
    pub taken: u64,
    pub bytes: Bytes,
}

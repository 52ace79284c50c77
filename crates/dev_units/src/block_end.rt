//! What the answer to a block is.

use tk_types::Er;

/// What one block of a request came to: there is more to be done, or the request has ended, with that many bytes moved and
/// that error. A request for no bytes answers in the place of the first how much there is to move.
#[derive(Clone, Copy, Debug, PartialEq, Eq)]
pub enum BlockEnd {
    More,
    Ended(u32, Er),
}

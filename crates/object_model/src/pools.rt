//! Rows of memory pools.

/// A live block of a variable pool: where it begins, and how many bytes it has.
#[derive(Clone, Copy, Debug, PartialEq, Eq)]
pub struct Block {
    pub offset: u32,
    pub size: u32,
}

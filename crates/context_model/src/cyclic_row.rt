//! A cyclic handler as the kernel's table has it.

/// A cyclic handler: the number of its body, whether it keeps its phase when it is started, its period in milliseconds, and
/// the time at which it first falls due by its creation. The time that it is set for stands among the events.
#[derive(Clone, Copy, Debug, PartialEq, Eq)]
pub struct CyclicRow {
    pub body: u8,
    pub phased: bool,
    pub period: u32,
    pub first: u64,
}

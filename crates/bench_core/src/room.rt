//! How much a bench in memory may hold.

/// The most bytes of the file and of what is sent, the most calls, and the most bytes of pieces written to the file.
/// A call that would pass one of them fails.
#[derive(Clone, Copy)]
pub struct Room {
    pub file: u64,
    pub sent: u64,
    pub calls: u64,
    pub written: u64,
}

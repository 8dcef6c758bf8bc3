//! The moves of the pool of places.

/// A move of the pool of places: the version that it made, by how much the number of free places changed (below 0
/// for a reservation), and the ticket of the operation that made it.
#[derive(Clone, Copy, Debug, PartialEq, Eq)]
pub struct Move {
    pub version: u64,
    pub change: i64,
    pub ticket: u64,
}

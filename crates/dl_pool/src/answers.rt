//! The answers of the calls.

/// What became of a reservation.
#[derive(Drop)]
pub enum Reserve {
    /// The places are reserved, and the reservation made this version.
    Got { version: u64 },
    /// Too few places were free at this version.
    NoRoom { need: u32, found: u32, version: u64 },
    /// Another seat made a move between the load, which found the version `seen`, and the exchange, which found the
    /// version `now`. Nothing was reserved.
    Raced { seen: u64, now: u64 },
}

/// What became of a claim.
#[derive(Drop)]
pub enum Claim {
    Got,
    /// The place was not vacant.
    Looked,
}

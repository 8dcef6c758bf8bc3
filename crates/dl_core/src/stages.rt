use dl_ir::{Answer, End};

/// How far a caller has come with the call in hand.
#[derive(Clone, Copy, Debug, PartialEq, Eq)]
pub enum Stage {
    /// No call is in hand.
    Idle,
    /// A call is in hand, and the operation has not entered: it has no ticket yet.
    Called,
    /// The steps of the operation are carried out.
    Running,
    /// The operation ended like this; what it holds is let go, given up or sealed.
    Ended(End),
}

/// What a caller knows of an object that it holds.
#[derive(Clone, Copy, Debug, PartialEq, Eq)]
pub struct Booked {
    /// The number of its kind.
    pub kind: u32,
    /// The number of fields that refer to it.
    pub fields: u32,
}

/// An operation that a caller has finished.
#[derive(Clone, Copy, Debug, PartialEq, Eq)]
pub struct Finished {
    /// Its number among its caller's operations, from 1, refused ones included.
    pub index: u32,
    pub ticket: u64,
    pub answer: Answer,
    /// The number of places that it returned.
    pub returned: u32,
}

/// The versions of the pool that an operation's moves made; 0 where there was no move.
#[derive(Clone, Copy, Debug, PartialEq, Eq)]
pub struct Versions {
    pub reserved_at: u64,
    pub returned_at: u64,
}

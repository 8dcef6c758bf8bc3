//! What operations come to: how they end, what they answer, and the records of those carried out and of those refused.

use crate::emits::Emits;
use crate::names::Name;

/// Why an expression or a condition has no value.
#[derive(Clone, Copy, Debug, PartialEq, Eq)]
pub enum Fault {
    /// A result was outside signed 64 bits.
    Overflow,
    /// A divisor was 0.
    DivZero,
}

/// How an operation ended.
#[derive(Clone, Copy, Debug, PartialEq, Eq)]
pub enum End {
    /// It returned this number, or fell off the end of its body with 0.
    Ok(i64),
    /// A field of null was read or written.
    Null,
    /// A result was outside signed 64 bits.
    Overflow,
    /// A divisor was 0.
    DivZero,
    /// A loop was to be tested, and no turn was left.
    Fuel,
    /// An object was to be made, and as many as allowed had been made.
    Quota,
    /// A number was to be emitted, and 16 had been emitted.
    Emits,
    /// A reference to this sealed object was followed or overwritten.
    Sealed(Name),
}

/// What an operation answered: how it ended, the least name that was newly sealed, if one was, and the numbers that it
/// emitted.
#[derive(Clone, Copy, Debug, PartialEq, Eq)]
pub struct Answer {
    pub end: End,
    pub breach: Option<Name>,
    pub emitted: Emits,
}

/// An operation that was carried out. The version of a reservation or a return is 0 where there was none.
#[derive(Clone, Copy, Debug, PartialEq, Eq)]
pub struct Entry {
    /// Its place in the one order of all operations.
    pub ticket: u64,
    /// The number of its caller, from 1.
    pub caller: u32,
    /// Its number among its caller's operations, from 1, refused ones included.
    pub index: u32,
    pub answer: Answer,
    /// The version of the pool that its reservation made.
    pub reserved_at: u64,
    /// The number of places that it returned.
    pub returned: u32,
    /// The version of the pool that its return made.
    pub returned_at: u64,
}

/// An operation that was refused, since the pool had `found` places at `version`, fewer than the `need` of it.
#[derive(Clone, Copy, Debug, PartialEq, Eq)]
pub struct Refusal {
    pub caller: u32,
    pub index: u32,
    pub need: u32,
    pub found: u32,
    pub version: u64,
}

//! What a seat knows of the pool. No value of these types is made: they stand in views, which contracts alone see.

use std::collections::LinkedList;

/// A change of the number of free places, and the version that it made.
pub struct Move {
    pub version: u64,
    pub taken: u64,
    pub back: u64,
}

/// A reservation that was refused, with the number of free places and the version that it found.
pub struct Refusal {
    pub need: u64,
    pub found: u64,
    pub version: u64,
}

/// What a caller's list says, event by event.
pub enum Event {
    Moved(Move),
    Refused(Refusal),
}

/// The list of one caller, in the order in which its events came.
pub struct Account {
    pub number: u64,
    pub events: LinkedList<Event>,
}

/// A step on a shared word: the word, and the number found where the step tells one.
pub enum Seen {
    Nothing,
    Load(u64, u64),
    Exchange(u64, u64),
    Added(u64, u64),
    Stored(u64),
}

/// The number of steps made, and the last two of them.
pub struct Look {
    pub count: u64,
    pub last: Seen,
    pub before: Seen,
}

/// The pool's part of a view. A note has the number 0, no lists and no spares.
pub struct Part {
    /// The caller whose seat this is, or 0.
    pub number: u64,
    pub events: LinkedList<Event>,
    /// The accounts of the callers whose seats were joined to this one.
    pub others: LinkedList<Account>,
    /// The least number that this seat may still deal out, or 0 where it deals none.
    pub dealing: u64,
    /// The places that are reserved and not claimed.
    pub spares: u64,
    pub known: u64,
    pub look: Look,
}

/// A view: the pool's part, and what the table's own rule has beside it.
pub struct Member<X> {
    pub pool: Part,
    pub rest: X,
}

/// Where the places stand: the state of place p is the word `first + p * step`, and 0 where the place is vacant.
#[derive(Clone, Copy)]
pub struct Layout {
    pub first: u32,
    pub step: u32,
    pub places: u32,
}

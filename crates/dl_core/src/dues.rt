use dl_ir::{End, Name, Value};

/// The event that comes next for a caller.
#[derive(Clone, Copy, Debug, PartialEq, Eq)]
pub enum Due {
    /// No call is in hand.
    Nothing,
    /// So many places are reserved.
    Reserves {
        need: u32,
    },
    /// The root of this number is taken.
    TakesRoot {
        number: u32,
    },
    /// A ticket is drawn.
    Enters,
    /// A field is read.
    Reads {
        name: Name,
        field: u32,
    },
    /// A field is written.
    Writes {
        name: Name,
        field: u32,
        value: Value,
    },
    /// A hidden object is taken, or seen to be sealed.
    Takes {
        name: Name,
    },
    LetsGo {
        name: Name,
    },
    GivesUp {
        name: Name,
    },
    Seals {
        name: Name,
    },
    /// An object of a kind is made.
    Makes {
        name: Name,
        kind: u32,
    },
    /// The operation, which ended like this, is finished.
    Finishes {
        end: End,
    },
}

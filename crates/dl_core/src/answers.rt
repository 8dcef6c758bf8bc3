use dl_ir::{Entry, Name};

/// What one caller can hold so that another waits for it.
#[derive(Clone, Copy, Debug, PartialEq, Eq)]
pub enum Lock {
    /// The one turn for all callers.
    Turn,
    /// The root with this number.
    Root(u32),
    /// The object of this name.
    Object(Name),
    /// The object that stands at this place.
    Place(u32),
}

/// One step that a caller makes on what all callers share.
#[derive(Clone, Copy, Debug, PartialEq, Eq)]
pub enum Event {
    /// Places were reserved, which made this version of the pool.
    Reserve { need: u32, version: u64 },
    /// A root was taken.
    TakeRoot { root: u32 },
    /// The operation drew its ticket.
    Enter { ticket: u64 },
    /// A field was read.
    Read { name: Name, field: u32 },
    /// A field was written.
    Write { name: Name, field: u32 },
    /// A hidden object was taken.
    Take { name: Name },
    /// An object was to be taken, and is sealed.
    SeeSealed { name: Name },
    /// An object was let go, and is free.
    LetGo { name: Name },
    /// An object to which nothing refers was given up, and its place is spare.
    GiveUp { name: Name },
    /// An object was sealed.
    Seal { name: Name },
    /// An object was made.
    Make { name: Name },
}

/// What came of giving a caller a step.
#[derive(Clone, Copy, Debug, PartialEq, Eq)]
pub enum Progress {
    /// The event took place.
    Moved(Event),
    /// The next event takes what another caller holds.
    Waiting { lock: Lock, by: u32 },
    /// The call was refused, since the pool had `found` places at `version`, fewer than its `need`.
    Refused { need: u32, found: u32, version: u64 },
    /// The operation is finished.
    Done { entry: Entry },
    /// No call is in hand.
    Idle,
    /// The place that was tried is not vacant.
    Looked { place: u32 },
    /// The pool changed between a look at it and the change that was to follow.
    Raced { seen: u64, now: u64 },
}

//! What a caller answers, as tables write it.

use dl_core::{Event, Lock, Progress};
use dl_ir::{Answer, Emits, End, Entry, Name};

/// The ticket and the index of an object's name.
pub type Named = (u64, u32);

/// The version of an operation's reservation, the number of places that it returned, and the version of that.
pub type Moved = [u32; 3];

/// What a caller answers.
#[derive(Clone, Copy)]
pub enum Told {
    /// So many places are reserved, which makes this version.
    Reserves(u32, u64),
    TakesRoot(u32),
    Enters(u64),
    /// A field is read.
    Reads(Named, u32),
    /// A field is written.
    Writes(Named, u32),
    Takes(Named),
    SeesSealed(Named),
    LetsGo(Named),
    GivesUp(Named),
    Seals(Named),
    Makes(Named),
    /// The caller waits for the object, which another holds.
    Waits(Named, u32),
    /// So many places are needed, and so many free, at this version.
    IsRefused(u32, u32, u64),
    /// The operation with this ticket and index returned this number.
    Ends(u64, u32, i64, Moved),
    /// It returned this number, and sealed this object first.
    EndsSealing(u64, u32, i64, Named, Moved),
    /// It ended at this object, which is sealed.
    EndsSealed(u64, u32, Named, Moved),
    /// No call is in hand.
    Rests,
}

/// The name of an object.
pub fn name((ticket, index): Named) -> Name {
    Name { ticket, index }
}

fn waits(lock: Named, by: u32) -> Progress {
    let lock = match lock {
        (0, root) => Lock::Root(root),
        object => Lock::Object(name(object)),
    };
    Progress::Waiting { lock, by }
}

fn finishes(
    caller: u32,
    (ticket, index): (u64, u32),
    end: End,
    breach: Option<Name>,
    [reserved_at, returned, returned_at]: Moved,
) -> Progress {
    let answer = Answer {
        end,
        breach,
        emitted: Emits::new(),
    };
    let entry = Entry {
        ticket,
        caller,
        index,
        answer,
        reserved_at: reserved_at as u64,
        returned,
        returned_at: returned_at as u64,
    };
    Progress::Done { entry }
}

fn moved(told: Told) -> Option<Event> {
    let event = match told {
        Told::Reserves(need, version) => Event::Reserve { need, version },
        Told::TakesRoot(root) => Event::TakeRoot { root },
        Told::Enters(ticket) => Event::Enter { ticket },
        Told::Reads(object, field) => Event::Read {
            name: name(object),
            field,
        },
        Told::Writes(object, field) => Event::Write {
            name: name(object),
            field,
        },
        Told::Takes(object) => Event::Take { name: name(object) },
        Told::SeesSealed(object) => Event::SeeSealed { name: name(object) },
        Told::LetsGo(object) => Event::LetGo { name: name(object) },
        Told::GivesUp(object) => Event::GiveUp { name: name(object) },
        Told::Seals(object) => Event::Seal { name: name(object) },
        Told::Makes(object) => Event::Make { name: name(object) },
        _ => return None,
    };
    Some(event)
}

/// The answer of a caller in full.
pub fn in_full(caller: u32, told: Told) -> Progress {
    match told {
        Told::Waits(lock, by) => waits(lock, by),
        Told::IsRefused(need, found, version) => Progress::Refused {
            need,
            found,
            version,
        },
        Told::Ends(ticket, index, number, pool) => {
            finishes(caller, (ticket, index), End::Ok(number), None, pool)
        }
        Told::EndsSealing(ticket, index, number, object, pool) => {
            finishes(
                caller,
                (ticket, index),
                End::Ok(number),
                Some(name(object)),
                pool,
            )
        }
        Told::EndsSealed(ticket, index, object, pool) => {
            finishes(
                caller,
                (ticket, index),
                End::Sealed(name(object)),
                None,
                pool,
            )
        }
        other => match moved(other) {
            Some(event) => Progress::Moved(event),
            None => Progress::Idle,
        },
    }
}

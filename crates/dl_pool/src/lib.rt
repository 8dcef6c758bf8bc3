//! The pool of places: reservations, returns, claims and vacations by single steps on the shared words of a table,
//! proved for any number of threads. `specs/Rule.antt` has the rule that all the seats of a table keep together.
#![tactic(auto)]

mod answers;
mod laws;
mod places;
mod rules;
mod seats;
mod views;
mod words;

pub use answers::{Claim, Reserve};
pub use laws::whole_log;
pub use places::{claim, vacate};
pub use rules::{Joining, Onward, Parting, Pooled};
pub use seats::{deal, join, learn, note};
pub use views::{Account, Event, Layout, Look, Member, Move, Part, Refusal, Seen};
pub use words::{give_back, reserve};

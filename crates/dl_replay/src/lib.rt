//! The replay of a history: whether it is legal, and the heap to which it leads.
#![tactic(auto)]

mod copies;
mod replays;

pub use replays::{ReplayFault, Replayed, covered_entries_name_operations, replay};

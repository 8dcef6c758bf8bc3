//! The shape of a heap: what refers to an object, whether a heap is a forest, and how it is settled when an
//! operation has ended. From which heaps a run may start, and what an operation, a replay and a pool log mean, is defined
//! here too, in `specs/`.
#![tactic(auto)]

mod references;
mod settling;
mod startable;

pub use references::{has_countable_fields, is_forest, refs};
pub use settling::{order_of_removals, settle};
pub use startable::starts_are_startable;

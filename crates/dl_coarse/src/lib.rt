//! One turn for all callers: who has it runs its operation to the end.
#![tactic(auto)]

mod closings;
mod going;
mod lone;
mod machines;
mod openings;
mod passes;
mod rule;
mod running;
mod steps;
mod turns;

pub use machines::Machine;
pub use passes::{Coarse, Note, Pass};
pub use rule::{Hold, Turn};
pub use steps::Words;

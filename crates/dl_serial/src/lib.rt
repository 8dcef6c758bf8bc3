//! Running operations one after another, as their meaning says.
#![tactic(auto)]

mod frames;
mod operations;
mod run;
mod serving;
mod steps;

pub use operations::run_op;
pub use serving::{Served, greatest_ticket, run_calls};

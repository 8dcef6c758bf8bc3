//! Generated work: the operation files and the schedule that a seed gives, and the summary of a run of them.
//! `docs/FORMATS.md` has the generator and the form of the summary.
#![tactic(auto)]

mod draws;
mod summaries;
mod works;

pub use summaries::{Figures, write_summary};
pub use works::{Work, make_work};

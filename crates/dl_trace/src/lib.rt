//! Scheduled runs of the machine of all callers, and the trace that is printed of them. `docs/FORMATS.md` has the form of the
//! trace.
#![tactic(auto)]

mod laws;
mod lines;
mod quiet;
mod rounds;
mod running;
mod steps;
mod tally;

pub use laws::{scheduled_runs_are_over, scheduled_runs_end, scheduled_runs_reach};
pub use quiet::run_quiet;
pub use running::run_schedule;
pub use tally::Counts;

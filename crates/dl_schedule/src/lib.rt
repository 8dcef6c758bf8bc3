//! The reader of schedule files: how many steps a text gives to which caller, in order, and the first fault of a text that
//! says no schedule. `docs/LANGUAGE.md` tells the form.
#![tactic(auto)]

mod give;
mod reading;

pub use give::{Give, Schedule, ScheduleFault};
pub use reading::read_schedule;

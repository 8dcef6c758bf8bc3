//! Calls that wait until they are answered, and files of operations that run side by side, over anything that runs operations
//! for several callers.
#![tactic(auto)]

mod calls;
mod files;
mod replies;

pub use calls::{call, run_file};
pub use files::run_files;
pub use replies::{Gate, Open, Reply};

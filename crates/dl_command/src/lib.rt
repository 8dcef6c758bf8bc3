//! What the program does, over files, a sink and a gate that are handed in: words, files, and the commands.
//! `docs/FORMATS.md` tells the words and what is printed.
#![tactic(auto)]

mod loading;
mod numbers;
mod reading;
mod run;
mod show;
mod status;
mod step;
mod top;
mod wanted;
mod words;
mod work;

pub use status::{HeapWhy, ModuleWhy, OpsWhy, Status, exit_code, status_line};
pub use top::{Ending, domlock, domlock_still};
pub use words::{Words, WordsFault};

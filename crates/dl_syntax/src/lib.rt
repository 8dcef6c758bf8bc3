//! The reader of operation files: which calls of a module a text says, and the first fault of a text that says none.
//! `docs/LANGUAGE.md` tells the form.
#![tactic(auto)]

mod calls;
mod number;
mod operation_file;
mod words;

pub use calls::CallsFault;
pub use number::{digits_up_to, is_digit};
pub use operation_file::{read_calls, wrong_byte};
pub use words::{before_comment, first_line, next_word};

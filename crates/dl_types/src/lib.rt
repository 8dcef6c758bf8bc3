//! The types of the module language: which trees are modules, and the first fault of those that are none.
#![tactic(auto)]

mod declarations;
mod fault;
mod module;
mod names;
mod operands;
mod statements;

pub use fault::TypeFault;
pub use module::{check, checked_modules};

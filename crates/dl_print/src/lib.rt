//! The canonical text of a module: one text for each tree, laid out as a person would write it. `docs/LANGUAGE.md`
//! tells its form.
#![tactic(auto)]

mod declarations;
mod expressions;
mod laws;
mod module;
mod operands;
mod statements;
mod words;

pub use laws::pieces_are_tokens;
pub use module::print_module;

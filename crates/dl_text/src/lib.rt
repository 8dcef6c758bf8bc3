//! Text in and text out: the tokens of a text with their places, for the readers above, and the buffer through which
//! a text is written.
#![tactic(auto)]

mod class;
mod out;
#[cfg(test)]
mod out_tests;
mod scan;
#[cfg(test)]
mod tests;
mod token;

pub use class::{Class, class_of};
pub use dl_io::{Failed, Sink};
pub use out::Out;
pub use scan::{one_reading, tokens};
pub use token::{TextFault, Token, TokenKind, Tokens};

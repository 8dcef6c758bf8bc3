//! The reader of heap files: the heap whose printed part a text has, or the first fault of a text that has none.
//! `docs/FORMATS.md` has the form.
#![tactic(auto)]

mod building;
mod entries;
mod fault;
mod front;
mod laws;
mod lines;
mod numbers;
mod objects;
mod reader;
mod values;

pub use building::{build, hidden_in};
pub use entries::Entries;
pub use fault::HeapFault;
pub use front::{Head, find_heap, read_head};
pub use laws::{
    heaps_hold_small, is_read_once, is_spelt_once, what_is_read_is_spelt, what_is_spelt_is_read,
};
pub use lines::{first_line, next_object};
pub use objects::read_objects;
pub use reader::read_heap;

//! The history of a run: its entries in the order of their tickets, and the report that is printed of it.
//! `docs/FORMATS.md` has the form of the report.
#![tactic(auto)]

mod heap_lines;
mod histories;
mod merging;
mod operations;
mod pieces;
mod pool;
mod reports;

pub use histories::History;
pub use merging::{MergeRoom, gather, history_of, merge};
pub use operations::call_of;
pub use pieces::{put_answer, put_dotted, put_name};
pub use reports::write_report;

//! Files that are read and a sink that is written to, in memory and real.
#![tactic(auto)]

mod memory_files;
mod memory_sink;
mod pieces;
mod real;
mod traits;

pub use memory_files::MemFiles;
pub use memory_sink::MemSink;
pub use real::{RealFiles, RealSink};
pub use traits::{Failed, Files, Memory, Sink};

#[cfg(test)]
mod tests;

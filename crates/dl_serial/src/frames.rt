//! What a running operation has.

use dl_ir::{Emits, End, Value};

/// What the running operation is given: its ticket, and the number of objects that it may make.
#[derive(Clone, Copy, Debug)]
pub struct Task {
    pub ticket: u64,
    pub allocs: u32,
}

/// The locals of a running operation, the turns that it has left, the number of objects that it has made, the numbers
/// that it has emitted, and how it ended, if it did.
#[derive(Drop)]
pub struct Frame {
    pub locals: Vec<Value>,
    pub turns: u32,
    pub made: u32,
    pub emitted: Emits,
    pub end: Option<End>,
}

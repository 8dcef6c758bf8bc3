//! What a run leaves.

use crate::answers::{Entry, Refusal};
use crate::heaps::Heap;
use sqlite_items::Items;

/// What is left when a run is over: its heap, the entries and the refusals of each caller, and the number of places
/// that are free. There is a list for each caller, from the first on, in order of index.
#[derive(Drop)]
pub struct Closed {
    pub heap: Heap,
    pub entries: Items<Items<Entry>>,
    pub refusals: Items<Items<Refusal>>,
    pub free: u32,
}

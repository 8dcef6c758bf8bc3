//! The calls of an operation file.

use sqlite_items::Items;

/// One operation of an operation file, by its number in the module, with its arguments. A root argument is the
/// number of the root.
#[derive(Debug, Drop)]
pub struct Call {
    pub op: u32,
    pub args: Items<i64>,
}

/// The operations of one file, in order.
pub type Calls = Items<Call>;

//! What a heap has under the name of an object.

use crate::objects::Obj;
use crate::parts::Near;

/// An object, and the number of fields that refer to it.
#[derive(Drop)]
pub struct Row {
    pub refs: u64,
    pub object: Obj,
}

/// What is kept of an object in one row of a table: all but the values of the fields behind the fourth.
#[derive(Drop)]
pub struct Head {
    /// The number of fields that refer to the object.
    pub refs: u64,
    pub kind: u32,
    pub sealed: bool,
    /// Whether it has more fields than four.
    pub wide: bool,
    pub near: Near,
}

//! The objects of a heap file, as its lines tell them.

use dl_ir::{Name, Obj};
use sqlite_items::Items;

/// Objects under their names, in the order of their lines.
pub type Entries = Items<(Name, Obj)>;

//! What the crates of domlock speak of: names, modules, calls, heaps, answers and entries, and what evaluating
//! an expression and running a statement mean. `docs/SEMANTICS.md` tells the rules.
#![tactic(auto)]

mod answers;
mod calls;
mod cells;
mod census;
mod closed;
mod emits;
mod expressions;
mod heaps;
mod hints;
mod iterators;
mod marks;
mod modules;
mod moves;
mod names;
mod objects;
mod parts;
mod rows;
mod statements;
mod stores;
mod tables;
mod views;

pub use answers::{Answer, End, Entry, Fault, Refusal};
pub use calls::{Call, Calls};
pub use closed::Closed;
pub use emits::Emits;
pub use expressions::{Cond, Expr, Op, RefSide, Rel};
pub use heaps::Heap;
pub use iterators::{FieldsIter, HeapIter, TableIter};
pub use modules::{FieldDecl, KindDecl, LocalDecl, Module, OpDecl, Text, Ty};
pub use moves::Move;
pub use names::{Name, Value};
pub use objects::{Fields, Obj};
pub use statements::{Block, Stmt};
pub use tables::Table;
pub use views::{FieldsRef, ObjRef};

//! The steps of instrumented code.

use dl_ir::{Cond, Expr};
use sqlite_items::Items;

/// The steps of one operation, numbered from 0.
pub type Steps = Items<Step>;

/// What a local is set to.
#[derive(Clone, Copy, Debug, PartialEq, Eq)]
pub enum Origin {
    /// What the hand holds, which then becomes empty.
    Hand,
    /// What another local holds.
    Local(u32),
}

/// What is written into a field.
#[derive(Clone, Copy, Debug, PartialEq, Eq)]
pub enum Content {
    /// The number that the hand holds.
    Number,
    /// The reference that a local holds.
    Local(u32),
    Null,
}

/// A step of instrumented code. Locals, fields and kinds are named by their numbers in the module, steps by their places.
#[derive(Debug, Drop)]
pub enum Step {
    /// `read q.f`: the hand gets the field's value; the operation ends where the local is null.
    Read {
        local: u32,
        field: u32,
    },
    /// `want`: the object that the hand refers to is held from here on.
    Want,
    /// `set x`, or `copy p q`
    Set {
        local: u32,
        from: Origin,
    },
    /// `drop p`: the local becomes null.
    Drop {
        local: u32,
    },
    /// `make K`: the hand refers to a new object.
    Make {
        kind: u32,
    },
    /// `eval E`: the hand gets the value.
    Eval {
        value: Expr,
    },
    /// `write p.d`, `write q.f = p` or `write q.f = null`: the operation ends where the local of the object is null.
    Write {
        local: u32,
        field: u32,
        content: Content,
    },
    /// `emit`: the number that the hand holds is emitted; the operation ends where 16 numbers are emitted already.
    Emit,
    /// `test C else L`, or `turn C else L`, which is a loop's test and takes a turn first: a false condition goes on at the place.
    Test {
        cond: Cond,
        is_turn: bool,
        place: usize,
    },
    /// `jump L`: goes on at the place.
    Jump {
        place: usize,
    },
    /// `give E`: the operation ends with the value.
    Give {
        value: Expr,
    },
}

//! The statements of an operation.

use crate::expressions::{Cond, Expr};
use sqlite_items::Items;

/// A list of statements.
pub type Block = Items<Stmt>;

/// A statement. Locals (`x`, `p`, `q`), fields (`f`) and kinds are named by their numbers.
#[derive(Debug, Drop)]
pub enum Stmt {
    /// `x = e;`
    SetInt { x: u32, e: Expr },
    /// `x = p.f;`, where the field holds a number
    Load { x: u32, p: u32, f: u32 },
    /// `p.f = e;`, where the field holds a number
    Store { p: u32, f: u32, e: Expr },
    /// `p = q;`
    Copy { p: u32, q: u32 },
    /// `p = null;`
    Null { p: u32 },
    /// `p = q.f;`, where the field holds a reference
    Follow { p: u32, q: u32, f: u32 },
    /// `p = new K;`
    New { p: u32, kind: u32 },
    /// `q.f = p;`, where the field holds a reference
    Link { q: u32, f: u32, p: u32 },
    /// `q.f = null;`
    Cut { q: u32, f: u32 },
    /// `if (c) {..} else {..}`
    If { c: Cond, yes: Block, no: Block },
    /// `while (c) {..}`
    While { c: Cond, body: Block },
    /// `emit e;`, in version 2 of the language
    Emit { e: Expr },
    /// `return e;`
    Return { e: Expr },
}

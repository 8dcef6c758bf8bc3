//! The trees of module texts.
use dl_ir::{Op, Rel, Text};
use sqlite_items::{Boxed, Items};

/// What a module text says. It keeps neither brackets nor comments, but the line of each declaration, statement and
/// name, counted from 1.
#[derive(Debug, Drop)]
pub struct Tree {
    /// The version of the language: 1 or 2.
    pub version: u32,
    pub kinds: Items<TreeKind>,
    pub ops: Items<TreeOp>,
    /// The line of the last token.
    pub last: u32,
}

/// A name where it stands in the text.
#[derive(Debug, Drop)]
pub struct Word {
    pub text: Text,
    pub line: u32,
}

/// A field, a parameter or a var. The type of numbers is the word `int`.
#[derive(Debug, Drop)]
pub struct TreeField {
    pub name: Word,
    pub ty: Word,
}

/// The declaration of a kind of objects.
#[derive(Debug, Drop)]
pub struct TreeKind {
    pub name: Word,
    pub is_root: bool,
    /// The number of roots of a root kind; 0 for a node kind.
    pub count: u32,
    pub fields: Items<TreeField>,
}

/// The declaration of an operation.
#[derive(Debug, Drop)]
pub struct TreeOp {
    pub name: Word,
    pub params: Items<TreeField>,
    pub vars: Items<TreeField>,
    pub allocs: u32,
    pub fuel: u32,
    pub body: TreeBlock,
}

/// A list of statements.
pub type TreeBlock = Items<TreeStmt>;

/// A statement, with the line of its first token.
#[cycle(tree)]
#[derive(Debug, Drop)]
pub struct TreeStmt {
    pub line: u32,
    pub what: What,
}

/// What a statement says. A missing `else` block and an empty one are the same.
#[cycle(tree)]
#[derive(Debug, Drop)]
pub enum What {
    /// `x = ..;`
    Assign {
        x: Word,
        rhs: Rhs,
    },
    /// `p.f = ..;`
    Store {
        p: Word,
        f: Word,
        rhs: Side,
    },
    /// `if (c) {..} else {..}`
    If {
        c: TreeCond,
        yes: Items<TreeStmt>,
        no: Items<TreeStmt>,
    },
    /// `while (c) {..}`
    While {
        c: TreeCond,
        body: Items<TreeStmt>,
    },
    /// `return e;`
    Return {
        e: TreeExpr,
    },
    /// `emit e;`, in version 2 alone.
    Emit {
        e: TreeExpr,
    },
}

/// The right side of an assignment to a local.
#[derive(Debug, Drop)]
pub enum Rhs {
    Null,
    New(Word),
    Field { p: Word, f: Word },
    Sum(TreeExpr),
}

/// What is stored into a field, or a side of a condition.
#[derive(Debug, Drop)]
pub enum Side {
    Null,
    Sum(TreeExpr),
}

/// A condition.
#[derive(Debug, Drop)]
pub struct TreeCond {
    pub rel: Rel,
    pub left: Side,
    pub right: Side,
}

/// An expression.
#[derive(Debug, Drop)]
pub enum TreeExpr {
    Num(i64),
    Name(Word),
    Neg(Boxed<TreeExpr>),
    Bin {
        op: Op,
        left: Boxed<TreeExpr>,
        right: Boxed<TreeExpr>,
    },
}

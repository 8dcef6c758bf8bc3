//! Expressions over numbers, and conditions.

use sqlite_items::Boxed;

/// A binary operator on numbers.
#[derive(Clone, Copy, Debug, PartialEq, Eq)]
pub enum Op {
    Add,
    Sub,
    Mul,
    Div,
    Rem,
}

/// An expression over the locals that hold numbers.
#[derive(Debug, Drop)]
pub enum Expr {
    Num(i64),
    Local(u32),
    Neg(Boxed<Expr>),
    Bin {
        op: Op,
        left: Boxed<Expr>,
        right: Boxed<Expr>,
    },
}

/// A relation of two numbers.
#[derive(Clone, Copy, Debug, PartialEq, Eq)]
pub enum Rel {
    Less,
    LessEq,
    Equal,
    NotEqual,
}

/// A side of a comparison of references.
#[derive(Clone, Copy, Debug, PartialEq, Eq)]
pub enum RefSide {
    Null,
    Local(u32),
}

/// A condition. `same` is true for `==` between references, and false for `!=`.
#[derive(Debug, Drop)]
pub enum Cond {
    Ints {
        rel: Rel,
        left: Expr,
        right: Expr,
    },
    Refs {
        same: bool,
        left: RefSide,
        right: RefSide,
    },
}

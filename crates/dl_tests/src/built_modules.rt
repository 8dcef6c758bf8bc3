//! Modules that the tests of this crate are about.

use dl_ir::{
    Block, Cond, Expr, FieldDecl, KindDecl, LocalDecl, Module, Op, OpDecl, RefSide, Rel, Stmt, Ty,
};
use sqlite_items::{Boxed, Items};
use std::alloc::{AllocError, Global};

fn field(alloc: Global, name: &[u8], ty: Ty) -> Result<FieldDecl, AllocError> {
    Ok(FieldDecl {
        name: Items::from_slice(alloc, name)?,
        ty,
    })
}

fn local(alloc: Global, name: &[u8], ty: Ty) -> Result<LocalDecl, AllocError> {
    Ok(LocalDecl {
        name: Items::from_slice(alloc, name)?,
        ty,
    })
}

pub fn sum(alloc: Global, op: Op, left: Expr, right: Expr) -> Result<Expr, AllocError> {
    Ok(Expr::Bin {
        op,
        left: Boxed::new(alloc, left)?,
        right: Boxed::new(alloc, right)?,
    })
}

// An operation on a root of the first kind and a number.
fn operation(
    alloc: Global,
    name: &[u8],
    params: Items<LocalDecl>,
    vars: Items<LocalDecl>,
    body: Block,
) -> Result<OpDecl, AllocError> {
    Ok(OpDecl {
        name: Items::from_slice(alloc, name)?,
        params,
        vars,
        allocs: 0,
        fuel: 100_000,
        body,
    })
}

// `r: K, n: int`
fn root_and_number(alloc: Global) -> Result<Items<LocalDecl>, AllocError> {
    let params = vec![in alloc;
        local(alloc, b"r", Ty::Of(0))?,
        local(alloc, b"n", Ty::Int)?,
    ]?;
    Ok(Items::from_vec(params))
}

// `op add(r: CELL, n: int)`
fn add(alloc: Global) -> Result<OpDecl, AllocError> {
    let e = sum(alloc, Op::Add, Expr::Local(2), Expr::Local(1))?;
    let body = vec![in alloc;
        Stmt::Load { x: 2, p: 0, f: 0 },
        Stmt::SetInt { x: 2, e },
        Stmt::Store {
            p: 0,
            f: 0,
            e: Expr::Local(2)
        },
        Stmt::Return { e: Expr::Local(2) },
    ]?;
    let vars = vec![in alloc; local(alloc, b"v", Ty::Int)?]?;
    operation(
        alloc,
        b"add",
        root_and_number(alloc)?,
        Items::from_vec(vars),
        Items::from_vec(body),
    )
}

// `op get(r: CELL)`
fn get(alloc: Global) -> Result<OpDecl, AllocError> {
    let body = vec![in alloc;
        Stmt::Load { x: 1, p: 0, f: 0 },
        Stmt::Return { e: Expr::Local(1) },
    ]?;
    let params = vec![in alloc; local(alloc, b"r", Ty::Of(0))?]?;
    let vars = vec![in alloc; local(alloc, b"v", Ty::Int)?]?;
    operation(
        alloc,
        b"get",
        Items::from_vec(params),
        Items::from_vec(vars),
        Items::from_vec(body),
    )
}

/// The module of `examples/counter.dom`.
pub fn counter(alloc: Global) -> Result<Module, AllocError> {
    let kind = KindDecl {
        name: Items::from_slice(alloc, b"CELL")?,
        is_root: true,
        first: 0,
        count: 2,
        fields: Items::from_vec(vec![in alloc; field(alloc, b"val", Ty::Int)?]?),
    };
    let kinds = vec![in alloc; kind]?;
    let ops = vec![in alloc; add(alloc)?, get(alloc)?]?;
    Ok(Module {
        version: 1,
        kinds: Items::from_vec(kinds),
        ops: Items::from_vec(ops),
    })
}

// `root LIST 3 { head: CELL }` and `node CELL { val: int, next: CELL }`
fn kinds_of_lists(alloc: Global) -> Result<Items<KindDecl>, AllocError> {
    let list = KindDecl {
        name: Items::from_slice(alloc, b"LIST")?,
        is_root: true,
        first: 0,
        count: 3,
        fields: Items::from_vec(vec![in alloc; field(alloc, b"head", Ty::Of(1))?]?),
    };
    let fields = vec![in alloc;
        field(alloc, b"val", Ty::Int)?,
        field(alloc, b"next", Ty::Of(1))?,
    ]?;
    let cell = KindDecl {
        name: Items::from_slice(alloc, b"CELL")?,
        is_root: false,
        first: 0,
        count: 0,
        fields: Items::from_vec(fields),
    };
    Ok(Items::from_vec(vec![in alloc; list, cell]?))
}

/// A module of lists with one operation on a root `r` and a number `n`, with vars `c: CELL, x: int`.
pub fn lists(alloc: Global, name: &[u8], body: Block) -> Result<Module, AllocError> {
    let vars = vec![in alloc;
        local(alloc, b"c", Ty::Of(1))?,
        local(alloc, b"x", Ty::Int)?,
    ]?;
    let op = operation(
        alloc,
        name,
        root_and_number(alloc)?,
        Items::from_vec(vars),
        body,
    )?;
    Ok(Module {
        version: 1,
        kinds: kinds_of_lists(alloc)?,
        ops: Items::from_vec(vec![in alloc; op]?),
    })
}

/// `c != null`
pub fn is_there() -> Cond {
    Cond::Refs {
        same: false,
        left: RefSide::Local(2),
        right: RefSide::Null,
    }
}

/// `x < n`
pub fn is_less() -> Cond {
    Cond::Ints {
        rel: Rel::Less,
        left: Expr::Local(3),
        right: Expr::Local(1),
    }
}

/// The body of `bump` in `examples/lists.dom`.
pub fn bump(alloc: Global) -> Result<Block, AllocError> {
    let e = sum(alloc, Op::Add, Expr::Local(3), Expr::Local(1))?;
    let turn = vec![in alloc;
        Stmt::Load { x: 3, p: 2, f: 0 },
        Stmt::SetInt { x: 3, e },
        Stmt::Store {
            p: 2,
            f: 0,
            e: Expr::Local(3)
        },
        Stmt::Follow { p: 2, q: 2, f: 1 },
    ]?;
    let body = vec![in alloc;
        Stmt::Follow { p: 2, q: 0, f: 0 },
        Stmt::Null { p: 0 },
        Stmt::While {
            c: is_there(),
            body: Items::from_vec(turn)
        },
        Stmt::Return { e: Expr::Num(0) },
    ]?;
    Ok(Items::from_vec(body))
}

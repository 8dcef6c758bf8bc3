//! Copies of modules and their parts, which a code keeps.

ghost use Rattle.std.specs.Prelude.{◌≡◌, IfOk};

use dl_ir::{Block, Cond, Expr, FieldDecl, KindDecl, LocalDecl, Module, OpDecl, Stmt, Text};
use sqlite_items::{Boxed, Items};
use std::alloc::{AllocError, Global};

/// A copy of an expression.
pub fn copy_expr(alloc: Global, original: &Expr) -> Result<Expr, AllocError>
    ensures { IfOk result (λ copy. copy ≡ original.now) }
{
    match original {
        Expr::Num(number) => Ok(Expr::Num(*number)),
        Expr::Local(local) => Ok(Expr::Local(*local)),
        Expr::Neg(operand) => {
            let operand = copy_expr(alloc, operand.get())?;
            Ok(Expr::Neg(Boxed::new(alloc, operand)?))
        }
        Expr::Bin { op, left, right } => {
            let left = copy_expr(alloc, left.get())?;
            let right = copy_expr(alloc, right.get())?;
            Ok(Expr::Bin {
                op: *op,
                left: Boxed::new(alloc, left)?,
                right: Boxed::new(alloc, right)?,
            })
        }
    }
}

/// A copy of a condition.
pub fn copy_cond(alloc: Global, original: &Cond) -> Result<Cond, AllocError>
    ensures { IfOk result (λ copy. copy ≡ original.now) }
{
    Ok(match original {
        Cond::Ints { rel, left, right } => Cond::Ints {
            rel: *rel,
            left: copy_expr(alloc, left)?,
            right: copy_expr(alloc, right)?,
        },
        Cond::Refs { same, left, right } => Cond::Refs {
            same: *same,
            left: *left,
            right: *right,
        },
    })
}

// A copy of a statement.
#[cycle(statements)]
fn copy_stmt(alloc: Global, original: &Stmt) -> Result<Stmt, AllocError>
    ensures { IfOk result (λ copy. copy ≡ original.now) }
{
    Ok(match original {
        Stmt::SetInt { x, e } => Stmt::SetInt {
            x: *x,
            e: copy_expr(alloc, e)?,
        },
        Stmt::Store { p, f, e } => Stmt::Store {
            p: *p,
            f: *f,
            e: copy_expr(alloc, e)?,
        },
        Stmt::If { c, yes, no } => Stmt::If {
            c: copy_cond(alloc, c)?,
            yes: copy_block(alloc, yes)?,
            no: copy_block(alloc, no)?,
        },
        Stmt::While { c, body } => Stmt::While {
            c: copy_cond(alloc, c)?,
            body: copy_block(alloc, body)?,
        },
        Stmt::Return { e } => Stmt::Return {
            e: copy_expr(alloc, e)?,
        },
        Stmt::Emit { e } => Stmt::Emit {
            e: copy_expr(alloc, e)?,
        },
        &Stmt::Load { x, p, f } => Stmt::Load { x, p, f },
        &Stmt::Copy { p, q } => Stmt::Copy { p, q },
        &Stmt::Null { p } => Stmt::Null { p },
        &Stmt::Follow { p, q, f } => Stmt::Follow { p, q, f },
        &Stmt::New { p, kind } => Stmt::New { p, kind },
        &Stmt::Link { q, f, p } => Stmt::Link { q, f, p },
        &Stmt::Cut { q, f } => Stmt::Cut { q, f },
    })
}

// A copy of a block.
#[cycle(statements)]
fn copy_block(alloc: Global, original: &Block) -> Result<Block, AllocError>
    ensures { IfOk result (λ copy. copy ≡ original.now) }
{
    let mut copy = Items::new(alloc);
    let statements = original.as_slice();
    for statement in statements {
        copy.push(copy_stmt(alloc, statement)?)?;
    }
    Ok(copy)
}

fn copy_text(alloc: Global, original: &Text) -> Result<Text, AllocError>
    ensures { IfOk result (λ copy. copy ≡ original.now) }
{
    Items::from_slice(alloc, original.as_slice())
}

fn copy_fields(alloc: Global, originals: &[FieldDecl]) -> Result<Items<FieldDecl>, AllocError>
    ensures { IfOk result (λ copy. copy ≡ originals.now) }
{
    let mut copy = Items::new(alloc);
    for original in originals {
        copy.push(FieldDecl {
            name: copy_text(alloc, &original.name)?,
            ty: original.ty,
        })?;
    }
    Ok(copy)
}

fn copy_kinds(alloc: Global, originals: &[KindDecl]) -> Result<Items<KindDecl>, AllocError>
    ensures { IfOk result (λ copy. copy ≡ originals.now) }
{
    let mut copy = Items::new(alloc);
    for original in originals {
        copy.push(KindDecl {
            name: copy_text(alloc, &original.name)?,
            is_root: original.is_root,
            first: original.first,
            count: original.count,
            fields: copy_fields(alloc, original.fields.as_slice())?,
        })?;
    }
    Ok(copy)
}

fn copy_locals(alloc: Global, originals: &[LocalDecl]) -> Result<Items<LocalDecl>, AllocError>
    ensures { IfOk result (λ copy. copy ≡ originals.now) }
{
    let mut copy = Items::new(alloc);
    for original in originals {
        copy.push(LocalDecl {
            name: copy_text(alloc, &original.name)?,
            ty: original.ty,
        })?;
    }
    Ok(copy)
}

fn copy_op(alloc: Global, original: &OpDecl) -> Result<OpDecl, AllocError>
    ensures { IfOk result (λ copy. copy ≡ original.now) }
{
    Ok(OpDecl {
        name: copy_text(alloc, &original.name)?,
        params: copy_locals(alloc, original.params.as_slice())?,
        vars: copy_locals(alloc, original.vars.as_slice())?,
        allocs: original.allocs,
        fuel: original.fuel,
        body: copy_block(alloc, &original.body)?,
    })
}

fn copy_ops(alloc: Global, originals: &[OpDecl]) -> Result<Items<OpDecl>, AllocError>
    ensures { IfOk result (λ copy. copy ≡ originals.now) }
{
    let mut copy = Items::new(alloc);
    for original in originals {
        copy.push(copy_op(alloc, original)?)?;
    }
    Ok(copy)
}

/// A copy of a module.
pub fn copy_module(alloc: Global, original: &Module) -> Result<Module, AllocError>
    ensures { IfOk result (λ copy. copy ≡ original.now) }
{
    Ok(Module {
        version: original.version,
        kinds: copy_kinds(alloc, original.kinds.as_slice())?,
        ops: copy_ops(alloc, original.ops.as_slice())?,
    })
}

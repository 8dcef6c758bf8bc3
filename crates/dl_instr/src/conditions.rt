//! How conditions are printed.

ghost use Rattle.std.specs.Prelude.{◌≡◌, ◌++◌, false};
ghost use Rattle.dl_text.specs.Writing.{Puts};
ghost use Rattle.dl_instr.specs.Listing.{expr_text, rel_text, same_text, side_text, cond_text};

use crate::expressions::put_expr;
use crate::names::put_local;
use dl_ir::{Cond, Expr, OpDecl, RefSide, Rel};
use dl_text::{Failed, Out, Sink};

fn put_rel<K: Sink>(out: &mut Out, sink: &mut K, rel: Rel) -> Result<(), Failed>
    requires { out.old.failed ≡ false }
    ensures { Puts (K.taken sink.old) out.old (rel_text rel) result (K.taken sink.new) out.new }
{
    match rel {
        Rel::Less => out.put(sink, b" < "),
        Rel::LessEq => out.put(sink, b" <= "),
        Rel::Equal => out.put(sink, b" == "),
        Rel::NotEqual => out.put(sink, b" != "),
    }
}

fn put_same<K: Sink>(out: &mut Out, sink: &mut K, same: bool) -> Result<(), Failed>
    requires { out.old.failed ≡ false }
    ensures { Puts (K.taken sink.old) out.old (same_text same) result (K.taken sink.new) out.new }
{
    if same {
        out.put(sink, b" == ")
    } else {
        out.put(sink, b" != ")
    }
}

fn put_side<K: Sink>(out: &mut Out, sink: &mut K, op: &OpDecl, side: RefSide) -> Result<(), Failed>
    requires { out.old.failed ≡ false }
    ensures { Puts (K.taken sink.old) out.old (side_text op.now side) result (K.taken sink.new) out.new }
{
    match side {
        RefSide::Null => out.put(sink, b"null"),
        RefSide::Local(local) => put_local(out, sink, op, local),
    }
}

// Puts a comparison of numbers.
fn put_ints<K: Sink>(
    out: &mut Out,
    sink: &mut K,
    op: &OpDecl,
    rel: Rel,
    left: &Expr,
    right: &Expr,
) -> Result<(), Failed>
    requires { out.old.failed ≡ false }
    ensures { Puts (K.taken sink.old) out.old (expr_text op.now left.now ++ rel_text rel ++ expr_text op.now right.now) result (K.taken sink.new) out.new }
{
    put_expr(out, sink, op, left)?;
    put_rel(out, sink, rel)?;
    put_expr(out, sink, op, right)
}

// Puts a comparison of references.
fn put_refs<K: Sink>(
    out: &mut Out,
    sink: &mut K,
    op: &OpDecl,
    same: bool,
    left: RefSide,
    right: RefSide,
) -> Result<(), Failed>
    requires { out.old.failed ≡ false }
    ensures { Puts (K.taken sink.old) out.old (side_text op.now left ++ same_text same ++ side_text op.now right) result (K.taken sink.new) out.new }
{
    put_side(out, sink, op, left)?;
    put_same(out, sink, same)?;
    put_side(out, sink, op, right)
}

/// Puts a condition in its canonical form.
pub fn put_cond<K: Sink>(
    out: &mut Out,
    sink: &mut K,
    op: &OpDecl,
    cond: &Cond,
) -> Result<(), Failed>
    requires { out.old.failed ≡ false }
    ensures { Puts (K.taken sink.old) out.old (cond_text op.now cond.now) result (K.taken sink.new) out.new }
{
    match cond {
        Cond::Ints { rel, left, right } => put_ints(out, sink, op, *rel, left, right),
        Cond::Refs { same, left, right } => put_refs(out, sink, op, *same, *left, *right),
    }
}

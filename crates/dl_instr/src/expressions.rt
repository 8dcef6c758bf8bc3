//! How expressions are printed.

ghost use Rattle.std.specs.Prelude.{◌≡◌, ◌≤◌, ◌++◌, [], codes, false, if◌then◌else◌};
ghost use Rattle.dl_text.specs.Writing.{Puts};
ghost use Rattle.dl_instr.specs.Listing.{op_level, op_text, operand_text, expr_part, expr_text};

use crate::names::put_local;
use dl_ir::{Expr, Op, OpDecl};
use dl_text::{Failed, Out, Sink};

// How tightly an operator binds.
fn level_of(operator: Op) -> u8
    ensures level { result ≡ op_level operator }
    ensures small { result ≤ 1 }
{
    match operator {
        Op::Add | Op::Sub => 0,
        Op::Mul | Op::Div | Op::Rem => 1,
    }
}

fn sign_of(operator: Op) -> &'static [u8]
    ensures { result.now ≡ op_text operator }
{
    match operator {
        Op::Add => b" + ",
        Op::Sub => b" - ",
        Op::Mul => b" * ",
        Op::Div => b" / ",
        Op::Rem => b" % ",
    }
}

// Puts a bracket where one is needed.
fn put_bracket<K: Sink>(
    out: &mut Out,
    sink: &mut K,
    is_needed: bool,
    bracket: &[u8],
) -> Result<(), Failed>
    requires { out.old.failed ≡ false }
    ensures { Puts (K.taken sink.old) out.old (if is_needed then bracket.now else []) result (K.taken sink.new) out.new }
{
    if is_needed {
        out.put(sink, bracket)
    } else {
        out.put(sink, b"")
    }
}

// Puts an operand, in brackets where it binds less tightly than it has to.
fn put_operand<K: Sink>(
    out: &mut Out,
    sink: &mut K,
    op: &OpDecl,
    least: u8,
    operand: &Expr,
) -> Result<(), Failed>
    requires works { out.old.failed ≡ false }
    requires least { least ≤ 2 }
    ensures { Puts (K.taken sink.old) out.old (operand_text least (expr_part op.now operand.now)) result (K.taken sink.new) out.new }
{
    match operand {
        Expr::Num(number) => out.put_number(sink, *number),
        Expr::Local(local) => put_local(out, sink, op, *local),
        Expr::Neg(inner) => {
            out.put(sink, b"-")?;
            put_operand(out, sink, op, 2, inner.get())
        }
        Expr::Bin {
            op: operator,
            left,
            right,
        } => {
            let level = level_of(*operator);
            put_bracket(out, sink, level < least, b"(")?;
            put_operand(out, sink, op, level, left.get())?;
            out.put(sink, sign_of(*operator))?;
            put_operand(out, sink, op, level + 1, right.get())?;
            put_bracket(out, sink, level < least, b")")
        }
    }
}

/// Puts an expression in its canonical form.
pub fn put_expr<K: Sink>(
    out: &mut Out,
    sink: &mut K,
    op: &OpDecl,
    expr: &Expr,
) -> Result<(), Failed>
    requires { out.old.failed ≡ false }
    ensures { Puts (K.taken sink.old) out.old (expr_text op.now expr.now) result (K.taken sink.new) out.new }
{
    put_operand(out, sink, op, 0, expr)
}

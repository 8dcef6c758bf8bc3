//! How expressions are put, with no more brackets than they need.
ghost use Rattle.std.specs.Prelude.{◌≡◌, [], ◌∷◌, false};
ghost use Rattle.dl_text.specs.Writing.{Puts};
ghost use Rattle.dl_grammar.specs.declared.lexeme.Fixed.TheVariants.{Minus};
ghost use Rattle.dl_print.specs.Canonical as spec;
ghost use Rattle.dl_print.specs.Canonical.{text_of, bracketed, as_factor, as_term, number_pieces, shown};
ghost use Rattle.dl_print.specs.Operands.{operator_fixed, left_of, right_of};

use crate::words::put_name;
use dl_grammar::TreeExpr;
use dl_ir::Op;
use dl_text::{Failed, Out, Sink};

fn put_number<K: Sink>(number: i64, out: &mut Out, sink: &mut K) -> Result<(), Failed>
    requires { out.old.failed ≡ false }
    ensures { Puts (K.taken sink.old) out.old (text_of (number_pieces number)) result (K.taken sink.new) out.new }
{
    out.put_number(sink, number)
}

fn put_operator<K: Sink>(op: Op, out: &mut Out, sink: &mut K) -> Result<(), Failed>
    requires { out.old.failed ≡ false }
    ensures { Puts (K.taken sink.old) out.old (text_of (spec.Space ∷ spec.Word (operator_fixed op) ∷ spec.Space ∷ [])) result (K.taken sink.new) out.new }
{
    match op {
        Op::Add => out.put(sink, b" + "),
        Op::Sub => out.put(sink, b" - "),
        Op::Mul => out.put(sink, b" * "),
        Op::Div => out.put(sink, b" / "),
        Op::Rem => out.put(sink, b" % "),
    }
}

/// Puts an expression, without brackets round the whole.
#[cycle(expression)]
pub fn put_expression<K: Sink>(e: &TreeExpr, out: &mut Out, sink: &mut K) -> Result<(), Failed>
    requires { out.old.failed ≡ false }
    ensures { Puts (K.taken sink.old) out.old (text_of (shown e.now).pieces) result (K.taken sink.new) out.new }
{
    match e {
        TreeExpr::Num(number) => put_number(*number, out, sink),
        TreeExpr::Name(word) => put_name(word, out, sink),
        TreeExpr::Neg(inner) => put_negation(inner.get(), out, sink),
        TreeExpr::Bin { op, left, right } => {
            put_left(*op, left.get(), out, sink)?;
            put_operator(*op, out, sink)?;
            put_right(*op, right.get(), out, sink)
        }
    }
}

#[cycle(expression)]
fn put_negation<K: Sink>(inner: &TreeExpr, out: &mut Out, sink: &mut K) -> Result<(), Failed>
    requires { out.old.failed ≡ false }
    ensures { Puts (K.taken sink.old) out.old (text_of (spec.Word Minus ∷ as_factor (shown inner.now))) result (K.taken sink.new) out.new }
{
    out.put(sink, b"-")?;
    put_factor(inner, out, sink)
}

#[cycle(expression)]
fn put_left<K: Sink>(op: Op, left: &TreeExpr, out: &mut Out, sink: &mut K) -> Result<(), Failed>
    requires { out.old.failed ≡ false }
    ensures { Puts (K.taken sink.old) out.old (text_of (left_of op (shown left.now))) result (K.taken sink.new) out.new }
{
    match op {
        Op::Add | Op::Sub => put_expression(left, out, sink),
        Op::Mul | Op::Div | Op::Rem => put_term(left, out, sink),
    }
}

#[cycle(expression)]
fn put_right<K: Sink>(op: Op, right: &TreeExpr, out: &mut Out, sink: &mut K) -> Result<(), Failed>
    requires { out.old.failed ≡ false }
    ensures { Puts (K.taken sink.old) out.old (text_of (right_of op (shown right.now))) result (K.taken sink.new) out.new }
{
    match op {
        Op::Add | Op::Sub => put_term(right, out, sink),
        Op::Mul | Op::Div | Op::Rem => put_factor(right, out, sink),
    }
}

/// Puts an expression where a term has to stand.
#[cycle(expression)]
fn put_term<K: Sink>(e: &TreeExpr, out: &mut Out, sink: &mut K) -> Result<(), Failed>
    requires { out.old.failed ≡ false }
    ensures { Puts (K.taken sink.old) out.old (text_of (as_term (shown e.now))) result (K.taken sink.new) out.new }
{
    match e {
        TreeExpr::Bin {
            op: Op::Add | Op::Sub,
            ..
        } => put_bracketed(e, out, sink),
        _ => put_expression(e, out, sink),
    }
}

/// Puts an expression where a factor has to stand.
#[cycle(expression)]
fn put_factor<K: Sink>(e: &TreeExpr, out: &mut Out, sink: &mut K) -> Result<(), Failed>
    requires { out.old.failed ≡ false }
    ensures { Puts (K.taken sink.old) out.old (text_of (as_factor (shown e.now))) result (K.taken sink.new) out.new }
{
    match e {
        TreeExpr::Bin { .. } => put_bracketed(e, out, sink),
        _ => put_expression(e, out, sink),
    }
}

#[cycle(expression)]
fn put_bracketed<K: Sink>(e: &TreeExpr, out: &mut Out, sink: &mut K) -> Result<(), Failed>
    requires { out.old.failed ≡ false }
    ensures { Puts (K.taken sink.old) out.old (text_of (bracketed (shown e.now).pieces)) result (K.taken sink.new) out.new }
{
    out.put(sink, b"(")?;
    put_expression(e, out, sink)?;
    out.put(sink, b")")
}

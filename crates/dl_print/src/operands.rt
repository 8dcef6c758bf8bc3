//! How conditions and right sides are put.
ghost use Rattle.std.specs.Prelude.{◌≡◌, [], ◌∷◌, false};
ghost use Rattle.dl_text.specs.Writing.{Puts};
ghost use Rattle.dl_print.specs.Canonical.{text_of, side_pieces, condition_pieces, rhs_pieces, relation_fixed};
ghost use Rattle.dl_print.specs.Canonical as spec;
ghost use Rattle.dl_grammar.specs.declared.lexeme.Fixed.TheVariants as f;

use crate::expressions::put_expression;
use crate::words::{put_name, put_path};
use dl_grammar::{Rhs, Side, TreeCond, Word};
use dl_ir::Rel;
use dl_text::{Failed, Out, Sink};

/// Puts what is stored, or a side of a condition.
pub fn put_side<K: Sink>(side: &Side, out: &mut Out, sink: &mut K) -> Result<(), Failed>
    requires { out.old.failed ≡ false }
    ensures { Puts (K.taken sink.old) out.old (text_of (side_pieces side.now)) result (K.taken sink.new) out.new }
{
    match side {
        Side::Null => out.put(sink, b"null"),
        Side::Sum(e) => put_expression(e, out, sink),
    }
}

fn put_relation<K: Sink>(rel: Rel, out: &mut Out, sink: &mut K) -> Result<(), Failed>
    requires { out.old.failed ≡ false }
    ensures { Puts (K.taken sink.old) out.old (text_of (spec.Space ∷ spec.Word (relation_fixed rel) ∷ spec.Space ∷ [])) result (K.taken sink.new) out.new }
{
    match rel {
        Rel::Less => out.put(sink, b" < "),
        Rel::LessEq => out.put(sink, b" <= "),
        Rel::Equal => out.put(sink, b" == "),
        Rel::NotEqual => out.put(sink, b" != "),
    }
}

/// Puts a condition.
pub fn put_condition<K: Sink>(c: &TreeCond, out: &mut Out, sink: &mut K) -> Result<(), Failed>
    requires { out.old.failed ≡ false }
    ensures { Puts (K.taken sink.old) out.old (text_of (condition_pieces c.now)) result (K.taken sink.new) out.new }
{
    put_side(&c.left, out, sink)?;
    put_relation(c.rel, out, sink)?;
    put_side(&c.right, out, sink)
}

fn put_new<K: Sink>(kind: &Word, out: &mut Out, sink: &mut K) -> Result<(), Failed>
    requires { out.old.failed ≡ false }
    ensures { Puts (K.taken sink.old) out.old (text_of (spec.Word f.New ∷ spec.Space ∷ spec.Name kind.now.text ∷ [])) result (K.taken sink.new) out.new }
{
    out.put(sink, b"new ")?;
    put_name(kind, out, sink)
}

/// Puts the right side of an assignment to a local.
pub fn put_rhs<K: Sink>(rhs: &Rhs, out: &mut Out, sink: &mut K) -> Result<(), Failed>
    requires { out.old.failed ≡ false }
    ensures { Puts (K.taken sink.old) out.old (text_of (rhs_pieces rhs.now)) result (K.taken sink.new) out.new }
{
    match rhs {
        Rhs::Null => out.put(sink, b"null"),
        Rhs::New(kind) => put_new(kind, out, sink),
        Rhs::Field { p, f } => put_path(p, f, out, sink),
        Rhs::Sum(e) => put_expression(e, out, sink),
    }
}

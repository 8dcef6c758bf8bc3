//! How statements are put, with their indentation.
ghost use Rattle.std.specs.Prelude.{◌≡◌, ◌++◌, ◌∷◌, map, false};
ghost use Rattle.dl_text.specs.Writing.{Puts};
ghost use Rattle.dl_grammar.specs.declared.lexeme.Fixed.TheVariants as f;
ghost use Rattle.dl_print.specs.Canonical as spec;
ghost use Rattle.dl_print.specs.Canonical.{text_of, statement_lines};
ghost use Rattle.dl_print.specs.Levels.{depth};

use crate::expressions::put_expression;
use crate::operands::{put_condition, put_rhs, put_side};
use crate::words::{Level, put_indent, put_name, put_path};
use dl_grammar::{Rhs, Side, TreeBlock, TreeCond, TreeExpr, TreeStmt, What, Word};
use dl_text::{Failed, Out, Sink};

fn put_assign<K: Sink>(
    x: &Word,
    rhs: &Rhs,
    level: &Level,
    out: &mut Out,
    sink: &mut K,
) -> Result<(), Failed>
    requires { out.old.failed ≡ false }
    ensures { Puts (K.taken sink.old) out.old (text_of (spec.assign_line x.now rhs.now (depth level.now))) result (K.taken sink.new) out.new }
{
    put_indent(level, out, sink)?;
    put_name(x, out, sink)?;
    out.put(sink, b" = ")?;
    put_rhs(rhs, out, sink)?;
    out.put(sink, b";\n")
}

fn put_store<K: Sink>(
    p: &Word,
    f: &Word,
    rhs: &Side,
    level: &Level,
    out: &mut Out,
    sink: &mut K,
) -> Result<(), Failed>
    requires { out.old.failed ≡ false }
    ensures { Puts (K.taken sink.old) out.old (text_of (spec.store_line p.now f.now rhs.now (depth level.now))) result (K.taken sink.new) out.new }
{
    put_indent(level, out, sink)?;
    put_path(p, f, out, sink)?;
    out.put(sink, b" = ")?;
    put_side(rhs, out, sink)?;
    out.put(sink, b";\n")
}

fn put_return<K: Sink>(
    e: &TreeExpr,
    level: &Level,
    out: &mut Out,
    sink: &mut K,
) -> Result<(), Failed>
    requires { out.old.failed ≡ false }
    ensures { Puts (K.taken sink.old) out.old (text_of (spec.return_line e.now (depth level.now))) result (K.taken sink.new) out.new }
{
    put_indent(level, out, sink)?;
    out.put(sink, b"return ")?;
    put_expression(e, out, sink)?;
    out.put(sink, b";\n")
}

fn put_emit<K: Sink>(e: &TreeExpr, level: &Level, out: &mut Out, sink: &mut K) -> Result<(), Failed>
    requires { out.old.failed ≡ false }
    ensures { Puts (K.taken sink.old) out.old (text_of (spec.emit_line e.now (depth level.now))) result (K.taken sink.new) out.new }
{
    put_indent(level, out, sink)?;
    out.put(sink, b"emit ")?;
    put_expression(e, out, sink)?;
    out.put(sink, b";\n")
}

/// Puts the condition of a block statement in brackets.
fn put_test<K: Sink>(c: &TreeCond, out: &mut Out, sink: &mut K) -> Result<(), Failed>
    requires { out.old.failed ≡ false }
    ensures { Puts (K.taken sink.old) out.old (text_of (spec.test_pieces c.now)) result (K.taken sink.new) out.new }
{
    out.put(sink, b" (")?;
    put_condition(c, out, sink)?;
    out.put(sink, b") ")
}

/// Puts a branch before its blocks.
fn put_if_head<K: Sink>(
    c: &TreeCond,
    level: &Level,
    out: &mut Out,
    sink: &mut K,
) -> Result<(), Failed>
    requires { out.old.failed ≡ false }
    ensures { Puts (K.taken sink.old) out.old (text_of (spec.Indent (depth level.now) ∷ spec.Word f.If ∷ spec.test_pieces c.now)) result (K.taken sink.new) out.new }
{
    put_indent(level, out, sink)?;
    out.put(sink, b"if")?;
    put_test(c, out, sink)
}

/// Puts a statement, with the statements in it.
#[cycle(statement)]
pub fn put_statement<K: Sink>(
    s: &TreeStmt,
    level: &Level,
    out: &mut Out,
    sink: &mut K,
) -> Result<(), Failed>
    requires { out.old.failed ≡ false }
    ensures { Puts (K.taken sink.old) out.old (text_of (statement_lines s.now (depth level.now))) result (K.taken sink.new) out.new }
{
    match &s.what {
        What::Assign { x, rhs } => put_assign(x, rhs, level, out, sink),
        What::Store { p, f, rhs } => put_store(p, f, rhs, level, out, sink),
        What::If { c, yes, no } => {
            put_if_head(c, level, out, sink)?;
            put_block(yes, level, out, sink)?;
            put_otherwise(no, level, out, sink)?;
            out.put(sink, b"\n")
        }
        What::While { c, body } => put_while(c, body, level, out, sink),
        What::Return { e } => put_return(e, level, out, sink),
        What::Emit { e } => put_emit(e, level, out, sink),
    }
}

#[cycle(statement)]
fn put_while<K: Sink>(
    c: &TreeCond,
    body: &TreeBlock,
    level: &Level,
    out: &mut Out,
    sink: &mut K,
) -> Result<(), Failed>
    requires { out.old.failed ≡ false }
    ensures { Puts (K.taken sink.old) out.old (text_of (spec.while_lines c.now (map statement_lines body.now) (depth level.now))) result (K.taken sink.new) out.new }
{
    put_indent(level, out, sink)?;
    out.put(sink, b"while")?;
    put_test(c, out, sink)?;
    put_block(body, level, out, sink)?;
    out.put(sink, b"\n")
}

/// Puts an else block, if there is something in it.
#[cycle(statement)]
fn put_otherwise<K: Sink>(
    no: &TreeBlock,
    level: &Level,
    out: &mut Out,
    sink: &mut K,
) -> Result<(), Failed>
    requires { out.old.failed ≡ false }
    ensures { Puts (K.taken sink.old) out.old (text_of (spec.otherwise_pieces (map statement_lines no.now) (depth level.now))) result (K.taken sink.new) out.new }
{
    if no.is_empty() {
        return out.put(sink, b"");
    }
    out.put(sink, b" else ")?;
    put_block(no, level, out, sink)
}

#[cycle(statement)]
fn put_block<K: Sink>(
    block: &TreeBlock,
    level: &Level,
    out: &mut Out,
    sink: &mut K,
) -> Result<(), Failed>
    requires { out.old.failed ≡ false }
    ensures { Puts (K.taken sink.old) out.old (text_of (spec.block_pieces (map statement_lines block.now) (depth level.now))) result (K.taken sink.new) out.new }
{
    out.put(sink, b"{\n")?;
    put_statements(block, &Level::Inside(&*level), out, sink)?;
    put_indent(level, out, sink)?;
    out.put(sink, b"}")
}

/// Puts statements, one behind the other.
#[cycle(statement)]
pub fn put_statements<K: Sink>(
    block: &TreeBlock,
    level: &Level,
    out: &mut Out,
    sink: &mut K,
) -> Result<(), Failed>
    requires { out.old.failed ≡ false }
    ensures { Puts (K.taken sink.old) out.old (text_of (spec.lines_at (map statement_lines block.now) (depth level.now))) result (K.taken sink.new) out.new }
{
    'statements: for s in block.as_slice() {
        put_statement(s, level, out, sink)?;
    }
    Ok(())
}

//! How a code is printed, step by step.

ghost use Rattle.std.specs.Prelude.{◌≡◌, ◌++◌, ◌+◌, codes, decimal, false, if◌then◌else◌, [], slice_get};
ghost use Rattle.std.specs.Option.{option_map_or};
ghost use Rattle.dl_text.specs.Writing.{Puts};
ghost use Rattle.dl_text.specs.Lists.{each_from};
ghost use Rattle.dl_instr.specs.Listing.{local_text, field_text, kind_text, place_text, set_text, content_text, test_word, cond_text, expr_text, step_text, step_line, op_lines, op_listing, listing};

use crate::code::Code;
use crate::conditions::put_cond;
use crate::expressions::put_expr;
use crate::names::{put_field, put_kind, put_local, put_text};
use crate::steps::{Content, Origin, Step, Steps};
use dl_ir::{Cond, Expr, Module, OpDecl};
use dl_text::{Failed, Out, Sink};

// Puts a word with a space behind it, and the name of a local.
fn put_named<K: Sink>(
    out: &mut Out,
    sink: &mut K,
    op: &OpDecl,
    word: &[u8],
    local: u32,
) -> Result<(), Failed>
    requires { out.old.failed ≡ false }
    ensures { Puts (K.taken sink.old) out.old (word.now ++ local_text op.now local) result (K.taken sink.new) out.new }
{
    out.put(sink, word)?;
    put_local(out, sink, op, local)
}

fn put_make<K: Sink>(out: &mut Out, sink: &mut K, source: &Module, kind: u32) -> Result<(), Failed>
    requires { out.old.failed ≡ false }
    ensures { Puts (K.taken sink.old) out.old (codes "make " ++ kind_text source.now kind) result (K.taken sink.new) out.new }
{
    out.put(sink, b"make ")?;
    put_kind(out, sink, source, kind)
}

// Puts a word with a space behind it, and an expression.
fn put_valued<K: Sink>(
    out: &mut Out,
    sink: &mut K,
    op: &OpDecl,
    word: &[u8],
    value: &Expr,
) -> Result<(), Failed>
    requires { out.old.failed ≡ false }
    ensures { Puts (K.taken sink.old) out.old (word.now ++ expr_text op.now value.now) result (K.taken sink.new) out.new }
{
    out.put(sink, word)?;
    put_expr(out, sink, op, value)
}

// Puts a field of the object to which a local refers.
fn put_place<K: Sink>(
    out: &mut Out,
    sink: &mut K,
    source: &Module,
    op: &OpDecl,
    local: u32,
    field: u32,
) -> Result<(), Failed>
    requires { out.old.failed ≡ false }
    ensures { Puts (K.taken sink.old) out.old (place_text source.now op.now local field) result (K.taken sink.new) out.new }
{
    put_local(out, sink, op, local)?;
    out.put(sink, b".")?;
    put_field(out, sink, source, op, local, field)
}

fn put_read<K: Sink>(
    out: &mut Out,
    sink: &mut K,
    source: &Module,
    op: &OpDecl,
    local: u32,
    field: u32,
) -> Result<(), Failed>
    requires { out.old.failed ≡ false }
    ensures { Puts (K.taken sink.old) out.old (codes "read " ++ place_text source.now op.now local field) result (K.taken sink.new) out.new }
{
    out.put(sink, b"read ")?;
    put_place(out, sink, source, op, local, field)
}

fn put_copy<K: Sink>(
    out: &mut Out,
    sink: &mut K,
    op: &OpDecl,
    local: u32,
    other: u32,
) -> Result<(), Failed>
    requires { out.old.failed ≡ false }
    ensures { Puts (K.taken sink.old) out.old (codes "copy " ++ local_text op.now local ++ codes " " ++ local_text op.now other) result (K.taken sink.new) out.new }
{
    put_named(out, sink, op, b"copy ", local)?;
    out.put(sink, b" ")?;
    put_local(out, sink, op, other)
}

fn put_set<K: Sink>(
    out: &mut Out,
    sink: &mut K,
    op: &OpDecl,
    local: u32,
    from: Origin,
) -> Result<(), Failed>
    requires { out.old.failed ≡ false }
    ensures { Puts (K.taken sink.old) out.old (set_text op.now local from) result (K.taken sink.new) out.new }
{
    match from {
        Origin::Hand => put_named(out, sink, op, b"set ", local),
        Origin::Local(other) => put_copy(out, sink, op, local, other),
    }
}

// Puts what stands behind the field that is written.
fn put_content<K: Sink>(
    out: &mut Out,
    sink: &mut K,
    op: &OpDecl,
    content: Content,
) -> Result<(), Failed>
    requires { out.old.failed ≡ false }
    ensures { Puts (K.taken sink.old) out.old (content_text op.now content) result (K.taken sink.new) out.new }
{
    match content {
        Content::Number => out.put(sink, b""),
        Content::Local(local) => put_named(out, sink, op, b" = ", local),
        Content::Null => out.put(sink, b" = null"),
    }
}

fn put_write<K: Sink>(
    out: &mut Out,
    sink: &mut K,
    source: &Module,
    op: &OpDecl,
    local: u32,
    field: u32,
    content: Content,
) -> Result<(), Failed>
    requires { out.old.failed ≡ false }
    ensures { Puts (K.taken sink.old) out.old (codes "write " ++ place_text source.now op.now local field ++ content_text op.now content) result (K.taken sink.new) out.new }
{
    out.put(sink, b"write ")?;
    put_place(out, sink, source, op, local, field)?;
    put_content(out, sink, op, content)
}

fn put_test_word<K: Sink>(out: &mut Out, sink: &mut K, is_turn: bool) -> Result<(), Failed>
    requires { out.old.failed ≡ false }
    ensures { Puts (K.taken sink.old) out.old (test_word is_turn) result (K.taken sink.new) out.new }
{
    if is_turn {
        out.put(sink, b"turn ")
    } else {
        out.put(sink, b"test ")
    }
}

fn put_test<K: Sink>(
    out: &mut Out,
    sink: &mut K,
    op: &OpDecl,
    cond: &Cond,
    is_turn: bool,
    place: usize,
) -> Result<(), Failed>
    requires { out.old.failed ≡ false }
    ensures { Puts (K.taken sink.old) out.old (test_word is_turn ++ cond_text op.now cond.now ++ codes " else " ++ decimal place) result (K.taken sink.new) out.new }
{
    put_test_word(out, sink, is_turn)?;
    put_cond(out, sink, op, cond)?;
    out.put(sink, b" else ")?;
    out.put_number(sink, place)
}

fn put_jump<K: Sink>(out: &mut Out, sink: &mut K, place: usize) -> Result<(), Failed>
    requires { out.old.failed ≡ false }
    ensures { Puts (K.taken sink.old) out.old (codes "jump " ++ decimal place) result (K.taken sink.new) out.new }
{
    out.put(sink, b"jump ")?;
    out.put_number(sink, place)
}

fn put_step<K: Sink>(
    out: &mut Out,
    sink: &mut K,
    source: &Module,
    op: &OpDecl,
    step: &Step,
) -> Result<(), Failed>
    requires { out.old.failed ≡ false }
    ensures { Puts (K.taken sink.old) out.old (step_text source.now op.now step.now) result (K.taken sink.new) out.new }
{
    match step {
        Step::Read { local, field } => put_read(out, sink, source, op, *local, *field),
        Step::Want => out.put(sink, b"want"),
        Step::Set { local, from } => put_set(out, sink, op, *local, *from),
        Step::Drop { local } => put_named(out, sink, op, b"drop ", *local),
        Step::Make { kind } => put_make(out, sink, source, *kind),
        Step::Eval { value } => put_valued(out, sink, op, b"eval ", value),
        Step::Write {
            local,
            field,
            content,
        } => put_write(out, sink, source, op, *local, *field, *content),
        Step::Emit => out.put(sink, b"emit"),
        Step::Test {
            cond,
            is_turn,
            place,
        } => put_test(out, sink, op, cond, *is_turn, *place),
        Step::Jump { place } => put_jump(out, sink, *place),
        Step::Give { value } => put_valued(out, sink, op, b"give ", value),
    }
}

fn put_line<K: Sink>(
    out: &mut Out,
    sink: &mut K,
    source: &Module,
    op: &OpDecl,
    number: usize,
    step: &Step,
) -> Result<(), Failed>
    requires { out.old.failed ≡ false }
    ensures { Puts (K.taken sink.old) out.old (step_line source.now op.now number step.now) result (K.taken sink.new) out.new }
{
    out.put_number(sink, number)?;
    out.put(sink, b" ")?;
    put_step(out, sink, source, op, step)?;
    out.put(sink, b"\n")
}

fn put_lines<K: Sink>(
    out: &mut Out,
    sink: &mut K,
    source: &Module,
    op: &OpDecl,
    steps: &[Step],
) -> Result<(), Failed>
    requires { out.old.failed ≡ false }
    ensures { Puts (K.taken sink.old) out.old (each_from (step_line source.now op.now) 0 steps.now) result (K.taken sink.new) out.new }
{
    'lines: for number in 0..steps.len() {
        put_line(out, sink, source, op, number, &steps[number])?;
    }
    Ok(())
}

fn put_op_lines<K: Sink>(
    out: &mut Out,
    sink: &mut K,
    source: &Module,
    op: &OpDecl,
    steps: &[Step],
) -> Result<(), Failed>
    requires { out.old.failed ≡ false }
    ensures { Puts (K.taken sink.old) out.old (op_lines source.now steps.now op.now) result (K.taken sink.new) out.new }
{
    out.put(sink, b"op ")?;
    put_text(out, sink, &op.name)?;
    out.put(sink, b"\n")?;
    put_lines(out, sink, source, op, steps)
}

fn put_op<K: Sink>(
    out: &mut Out,
    sink: &mut K,
    source: &Module,
    number: usize,
    steps: &Steps,
) -> Result<(), Failed>
    requires { out.old.failed ≡ false }
    ensures { Puts (K.taken sink.old) out.old (op_listing source.now number steps.now) result (K.taken sink.new) out.new }
{
    match source.ops.get(number) {
        Some(op) => put_op_lines(out, sink, source, op, steps.as_slice()),
        None => out.put(sink, b""),
    }
}

fn put_ops<K: Sink>(
    out: &mut Out,
    sink: &mut K,
    source: &Module,
    ops: &[Steps],
) -> Result<(), Failed>
    requires { out.old.failed ≡ false }
    ensures { Puts (K.taken sink.old) out.old (each_from (op_listing source.now) 0 ops.now) result (K.taken sink.new) out.new }
{
    'ops: for number in 0..ops.len() {
        put_op(out, sink, source, number, &ops[number])?;
    }
    Ok(())
}

fn put_all_ops<K: Sink>(out: &mut Out, sink: &mut K, code: &Code) -> Result<(), Failed>
    requires { out.old.failed ≡ false }
    ensures { Puts (K.taken sink.old) out.old (each_from (op_listing code.now.source) 0 code.now.ops) result (K.taken sink.new) out.new }
{
    put_ops(out, sink, &code.source, code.ops.as_slice())
}

/// Puts the listing of a code: the line `code`, each operation with its numbered steps, and the line `end`.
pub fn print_code<K: Sink>(code: &Code, out: &mut Out, sink: &mut K) -> Result<(), Failed>
    requires { out.old.failed ≡ false }
    ensures { Puts (K.taken sink.old) out.old (listing code.now) result (K.taken sink.new) out.new }
{
    out.put(sink, b"code\n")?;
    put_all_ops(out, sink, code)?;
    out.put(sink, b"end\n")
}

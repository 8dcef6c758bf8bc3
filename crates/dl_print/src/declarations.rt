//! How kinds and operations are put.
ghost use Rattle.std.specs.Prelude.{◌≡◌, map, false};
ghost use Rattle.std.specs.List.{flat_map};
ghost use Rattle.dl_text.specs.Writing.{Puts};
ghost use Rattle.dl_print.specs.Canonical as spec;
ghost use Rattle.dl_print.specs.Canonical.{text_of};

use crate::statements::put_statements;
use crate::words::{Level, put_count, put_name};
use dl_grammar::{TreeField, TreeKind, TreeOp};
use dl_text::{Failed, Out, Sink};

fn put_field<K: Sink>(field: &TreeField, out: &mut Out, sink: &mut K) -> Result<(), Failed>
    requires { out.old.failed ≡ false }
    ensures { Puts (K.taken sink.old) out.old (text_of (spec.field_pieces field.now)) result (K.taken sink.new) out.new }
{
    put_name(&field.name, out, sink)?;
    out.put(sink, b": ")?;
    out.put(sink, field.ty.text.as_slice())
}

fn put_next_field<K: Sink>(field: &TreeField, out: &mut Out, sink: &mut K) -> Result<(), Failed>
    requires { out.old.failed ≡ false }
    ensures { Puts (K.taken sink.old) out.old (text_of (spec.next_field field.now)) result (K.taken sink.new) out.new }
{
    out.put(sink, b", ")?;
    put_field(field, out, sink)
}

// Puts fields behind a first one.
fn put_next_fields<K: Sink>(fields: &[TreeField], out: &mut Out, sink: &mut K) -> Result<(), Failed>
    requires { out.old.failed ≡ false }
    ensures { Puts (K.taken sink.old) out.old (text_of (flat_map spec.next_field fields.now)) result (K.taken sink.new) out.new }
{
    'fields: for field in fields {
        put_next_field(field, out, sink)?;
    }
    Ok(())
}

/// Puts fields with commas between them.
fn put_fields<K: Sink>(fields: &[TreeField], out: &mut Out, sink: &mut K) -> Result<(), Failed>
    requires { out.old.failed ≡ false }
    ensures { Puts (K.taken sink.old) out.old (text_of (spec.fields_pieces fields.now)) result (K.taken sink.new) out.new }
{
    let [first, more @ ..] = fields else {
        return out.put(sink, b"");
    };
    put_field(first, out, sink)?;
    put_next_fields(more, out, sink)
}

/// Puts the fields of a kind.
fn put_kind_fields<K: Sink>(fields: &[TreeField], out: &mut Out, sink: &mut K) -> Result<(), Failed>
    requires { out.old.failed ≡ false }
    ensures { Puts (K.taken sink.old) out.old (text_of (spec.kind_fields fields.now)) result (K.taken sink.new) out.new }
{
    if fields.is_empty() {
        return out.put(sink, b"{ }");
    }
    out.put(sink, b"{ ")?;
    put_fields(fields, out, sink)?;
    out.put(sink, b" }")
}

fn put_root_head<K: Sink>(kind: &TreeKind, out: &mut Out, sink: &mut K) -> Result<(), Failed>
    requires { out.old.failed ≡ false }
    ensures { Puts (K.taken sink.old) out.old (text_of (spec.root_head kind.now)) result (K.taken sink.new) out.new }
{
    out.put(sink, b"root ")?;
    put_name(&kind.name, out, sink)?;
    out.put(sink, b" ")?;
    put_count(kind.count, out, sink)?;
    out.put(sink, b" ")
}

fn put_node_head<K: Sink>(kind: &TreeKind, out: &mut Out, sink: &mut K) -> Result<(), Failed>
    requires { out.old.failed ≡ false }
    ensures { Puts (K.taken sink.old) out.old (text_of (spec.node_head kind.now)) result (K.taken sink.new) out.new }
{
    out.put(sink, b"node ")?;
    put_name(&kind.name, out, sink)?;
    out.put(sink, b" ")
}

fn put_kind_head<K: Sink>(kind: &TreeKind, out: &mut Out, sink: &mut K) -> Result<(), Failed>
    requires { out.old.failed ≡ false }
    ensures { Puts (K.taken sink.old) out.old (text_of (spec.kind_head kind.now)) result (K.taken sink.new) out.new }
{
    if kind.is_root {
        put_root_head(kind, out, sink)
    } else {
        put_node_head(kind, out, sink)
    }
}

/// Puts the line of a kind.
fn put_kind<K: Sink>(kind: &TreeKind, out: &mut Out, sink: &mut K) -> Result<(), Failed>
    requires { out.old.failed ≡ false }
    ensures { Puts (K.taken sink.old) out.old (text_of (spec.kind_line kind.now)) result (K.taken sink.new) out.new }
{
    put_kind_head(kind, out, sink)?;
    put_kind_fields(kind.fields.as_slice(), out, sink)?;
    out.put(sink, b"\n")
}

/// Puts the lines of kinds.
pub fn put_kinds<K: Sink>(kinds: &[TreeKind], out: &mut Out, sink: &mut K) -> Result<(), Failed>
    requires { out.old.failed ≡ false }
    ensures { Puts (K.taken sink.old) out.old (text_of (flat_map spec.kind_line kinds.now)) result (K.taken sink.new) out.new }
{
    'kinds: for kind in kinds {
        put_kind(kind, out, sink)?;
    }
    Ok(())
}

fn put_signature<K: Sink>(op: &TreeOp, out: &mut Out, sink: &mut K) -> Result<(), Failed>
    requires { out.old.failed ≡ false }
    ensures { Puts (K.taken sink.old) out.old (text_of (spec.signature_pieces op.now)) result (K.taken sink.new) out.new }
{
    out.put(sink, b"op ")?;
    put_name(&op.name, out, sink)?;
    out.put(sink, b"(")?;
    put_fields(op.params.as_slice(), out, sink)?;
    out.put(sink, b")")
}

fn put_quotas<K: Sink>(op: &TreeOp, out: &mut Out, sink: &mut K) -> Result<(), Failed>
    requires { out.old.failed ≡ false }
    ensures { Puts (K.taken sink.old) out.old (text_of (spec.quota_pieces op.now)) result (K.taken sink.new) out.new }
{
    out.put(sink, b" allocs ")?;
    put_count(op.allocs, out, sink)?;
    out.put(sink, b" fuel ")?;
    put_count(op.fuel, out, sink)
}

/// Puts the line of the vars, if there are any.
fn put_vars<K: Sink>(vars: &[TreeField], out: &mut Out, sink: &mut K) -> Result<(), Failed>
    requires { out.old.failed ≡ false }
    ensures { Puts (K.taken sink.old) out.old (text_of (spec.vars_line vars.now)) result (K.taken sink.new) out.new }
{
    if vars.is_empty() {
        return out.put(sink, b"");
    }
    out.put(sink, b"  var ")?;
    put_fields(vars, out, sink)?;
    out.put(sink, b";\n")
}

/// Puts the statements of an operation, one level in.
fn put_body<K: Sink>(op: &TreeOp, out: &mut Out, sink: &mut K) -> Result<(), Failed>
    requires { out.old.failed ≡ false }
    ensures { Puts (K.taken sink.old) out.old (text_of (spec.lines_at (map spec.statement_lines op.now.body) 1)) result (K.taken sink.new) out.new }
{
    put_statements(&op.body, &Level::Inside(&Level::Margin), out, sink)
}

/// Puts the lines of an operation.
fn put_op<K: Sink>(op: &TreeOp, out: &mut Out, sink: &mut K) -> Result<(), Failed>
    requires { out.old.failed ≡ false }
    ensures { Puts (K.taken sink.old) out.old (text_of (spec.op_lines op.now)) result (K.taken sink.new) out.new }
{
    put_signature(op, out, sink)?;
    put_quotas(op, out, sink)?;
    out.put(sink, b" {\n")?;
    put_vars(op.vars.as_slice(), out, sink)?;
    put_body(op, out, sink)?;
    out.put(sink, b"}\n")
}

/// Puts the lines of operations.
pub fn put_ops<K: Sink>(ops: &[TreeOp], out: &mut Out, sink: &mut K) -> Result<(), Failed>
    requires { out.old.failed ≡ false }
    ensures { Puts (K.taken sink.old) out.old (text_of (flat_map spec.op_lines ops.now)) result (K.taken sink.new) out.new }
{
    'ops: for op in ops {
        put_op(op, out, sink)?;
    }
    Ok(())
}

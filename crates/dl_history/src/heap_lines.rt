//! The part of a report that tells of the heap.

ghost use Rattle.std.specs.Prelude.{◌≡◌, ◌++◌, codes, slice_get, Some, false, length, Option, filter, nat_lt};
ghost use Rattle.std.specs.List.{flat_map, zip};
ghost use Rattle.std.specs.FinMap as finite;
ghost use Rattle.dl_ir.specs.Heap.{hidden_count};
ghost use Rattle.dl_text.specs.Writing.{Puts};
ghost use Rattle.dl_history.specs.Report.{field_text, seal_text, object_text, object_line, heap_head, heap_part};

use crate::pieces::{put_name, put_text, put_value};
use dl_ir::{FieldDecl, FieldsRef, Heap, KindDecl, Module, Name, ObjRef, Value};
use dl_text::{Failed, Out, Sink};

fn put_field<K: Sink>(
    out: &mut Out,
    sink: &mut K,
    decl: &FieldDecl,
    value: Value,
) -> Result<(), Failed>
    requires { out.old.failed ≡ false }
    ensures { Puts (K.taken sink.old) out.old (field_text (decl.now, value)) result (K.taken sink.new) out.new }
{
    out.put(sink, b" ")?;
    put_text(out, sink, &decl.name)?;
    out.put(sink, b"=")?;
    put_value(out, sink, value)
}

// Puts each field with its value.
fn put_fields<K: Sink>(
    out: &mut Out,
    sink: &mut K,
    decls: &[FieldDecl],
    values: &FieldsRef<'_>,
) -> Result<(), Failed>
    requires { out.old.failed ≡ false }
    ensures { Puts (K.taken sink.old) out.old (flat_map field_text (zip decls.now values.now)) result (K.taken sink.new) out.new }
{
    'fields: for i in 0..decls.len() {
        let Some(value) = values.get(i) else {
            return Ok(());
        };
        put_field(out, sink, &decls[i], value)?;
    }
    Ok(())
}

fn put_seal<K: Sink>(out: &mut Out, sink: &mut K, sealed: bool) -> Result<(), Failed>
    requires { out.old.failed ≡ false }
    ensures { Puts (K.taken sink.old) out.old (seal_text sealed) result (K.taken sink.new) out.new }
{
    if sealed {
        out.put(sink, b" sealed")
    } else {
        out.put(sink, b"")
    }
}

fn put_object_fields<K: Sink>(
    out: &mut Out,
    sink: &mut K,
    object: &ObjRef<'_>,
    kind: &KindDecl,
) -> Result<(), Failed>
    requires { out.old.failed ≡ false }
    ensures { Puts (K.taken sink.old) out.old (flat_map field_text (zip kind.now.fields object.now.fields)) result (K.taken sink.new) out.new }
{
    put_fields(out, sink, kind.fields.as_slice(), &object.fields())
}

fn put_object_of<K: Sink>(
    out: &mut Out,
    sink: &mut K,
    object: &ObjRef<'_>,
    kind: &KindDecl,
) -> Result<(), Failed>
    requires { out.old.failed ≡ false }
    ensures { Puts (K.taken sink.old) out.old (object_text object.now (Some kind.now)) result (K.taken sink.new) out.new }
{
    put_text(out, sink, &kind.name)?;
    put_seal(out, sink, object.is_sealed())?;
    put_object_fields(out, sink, object, kind)
}

fn put_object<K: Sink>(
    out: &mut Out,
    sink: &mut K,
    source: &Module,
    object: &ObjRef<'_>,
) -> Result<(), Failed>
    requires { out.old.failed ≡ false }
    ensures { Puts (K.taken sink.old) out.old (object_text object.now (slice_get source.now.kinds object.now.kind)) result (K.taken sink.new) out.new }
{
    match source.kinds.get(object.kind() as usize) {
        Some(kind) => put_object_of(out, sink, object, kind),
        None => out.put(sink, b""),
    }
}

fn put_object_line<K: Sink>(
    out: &mut Out,
    sink: &mut K,
    source: &Module,
    name: Name,
    object: &ObjRef<'_>,
) -> Result<(), Failed>
    requires { out.old.failed ≡ false }
    ensures { Puts (K.taken sink.old) out.old (object_line source.now (name, object.now)) result (K.taken sink.new) out.new }
{
    put_name(out, sink, name)?;
    out.put(sink, b" ")?;
    put_object(out, sink, source, object)?;
    out.put(sink, b"\n")
}

fn put_object_lines<K: Sink>(
    out: &mut Out,
    sink: &mut K,
    source: &Module,
    heap: &Heap,
) -> Result<(), Failed>
    requires { out.old.failed ≡ false }
    ensures { Puts (K.taken sink.old) out.old (flat_map (object_line source.now) (finite.entries heap.now.objects)) result (K.taken sink.new) out.new }
{
    'objects: for (name, object) in heap.iter() {
        put_object_line(out, sink, source, name, &object)?;
    }
    Ok(())
}

fn put_heap_head<K: Sink>(
    out: &mut Out,
    sink: &mut K,
    objects: usize,
    hidden: usize,
) -> Result<(), Failed>
    requires { out.old.failed ≡ false }
    ensures { Puts (K.taken sink.old) out.old (heap_head objects hidden) result (K.taken sink.new) out.new }
{
    out.put(sink, b"heap ")?;
    out.put_number(sink, objects)?;
    out.put(sink, b" kept ")?;
    out.put_number(sink, hidden)
}

/// Puts the numbers of objects, and a line for each.
pub fn put_heap<K: Sink>(
    out: &mut Out,
    sink: &mut K,
    source: &Module,
    heap: &Heap,
) -> Result<(), Failed>
    requires { out.old.failed ≡ false }
    ensures { Puts (K.taken sink.old) out.old (heap_part source.now heap.now.objects) result (K.taken sink.new) out.new }
{
    put_heap_head(out, sink, heap.len(), heap.hidden_len())?;
    out.put(sink, b"\n")?;
    put_object_lines(out, sink, source, heap)
}

//! How names of locals, kinds and fields are found and printed.

ghost use Rattle.std.specs.Prelude.{◌≡◌, false, slice_get, option_and_then};
ghost use Rattle.dl_text.specs.Writing.{Puts};
ghost use Rattle.std.specs.Option.{option_copied};
ghost use Rattle.dl_ir.specs.declared.modules.LocalDecl.{LocalDecl};
ghost use Rattle.dl_instr.specs.Listing.{local_at, local_text, kind_of, kind_text, field_at, field_text};

use dl_ir::{FieldDecl, KindDecl, LocalDecl, Module, OpDecl, Text, Ty};
use dl_text::{Failed, Out, Sink};

fn local_at(op: &OpDecl, x: u32) -> Option<&LocalDecl>
    ensures { option_copied result ≡ local_at op.now x }
{
    let x = x as usize;
    let params = op.params.len();
    if x < params {
        op.params.get(x)
    } else {
        op.vars.get(x - params)
    }
}

fn kind_of(source: &Module, ty: Ty) -> Option<&KindDecl>
    ensures { option_copied result ≡ kind_of source.now ty }
{
    match ty {
        Ty::Int => None,
        Ty::Of(kind) => source.kinds.get(kind as usize),
    }
}

fn kind_referred<'a>(source: &'a Module, op: &OpDecl, local: u32) -> Option<&'a KindDecl>
    ensures { option_copied result ≡ option_and_then (λ (decl : LocalDecl). kind_of source.now decl.ty) (local_at op.now local) }
{
    match local_at(op, local) {
        Some(decl) => kind_of(source, decl.ty),
        None => None,
    }
}

fn field_at<'a>(source: &'a Module, op: &OpDecl, local: u32, field: u32) -> Option<&'a FieldDecl>
    ensures { option_copied result ≡ field_at source.now op.now local field }
{
    match kind_referred(source, op, local) {
        Some(kind) => kind.fields.get(field as usize),
        None => None,
    }
}

/// Puts the name of a local, nothing where there is none.
pub fn put_local<K: Sink>(
    out: &mut Out,
    sink: &mut K,
    op: &OpDecl,
    local: u32,
) -> Result<(), Failed>
    requires { out.old.failed ≡ false }
    ensures { Puts (K.taken sink.old) out.old (local_text op.now local) result (K.taken sink.new) out.new }
{
    match local_at(op, local) {
        Some(decl) => put_text(out, sink, &decl.name),
        None => out.put(sink, b""),
    }
}

/// Puts the name of a kind, nothing where there is none.
pub fn put_kind<K: Sink>(
    out: &mut Out,
    sink: &mut K,
    source: &Module,
    kind: u32,
) -> Result<(), Failed>
    requires { out.old.failed ≡ false }
    ensures { Puts (K.taken sink.old) out.old (kind_text source.now kind) result (K.taken sink.new) out.new }
{
    match source.kinds.get(kind as usize) {
        Some(decl) => put_text(out, sink, &decl.name),
        None => out.put(sink, b""),
    }
}

/// Puts the name of a field of the objects to which a local may refer, nothing where there is none.
pub fn put_field<K: Sink>(
    out: &mut Out,
    sink: &mut K,
    source: &Module,
    op: &OpDecl,
    local: u32,
    field: u32,
) -> Result<(), Failed>
    requires { out.old.failed ≡ false }
    ensures { Puts (K.taken sink.old) out.old (field_text source.now op.now local field) result (K.taken sink.new) out.new }
{
    match field_at(source, op, local, field) {
        Some(decl) => put_text(out, sink, &decl.name),
        None => out.put(sink, b""),
    }
}

/// Puts a name of a declaration.
pub fn put_text<K: Sink>(out: &mut Out, sink: &mut K, text: &Text) -> Result<(), Failed>
    requires { out.old.failed ≡ false }
    ensures { Puts (K.taken sink.old) out.old text.now result (K.taken sink.new) out.new }
{
    out.put(sink, text.as_slice())
}

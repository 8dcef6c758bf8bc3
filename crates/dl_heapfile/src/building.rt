//! The heap of the objects that a heap file tells, or their first fault.

ghost use Rattle.std.specs.Prelude.{◌≡◌, ◌≢◌, ◌+◌, ◌<◌, ◌≤◌, ℕ, true, false, [], ◌∷◌, ◌++◌, IfOk, MatchOption, MatchResult, Ok, Err, Some, length, map, filter, nat_lt, slice_get};
ghost use Rattle.std.specs.FinMap as finite;
ghost use Rattle.dl_ir.specs.declared.modules.FieldDecl.{FieldDecl as Decl};
ghost use Rattle.dl_ir.specs.declared.names.Name.{Name as OneName};
ghost use Rattle.dl_ir.specs.declared.names.Value.TheVariants.{Ref as RefTo};
ghost use Rattle.dl_ir.specs.declared.objects.Obj.{Obj as OneObj};
ghost use Rattle.dl_ir.specs.Heap.{HasFields, HasObject, HasStart, HasType, IsHidden, hidden_count, name_cmp};
ghost use Rattle.dl_ir.specs.Rows.{added};
ghost use Rattle.dl_ir.specs.References.{refs};
ghost use Rattle.dl_heapfile.specs.Lines.{AllMayHold, HasForm, MayHold};
ghost use Rattle.dl_heapfile.specs.Form.{AreInPlace, root_count};
ghost use Rattle.dl_heapfile.specs.Faults.{Builds, Every, FailsFirst, HasOneField, RefersWell, heap_of};
ghost use Rattle.dl_heapfile.specs.Blanks.{IsObjectFault, emptied, emptied_entry};
ghost use Rattle.dl_heapfile.specs.declared.fault.HeapFault.TheVariants.{Memory};

use crate::fault::HeapFault;
use dl_ir::{FieldDecl, Fields, Heap, Module, Name, Obj, Ty, Value};
use std::alloc::{AllocError, Global};

// The number of hidden objects among these.
fn hidden_among(entries: &[(Name, Obj)]) -> usize
    ensures { result ≡ length (filter (λ (entry : OneName × OneObj). nat_lt 0 entry.0.ticket) entries.now) }
{
    entries.iter().filter(|entry| entry.0.ticket > 0).count()
}

/// The number of hidden objects among these.
pub fn hidden_in(source: &Module, entries: &[(Name, Obj)]) -> usize
    requires { AreInPlace source.now entries.now }
    ensures count { result ≡ hidden_count (heap_of entries.now) }
    ensures roots { root_count source.now + result ≡ length entries.now }
{
    hidden_among(entries)
}

// The object with null in each field.
fn emptied(object: &Obj) -> Obj
    requires { length object.now.fields ≤ 16 }
    ensures { result ≡ emptied object.now }
{
    let mut fields = Fields::new();
    for _ in 0..object.fields.len() {
        fields.push(Value::Ref(None));
    }
    Obj {
        kind: object.kind,
        sealed: object.sealed,
        fields,
    }
}

// Puts objects into a heap, in the order of their names, each with null in each field.
fn put_emptied(heap: &mut Heap, entries: &[(Name, Obj)])
    requires few { (at : ℕ) (entry : OneName × OneObj) → slice_get entries.now at ≡ Some entry → length entry.1.fields ≤ 16 }
    requires room { finite.len heap.old.objects + length entries.now ≤ heap.old.room }
    ensures { heap.new ≡ record heap.old { objects = added heap.old.objects (map emptied_entry entries.now) } }
{
    for entry in entries {
        heap.put(entry.0, emptied(&entry.1));
    }
}

// Writes each field of an object that is there with null in each field.
fn write(heap: &mut Heap, name: Name, object: &Obj)
    requires { finite.get heap.old.objects name ≡ Some (emptied object.now) }
    ensures { heap.new ≡ record heap.old { objects = finite.insert heap.old.objects name object.now } }
{
    for (field, value) in object.fields.iter().enumerate() {
        heap.set_field(name, field, value);
    }
}

// Writes the fields of objects that are there with null in each field.
fn write_all(heap: &mut Heap, entries: &[(Name, Obj)])
    requires sorted { finite.is_sorted name_cmp entries.now ≡ true }
    requires there { (at : ℕ) (entry : OneName × OneObj) → slice_get entries.now at ≡ Some entry → finite.get heap.old.objects entry.0 ≡ Some (emptied entry.1) }
    ensures { heap.new ≡ record heap.old { objects = added heap.old.objects entries.now } }
{
    for entry in entries {
        write(heap, entry.0, &entry.1);
    }
}

// The heap of objects in the order of their names, with memory for so many. A field is written only when what it may
// refer to is there, since a reference to what is not there is looked for in all fields.
fn heap_with(alloc: Global, entries: &[(Name, Obj)], room: usize) -> Result<Heap, AllocError>
    requires sorted { finite.is_sorted name_cmp entries.now ≡ true }
    requires few { (at : ℕ) (entry : OneName × OneObj) → slice_get entries.now at ≡ Some entry → length entry.1.fields ≤ 16 }
    requires room { length entries.now ≤ room }
    ensures { IfOk result (λ heap. heap ≡ record { objects = heap_of entries.now; room = room }) }
{
    let mut heap = Heap::new(alloc, room)?;
    put_emptied(&mut heap, entries);
    write_all(&mut heap, entries);
    Ok(heap)
}

// Whether this is the name of a hidden object of the kind.
fn is_of_kind(heap: &Heap, name: Name, kind: u32) -> bool
    ensures yes { result ≡ true → IsHidden name × HasObject heap.now.objects name kind }
    ensures no { result ≡ false → IsHidden name × HasObject heap.now.objects name kind → ⊥ }
{
    match heap.get(name) {
        Some(object) => name.ticket > 0 && object.kind() == kind,
        None => false,
    }
}

// Whether a value, which may stand in a field of this type, is a number, null, or the name of an object that it may refer to.
fn refers_well(heap: &Heap, ty: Ty, value: Value) -> bool
    requires { MayHold ty value }
    ensures yes { result ≡ true → HasType heap.now.objects ty value }
    ensures no { result ≡ false → HasType heap.now.objects ty value → ⊥ }
{
    match (ty, value) {
        (Ty::Of(kind), Value::Ref(Some(target))) => is_of_kind(heap, target, kind),
        _ => true,
    }
}

// Whether the fields of an object refer to hidden objects of their kinds alone.
fn all_refer_well(heap: &Heap, decls: &[FieldDecl], values: &Fields) -> bool
    requires { AllMayHold decls.now values.now }
    ensures yes { result ≡ true → HasFields heap.now.objects decls.now values.now }
    ensures no { result ≡ false → HasFields heap.now.objects decls.now values.now → ⊥ }
{
    for (at, decl) in decls.iter().enumerate() {
        if let Some(value) = values.get(at) {
            if !refers_well(heap, decl.ty, value) {
                return false;
            }
        }
    }
    true
}

// Whether an object refers to hidden objects of its fields' kinds alone.
fn object_refers_well(source: &Module, heap: &Heap, entry: &(Name, Obj)) -> bool
    requires { HasForm source.now entry.now.1 }
    ensures yes { result ≡ true → RefersWell source.now heap.now.objects entry.now }
    ensures no { result ≡ false → RefersWell source.now heap.now.objects entry.now → ⊥ }
{
    match source.kinds.get(entry.1.kind as usize) {
        Some(declared) => all_refer_well(heap, declared.fields.as_slice(), &entry.1.fields),
        None => true,
    }
}

// The place of the first object that refers to anything else.
fn first_dangling(source: &Module, heap: &Heap, entries: &[(Name, Obj)]) -> Option<usize>
    requires { (at : ℕ) (entry : OneName × OneObj) → slice_get entries.now at ≡ Some entry → HasForm source.now entry.1 }
    ensures { MatchOption result (Every (RefersWell source.now heap.now.objects) entries.now) (FailsFirst (RefersWell source.now heap.now.objects) entries.now) }
{
    for (at, entry) in entries.iter().enumerate() {
        if !object_refers_well(source, heap, entry) {
            return Some(at);
        }
    }
    None
}

// Whether one field refers to the object, if it is hidden and unsealed.
fn has_one_field(heap: &Heap, entry: &(Name, Obj)) -> bool
    ensures yes { result ≡ true → HasOneField heap.now.objects entry.now }
    ensures no { result ≡ false → HasOneField heap.now.objects entry.now → ⊥ }
{
    entry.0.ticket == 0 || entry.1.sealed || heap.refs(entry.0) == 1
}

// The place of the first unsealed hidden object to which not exactly one field refers.
fn first_misshapen(heap: &Heap, entries: &[(Name, Obj)]) -> Option<usize>
    ensures { MatchOption result (Every (HasOneField heap.now.objects) entries.now) (FailsFirst (HasOneField heap.now.objects) entries.now) }
{
    for (at, entry) in entries.iter().enumerate() {
        if !has_one_field(heap, entry) {
            return Some(at);
        }
    }
    None
}

// The line of the first object with a fault of its own, by its fault.
fn first_fault(
    source: &Module,
    heap: &Heap,
    line: u32,
    entries: &[(Name, Obj)],
) -> Option<HeapFault>
    requires forms { (at : ℕ) (entry : OneName × OneObj) → slice_get entries.now at ≡ Some entry → HasForm source.now entry.1 }
    requires short { line + length entries.now < 4294967295 }
    ensures { MatchOption result (Every (RefersWell source.now heap.now.objects) entries.now × Every (HasOneField heap.now.objects) entries.now) (IsObjectFault source.now heap.now.objects line entries.now) }
{
    if let Some(at) = first_dangling(source, heap, entries) {
        return Some(HeapFault::Dangling {
            line: line + 1 + at as u32,
        });
    }
    if let Some(at) = first_misshapen(heap, entries) {
        return Some(HeapFault::Shape {
            line: line + 1 + at as u32,
        });
    }
    None
}

/// The heap of these objects, with memory for so many hidden ones beside the roots, or the first fault that they have.
/// Where there are more of them than that it is made all the same, since a fault of theirs comes first.
pub fn build(
    alloc: Global,
    source: &Module,
    places: u32,
    line: u32,
    entries: &[(Name, Obj)],
) -> Result<Heap, HeapFault>
    requires start { HasStart source.now }
    requires in_place { AreInPlace source.now entries.now }
    requires short { line + length entries.now < 4294967295 }
    ensures built { MatchResult result (λ heap. Builds source.now places line entries.now (Ok heap.objects)) (λ fault. fault ≢ Memory → Builds source.now places line entries.now (Err fault)) }
    ensures room { IfOk result (λ heap. heap.room ≡ root_count source.now + places) }
{
    let hidden = hidden_in(source, entries);
    let roots = entries.len() - hidden;
    let heap = heap_with(alloc, entries, roots + hidden.max(places as usize))?;
    if let Some(fault) = first_fault(source, &heap, line, entries) {
        return Err(fault);
    }
    if hidden > places as usize {
        return Err(HeapFault::NoPlaces { line });
    }
    Ok(heap)
}

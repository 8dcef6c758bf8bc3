//! What refers to an object, and whether a heap is a forest.

ghost use Rattle.std.specs.Prelude.{◌≡◌, ◌^◌, ◌<◌, ◌↔◌, IsTrue, length, sum_by};
ghost use Rattle.std.specs.List.{list_any};
ghost use Rattle.std.specs.FinMap as map;
ghost use Rattle.dl_ir.specs.declared.names.Name.{Name};
ghost use Rattle.dl_ir.specs.declared.objects.Obj.{Obj};
ghost use Rattle.dl_shape.specs.References.{refs, IsForest};
ghost use Rattle.dl_shape.specs.Settling.{is_open, is_shared};
ghost use Rattle.dl_shape.specs.Forests.{names_root, stands_in_forest};

use dl_ir::{FieldsRef, Heap, Name, ObjRef, Value};

/// The number of fields of the heap that refer to the object of this name. The heap's objects have together at
/// most 4,294,967,295 fields.
pub fn refs(heap: &Heap, name: Name) -> u32
    requires { sum_by (λ (entry : Name × Obj). length entry.1.fields) (map.entries heap.now.objects) < 2 ^ 32 }
    ensures { result ≡ refs heap.now.objects name }
{
    heap.refs(name) as u32
}

/// Whether the heap's objects have together at most 4,294,967,295 fields, so that `refs` may count them.
pub fn has_countable_fields(heap: &Heap) -> bool
    ensures { IsTrue result ↔ (sum_by (λ (entry : Name × Obj). length entry.1.fields) (map.entries heap.now.objects) < 2 ^ 32) }
{
    let mut total: usize = 0;
    for (_, object) in heap.iter() {
        total = total.saturating_add(object.fields().len());
    }
    total < 4_294_967_296
}

/// Whether no field refers to a root, and at most one field to each other unsealed object.
pub fn is_forest(heap: &Heap) -> bool
    ensures { IsTrue result ↔ IsForest heap.now.objects }
{
    for (name, object) in heap.iter() {
        if !stands_in_forest(heap, name, &object) {
            return false;
        }
    }
    true
}

// Whether no field of the object refers to a root, and it is not shared.
fn stands_in_forest(heap: &Heap, name: Name, object: &ObjRef<'_>) -> bool
    ensures { result ≡ stands_in_forest heap.now.objects (name, object.now) }
{
    !refers_to_root(&object.fields()) && !is_shared(heap, name, object)
}

// Whether one of these fields refers to a root.
fn refers_to_root(fields: &FieldsRef<'_>) -> bool
    ensures { result ≡ list_any names_root fields.now }
{
    for value in fields.iter() {
        if names_root(value) {
            return true;
        }
    }
    false
}

fn names_root(value: Value) -> bool
    ensures { result ≡ names_root value }
{
    match value {
        Value::Ref(Some(target)) => target.ticket == 0,
        _ => false,
    }
}

// Whether an object is hidden and unsealed, and two fields or more refer to it.
fn is_shared(heap: &Heap, name: Name, object: &ObjRef<'_>) -> bool
    ensures { result ≡ is_shared heap.now.objects (name, object.now) }
{
    is_open(name, object) && heap.refs(name) >= 2
}

fn is_open(name: Name, object: &ObjRef<'_>) -> bool
    ensures { result ≡ is_open (name, object.now) }
{
    name.ticket > 0 && !object.is_sealed()
}

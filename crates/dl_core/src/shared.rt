// The objects that all callers share, as events look at them and change them.
ghost use Rattle.std.specs.Prelude.{◌≡◌, ◌<◌, ◌≤◌, None, Some, slice_set};
ghost use Rattle.std.specs.Option.{option_map};
ghost use Rattle.std.specs.FinMap as finite;
ghost use Rattle.dl_core.specs.declared.objects.Object.{Object};
ghost use Rattle.dl_core.specs.Heaps.{put_at, field_of};
ghost use Rattle.dl_core.specs.Events.{with_mark, made_object};
ghost use Rattle.dl_core.specs.Plans.{Plan};
ghost use Rattle.dl_core.specs.Shared.{seen_of, with_field};
ghost use Rattle.dl_core.specs.Shown.{HasFewFields};

use crate::objects::{Mark, Object};
use dl_instr::Code;
use dl_ir::{Fields, Name, Table, Value};

/// What a caller sees of an object before it takes it.
#[derive(Clone, Copy)]
pub struct Seen {
    pub kind: u32,
    pub mark: Mark,
}

/// The kind and the mark of an object, if it is there.
pub fn look(name: Name, heap: &Table<Object>) -> Option<Seen>
    ensures { result ≡ option_map seen_of (finite.get heap.now.rows name) }
{
    match heap.get(name) {
        Some(object) => Some(Seen {
            kind: object.kind,
            mark: object.mark,
        }),
        None => None,
    }
}

// What a field of an object holds; null where the object has no such field.
fn value_in(object: &Object, field: u32) -> Value
    ensures { result ≡ field_of object.now field }
{
    object
        .fields
        .get(field as usize)
        .unwrap_or(Value::Ref(None))
}

/// What a field of an object holds, if the object is there.
pub fn field_at(name: Name, field: u32, heap: &Table<Object>) -> Option<Value>
    ensures { result ≡ option_map (λ (object : Object). field_of object field) (finite.get heap.now.rows name) }
{
    match heap.get(name) {
        Some(object) => Some(value_in(object, field)),
        None => None,
    }
}

/// Marks an object, if it is there.
pub fn set_mark(name: Name, mark: Mark, heap: &mut Table<Object>)
    requires { finite.len heap.old.rows ≤ heap.old.room }
    ensures heap { heap.new ≡ record heap.old { rows = put_at heap.old.rows name (option_map (with_mark mark) (finite.get heap.old.rows name)) } }
    ensures few { finite.len heap.new.rows ≤ heap.new.room }
{
    match heap.remove(name) {
        Some(object) => {
            let mut object = object;
            object.mark = mark;
            heap.put(name, object);
        }
        None => {}
    }
}

/// Writes a field of an object, if it is there.
pub fn set_field(name: Name, field: u32, value: Value, heap: &mut Table<Object>)
    requires { finite.len heap.old.rows ≤ heap.old.room }
    ensures heap { heap.new ≡ record heap.old { rows = put_at heap.old.rows name (option_map (with_field field value) (finite.get heap.old.rows name)) } }
    ensures few { finite.len heap.new.rows ≤ heap.new.room }
{
    match heap.remove(name) {
        Some(object) => {
            let mut object = object;
            object.fields.set(field as usize, value);
            heap.put(name, object);
        }
        None => {}
    }
}

/// An object of a kind as it begins, held by its maker.
pub fn new_object(code: &Code, caller: u32, kind: u32) -> Object
    requires { HasFewFields code.now }
    ensures { (plan : Plan) → plan.code ≡ code.now → result ≡ made_object plan caller kind }
{
    let fields = match code.source().kinds.get(kind as usize) {
        Some(declared) => Fields::blank(declared.fields.as_slice()),
        None => Fields::new(),
    };
    Object {
        kind,
        mark: Mark::Held(caller),
        fields,
    }
}

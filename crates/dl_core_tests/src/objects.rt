//! What heaps have, as tables write it.

use crate::told::{Named, name};
use dl_ir::{FieldsRef, Heap, ObjRef, Value};

/// What a field holds.
#[derive(Clone, Copy)]
pub enum Held {
    Number(i64),
    Null,
    /// A reference to the object with this ticket and index.
    To(u64, u32),
}

/// An object: its name, whether it is sealed, and its fields.
pub type Thing = (Named, bool, &'static [Held]);

fn value(held: Held) -> Value {
    match held {
        Held::Number(number) => Value::Int(number),
        Held::Null => Value::Ref(None),
        Held::To(ticket, index) => Value::Ref(Some(name((ticket, index)))),
    }
}

fn has_fields(fields: &FieldsRef<'_>, helds: &[Held]) -> bool {
    if fields.len() != helds.len() {
        return false;
    }
    for (field, held) in fields.iter().zip(helds) {
        if field != value(*held) {
            return false;
        }
    }
    true
}

fn is_so(object: &ObjRef<'_>, sealed: bool, helds: &[Held]) -> bool {
    object.is_sealed() == sealed && has_fields(&object.fields(), helds)
}

/// Whether the heap has these objects and no others.
pub fn has_things(heap: &Heap, things: &[Thing]) -> bool {
    if heap.len() != things.len() {
        return false;
    }
    for (named, sealed, helds) in things {
        match heap.get(name(*named)) {
            Some(object) if is_so(&object, *sealed, helds) => {}
            _ => return false,
        }
    }
    true
}

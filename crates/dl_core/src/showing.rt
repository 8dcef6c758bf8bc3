// What is shown of the machine's state: how many operations a caller has begun, and the names of fields.
ghost use Rattle.std.specs.Prelude.{◌≡◌, ◌<◌, length, slice_get};
ghost use Rattle.dl_core.specs.declared.frames.Frame.{Frame as Kept};
ghost use Rattle.dl_core.specs.Machines.{field_named, field_of_kind};

use crate::frames::Frame;
use crate::objects::Object;
use dl_ir::{KindDecl, Module, Name, Table};

/// How many operations the caller with this frame has begun.
pub fn begun_at(caller: u32, frames: &[Frame]) -> u32
    requires { caller < length frames.now }
    ensures { (frame : Kept) → slice_get frames.now caller ≡ Some frame → result ≡ frame.index }
{
    frames[caller as usize].index
}

fn field_in(kind: &KindDecl, field: u32) -> &[u8]
    ensures { result.now ≡ field_of_kind field kind.now }
{
    match kind.fields.get(field as usize) {
        Some(decl) => decl.name.as_slice(),
        None => &[],
    }
}

/// The name of an object's field, by the object's kind.
pub fn field_at<'a>(source: &'a Module, heap: &Table<Object>, name: Name, field: u32) -> &'a [u8]
    ensures { result.now ≡ field_named source.now heap.now.rows name field }
{
    let Some(object) = heap.get(name) else {
        return &[];
    };
    match source.kinds.get(object.kind as usize) {
        Some(kind) => field_in(kind, field),
        None => &[],
    }
}

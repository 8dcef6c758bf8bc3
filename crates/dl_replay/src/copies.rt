//! Copies of heaps, and room for what is to be made.

ghost use Rattle.std.specs.Prelude.{◌≡◌, ◌+◌, ◌≤◌, IfOk, OnOk};
ghost use Rattle.std.specs.FinMap as map;

use dl_ir::{Fields, Heap, Obj, ObjRef};
use std::alloc::{AllocError, Global};

/// A copy of a heap, with memory for so many objects.
pub fn copied(alloc: Global, heap: &Heap, room: usize) -> Result<Heap, AllocError>
    requires { map.len heap.now.objects ≤ room }
    ensures { IfOk result (λ copy. copy ≡ record { objects = heap.now.objects; room = room }) }
{
    let mut copy = Heap::new(alloc, room)?;
    for (name, object) in heap.iter() {
        copy.put(name, copy_of(&object));
    }
    Ok(copy)
}

// A copy of an object.
fn copy_of(object: &ObjRef<'_>) -> Obj
    ensures { result ≡ object.now }
{
    let mut fields = Fields::new();
    for value in object.fields().iter() {
        fields.push(value);
    }
    Obj {
        kind: object.kind(),
        sealed: object.is_sealed(),
        fields,
    }
}

/// Sees to it that there is memory for so many more objects. A heap that has too little is copied into one of twice its
/// size and more, so the time over many calls together grows with what is made.
pub fn make_room(alloc: Global, heap: &mut Heap, more: u32) -> Result<(), AllocError>
    ensures objects { OnOk result (heap.new.objects ≡ heap.old.objects) }
    ensures room { OnOk result (map.len heap.new.objects + more ≤ heap.new.room) }
{
    if heap.has_room_for(more as usize) {
        return Ok(());
    }
    let twice = heap.len().checked_mul(2).ok_or(AllocError)?;
    let room = twice.checked_add(more as usize).ok_or(AllocError)?;
    *heap = copied(alloc, heap, room)?;
    Ok(())
}

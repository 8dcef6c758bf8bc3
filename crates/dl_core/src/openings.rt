// What the machine has at the start of a run.
ghost use Rattle.std.specs.Prelude.{◌≡◌, ◌-◌, ◌≤◌, IfOk, ◌∷◌, length, map};
ghost use Rattle.std.specs.FinMap as finite;
ghost use Rattle.dl_ir.specs.Heap.{hidden_count};
ghost use Rattle.dl_shape.specs.Replay.{greatest_ticket as greatest_of};
ghost use Rattle.dl_core.specs.Heaps.{marked, marked_object};
ghost use Rattle.dl_core.specs.Machinery.{kept_idle};

use crate::counters::Counters;
use crate::frames::Frame;
use crate::lists::Row;
use crate::objects::{Mark, Object};
use crate::queues::Queue;
use crate::stages::Stage;
use dl_ir::{Emits, Fields, FieldsRef, Heap, ObjRef, Table};
use std::alloc::{AllocError, Global};

// The greatest ticket of a heap's names.
fn greatest_ticket(heap: &Heap) -> u64
    ensures { result ≡ greatest_of heap.now.objects }
{
    let mut greatest = 0;
    for (name, _) in heap.iter() {
        greatest = greatest.max(name.ticket);
    }
    greatest
}

/// The numbers that all callers share.
pub fn first_counters(heap: &Heap, places: u32) -> Counters
    requires { hidden_count heap.now.objects ≤ places }
    ensures { result ≡ record { clock = greatest_of heap.now.objects; version = 0; free = places - hidden_count heap.now.objects } }
{
    Counters {
        clock: greatest_ticket(heap),
        version: 0,
        free: places - heap.hidden_len() as u32,
    }
}

/// The same fields.
pub fn copied(fields: &FieldsRef<'_>) -> Fields
    ensures { result ≡ fields.now }
{
    let mut copy = Fields::new();
    for value in fields.iter() {
        copy.push(value);
    }
    copy
}

// An object as a run finds it.
fn found_object(object: &ObjRef<'_>) -> Object
    ensures { result ≡ marked_object object.now }
{
    Object {
        kind: object.kind(),
        mark: if object.is_sealed() {
            Mark::Sealed(0)
        } else {
            Mark::Free
        },
        fields: copied(&object.fields()),
    }
}

/// The objects that all callers share, with memory for so many.
pub fn shared_heap(alloc: Global, heap: &Heap, room: usize) -> Result<Table<Object>, AllocError>
    requires { finite.len heap.now.objects ≤ room }
    ensures { IfOk result (λ shared. shared ≡ record { rows = marked heap.now.objects; room = room }) }
{
    let mut shared = Table::new(alloc, room)?;
    for (name, object) in heap.iter() {
        shared.put(name, found_object(&object));
    }
    Ok(shared)
}

// The frame of a caller that has begun nothing and may begin so many operations, over a heap with this room.
fn idle_frame(alloc: Global, size: u32, room: usize) -> Result<Frame, AllocError>
    ensures { IfOk result (λ frame. frame ≡ kept_idle room size) }
{
    Ok(Frame {
        stage: Stage::Idle,
        op: 0,
        args: Row::new(alloc, 32)?,
        roots: Row::new(alloc, 32)?,
        index: 0,
        taken: 0,
        ticket: 0,
        place: 0,
        locals: Row::new(alloc, 32)?,
        hand: None,
        turns: 0,
        made: 0,
        emitted: Emits::new(),
        spares: 0,
        book: Table::new(alloc, room)?,
        loose: Queue::new(alloc, room)?,
        cursor: 0,
        seen: false,
        breach: None,
        reserved_at: 0,
        entries: Row::new(alloc, size as usize)?,
        refusals: Row::new(alloc, size as usize)?,
    })
}

/// The frames of all callers, behind that of nobody.
pub fn idle_frames(alloc: Global, sizes: &[u32], room: usize) -> Result<Vec<Frame>, AllocError>
    ensures { IfOk result (λ frames. frames.items ≡ kept_idle room 0 ∷ map (kept_idle room) sizes.now) }
{
    let mut frames = Vec::new(alloc);
    frames.push(idle_frame(alloc, 0, room)?)?;
    for size in sizes {
        frames.push(idle_frame(alloc, *size, room)?)?;
    }
    Ok(frames)
}

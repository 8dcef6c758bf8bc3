// What a run leaves.
ghost use Rattle.std.specs.Prelude.{◌≡◌, ◌≤◌, IfOk, [], ◌++◌, ◌+◌, length, map};
ghost use Rattle.std.specs.FinMap as finite;
ghost use Rattle.dl_core.specs.declared.frames.Frame.{Frame as Kept};
ghost use Rattle.dl_core.specs.Frames.{behind_of};
ghost use Rattle.dl_core.specs.Heaps.{plain, plain_object as plainly};

use crate::frames::Frame;
use crate::lists::Row;
use crate::objects::{Mark, Object};
use crate::openings::copied;
use dl_ir::{Entry, Heap, Obj, Refusal, Table};
use sqlite_items::Items;
use std::alloc::{AllocError, Global};

/// Memory for what a run leaves: its heap, and a list of entries and one of refusals for each caller.
#[derive(Drop)]
pub struct Leavings {
    pub heap: Heap,
    pub entries: Row<Items<Entry>>,
    pub refusals: Row<Items<Refusal>>,
}

impl Leavings {
    pub fn new(alloc: Global, room: usize, callers: usize) -> Result<Leavings, AllocError>
        ensures { IfOk result (λ left. left ≡ record { heap = record { objects = finite.empty; room = room }; entries = record { items = []; room = callers }; refusals = record { items = []; room = callers } }) }
    {
        Ok(Leavings {
            heap: Heap::new(alloc, room)?,
            entries: Row::new(alloc, callers)?,
            refusals: Row::new(alloc, callers)?,
        })
    }
}

// An object, its mark left aside but for its being sealed.
fn plain_object(object: &Object) -> Obj
    ensures { result ≡ plainly object.now }
{
    Obj {
        kind: object.kind,
        sealed: matches!(object.mark, Mark::Sealed(_)),
        fields: copied(&object.fields.view()),
    }
}

/// The objects, with their marks left aside, as a heap.
pub fn close_heap(shared: &Table<Object>, left: Heap) -> Heap
    requires empty { left.objects ≡ finite.empty }
    requires room { finite.len shared.now.rows ≤ left.room }
    ensures { result.objects ≡ plain shared.now.rows }
{
    let mut heap = left;
    for (name, object) in shared.iter() {
        heap.put(name, plain_object(object));
    }
    heap
}

/// The entries and the refusals of each caller.
pub fn close_lists(
    frames: Vec<Frame>,
    entries: Row<Items<Entry>>,
    refusals: Row<Items<Refusal>>,
) -> (Row<Items<Entry>>, Row<Items<Refusal>>)
    requires entries { length entries.items + length (behind_of frames.items) ≤ entries.room }
    requires refusals { length refusals.items + length (behind_of frames.items) ≤ refusals.room }
    ensures entries { result.0.items ≡ entries.items ++ map (λ (frame : Kept). frame.entries.items) (behind_of frames.items) }
    ensures refusals { result.1.items ≡ refusals.items ++ map (λ (frame : Kept). frame.refusals.items) (behind_of frames.items) }
{
    let mut entries = entries;
    let mut refusals = refusals;
    let mut callers = frames.into_iter();
    callers.next();
    for frame in callers {
        let Frame {
            entries: ended,
            refusals: refused,
            ..
        } = frame;
        entries.push(ended.into_items());
        refusals.push(refused.into_items());
    }
    (entries, refusals)
}

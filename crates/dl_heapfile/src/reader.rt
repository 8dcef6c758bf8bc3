//! The reader of heap files, whole.

ghost use Rattle.std.specs.Prelude.{◌≡◌, ◌≢◌, ◌≤◌, ◌+◌, ◌↔◌, Result, MatchResult, IfOk, Ok, Err, IsTrue, length};
ghost use Rattle.dl_ir.specs.Heap.{HasStart, Objects};
ghost use Rattle.dl_heapfile.specs.Faults.{IsCounted, Reads};
ghost use Rattle.dl_heapfile.specs.Form.{AreInPlace, root_count};
ghost use Rattle.dl_heapfile.specs.Laws.{IsWellRead};
ghost use Rattle.dl_heapfile.specs.Names.{HasNames};
ghost use Rattle.dl_heapfile.specs.declared.fault.HeapFault.{HeapFault as FaultOf};

use crate::building::{build, hidden_in};
use crate::entries::Entries;
use crate::fault::HeapFault;
use crate::front::{Head, find_heap, read_head};
use crate::numbers::says;
use crate::objects::read_objects;
use dl_ir::{Heap, Module};
use std::alloc::Global;

// Whether the numbers of a heap line are those of the objects.
fn is_counted(source: &Module, head: &Head<'_>, entries: &Entries) -> bool
    requires { AreInPlace source.now entries.now }
    ensures { IsTrue result ↔ IsCounted head.now.objects.now head.now.hidden.now entries.now }
{
    says(head.objects, entries.len() as u64)
        && says(head.hidden, hidden_in(source, entries.as_slice()) as u64)
}

// The heap that a text has the printed part of, or its first fault.
fn heap_of_text(
    alloc: Global,
    bytes: &[u8],
    source: &Module,
    places: u32,
) -> Result<Heap, HeapFault>
    requires start { HasStart source.now }
    requires names { HasNames source.now }
    requires short { length bytes.now ≤ 4294967294 }
    ensures reads { MatchResult result (λ heap. Reads source.now places bytes.now (Ok heap.objects)) (λ fault. fault ≢ HeapFault.Memory → Reads source.now places bytes.now (Err fault)) }
    ensures room { IfOk result (λ heap. heap.room ≡ root_count source.now + places) }
{
    let (line, text) = find_heap(bytes)?;
    let Some(head) = read_head(text) else {
        return Err(HeapFault::BadLine { line });
    };
    let entries = read_objects(alloc, source, line + 1, head.rest)?;
    if !is_counted(source, &head, &entries) {
        return Err(HeapFault::Count { line });
    }
    build(alloc, source, places, line, entries.as_slice())
}

/// Reads a heap file of a module: the heap whose printed part it has, with memory for so many hidden objects beside the
/// roots, or its first fault. At a fault nothing is answered of what comes before it.
pub fn read_heap(
    alloc: Global,
    bytes: &[u8],
    source: &Module,
    places: u32,
) -> Result<Heap, HeapFault>
    requires start { HasStart source.now }
    requires names { HasNames source.now }
    requires short { length bytes.now ≤ 4294967294 }
    ensures reads { MatchResult result (λ heap. Reads source.now places bytes.now (Ok heap.objects)) (λ fault. fault ≢ HeapFault.Memory → Reads source.now places bytes.now (Err fault)) }
    // No other outcome is of this text: each fault is answered exactly where it is the first one.
    ensures only { (outcome : Result Objects FaultOf) → Reads source.now places bytes.now outcome → MatchResult result (λ heap. outcome ≡ Ok heap.objects) (λ fault. fault ≢ HeapFault.Memory → outcome ≡ Err fault) }
    // The text has the printed part of the heap, and a run may start from it.
    ensures spelt { IfOk result (λ heap. IsWellRead source.now places bytes.now heap.objects) }
    ensures room { IfOk result (λ heap. heap.room ≡ root_count source.now + places) }
{
    heap_of_text(alloc, bytes, source, places)
}

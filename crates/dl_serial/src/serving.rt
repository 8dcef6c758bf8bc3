//! A line of calls, carried out or refused one after another.

ghost use Rattle.std.specs.Prelude.{◌≡◌, ℕ, All, ◌+◌, ◌<◌, ◌≤◌, ◌^◌, ◌∷◌, [], List, IfOk, OnOk, Some, length, slice_get};
ghost use Rattle.dl_ir.specs.CallForms.{IsCallOf, AreCallsOf};
ghost use Rattle.dl_ir.specs.Checked.{IsChecked};
ghost use Rattle.dl_ir.specs.Cover.{Covers};
ghost use Rattle.dl_ir.specs.Heap.{IsHeapOf, Objects, hidden_count};
ghost use Rattle.dl_ir.specs.declared.calls.Call.{Call as OneCall};
ghost use Rattle.dl_meaning.specs.FirstStates.{HasTicketsBelow};
ghost use Rattle.dl_shape.specs.Operation.{operated};
ghost use Rattle.dl_ir.specs.declared.moves.Move.{Move as OneMove};
ghost use Rattle.dl_shape.specs.Pool.{moves_of, in_rising_versions, IsLawfulPool, HasVersionsOfMovesAlone};
ghost use Rattle.dl_shape.specs.Rising.{AreApart};
ghost use Rattle.dl_shape.specs.Replay.{replayed, IsLegal};
ghost use Rattle.dl_shape.specs.Startable.{IsStartable, greatest_ticket};
ghost use Rattle.dl_serial.specs.Progress.{IsReady, IsAfter, Passes};
ghost use Rattle.dl_serial.specs.Refusing.{AreOfOne, RefusesExactly};
ghost use Rattle.dl_serial.specs.Rooms.{allocs_of};
ghost use Rattle.dl_serial.specs.Serving.{IsEntryOf, move_count, version_made};

use crate::operations::run_op_in;
use dl_ir::{Call, Calls, Entry, Heap, Module, Refusal, Value};
use sqlite_items::Items;
use std::alloc::{AllocError, Global};

/// What the operations of one caller came to: those carried out and those refused, each in order, and the number
/// of places that are free at the end.
#[derive(Debug, Drop)]
pub struct Served {
    pub entries: Items<Entry>,
    pub refusals: Items<Refusal>,
    pub free: u32,
}

/// A line of calls: what was carried out and refused, the next ticket, and the pool's free places and version.
#[derive(Drop)]
pub struct Line {
    pub entries: Items<Entry>,
    pub refusals: Items<Refusal>,
    pub ticket: u64,
    pub free: u32,
    pub version: u64,
}

/// The greatest ticket of a heap's names. A root's is 0.
pub fn greatest_ticket(heap: &Heap) -> u64
    ensures { result ≡ greatest_ticket heap.now.objects }
{
    let mut greatest = 0;
    for (name, _) in heap.iter() {
        greatest = greatest.max(name.ticket);
    }
    greatest
}

/// Runs the operations of caller 1 one after another, with tickets from `first` on, one above those of the heap. An operation is refused exactly
/// where the places less the hidden objects are below the number of objects that it may make. Where memory is wanting,
/// also because the heap has no room, the heap is spent: it is of no use but to be dropped.
pub fn run_calls(
    alloc: Global,
    source: &Module,
    heap: &mut Heap,
    places: u32,
    first: u64,
    calls: &Calls,
) -> Result<Served, AllocError>
    requires checked { IsChecked source.now }
    requires of_module { AreCallsOf source.now calls.now }
    requires startable { IsStartable source.now heap.old.objects }
    requires next { first ≡ greatest_ticket heap.old.objects + 1 }
    requires hidden { hidden_count heap.old.objects ≤ places }
    ensures replay { IfOk result (λ served. replayed source.now (calls.now ∷ []) heap.old.objects served.entries ≡ heap.new.objects) }
    ensures legal { IfOk result (λ served. IsLegal source.now (calls.now ∷ []) heap.old.objects served.entries) }
    ensures covers { IfOk result (λ served. Covers (calls.now ∷ []) served.entries served.refusals) }
    ensures refuses { IfOk result (λ served. RefusesExactly places source.now calls.now heap.old.objects served.entries served.refusals) }
    ensures refusals { IfOk result (λ served. AreOfOne served.refusals) }
    ensures short { IfOk result (λ served. length served.entries ≤ length calls.now) }
    ensures rising { IfOk result (λ served. in_rising_versions (moves_of source.now (calls.now ∷ []) served.entries) ≡ moves_of source.now (calls.now ∷ []) served.entries) }
    ensures apart { IfOk result (λ served. AreApart (λ (move : OneMove). move.version) (moves_of source.now (calls.now ∷ []) served.entries)) }
    ensures versions { IfOk result (λ served. All (HasVersionsOfMovesAlone source.now (calls.now ∷ [])) served.entries) }
    ensures pool { IfOk result (λ served. IsLawfulPool places source.now (calls.now ∷ []) heap.old.objects served.entries served.refusals) }
    ensures free { IfOk result (λ served. served.free + hidden_count heap.new.objects ≡ places) }
    ensures heap { OnOk result (IsHeapOf source.now heap.new.objects) }
{
    let hidden = heap.hidden_len();
    let mut line = Line {
        entries: Items::from_vec(Vec::with_capacity(alloc, calls.len())?),
        refusals: Items::new(alloc),
        ticket: first,
        free: places - hidden as u32,
        version: 0,
    };
    let mut memory = Vec::new(alloc);
    for (at, call) in calls.as_slice().iter().enumerate() {
        let index = at as u32 + 1;
        serve(alloc, source, heap, call, index, &mut line, &mut memory)?;
    }
    Ok(Served {
        entries: line.entries,
        refusals: line.refusals,
        free: line.free,
    })
}

// Carries out a call, or refuses it.
fn serve(
    alloc: Global,
    source: &Module,
    heap: &mut Heap,
    call: &Call,
    index: u32,
    line: &mut Line,
    memory: &mut Vec<Value>,
) -> Result<(), AllocError>
    requires checked { IsChecked source.now }
    requires of_module { IsCallOf source.now call.now }
    requires heap { IsHeapOf source.now heap.old.objects }
    requires below { HasTicketsBelow line.old.ticket heap.old.objects }
    requires ready { IsReady line.old heap.old }
    ensures { OnOk result ((places first count : ℕ) (begun : Objects) (calls : List OneCall) → IsAfter source.now places first begun calls count line.old heap.old → slice_get calls count ≡ Some call.now → index ≡ count + 1 → IsAfter source.now places first begun calls (count + 1) line.new heap.new) }
{
    let need = allocs(source, call);
    if line.free < need {
        let refusal = Refusal {
            caller: 1,
            index,
            need,
            found: line.free,
            version: line.version,
        };
        line.refusals.push(refusal)?;
    } else {
        let entry = carry_out(alloc, source, heap, call, index, line, memory)?;
        line.entries.push(entry)?;
    }
    Ok(())
}

// Carries out a call for which there are places.
fn carry_out(
    alloc: Global,
    source: &Module,
    heap: &mut Heap,
    call: &Call,
    index: u32,
    line: &mut Line,
    memory: &mut Vec<Value>,
) -> Result<Entry, AllocError>
    requires checked { IsChecked source.now }
    requires of_module { IsCallOf source.now call.now }
    requires heap { IsHeapOf source.now heap.old.objects }
    requires below { HasTicketsBelow line.old.ticket heap.old.objects }
    requires ready { IsReady line.old heap.old }
    requires need { allocs_of source.now call.now ≤ line.old.free }
    ensures entry { IfOk result (λ entry. IsEntryOf source.now heap.old.objects call.now line.old.ticket index line.old.version entry) }
    ensures left { OnOk result (heap.new ≡ record heap.old { objects = (operated source.now heap.old.objects line.old.ticket call.now).objects }) }
    ensures line { IfOk result (λ entry. Passes line.old line.new (allocs_of source.now call.now) entry) }
{
    let need = allocs(source, call);
    let ticket = line.ticket;
    let before = heap.len();
    let answer = run_op_in(alloc, source, heap, ticket, call, memory)?;
    let returned = returned_places(need, before, heap.len());
    let reserved_at = make_move(&mut line.version, need);
    let returned_at = make_move(&mut line.version, returned);
    line.ticket += 1;
    line.free = line.free - need + returned;
    Ok(Entry {
        ticket,
        caller: 1,
        index,
        answer,
        reserved_at,
        returned,
        returned_at,
    })
}

// The number of objects that the operation of a call may make.
fn allocs(source: &Module, call: &Call) -> u32
    ensures { result ≡ allocs_of source.now call.now }
{
    match source.ops.get(call.op as usize) {
        Some(op) => op.allocs,
        None => 0,
    }
}

// The places that an operation returns: those that it reserved, less the objects that the heap has more than before.
fn returned_places(need: u32, before: usize, after: usize) -> u32
    requires not_more { after ≤ before + need }
    requires small { before + need < after + 2 ^ 32 }
    ensures { result + after ≡ before + need }
{
    if after < before {
        need + (before - after) as u32
    } else {
        need - (after - before) as u32
    }
}

// Makes a move of so many places, where it is one, and answers the version that it made, or 0.
fn make_move(version: &mut u64, places: u32) -> u64
    requires { version.old + 1 < 2 ^ 64 }
    ensures made { result ≡ version_made version.old places }
    ensures next { version.new ≡ version.old + move_count places }
{
    if places == 0 {
        return 0;
    }
    *version += 1;
    *version
}

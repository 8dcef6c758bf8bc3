//! Replays of histories, and their faults.

ghost use Rattle.std.specs.Prelude.{◌≡◌, ◌≢◌, ◌≤◌, ◌+◌, ◌<◌, ◌^◌, ◌↔◌, IsTrue, IfOk, IfErr, OnOk, MatchResult, All, length};
ghost use Rattle.dl_ir.specs.Checked.{IsChecked};
ghost use Rattle.dl_ir.specs.Heap.{IsHeapOf};
ghost use Rattle.dl_meaning.specs.FirstStates.{HasTicketsBelow};
ghost use Rattle.dl_meaning.specs.Operations.{AreFilesOf};
ghost use Rattle.dl_serial.specs.Rooms.{allocs_of};
ghost use Rattle.dl_shape.specs.Replay.{replayed, greatest_ticket, IsLegal};
ghost use Rattle.dl_shape.specs.Startable.{IsStartable};
ghost use Rattle.dl_replay.specs.declared.replays.ReplayFault.{ReplayFault as FaultOf};
ghost use Rattle.dl_replay.specs.Faults.{IsFault, NamesOperation, CoveredEntriesNameOperations};
ghost use Rattle.dl_replay.specs.Steps.{GoesOn, IsFaultHere};

use crate::copies::{copied, make_room};
use dl_history::{History, call_of};
use dl_ir::{Answer, Call, Calls, End, Entry, Heap, Module, Name};
use dl_serial::{greatest_ticket, run_op};
use std::alloc::{AllocError, Global};
use thiserror::Error;

/// What a legal history comes to: the heap at its end, and the number of its entries.
#[derive(Drop)]
pub struct Replayed {
    pub heap: Heap,
    pub entries: u32,
}

/// Why a history is not legal, by its first entry at fault.
#[derive(Clone, Copy, Debug, PartialEq, Eq, Error)]
pub enum ReplayFault {
    /// The entry has another ticket than the next one, which is this.
    #[error("ticket {ticket} is missing")]
    Gap {
        ticket: u64,
    },
    /// The entry has another answer than the one that its operation gives.
    #[error("ticket {ticket} has another answer than its replay")]
    Differs {
        ticket: u64,
        kept: Answer,
        replayed: Answer,
    },
    #[error("out of memory")]
    Memory,
}

impl From<AllocError> for ReplayFault {
    ghost use Rattle.std.specs.Prelude.{◌≡◌};
    ghost use Rattle.dl_replay.specs.declared.replays.ReplayFault.TheVariants.{Memory};

    ghost from_gives = { λ _ fault. fault ≡ Memory };

    fn from(_fault: AllocError) -> ReplayFault {
        ReplayFault::Memory
    }
}

/// Runs the operations of a history again, one after another, from a heap of the module. The first entry whose ticket is
/// not the next one, or whose answer is not the one that its operation gives, is at fault.
pub fn replay(
    alloc: Global,
    source: &Module,
    start: &Heap,
    files: &[Calls],
    history: &History,
) -> Result<Replayed, ReplayFault>
    requires checked { IsChecked source.now }
    requires of_module { AreFilesOf source.now files.now }
    requires startable { IsStartable source.now start.now.objects }
    requires named { All (NamesOperation files.now) history.now.entries }

    // A history is replayed where it is legal, unless memory runs out.
    ensures legal { IfOk result (λ _. IsLegal source.now files.now start.now.objects history.now.entries) }
    ensures objects { IfOk result (λ found. found.heap.objects ≡ replayed source.now files.now start.now.objects history.now.entries) }
    ensures entries { IfOk result (λ found. found.entries ≡ length history.now.entries) }
    ensures only { IsLegal source.now files.now start.now.objects history.now.entries → IfErr result (λ fault. fault ≡ ReplayFault.Memory) }

    // A fault is that of the first entry at fault, and where there is one it is answered.
    ensures fault { IfErr result (λ fault. fault ≢ ReplayFault.Memory → IsFault source.now files.now start.now.objects history.now.entries fault) }
    ensures only_fault { (fault : FaultOf) → IsFault source.now files.now start.now.objects history.now.entries fault → MatchResult result (λ _. ⊥) (λ found. found ≢ ReplayFault.Memory → found ≡ fault) }
{
    let entries = history.entries();
    if entries.len() > u32::MAX as usize {
        return Err(ReplayFault::Memory);
    }
    let first = greatest_ticket(start) + 1;
    let mut heap = copied(alloc, start, start.len())?;
    for (at, entry) in entries.iter().enumerate() {
        replay_entry(alloc, source, &mut heap, first + at as u64, files, entry)?;
    }
    Ok(Replayed {
        heap,
        entries: entries.len() as u32,
    })
}

/// Where a history and refusals have each operation of the files once, each entry of the history is that of an operation
/// of the files.
pub fn covered_entries_name_operations()
    ensures { CoveredEntriesNameOperations }
{}

// Runs the operation of an entry where the entry's ticket is the next one, and compares the answers.
fn replay_entry(
    alloc: Global,
    source: &Module,
    heap: &mut Heap,
    ticket: u64,
    files: &[Calls],
    entry: &Entry,
) -> Result<(), ReplayFault>
    requires checked { IsChecked source.now }
    requires of_module { AreFilesOf source.now files.now }
    requires heap { IsHeapOf source.now heap.old.objects }
    requires below { HasTicketsBelow ticket heap.old.objects }
    requires named { NamesOperation files.now entry.now }
    ensures goes_on { OnOk result (GoesOn source.now files.now heap.old.objects ticket entry.now heap.new.objects) }
    ensures fault { IfErr result (IsFaultHere source.now files.now heap.old.objects ticket entry.now) }
{
    if entry.ticket != ticket {
        return Err(ReplayFault::Gap { ticket });
    }
    let Some(call) = call_of(files, entry.caller, entry.index) else {
        unreachable!()
    };
    make_room(alloc, heap, allocs(source, call))?;
    let replayed = run_op(alloc, source, heap, ticket, call)?;
    if !is_same(&replayed, &entry.answer) {
        return Err(ReplayFault::Differs {
            ticket,
            kept: entry.answer,
            replayed,
        });
    }
    Ok(())
}

// Whether two answers are the same.
fn is_same(a: &Answer, b: &Answer) -> bool
    ensures { IsTrue result ↔ (a.now ≡ b.now) }
{
    is_same_end(a.end, b.end)
        && is_same_breach(a.breach, b.breach)
        && is_same_list(a.emitted.as_slice(), b.emitted.as_slice())
}

fn is_same_end(a: End, b: End) -> bool
    ensures { IsTrue result ↔ (a ≡ b) }
{
    a == b
}

fn is_same_breach(a: Option<Name>, b: Option<Name>) -> bool
    ensures { IsTrue result ↔ (a ≡ b) }
{
    a == b
}

fn is_same_list(a: &[i64], b: &[i64]) -> bool
    ensures { IsTrue result ↔ (a.now ≡ b.now) }
{
    a == b
}

// The number of objects that the operation of a call may make.
fn allocs(source: &Module, call: &Call) -> u32
    ensures { result ≡ allocs_of source.now call.now }
{
    match source.ops.get(call.op as usize) {
        Some(op) => op.allocs,
        None => 0,
    }
}

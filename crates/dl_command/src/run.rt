//! Running the calls of a command, and the report of it.

ghost use Rattle.std.specs.Prelude.{◌≡◌, ◌≤◌, ◌<◌, ◌+◌, ◌∷◌, [], false, All, IfOk, OnOk, length, map, sum_by};
ghost use Rattle.dl_ir.specs.CallForms.{AreCallsOf};
ghost use Rattle.dl_ir.specs.Checked.{IsChecked};
ghost use Rattle.dl_ir.specs.Cover.{Covers};
ghost use Rattle.dl_core.specs.Closing.{AreFresh};
ghost use Rattle.dl_core.specs.Passes.{plan_over};
ghost use Rattle.dl_core.specs.Plans.{IsPlan};
ghost use Rattle.dl_shape.specs.Pool.{moves_of, in_rising_versions};
ghost use Rattle.dl_shape.specs.Replay.{replayed};
ghost use Rattle.dl_history.specs.Histories.{joined, AreByCaller};
ghost use Rattle.dl_text.specs.Writing.{Puts};
ghost use Rattle.dl_history.specs.Report.{report};
ghost use Rattle.dl_command.specs.Promise.{IsRun, Prints};
ghost use Rattle.dl_command.specs.Texts.{CanStart, first_heap, heap_of};

use crate::loading::Input;
use crate::status::Status;
use dl_core::Ground;
use dl_history::{History, MergeRoom, gather, history_of, merge, write_report};
use dl_instr::{Code, codes_of_modules, instrument};
use dl_io::{Failed, Sink};
use dl_ir::{Calls, Closed, Heap, Module, Refusal};
use dl_machine::{Gate, run_files};
use dl_serial::{greatest_ticket, run_calls};
use dl_text::Out;
use sqlite_items::Items;
use std::alloc::{AllocError, Global};
use std::sync::Wait;
use std::thread::Threads;

/// What running the calls of a command came to: the history, the refusals by caller and index, and what the run left.
/// Behind `run_from` the entries stand in the history alone, and what the run left has no list of them.
#[derive(Drop)]
pub struct Run {
    pub history: History,
    pub refusals: Items<Refusal>,
    pub closed: Closed,
}

/// The heap from which a run starts: the one that is given, or else the start heap of the module, with memory for so many
/// hidden objects.
pub fn start_heap(
    alloc: Global,
    source: &Module,
    given: Option<Heap>,
    places: u32,
) -> Result<Heap, AllocError>
    requires places { places ≤ 65536 }
    requires checked { IsChecked source.now }
    ensures { IfOk result (λ heap. heap.objects ≡ first_heap source.now given) }
{
    match given {
        Some(heap) => Ok(heap),
        None => Heap::start(alloc, source, places),
    }
}

/// Runs the calls of one file, one after another, from a heap of their module, with so many hidden objects at a time at most.
pub fn run_from(
    alloc: Global,
    source: &Module,
    heap: Heap,
    places: u32,
    files: &[Calls],
) -> Result<Run, AllocError>
    requires checked { IsChecked source.now }
    requires one { length files.now ≡ 1 }
    requires calls { All (AreCallsOf source.now) files.now }
    requires start { CanStart source.now places heap.objects }
    ensures run { IfOk result (λ run. IsRun source.now heap.objects files.now places run.history run.refusals) }
    ensures heap { IfOk result (λ run. run.closed.heap.objects ≡ replayed source.now files.now heap.objects run.history.entries) }
    ensures moves { IfOk result (λ run. run.history.moves ≡ in_rising_versions (moves_of source.now files.now run.history.entries)) }
    ensures refusals { IfOk result (λ run. (joined run.closed.refusals ≡ run.refusals) × AreByCaller run.closed.refusals) }
{
    let mut heap = heap;
    let first = greatest_ticket(&heap) + 1;
    let served = run_calls(alloc, source, &mut heap, places, first, &files[0])?;
    let room = MergeRoom::new(alloc, served.entries.len() as u32)?;
    let refusals = Items::from_slice(alloc, served.refusals.as_slice())?;
    let closed = close(alloc, heap, served.refusals, served.free)?;
    let history = history_of(source, files, served.entries, room);
    Ok(Run {
        history,
        refusals,
        closed,
    })
}

/// The number of operations of each file.
pub fn sizes_of(alloc: Global, files: &[Calls]) -> Result<Vec<u32>, AllocError>
    requires { All (λ calls. length calls ≤ 65536) files.now }
    ensures { IfOk result (λ sizes. sizes.items ≡ map length files.now) }
{
    let mut sizes = Vec::new(alloc);
    'files: for calls in files {
        sizes.push(calls.len() as u32)?;
    }
    Ok(sizes)
}

/// The number of all operations.
pub fn total_of(files: &[Calls]) -> u32
    requires few { length files.now ≤ 64 }
    requires short { All (λ calls. length calls ≤ 65536) files.now }
    ensures { result ≡ sum_by length files.now }
{
    let mut total = 0;
    'files: for calls in files {
        total += calls.len() as u32;
    }
    total
}

// Opens a run of several callers from the heap that is given, or else the start heap of the code's module.
fn open_over<G: Ground>(
    alloc: Global,
    code: Code,
    given: &Option<Heap>,
    places: u32,
    sizes: &[u32],
) -> Result<(G, Vec<G::Pass>), AllocError>
    requires plan { IsPlan (plan_over code (first_heap code.source given.now) places sizes.now) }
    ensures plan { IfOk result (λ opened. G.plan opened.0 ≡ plan_over code (first_heap code.source given.now) places sizes.now) }
    ensures fresh { IfOk result (λ opened. AreFresh (G.plan opened.0) (G.is_of opened.0) G.view opened.1.items) }
{
    match given {
        Some(heap) => G::over(alloc, code, heap, places, sizes),
        None => G::start(alloc, code, places, sizes),
    }
}

/// Runs the calls of each file side by side, by what runs operations for several callers, from the heap that is given, or
/// else the start heap of their module, with so many hidden objects at a time at most. All memory is taken before the first
/// operation begins.
pub fn run_over<R: Threads + Wait + Sync, G: Ground, T: Gate>(
    rt: &R,
    alloc: Global,
    input: &Input,
    places: u32,
    gate: &T,
) -> Result<Run, AllocError>
    requires places { places ≤ 65536 }
    requires checked { IsChecked input.now.source }
    requires some { 1 ≤ length input.now.all.items }
    requires few { length input.now.all.items ≤ 64 }
    requires calls { All (AreCallsOf input.now.source) input.now.all.items }
    requires start { CanStart input.now.source places (heap_of input.now) }
    ensures run { IfOk result (λ run. IsRun input.now.source (heap_of input.now) input.now.all.items places run.history run.refusals) }
    ensures heap { IfOk result (λ run. run.closed.heap.objects ≡ replayed input.now.source input.now.all.items (heap_of input.now) run.history.entries) }
    ensures moves { IfOk result (λ run. run.history.moves ≡ in_rising_versions (moves_of input.now.source input.now.all.items run.history.entries)) }
    ensures refusals { IfOk result (λ run. (joined run.closed.refusals ≡ run.refusals) × AreByCaller run.closed.refusals) }
{
    codes_of_modules();
    let files = input.all.as_slice();
    let code = instrument(alloc, &input.source)?;
    let sizes = sizes_of(alloc, files)?;
    let total = total_of(files);
    let room = MergeRoom::new(alloc, total)?;
    let mut refusals = Vec::with_capacity(alloc, total as usize)?;
    let (all, passes) = open_over::<G>(alloc, code, &input.heap, places, &sizes)?;
    let closed = run_files(rt, all, passes, files, gate);
    let history = merge(&input.source, files, &closed, room);
    gather(closed.refusals.as_slice(), &mut refusals);
    Ok(Run {
        history,
        refusals: Items::from_vec(refusals),
        closed,
    })
}

// What a run of one caller left, without its entries, which its history has.
fn close(
    alloc: Global,
    heap: Heap,
    refusals: Items<Refusal>,
    free: u32,
) -> Result<Closed, AllocError>
    ensures heap { IfOk result (λ closed. closed.heap ≡ heap) }
    ensures entries { IfOk result (λ closed. closed.entries ≡ []) }
    ensures refusals { IfOk result (λ closed. closed.refusals ≡ refusals ∷ []) }
    ensures free { IfOk result (λ closed. closed.free ≡ free) }
{
    let mut lists = Items::new(alloc);
    lists.push(refusals)?;
    Ok(Closed {
        heap,
        entries: Items::new(alloc),
        refusals: lists,
        free,
    })
}

/// Puts the report of a run, and writes all that was put.
pub fn put_run<K: Sink>(
    source: &Module,
    files: &[Calls],
    run: &Run,
    out: &mut Out,
    sink: &mut K,
) -> Result<(), Failed>
    requires works { out.old.failed ≡ false }
    requires few { length files.now ≤ 64 }
    requires calls { All (AreCallsOf source.now) files.now }
    requires covers { Covers files.now run.now.history.entries run.now.refusals }
    requires moves { run.now.history.moves ≡ in_rising_versions (moves_of source.now files.now run.now.history.entries) }
    requires refusals { (joined run.now.closed.refusals ≡ run.now.refusals) × AreByCaller run.now.closed.refusals }
    ensures puts { Puts (K.taken sink.old) out.old (report source.now files.now run.now.history.entries run.now.refusals run.now.closed.heap.objects) result (K.taken sink.new) out.new }
    ensures empty { OnOk result (out.new.bytes ≡ []) }
{
    write_report(source, files, &run.history, &run.closed, out, sink)?;
    out.flush(sink)
}

/// Writes the report of a run.
pub fn write_run<K: Sink>(source: &Module, files: &[Calls], run: &Run, sink: &mut K) -> Status
    requires few { length files.now ≤ 64 }
    requires calls { All (AreCallsOf source.now) files.now }
    requires covers { Covers files.now run.now.history.entries run.now.refusals }
    requires moves { run.now.history.moves ≡ in_rising_versions (moves_of source.now files.now run.now.history.entries) }
    requires refusals { (joined run.now.closed.refusals ≡ run.now.refusals) × AreByCaller run.now.closed.refusals }
    ensures { Prints result (report source.now files.now run.now.history.entries run.now.refusals run.now.closed.heap.objects) (K.taken sink.old) (K.taken sink.new) }
{
    let mut out = Out::new();
    match put_run(source, files, run, &mut out, sink) {
        Ok(()) => Status::Done,
        Err(Failed) => Status::WriteFault,
    }
}

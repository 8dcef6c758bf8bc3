//! Runs of the calls of a command by a schedule.

ghost use Rattle.std.specs.Prelude.{◌≡◌, ◌≤◌, ◌++◌, ℕ, false, All, IfOk, OnOk, OnErr, length};
ghost use Rattle.dl_io.specs.Taken.{Taken};
ghost use Rattle.dl_ir.specs.CallForms.{AreCallsOf};
ghost use Rattle.dl_ir.specs.Checked.{IsChecked};
ghost use Rattle.dl_core.specs.Machines.{opened, plan_at};
ghost use Rattle.dl_core.specs.Passes.{plan_over};
ghost use Rattle.dl_core.specs.Plans.{IsPlan};
ghost use Rattle.dl_history.specs.Report.{report};
ghost use Rattle.dl_text.specs.Writing.{Breaks, Passes, nothing};
ghost use Rattle.dl_schedule.specs.Rules.{IsGiveOf};
ghost use Rattle.dl_command.specs.Promise.{Finishes, Prints};
ghost use Rattle.dl_command.specs.Scheduled.{Course, HasEnded, IsLeft, IsReady, IsRoom};
ghost use Rattle.dl_command.specs.Texts.{CanStart, first_heap, heap_of};
ghost use Rattle.dl_command.specs.Words.{Bytes};

use crate::loading::Input;
use crate::run::{Run, put_run, sizes_of, total_of};
use crate::status::Status;
use crate::words::Verb;
use dl_core::Core;
use dl_history::{MergeRoom, gather, merge};
use dl_instr::{Code, codes_of_modules, instrument};
use dl_io::{Failed, Sink};
use dl_ir::{Calls, Heap, Module, Refusal};
use dl_text::Out;
use dl_trace::{Counts, run_schedule, scheduled_runs_are_over};
use sqlite_items::Items;
use std::alloc::{AllocError, Global};

/// Room for what a run leaves: its history, and its refusals.
#[derive(Drop)]
pub struct Room {
    pub merging: MergeRoom,
    pub refusals: Vec<Refusal>,
}

/// All that a scheduled run takes of memory: the machine at its start, and room for what it leaves.
#[derive(Drop)]
pub struct Ready {
    pub core: Core,
    pub room: Room,
}

// A machine at the heap that is given, or else at the start heap of the code's module.
fn core_over(
    alloc: Global,
    code: Code,
    given: &Option<Heap>,
    places: u32,
    sizes: &[u32],
) -> Result<Core, AllocError>
    requires plan { IsPlan (plan_over code (first_heap code.source given.now) places sizes.now) }
    ensures opened { IfOk result (λ core. core ≡ opened (plan_over code (first_heap code.source given.now) places sizes.now)) }
    ensures plan { IfOk result (λ core. plan_at core ≡ plan_over code (first_heap code.source given.now) places sizes.now) }
{
    match given {
        Some(heap) => Core::over(alloc, code, heap, places, sizes),
        None => Core::start(alloc, code, places, sizes),
    }
}

/// Takes all memory of a scheduled run of calls from the heap that is given, or else the start heap of their module, with so
/// many hidden objects at a time at most.
pub fn make_ready(
    alloc: Global,
    source: &Module,
    given: &Option<Heap>,
    files: &[Calls],
    places: u32,
) -> Result<Ready, AllocError>
    requires places { places ≤ 65536 }
    requires checked { IsChecked source.now }
    requires some { 1 ≤ length files.now }
    requires few { length files.now ≤ 64 }
    requires calls { All (AreCallsOf source.now) files.now }
    requires start { CanStart source.now places (first_heap source.now given.now) }
    ensures { IfOk result (IsReady source.now (first_heap source.now given.now) files.now places) }
{
    codes_of_modules();
    let code = instrument(alloc, source)?;
    let sizes = sizes_of(alloc, files)?;
    let total = total_of(files);
    let merging = MergeRoom::new(alloc, total)?;
    let refusals = Vec::with_capacity(alloc, total as usize)?;
    let core = core_over(alloc, code, given, places, &sizes)?;
    Ok(Ready {
        core,
        room: Room { merging, refusals },
    })
}

/// What the machine leaves at the end of a scheduled run. It takes no memory.
pub fn close_run(source: &Module, files: &[Calls], core: Core, room: Room) -> Run
    requires ended { (course : Course) × HasEnded source.now files.now course core }
    requires room { IsRoom files.now room }
    requires calls { All (AreCallsOf source.now) files.now }
    ensures { (course : Course) → HasEnded source.now files.now course core → IsLeft source.now files.now course result }
{
    scheduled_runs_are_over();
    let Room {
        merging,
        mut refusals,
    } = room;
    let closed = core.close();
    let history = merge(source, files, &closed, merging);
    gather(closed.refusals.as_slice(), &mut refusals);
    Run {
        history,
        refusals: Items::from_vec(refusals),
        closed,
    }
}

// Writes the report of a run behind its trace, where that could be put.
fn write_behind<K: Sink>(
    traced: Result<Counts, Failed>,
    input: &Input,
    run: &Run,
    out: &mut Out,
    sink: &mut K,
) -> Status
    requires works { OnOk traced (out.old.failed ≡ false) }
    requires few { length input.now.all.items ≤ 64 }
    requires calls { All (AreCallsOf input.now.source) input.now.all.items }
    requires left { (course : Course) × IsLeft input.now.source input.now.all.items course run.now }
    ensures { (start : Taken) (text : Bytes) → OnOk traced (Passes start nothing text (K.taken sink.old) out.old) → OnErr traced (Breaks start nothing text (K.taken sink.old)) → Prints result (text ++ report input.now.source input.now.all.items run.now.history.entries run.now.refusals run.now.closed.heap.objects) start (K.taken sink.new) }
{
    match traced {
        Ok(_) => match put_run(&input.source, input.all.as_slice(), run, out, sink) {
            Ok(()) => Status::Done,
            Err(Failed) => Status::WriteFault,
        },
        Err(Failed) => Status::WriteFault,
    }
}

/// Runs calls by their schedule, and writes the trace and the report. Where the sink fails the run still goes to its end.
pub fn run_steps<K: Sink>(input: &Input, ready: Ready, sink: &mut K) -> (Status, Run)
    requires ready { (places : ℕ) × IsReady input.now.source (heap_of input.now) input.now.all.items places ready }
    requires few { length input.now.all.items ≤ 64 }
    requires calls { All (AreCallsOf input.now.source) input.now.all.items }
    requires callers { All (IsGiveOf (length input.now.all.items)) input.now.schedule }
    ensures { (places : ℕ) → IsReady input.now.source (heap_of input.now) input.now.all.items places ready → Finishes Verb.Step input.now places (K.taken sink.old) (K.taken sink.new) result.0 result.1.history result.1.refusals }
{
    let Ready { mut core, room } = ready;
    let mut out = Out::new();
    let files = input.all.as_slice();
    let traced = run_schedule(&mut core, files, &input.schedule, &mut out, sink);
    let run = close_run(&input.source, files, core, room);
    let status = write_behind(traced, input, &run, &mut out, sink);
    (status, run)
}

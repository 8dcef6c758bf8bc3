//! Running generated work, and the summary of it.

ghost use Rattle.std.specs.Prelude.{◌≡◌, ◌≤◌, All, IfOk, length};
ghost use Rattle.dl_ir.specs.CallForms.{AreCallsOf};
ghost use Rattle.dl_ir.specs.Checked.{IsChecked};
ghost use Rattle.dl_ir.specs.Cover.{Covers};
ghost use Rattle.dl_ir.specs.Heap.{start_objects};
ghost use Rattle.dl_history.specs.Histories.{joined};
ghost use Rattle.dl_schedule.specs.Rules.{IsGiveOf};
ghost use Rattle.dl_shape.specs.Replay.{IsLegal};
ghost use Rattle.dl_trace.specs.Runs.{Run as ScheduledRun};
ghost use Rattle.dl_work.specs.Summary.{summary};
ghost use Rattle.dl_work.specs.Works.{TakesWork};
ghost use Rattle.dl_command.specs.Promise.{Prints};
ghost use Rattle.dl_command.specs.Scheduled.{IsLeft};
ghost use Rattle.dl_command.specs.Work.{IsWorkModule, Works};

use crate::numbers::Asked;
use crate::run::Run;
use crate::status::Status;
use crate::step::{Ready, close_run, make_ready};
use dl_grammar::{SyntaxFault, read_module};
use dl_io::{Failed, Sink};
use dl_ir::{Calls, Heap, Module};
use dl_modules::SKEW;
use dl_replay::{ReplayFault, covered_entries_name_operations, replay};
use dl_schedule::Schedule;
use dl_skew::skew_takes_work;
use dl_text::Out;
use dl_trace::run_quiet;
use dl_types::{TypeFault, check};
use dl_work::{Figures, Work, make_work, write_summary};
use std::alloc::{AllocError, Global};

/// What generated work came to, with the figures of its summary.
#[derive(Drop)]
pub struct Worked {
    pub run: Run,
    pub figures: Figures,
}

// The module of generated work. Its text is that of a module that takes such work, so that only memory can be wanting.
fn work_module(alloc: Global) -> Result<Module, AllocError>
    ensures is_module { IfOk result IsWorkModule }
    ensures checked { IfOk result IsChecked }
    ensures takes { IfOk result TakesWork }
{
    skew_takes_work();
    let tree = match read_module(alloc, SKEW) {
        Ok(tree) => tree,
        Err(SyntaxFault::Memory) => return Err(AllocError),
        Err(_) => unreachable!(),
    };
    match check(alloc, &tree) {
        Ok(source) => Ok(source),
        Err(TypeFault::Memory) => Err(AllocError),
        Err(_) => unreachable!(),
    }
}

// Runs the operations of files by a schedule, without a trace, from the start heap of their module, with so many hidden
// objects at a time at most; with how often a caller waited. All memory is taken before the first operation begins.
fn run_scheduled(
    alloc: Global,
    source: &Module,
    files: &[Calls],
    schedule: &Schedule,
    places: u32,
) -> Result<(Run, u64), AllocError>
    requires places { places ≤ 65536 }
    requires checked { IsChecked source.now }
    requires some { 1 ≤ length files.now }
    requires few { length files.now ≤ 64 }
    requires calls { All (AreCallsOf source.now) files.now }
    requires callers { All (IsGiveOf (length files.now)) schedule.now }
    ensures { IfOk result (λ found. (end : ScheduledRun) × IsLeft source.now files.now (record { heap = start_objects source.now; gives = schedule.now; places = places; end = end }) found.0 × (found.1 ≡ end.waits)) }
{
    let given: Option<Heap> = None;
    let Ready { mut core, room } = make_ready(alloc, source, &given, files, places)?;
    let counts = run_quiet(&mut core, files, schedule);
    let run = close_run(source, files, core, room);
    Ok((run, counts.waits))
}

// Replays a legal history from the start heap of its module, and answers the number of its entries. None of them is at
// fault, so that only memory can be wanting.
fn replay_legal(
    alloc: Global,
    source: &Module,
    files: &[Calls],
    run: &Run,
) -> Result<u32, AllocError>
    requires checked { IsChecked source.now }
    requires calls { All (AreCallsOf source.now) files.now }
    requires covers { Covers files.now run.now.history.entries run.now.refusals }
    requires legal { IsLegal source.now files.now (start_objects source.now) run.now.history.entries }
    ensures { IfOk result (λ entries. entries ≡ length run.now.history.entries) }
{
    covered_entries_name_operations();
    let start = Heap::start(alloc, source, 0)?;
    match replay(alloc, source, &start, files, &run.history) {
        Ok(replayed) => Ok(replayed.entries),
        Err(ReplayFault::Memory) => Err(AllocError),
        Err(_) => unreachable!(),
    }
}

/// Runs the operations that a seed gives by the schedule that it gives, with so many hidden objects at a time at most, and
/// replays their history.
pub fn run_work(alloc: Global, asked: Asked, places: u32) -> Result<Worked, AllocError>
    requires places { places ≤ 65536 }
    requires some { (1 ≤ asked.count) × (1 ≤ asked.callers) }
    requires few { (asked.count ≤ 65536) × (asked.callers ≤ 64) }
    ensures { IfOk result (λ worked. Works asked places worked.run.history worked.run.refusals (summary worked.figures worked.run.history.entries (joined worked.run.closed.refusals) worked.run.closed.heap.objects)) }
{
    let source = work_module(alloc)?;
    let Work { files, schedule } = make_work(alloc, asked.seed, asked.count, asked.callers)?;
    let files = files.as_slice();
    let (run, waits) = run_scheduled(alloc, &source, files, &schedule, places)?;
    let replayed = replay_legal(alloc, &source, files, &run)?;
    let figures = Figures {
        seed: asked.seed,
        count: asked.count,
        callers: asked.callers,
        waits,
        replayed,
    };
    Ok(Worked { run, figures })
}

/// Writes the summary of generated work.
pub fn write_work<K: Sink>(worked: &Worked, sink: &mut K) -> Status
    ensures { Prints result (summary worked.now.figures worked.now.run.history.entries (joined worked.now.run.closed.refusals) worked.now.run.closed.heap.objects) (K.taken sink.old) (K.taken sink.new) }
{
    let mut out = Out::new();
    let run = &worked.run;
    match write_summary(&worked.figures, &run.history, &run.closed, &mut out, sink) {
        Ok(()) => match out.flush(sink) {
            Ok(()) => Status::Done,
            Err(Failed) => Status::WriteFault,
        },
        Err(Failed) => Status::WriteFault,
    }
}

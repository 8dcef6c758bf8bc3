//! The top calls, whose contract is what the program promises.

ghost use Rattle.std.specs.Prelude.{◌≡◌, ◌≤◌, ℕ, [], Some, All, length};
ghost use Rattle.dl_io.specs.Source.{Source};
ghost use Rattle.dl_ir.specs.CallForms.{AreCallsOf};
ghost use Rattle.dl_ir.specs.Checked.{IsChecked};
ghost use Rattle.dl_command.specs.Promise.{Finishes, Ends, nothing_done};
ghost use Rattle.dl_schedule.specs.Rules.{IsGiveOf};
ghost use Rattle.dl_command.specs.Texts.{CanStart, heap_of};
ghost use Rattle.dl_command.specs.Wishes.{Comes, Keeps, still_wish_of_words, wish_by, wish_of_words};
ghost use Rattle.dl_command.specs.Words.{MayHave, request_of};
ghost use Rattle.dl_command.specs.Work.{FinishesWork};

use crate::loading::{Input, read_input};
use crate::numbers::{Asked, asked_of};
use crate::run::{run_from, run_over, start_heap, write_run};
use crate::show::write_shown;
use crate::status::Status;
use crate::step::{make_ready, run_steps};
use crate::words::{Command, Verb, Words, command_of};
use crate::work::{run_work, write_work};
use dl_coarse::Coarse;
use dl_core::{Core, Ground};
use dl_history::History;
use dl_instr::instrument;
use dl_io::{Files, Sink};
use dl_ir::Refusal;
use dl_machine::Gate;
use dl_naming::spelled_has_names;
use sqlite_items::Items;
use std::alloc::Global;
use std::sync::Wait;
use std::thread::Threads;

/// How a call ended, with the order in which the operations were carried out and with those that were refused.
#[derive(Drop)]
pub struct Ending {
    pub status: Status,
    pub history: History,
    /// By caller and index.
    pub refusals: Items<Refusal>,
}

// An ending before which nothing was carried out.
fn nothing(alloc: Global, status: Status) -> Ending
    ensures status { result.status ≡ status }
    ensures history { result.history ≡ nothing_done }
    ensures refusals { result.refusals ≡ [] }
{
    Ending {
        status,
        history: History::empty(alloc),
        refusals: Items::new(alloc),
    }
}

// Runs the calls of a command one after another from the heap that is given or the start heap, and writes the report.
fn serial<K: Sink>(alloc: Global, input: Input, places: u32, out: &mut K) -> Ending
    requires places { places ≤ 65536 }
    requires checked { IsChecked input.source }
    requires one { length input.all.items ≡ 1 }
    requires calls { All (AreCallsOf input.source) input.all.items }
    requires start { CanStart input.source places (heap_of input) }
    ensures { Finishes Verb.Serial input places (K.taken out.old) (K.taken out.new) result.status result.history result.refusals }
{
    let Input {
        source,
        heap,
        all,
        ..
    } = input;
    let Ok(start) = start_heap(alloc, &source, heap, places) else {
        return nothing(alloc, Status::Memory);
    };
    match run_from(alloc, &source, start, places, all.as_slice()) {
        Ok(run) => {
            let status = write_run(&source, all.as_slice(), &run, out);
            Ending {
                status,
                history: run.history,
                refusals: run.refusals,
            }
        }
        Err(_) => nothing(alloc, Status::Memory),
    }
}

// Runs the calls of a command side by side from the heap that is given or the start heap, and writes the report.
fn run<R: Threads + Wait + Sync, G: Ground, K: Sink, T: Gate>(
    rt: &R,
    alloc: Global,
    input: &Input,
    places: u32,
    out: &mut K,
    gate: &T,
) -> Ending
    requires places { places ≤ 65536 }
    requires checked { IsChecked input.now.source }
    requires some { 1 ≤ length input.now.all.items }
    requires few { length input.now.all.items ≤ 64 }
    requires calls { All (AreCallsOf input.now.source) input.now.all.items }
    requires start { CanStart input.now.source places (heap_of input.now) }
    ensures { Finishes Verb.Run input.now places (K.taken out.old) (K.taken out.new) result.status result.history result.refusals }
{
    match run_over::<R, G, T>(rt, alloc, input, places, gate) {
        Ok(run) => {
            let status = write_run(&input.source, input.all.as_slice(), &run, out);
            Ending {
                status,
                history: run.history,
                refusals: run.refusals,
            }
        }
        Err(_) => nothing(alloc, Status::Memory),
    }
}

// Runs the calls of a command by its schedule from the heap that is given or the start heap, and writes the trace and the report.
fn step<K: Sink>(alloc: Global, input: &Input, places: u32, out: &mut K) -> Ending
    requires places { places ≤ 65536 }
    requires checked { IsChecked input.now.source }
    requires some { 1 ≤ length input.now.all.items }
    requires few { length input.now.all.items ≤ 64 }
    requires calls { All (AreCallsOf input.now.source) input.now.all.items }
    requires callers { All (IsGiveOf (length input.now.all.items)) input.now.schedule }
    requires start { CanStart input.now.source places (heap_of input.now) }
    ensures { Finishes Verb.Step input.now places (K.taken out.old) (K.taken out.new) result.status result.history result.refusals }
{
    match make_ready(
        alloc,
        &input.source,
        &input.heap,
        input.all.as_slice(),
        places,
    ) {
        Ok(ready) => {
            let (status, run) = run_steps(input, ready, out);
            Ending {
                status,
                history: run.history,
                refusals: run.refusals,
            }
        }
        Err(_) => nothing(alloc, Status::Memory),
    }
}

// Writes the module in its canonical form, and its code.
fn show<K: Sink>(alloc: Global, input: &Input, out: &mut K) -> Ending
    ensures { (places : ℕ) → Finishes Verb.Show input.now places (K.taken out.old) (K.taken out.new) result.status result.history result.refusals }
{
    match instrument(alloc, &input.source) {
        Ok(code) => nothing(alloc, write_shown(&input.tree, &code, out)),
        Err(_) => nothing(alloc, Status::Memory),
    }
}

// Runs the operations that a seed gives, and writes the summary.
fn work<K: Sink>(alloc: Global, asked: Asked, places: u32, out: &mut K) -> Ending
    requires places { places ≤ 65536 }
    requires some { (1 ≤ asked.count) × (1 ≤ asked.callers) }
    requires few { (asked.count ≤ 65536) × (asked.callers ≤ 64) }
    ensures { FinishesWork asked places (K.taken out.old) (K.taken out.new) result.status result.history result.refusals }
{
    match run_work(alloc, asked, places) {
        Ok(worked) => {
            let status = write_work(&worked, out);
            Ending {
                status,
                history: worked.run.history,
                refusals: worked.run.refusals,
            }
        }
        Err(_) => nothing(alloc, Status::Memory),
    }
}

fn serial_command<F: Files, K: Sink>(
    alloc: Global,
    command: &Command<'_>,
    files: &mut F,
    out: &mut K,
) -> Ending
    requires verb { command.now.verb ≡ Verb.Serial }
    requires rest { MayHave Verb.Serial (length command.now.rest.items) }
    requires places { (1 ≤ command.now.places) × (command.now.places ≤ 65536) }
    ensures { Ends (Some (request_of command.now)) (F.source files.old) (F.source files.new) (K.taken out.old) (K.taken out.new) result.status result.history result.refusals }
{
    match read_input(alloc, files, command) {
        Ok(input) => serial(alloc, input, command.places, out),
        Err(status) => nothing(alloc, status),
    }
}

fn run_command<R: Threads + Wait + Sync, G: Ground, F: Files, K: Sink, T: Gate>(
    rt: &R,
    alloc: Global,
    command: &Command<'_>,
    files: &mut F,
    out: &mut K,
    gate: &T,
) -> Ending
    requires verb { command.now.verb ≡ Verb.Run }
    requires rest { MayHave Verb.Run (length command.now.rest.items) }
    requires places { command.now.places ≤ 65536 }
    ensures { Ends (Some (request_of command.now)) (F.source files.old) (F.source files.new) (K.taken out.old) (K.taken out.new) result.status result.history result.refusals }
{
    match read_input(alloc, files, command) {
        Ok(input) => run::<R, G, K, T>(rt, alloc, &input, command.places, out, gate),
        Err(status) => nothing(alloc, status),
    }
}

fn step_command<F: Files, K: Sink>(
    alloc: Global,
    command: &Command<'_>,
    files: &mut F,
    out: &mut K,
) -> Ending
    requires verb { command.now.verb ≡ Verb.Step }
    requires rest { MayHave Verb.Step (length command.now.rest.items) }
    requires places { command.now.places ≤ 65536 }
    ensures { Ends (Some (request_of command.now)) (F.source files.old) (F.source files.new) (K.taken out.old) (K.taken out.new) result.status result.history result.refusals }
{
    match read_input(alloc, files, command) {
        Ok(input) => step(alloc, &input, command.places, out),
        Err(status) => nothing(alloc, status),
    }
}

fn show_command<F: Files, K: Sink>(
    alloc: Global,
    command: &Command<'_>,
    files: &mut F,
    out: &mut K,
) -> Ending
    requires verb { command.now.verb ≡ Verb.Show }
    requires rest { MayHave Verb.Show (length command.now.rest.items) }
    ensures { Ends (Some (request_of command.now)) (F.source files.old) (F.source files.new) (K.taken out.old) (K.taken out.new) result.status result.history result.refusals }
{
    match read_input(alloc, files, command) {
        Ok(input) => show(alloc, &input, out),
        Err(status) => nothing(alloc, status),
    }
}

fn work_command<K: Sink>(alloc: Global, command: &Command<'_>, out: &mut K) -> Ending
    requires places { command.now.places ≤ 65536 }
    ensures { (files : Source) → Comes (wish_by Verb.Work (request_of command.now)) files files (K.taken out.old) (K.taken out.new) result.status result.history result.refusals }
{
    match asked_of(command.first, command.rest.as_slice()) {
        Some(asked) => work(alloc, asked, command.places, out),
        None => nothing(alloc, Status::Usage),
    }
}

fn run_still<F: Files, K: Sink>(alloc: Global, words: &Words, files: &mut F, out: &mut K) -> Ending
    ensures { Comes (still_wish_of_words words.now) (F.source files.old) (F.source files.new) (K.taken out.old) (K.taken out.new) result.status result.history result.refusals }
{
    let command = match command_of(alloc, words) {
        Ok(command) => command,
        Err(fault) => return nothing(alloc, fault.status()),
    };
    match command.verb {
        Verb::Serial => serial_command(alloc, &command, files, out),
        Verb::Run => nothing(alloc, Status::Usage),
        Verb::Step => step_command(alloc, &command, files, out),
        Verb::Show => show_command(alloc, &command, files, out),
        Verb::Work => work_command(alloc, &command, out),
    }
}

/// Does all that the program does but for `run`, whose words it answers as words that are not good, over files and a sink
/// that are handed in. Where memory runs out, files may have been attached and read.
pub fn domlock_still<F: Files, K: Sink>(
    alloc: Global,
    words: &Words,
    files: &mut F,
    out: &mut K,
) -> Ending
    ensures { Keeps (still_wish_of_words words.now) (F.source files.old) (F.source files.new) (K.taken out.old) (K.taken out.new) result }
{
    spelled_has_names();
    run_still(alloc, words, files, out)
}

// All that the program does, with what runs operations for several callers still to be chosen.
fn domlock_over<R: Threads + Wait + Sync, G: Ground, F: Files, K: Sink, T: Gate>(
    rt: &R,
    alloc: Global,
    words: &Words,
    files: &mut F,
    out: &mut K,
    gate: &T,
) -> Ending
    ensures { Keeps (wish_of_words words.now) (F.source files.old) (F.source files.new) (K.taken out.old) (K.taken out.new) result }
{
    spelled_has_names();
    let command = match command_of(alloc, words) {
        Ok(command) => command,
        Err(fault) => return nothing(alloc, fault.status()),
    };
    match command.verb {
        Verb::Run => run_command::<R, G, F, K, T>(rt, alloc, &command, files, out, gate),
        Verb::Serial => domlock_still(alloc, words, files, out),
        Verb::Step => domlock_still(alloc, words, files, out),
        Verb::Show => domlock_still(alloc, words, files, out),
        Verb::Work => domlock_still(alloc, words, files, out),
    }
}

// What runs operations for several callers: the machine, under one turn for all of them.
type OneTurn = Coarse<Core>;

/// Does all that the program does, over files and a sink that are handed in. `run` is served here, and may wait; the gate
/// is told of each of its steps that moved a caller. All other words are handed to `domlock_still`.
pub fn domlock<R: Threads + Wait + Sync, F: Files, K: Sink, T: Gate>(
    rt: &R,
    alloc: Global,
    words: &Words,
    files: &mut F,
    out: &mut K,
    gate: &T,
) -> Ending
    ensures { Keeps (wish_of_words words.now) (F.source files.old) (F.source files.new) (K.taken out.old) (K.taken out.new) result }
{
    domlock_over::<R, OneTurn, F, K, T>(rt, alloc, words, files, out, gate)
}

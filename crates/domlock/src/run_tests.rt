//! Tests of `run`: several callers' history leads to the printed heap, what is refused is told, and gates hold callers up.

ghost use Rattle.std.specs.Prelude.{◌≡◌, ◌≤◌, All, IfOk, IsTrue, length};
ghost use Rattle.dl_ir.specs.CallForms.{AreCallsOf};
ghost use Rattle.dl_ir.specs.Checked.{IsChecked};
ghost use Rattle.dl_meaning.specs.Operations.{AreFilesOf};
ghost use Rattle.dl_replay.specs.Faults.{NamesOperation};

use crate::tests::call;
use dl_command::{Ending, Status, Words, domlock};
use dl_core::Progress;
use dl_grammar::read_module;
use dl_history::{History, call_of, write_report};
use dl_io::{MemFiles, MemSink};
use dl_ir::{Answer, Calls, Closed, End, Entry, Heap, Module, Refusal};
use dl_machine::{Gate, Open};
use dl_modules::{COUNTER, SKEW};
use dl_replay::replay;
use dl_shape::starts_are_startable;
use dl_syntax::read_calls;
use dl_text::Out;
use dl_types::check;
use sqlite_items::Items;
use std::alloc::Global;
use std::sync::Wait;
use std::sync::atomic::{AtomicU64, Ordering};
use std::test::Fail;
use std::thread;
use std::thread::Threads;

// Operations of a module for some callers: the callers with odd numbers run those at `a`, the others those at `b`.
#[derive(Clone, Copy)]
struct Trial<'a> {
    module: &'a [u8],
    a: &'a [u8],
    b: &'a [u8],
    callers: u32,
    places: &'a str,
}

// The words of a trial.
fn words_of(alloc: Global, trial: &Trial<'_>) -> Result<Words, Fail> {
    let mut items = Vec::new(alloc);
    for word in ["run", "m", "--places", trial.places] {
        items.push(String::from_str(alloc, word)?)?;
    }
    for at in 0..trial.callers {
        let path = if at % 2 == 0 { "a" } else { "b" };
        items.push(String::from_str(alloc, path)?)?;
    }
    Ok(Words::new(items))
}

// What `run` answers and writes of a trial, where the calls of files with these numbers fail.
fn run<R: Threads + Wait + Sync, T: Gate>(
    rt: &R,
    alloc: Global,
    trial: &Trial<'_>,
    fails: &[u64],
    gate: &T,
    sink: &mut MemSink,
) -> Result<Ending, Fail> {
    let words = words_of(alloc, trial)?;
    let mut files = MemFiles::new(alloc, 100_000, fails)?;
    files.add("m", trial.module)?;
    files.add("a", trial.a)?;
    files.add("b", trial.b)?;
    Ok(domlock(rt, alloc, &words, &mut files, sink, gate))
}

// The module of a text.
fn module_of(alloc: Global, text: &[u8]) -> Result<Module, Fail>
    ensures { IfOk result IsChecked }
{
    if text.len() > 10_000 {
        return Err(Fail::new("a long module"));
    }
    match read_module(alloc, text) {
        Ok(tree) => match check(alloc, &tree) {
            Ok(source) => Ok(source),
            Err(fault) => Err(Fail::new(fault)),
        },
        Err(fault) => Err(Fail::new(fault)),
    }
}

// The operations of a text.
fn calls_of(alloc: Global, source: &Module, text: &[u8]) -> Result<Calls, Fail>
    requires { IsChecked source.now }
    ensures { IfOk result (AreCallsOf source.now) }
{
    if text.len() > 10_000 {
        return Err(Fail::new("a long operation file"));
    }
    match read_calls(alloc, text, source) {
        Ok(calls) => Ok(calls),
        Err(fault) => Err(Fail::new(fault)),
    }
}

// The operations of each caller of a trial.
fn files_of(alloc: Global, source: &Module, trial: &Trial<'_>) -> Result<Vec<Calls>, Fail>
    requires { IsChecked source.now }
    ensures { IfOk result (λ files. AreFilesOf source.now files.items) }
{
    let mut files = Vec::new(alloc);
    'callers: for at in 0..trial.callers {
        let text = if at % 2 == 0 { trial.a } else { trial.b };
        let calls = calls_of(alloc, source, text)?;
        files.push(calls)?;
    }
    Ok(files)
}

// Whether each entry is that of an operation of the files.
fn name_operations(files: &[Calls], entries: &[Entry]) -> bool
    ensures { IsTrue result → All (NamesOperation files.now) entries.now }
{
    'entries: for entry in entries {
        match call_of(files, entry.caller, entry.index) {
            Some(_) => {}
            None => return false,
        }
    }
    true
}

// Where a report of nothing but a heap has that heap's lines.
const NO_OPERATION: &[u8] = b"domlock report 1\nanswers 0\nhistory 0\npool 0\n";

// The report of a heap and of no operation.
fn report_of(alloc: Global, source: &Module, heap: Heap) -> Result<MemSink, Fail> {
    let closed = Closed {
        heap,
        entries: Items::new(alloc),
        refusals: Items::new(alloc),
        free: 0,
    };
    let mut sink = MemSink::new(alloc, 100_000, &[], 100_000)?;
    let mut out = Out::new();
    let nothing = History::empty(alloc);
    match write_report(source, &[], &nothing, &closed, &mut out, &mut sink) {
        Ok(()) => match out.flush(&mut sink) {
            Ok(()) => Ok(sink),
            Err(_) => Err(Fail::new("not written")),
        },
        Err(_) => Err(Fail::new("not put")),
    }
}

// Whether a replay of a trial's history has all its entries, and leads to the heap that is printed.
fn replays(
    alloc: Global,
    trial: &Trial<'_>,
    history: &History,
    printed: &[u8],
) -> Result<bool, Fail> {
    let source = module_of(alloc, trial.module)?;
    let files = files_of(alloc, &source, trial)?;
    if !name_operations(&files, history.entries()) {
        return Ok(false);
    }
    starts_are_startable();
    let start = Heap::start(alloc, &source, 0)?;
    let replayed = match replay(alloc, &source, &start, &files, history) {
        Ok(replayed) => replayed,
        Err(fault) => return Err(Fail::new(fault)),
    };
    if replayed.entries as usize != history.entries().len() {
        return Ok(false);
    }
    let report = report_of(alloc, &source, replayed.heap)?;
    match report.bytes().strip_prefix(NO_OPERATION) {
        Some(heap) => Ok(printed.ends_with(heap)),
        None => Ok(false),
    }
}

#[test]
fn a_history_of_many_callers_leads_to_the_printed_heap(rt: HostRuntime) -> Result<(), Fail> {
    let heaps = Trial {
        module: SKEW,
        a: b"insert 0 5\ninsert 1 3\npop 0\nmeld 0 1\ninsert 2 8\npop 1\n",
        b: b"insert 1 4\nmeld 1 2\ninsert 0 6\npop 1\nmeld 2 0\ninsert 3 1\n",
        callers: 2,
        places: "4096",
    };
    let counters = Trial {
        module: COUNTER,
        a: b"add 0 5\nget 1\nadd 1 -3\nget 0\nadd 0 9223372036854775807\nadd 1 1\n",
        b: b"get 0\nadd 1 7\nadd 0 -2\nadd 1 2\nget 1\nadd 0 1\n",
        callers: 2,
        places: "4096",
    };
    for trial in [heaps, counters] {
        for callers in [2, 8, 64] {
            let trial = Trial { callers, ..trial };
            let mut sink = MemSink::new(rt.alloc(), 100_000, &[], 100_000)?;
            let outcome = run(&rt, rt.alloc(), &trial, &[], &Open, &mut sink)?;
            assert_eq!(rt; outcome.status, Status::Done);
            let entries = outcome.history.entries().len();
            assert_eq!(rt; entries, 6 * callers as usize, "of {callers}");
            assert!(rt;
                replays(rt.alloc(), &trial, &outcome.history, sink.bytes())?,
                "of {callers}"
            );
        }
    }
    Ok(())
}

// A hold of a gate: a caller, after so many steps of its own, waits until the other one has made so many.
#[derive(Clone, Copy)]
struct Hold {
    caller: u32,
    after: u64,
    until: u64,
}

// How often a held caller looks whether it may go on. A hold that lasts longer fails the test.
const MOST_LOOKS: u32 = 10_000_000;

// A gate for two callers that keeps these holds. It counts the steps of each caller, the holds that began, and those that the
// awaited step ended.
#[derive(Drop)]
struct Holding<'a> {
    holds: &'a [Hold],
    first: AtomicU64,
    second: AtomicU64,
    begun: AtomicU64,
    ended: AtomicU64,
}

impl<'a> Holding<'a> {
    fn new(holds: &'a [Hold]) -> Holding<'a> {
        Holding {
            holds,
            first: AtomicU64::new(0),
            second: AtomicU64::new(0),
            begun: AtomicU64::new(0),
            ended: AtomicU64::new(0),
        }
    }

    // Waits until so many steps are counted.
    fn wait(&self, steps: &AtomicU64, until: u64) {
        self.begun.fetch_add(1, Ordering::SeqCst);
        for _ in 0..MOST_LOOKS {
            if steps.load(Ordering::SeqCst) >= until {
                self.ended.fetch_add(1, Ordering::SeqCst);
                return;
            }
            thread::yield_now();
        }
    }
}

impl Gate for Holding<'_> {
    fn pass(&self, caller: u32, last: &Progress) {
        let _ = last;
        let (mine, other) = match caller {
            1 => (&self.first, &self.second),
            _ => (&self.second, &self.first),
        };
        let after = mine.fetch_add(1, Ordering::SeqCst).saturating_add(1);
        for hold in self.holds {
            if hold.caller == caller && hold.after == after {
                self.wait(other, hold.until);
            }
        }
    }
}

// Two callers under a gate with these holds, and how the report begins and ends.
#[derive(Clone, Copy)]
struct HeldTrial<'a> {
    trial: Trial<'a>,
    holds: &'a [Hold],
    begins: &'a [u8],
    ends: &'a [u8],
}

const fn waits(caller: u32, after: u64, until: u64) -> Hold {
    Hold {
        caller,
        after,
        until,
    }
}

#[test]
fn a_gate_gives_the_order(rt: HostRuntime) -> Result<(), Fail> {
    let adds = Trial {
        module: COUNTER,
        a: b"get 1\nadd 0 1\nadd 0 10\n",
        b: b"get 1\nadd 0 100\nadd 0 1000\n",
        callers: 2,
        places: "1",
    };
    let inserts = Trial {
        module: SKEW,
        a: b"pop 3\ninsert 0 5\npop 0\n",
        b: b"pop 3\ninsert 1 6\ninsert 1 7\n",
        callers: 2,
        places: "1",
    };
    let table = [
        // The first operations of both, which change nothing, and then those of caller 2 before those of caller 1.
        HeldTrial {
            trial: adds,
            holds: &[waits(2, 1, 1), waits(1, 1, 3)],
            begins: b"domlock report 1\nanswers 6\n1.1 ok 0\n1.2 ok 1101\n1.3 ok 1111\n2.1 ok 0\n2.2 ok 100\n2.3 ok 1100\nhistory 6\n",
            ends: b"3 2.2 add 0 100\n4 2.3 add 0 1000\n5 1.2 add 0 1\n6 1.3 add 0 10\npool 0\nheap 2 kept 0\n0.0 CELL val=1111\n0.1 CELL val=0\nend\n",
        },
        // The other way round.
        HeldTrial {
            trial: adds,
            holds: &[waits(1, 1, 1), waits(2, 1, 3)],
            begins: b"domlock report 1\nanswers 6\n1.1 ok 0\n1.2 ok 1\n1.3 ok 11\n2.1 ok 0\n2.2 ok 111\n2.3 ok 1111\nhistory 6\n",
            ends: b"3 1.2 add 0 1\n4 1.3 add 0 10\n5 2.2 add 0 100\n6 2.3 add 0 1000\npool 0\nheap 2 kept 0\n0.0 CELL val=1111\n0.1 CELL val=0\nend\n",
        },
        // One of caller 1, both of caller 2, and the last one of caller 1.
        HeldTrial {
            trial: adds,
            holds: &[waits(1, 1, 1), waits(2, 1, 2), waits(1, 2, 3)],
            begins: b"domlock report 1\nanswers 6\n1.1 ok 0\n1.2 ok 1\n1.3 ok 1111\n2.1 ok 0\n2.2 ok 101\n2.3 ok 1101\nhistory 6\n",
            ends: b"3 1.2 add 0 1\n4 2.2 add 0 100\n5 2.3 add 0 1000\n6 1.3 add 0 10\npool 0\nheap 2 kept 0\n0.0 CELL val=1111\n0.1 CELL val=0\nend\n",
        },
        // Caller 2 is refused while caller 1 has the one place, and has it when that is given back.
        HeldTrial {
            trial: inserts,
            holds: &[
                waits(1, 1, 1),
                waits(2, 1, 2),
                waits(1, 2, 2),
                waits(2, 2, 3),
            ],
            begins: b"domlock report 1\nanswers 6\n1.1 ok -1\n1.2 ok 0\n1.3 ok 5\n2.1 ok -1\n2.2 noroom need 1 found 0 version 1\n2.3 ok 0\nhistory 5\n",
            ends: b"3 1.2 insert 0 5\n4 1.3 pop 0\n5 2.3 insert 1 7\npool 3\n1 -1 3\n2 +1 4\n3 -1 5\nheap 5 kept 1\n0.0 HEAP top=-\n0.1 HEAP top=5.1\n0.2 HEAP top=-\n0.3 HEAP top=-\n5.1 NODE key=7 left=- right=-\nend\n",
        },
    ];
    for held in table {
        let gate = Holding::new(held.holds);
        let mut sink = MemSink::new(rt.alloc(), 100_000, &[], 100_000)?;
        let outcome = run(&rt, rt.alloc(), &held.trial, &[], &gate, &mut sink)?;
        assert_eq!(rt; outcome.status, Status::Done);
        let count = held.holds.len() as u64;
        assert_eq!(rt; gate.begun.load(Ordering::SeqCst), count);
        assert_eq!(rt; gate.ended.load(Ordering::SeqCst), count);
        assert!(rt; sink.bytes().starts_with(held.begins));
        assert!(rt; sink.bytes().ends_with(held.ends));
    }
    Ok(())
}

// The line that a report has of what came of an operation, which is either in the history or among the refusals.
fn answer_line(alloc: Global, outcome: &Ending, caller: u32, index: u32) -> Result<String, Fail> {
    let run = outcome
        .history
        .entries()
        .iter()
        .find(|entry| entry.caller == caller && entry.index == index);
    let refused = outcome.refusals.as_slice().iter().find(|refusal| refusal.caller == caller
        && refusal.index == index);
    match (run, refused) {
        (Some(entry), None) => match entry.answer.end {
            End::Ok(value) => Ok(format!(in alloc; "{caller}.{index} ok {value}\n")?),
            _ => Err(Fail::new("another end")),
        },
        (None, Some(refusal)) => {
            let Refusal {
                need,
                found,
                version,
                ..
            } = *refusal;
            Ok(format!(in alloc;
                "{caller}.{index} noroom need {need} found {found} version {version}\n"
            )?)
        }
        _ => Err(Fail::new("not one thing alone")),
    }
}

// Puts the lines of a caller's operations, of which there are so many.
fn put_answers(
    alloc: Global,
    outcome: &Ending,
    caller: u32,
    each: u32,
    text: &mut String,
) -> Result<(), Fail> {
    for index in 1..=each {
        let line = answer_line(alloc, outcome, caller, index)?;
        text.push_str(&line)?;
    }
    Ok(())
}

// How a report begins, up to its history, where each caller has so many operations.
fn answers_of(alloc: Global, outcome: &Ending, callers: u32, each: u32) -> Result<String, Fail> {
    let run = outcome.history.entries().len();
    let all = run.saturating_add(outcome.refusals.len());
    let mut text = format!(in alloc; "domlock report 1\nanswers {all}\n")?;
    for caller in 1..=callers {
        put_answers(alloc, outcome, caller, each, &mut text)?;
    }
    text.push_str(&format!(in alloc; "history {run}\n")?)?;
    Ok(text)
}

// Whether the operations of a caller stand in a history in their order.
fn runs_in_order(entries: &[Entry], caller: u32) -> bool {
    let mut last = 0;
    for entry in entries {
        if entry.caller == caller {
            if entry.index <= last {
                return false;
            }
            last = entry.index;
        }
    }
    true
}

// Whether refusals stand by caller and index.
fn are_by_caller(refusals: &[Refusal]) -> bool {
    let mut last = (0, 0);
    for refusal in refusals {
        let next = (refusal.caller, refusal.index);
        if next <= last {
            return false;
        }
        last = next;
    }
    true
}

#[test]
fn what_has_no_room_is_refused_and_told(rt: HostRuntime) -> Result<(), Fail> {
    let filled = Trial {
        module: SKEW,
        a: b"insert 0 5\ninsert 0 3\ninsert 1 8\ninsert 2 2\n",
        b: b"insert 1 4\ninsert 2 6\ninsert 0 9\ninsert 3 7\n",
        callers: 4,
        places: "5",
    };
    let given_back = Trial {
        module: SKEW,
        a: b"insert 0 5\npop 0\ninsert 0 4\npop 1\n",
        b: b"insert 1 6\ninsert 1 7\npop 1\nmeld 0 1\n",
        callers: 8,
        places: "2",
    };
    for trial in [filled, given_back] {
        let mut sink = MemSink::new(rt.alloc(), 100_000, &[], 100_000)?;
        let outcome = run(&rt, rt.alloc(), &trial, &[], &Open, &mut sink)?;
        assert_eq!(rt; outcome.status, Status::Done);
        let entries = outcome.history.entries();
        let refusals = outcome.refusals.as_slice();
        assert_eq!(rt;
            entries.len().saturating_add(refusals.len()),
            4 * trial.callers as usize
        );
        let answers = answers_of(rt.alloc(), &outcome, trial.callers, 4)?;
        assert!(rt; sink.bytes().starts_with(answers.as_bytes()));
        for caller in 1..=trial.callers {
            assert!(rt; runs_in_order(entries, caller), "of {caller}");
        }
        assert!(rt; are_by_caller(refusals));
        assert!(rt; replays(rt.alloc(), &trial, &outcome.history, sink.bytes())?);
    }
    Ok(())
}

#[test]
fn all_places_are_filled_before_one_is_refused(rt: HostRuntime) -> Result<(), Fail> {
    let trial = Trial {
        module: SKEW,
        a: b"insert 0 5\ninsert 0 3\ninsert 1 8\n",
        b: b"insert 1 4\ninsert 2 6\ninsert 0 9\n",
        callers: 4,
        places: "5",
    };
    let mut sink = MemSink::new(rt.alloc(), 100_000, &[], 100_000)?;
    let outcome = run(&rt, rt.alloc(), &trial, &[], &Open, &mut sink)?;
    assert_eq!(rt; outcome.history.entries().len(), 5);
    assert_eq!(rt; outcome.refusals.len(), 7);
    for refusal in outcome.refusals.as_slice() {
        let Refusal {
            need,
            found,
            version,
            ..
        } = *refusal;
        assert_eq!(rt; (need, found, version), (1, 0, 5));
    }
    Ok(())
}

// Places given back.
const EMPTIED: Trial<'static> = Trial {
    module: SKEW,
    a: b"insert 0 5\ninsert 0 3\npop 0\npop 0\npop 0\n",
    b: b"",
    callers: 1,
    places: "4096",
};

#[test]
fn run_of_one_file_writes_what_serial_writes(rt: HostRuntime) -> Result<(), Fail> {
    let mut one = MemSink::new(rt.alloc(), 1000, &[], 1000)?;
    let mut other = MemSink::new(rt.alloc(), 1000, &[], 1000)?;
    let serial = call(
        rt.alloc(),
        "serial m o",
        EMPTIED.module,
        EMPTIED.a,
        &mut one,
    )?;
    let run = run(&rt, rt.alloc(), &EMPTIED, &[], &Open, &mut other)?;
    assert_eq!(rt; serial.status, Status::Done);
    assert_eq!(rt; run.status, Status::Done);
    assert_eq!(rt; one.bytes(), other.bytes());
    Ok(())
}

#[test]
fn a_read_fault_in_the_second_file_writes_nothing(rt: HostRuntime) -> Result<(), Fail> {
    // Attaching, a piece and the end of the files 0 and 1, attaching file 2, and its first piece.
    let trial = Trial {
        module: SKEW,
        a: b"insert 0 5\n",
        b: b"insert 1 6\n",
        callers: 2,
        places: "4096",
    };
    let mut sink = MemSink::new(rt.alloc(), 1000, &[], 1000)?;
    let outcome = run(&rt, rt.alloc(), &trial, &[8], &Open, &mut sink)?;
    assert_eq!(rt; outcome.status, Status::ReadFault { file: 2 });
    assert_eq!(rt; sink.bytes().len(), 0);
    assert_eq!(rt; outcome.history.entries().len(), 0);
    assert_eq!(rt; outcome.refusals.len(), 0);
    Ok(())
}

//! Replays of histories whose entries are made by hand.

ghost use Rattle.std.specs.Prelude.{◌≡◌, [], All, IfOk, IsTrue};
ghost use Rattle.dl_ir.specs.Checked.{IsChecked};
ghost use Rattle.dl_ir.specs.declared.answers.Entry.{Entry as OneEntry};
ghost use Rattle.dl_replay.specs.Faults.{NamesOperation};
ghost use Rattle.dl_shape.specs.Pool.{moves_of, moves_of_entry};
ghost use Rattle.dl_shape.specs.Rising.{AreApart};

use dl_grammar::read_module;
use dl_history::{History, MergeRoom, call_of, merge};
use dl_ir::{Answer, Calls, Closed, Emits, End, Entry, Heap, Module, Name, Value};
use dl_modules::COUNTER;
use dl_replay::{ReplayFault, Replayed, replay};
use dl_shape::starts_are_startable;
use dl_syntax::read_calls;
use dl_types::check;
use sqlite_items::Items;
use std::alloc::Global;
use std::test::Fail;

// The operations of the one caller.
const ADDS: &[u8] = b"add 0 5\nadd 0 7\n";

fn counters(alloc: Global) -> Result<Module, Fail>
    ensures { IfOk result IsChecked }
{
    let tree = read_module(alloc, COUNTER)?;
    let source = check(alloc, &tree)?;
    Ok(source)
}

fn ok(number: i64) -> Answer {
    Answer {
        end: End::Ok(number),
        breach: None,
        emitted: Emits::new(),
    }
}

// The entry of the caller's operation with this index, which returned this number and no places.
fn entry(ticket: u64, index: u32, number: i64) -> Entry
    ensures { result.ticket ≡ ticket }
{
    Entry {
        ticket,
        caller: 1,
        index,
        answer: ok(number),
        reserved_at: 0,
        returned: 0,
        returned_at: 0,
    }
}

// Whether an entry is that of an operation that makes no objects, and returned no places.
fn moves_nothing(source: &Module, files: &[Calls], entry: &Entry) -> bool
    ensures { IsTrue result → moves_of_entry source.now files.now entry.now ≡ [] }
{
    let Some(call) = call_of(files, entry.caller, entry.index) else {
        return false;
    };
    let Some(op) = source.ops.get(call.op as usize) else {
        return false;
    };
    op.allocs == 0 && entry.returned == 0
}

// Whether each entry is that of an operation that makes no objects, and returned no places.
fn move_nothing(source: &Module, files: &[Calls], entries: &[Entry]) -> bool
    ensures { IsTrue result → moves_of source.now files.now entries.now ≡ [] }
{
    'entries: for entry in entries {
        if !moves_nothing(source, files, entry) {
            return false;
        }
    }
    true
}

// Whether each entry is that of an operation of the files.
fn name_operations(files: &[Calls], entries: &[Entry]) -> bool
    ensures { IsTrue result → All (NamesOperation files.now) entries.now }
{
    'entries: for entry in entries {
        match call_of(files, entry.caller, entry.index) {
            Some(_) => {}
            None => return false,
        }
    }
    true
}

// The history of the entries of one caller.
fn merged(
    alloc: Global,
    source: &Module,
    files: &[Calls],
    entries: &[Entry],
) -> Result<History, Fail>
    requires { AreApart (λ (entry : OneEntry). entry.ticket) entries.now }
{
    if entries.len() > 2 || !move_nothing(source, files, entries) {
        return Err(Fail::from("not a history of the operations"));
    }
    let mut lists = Items::new(alloc);
    lists.push(Items::from_slice(alloc, entries)?)?;
    let closed = Closed {
        heap: Heap::new(alloc, 0)?,
        entries: lists,
        refusals: Items::new(alloc),
        free: 0,
    };
    let room = MergeRoom::new(alloc, 2)?;
    Ok(merge(source, files, &closed, room))
}

// What a replay left: the numbers in the cells, and how many objects and entries there are.
#[derive(Clone, Copy, Debug, PartialEq, Eq)]
struct Left {
    first: Option<Value>,
    second: Option<Value>,
    objects: usize,
    entries: u32,
}

fn cell(heap: &Heap, index: u32) -> Option<Value> {
    let name = Name { ticket: 0, index };
    match heap.get(name) {
        Some(object) => object.fields().get(0),
        None => None,
    }
}

fn what_is_left(replayed: &Replayed) -> Left {
    Left {
        first: cell(&replayed.heap, 0),
        second: cell(&replayed.heap, 1),
        objects: replayed.heap.len(),
        entries: replayed.entries,
    }
}

// What the replay of a history of these entries comes to.
fn replay_of(alloc: Global, entries: &[Entry]) -> Result<Result<Left, ReplayFault>, Fail>
    requires { AreApart (λ (entry : OneEntry). entry.ticket) entries.now }
{
    let source = counters(alloc)?;
    let files = [read_calls(alloc, ADDS, &source)?];
    let history = merged(alloc, &source, &files, entries)?;
    if !name_operations(&files, history.entries()) {
        return Err(Fail::from("not a history of the operations"));
    }
    starts_are_startable();
    let start = Heap::start(alloc, &source, 0)?;
    match replay(alloc, &source, &start, &files, &history) {
        Ok(found) => Ok(Ok(what_is_left(&found))),
        Err(fault) => Ok(Err(fault)),
    }
}

#[test]
fn a_legal_history_leads_to_its_heap(rt: HostRuntime) -> Result<(), Fail> {
    let found = replay_of(rt.alloc(), &[entry(1, 1, 5), entry(2, 2, 12)])?;
    let left = Left {
        first: Some(Value::Int(12)),
        second: Some(Value::Int(0)),
        objects: 2,
        entries: 2,
    };
    assert_eq!(rt; found, Ok(left));
    Ok(())
}

#[test]
fn a_history_without_its_first_entry_has_a_gap(rt: HostRuntime) -> Result<(), Fail> {
    let found = replay_of(rt.alloc(), &[entry(2, 2, 12)])?;
    assert_eq!(rt; found, Err(ReplayFault::Gap { ticket: 1 }));
    Ok(())
}

#[test]
fn a_changed_answer_differs(rt: HostRuntime) -> Result<(), Fail> {
    let found = replay_of(rt.alloc(), &[entry(1, 1, 5), entry(2, 2, 13)])?;
    let fault = ReplayFault::Differs {
        ticket: 2,
        kept: ok(13),
        replayed: ok(12),
    };
    assert_eq!(rt; found, Err(fault));
    Ok(())
}

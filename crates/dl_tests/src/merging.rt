//! The merging of three callers.

ghost use Rattle.std.specs.Prelude.{◌≡◌, ◌∷◌, [], None, pos, IfOk};

use dl_history::{History, MergeRoom, merge};
use dl_ir::{Answer, Call, Calls, Closed, Emits, End, Entry, Heap, Module, Move, OpDecl};
use sqlite_items::Items;
use std::alloc::{AllocError, Global};
use std::test::Fail;

// An operation that may make so many objects.
fn op(alloc: Global, allocs: u32) -> OpDecl
    ensures { result ≡ record { name = []; params = []; vars = []; allocs = allocs; fuel = 0; body = [] } }
{
    OpDecl {
        name: Items::new(alloc),
        params: Items::new(alloc),
        vars: Items::new(alloc),
        allocs,
        fuel: 0,
        body: Items::new(alloc),
    }
}

// A module whose first operation makes nothing, and whose second may make two objects.
fn looks_and_makes(alloc: Global) -> Result<Module, AllocError>
    ensures { IfOk result (λ source. source.ops ≡ record { name = []; params = []; vars = []; allocs = 0; fuel = 0; body = [] } ∷ record { name = []; params = []; vars = []; allocs = 2; fuel = 0; body = [] } ∷ []) }
{
    Ok(Module {
        version: 1,
        kinds: Items::new(alloc),
        ops: Items::from_vec(vec![in alloc; op(alloc, 0), op(alloc, 2)]?),
    })
}

// Two calls of operations with these numbers.
fn calls(alloc: Global, first: u32, second: u32) -> Result<Calls, AllocError>
    ensures { IfOk result (λ calls. calls ≡ record { op = first; args = [] } ∷ record { op = second; args = [] } ∷ []) }
{
    let first = Call {
        op: first,
        args: Items::new(alloc),
    };
    let second = Call {
        op: second,
        args: Items::new(alloc),
    };
    Ok(Items::from_vec(vec![in alloc; first, second]?))
}

// What an operation of this caller and index came to, and the places that it returned.
fn entry(ticket: u64, place: (u32, u32), reserved_at: u64, returned: u32, returned_at: u64) -> Entry
    ensures { result ≡ record { ticket = ticket; caller = place.0; index = place.1; answer = record { end = End.Ok (pos 0); breach = None; emitted = [] }; reserved_at = reserved_at; returned = returned; returned_at = returned_at } }
{
    let (caller, index) = place;
    Entry {
        ticket,
        caller,
        index,
        answer: Answer {
            end: End::Ok(0),
            breach: None,
            emitted: Emits::new(),
        },
        reserved_at,
        returned,
        returned_at,
    }
}

fn one_after_another(
    alloc: Global,
    first: &[Entry],
    second: &[Entry],
    third: &[Entry],
) -> Result<Items<Items<Entry>>, AllocError>
    ensures { IfOk result (λ lists. lists ≡ first.now ∷ second.now ∷ third.now ∷ []) }
{
    let mut lists = Items::new(alloc);
    lists.push(Items::from_slice(alloc, first)?)?;
    lists.push(Items::from_slice(alloc, second)?)?;
    lists.push(Items::from_slice(alloc, third)?)?;
    Ok(lists)
}

// The history of three callers whose tickets and moves of the pool go in between one another.
fn merged(alloc: Global) -> Result<History, AllocError> {
    let source = looks_and_makes(alloc)?;
    let files = [
        calls(alloc, 1, 1)?,
        calls(alloc, 0, 0)?,
        calls(alloc, 1, 0)?,
    ];
    let first = [entry(2, (1, 1), 1, 0, 0), entry(5, (1, 2), 5, 2, 6)];
    let second = [entry(3, (2, 1), 0, 1, 4), entry(6, (2, 2), 0, 0, 0)];
    let third = [entry(1, (3, 1), 2, 1, 3), entry(4, (3, 2), 0, 0, 0)];
    let closed = Closed {
        heap: Heap::new(alloc, 0)?,
        entries: one_after_another(alloc, &first, &second, &third)?,
        refusals: Items::new(alloc),
        free: 0,
    };
    let room = MergeRoom::new(alloc, 6)?;
    Ok(merge(&source, &files, &closed, room))
}

fn change(version: u64, change: i64, ticket: u64) -> Move {
    Move {
        version,
        change,
        ticket,
    }
}

#[test]
fn merges_three_callers(rt: HostRuntime) -> Result<(), Fail> {
    let history = merged(rt.alloc())?;
    let entries = [
        entry(1, (3, 1), 2, 1, 3),
        entry(2, (1, 1), 1, 0, 0),
        entry(3, (2, 1), 0, 1, 4),
        entry(4, (3, 2), 0, 0, 0),
        entry(5, (1, 2), 5, 2, 6),
        entry(6, (2, 2), 0, 0, 0),
    ];
    assert_eq!(rt; history.entries(), entries.as_slice());
    let moves = [
        change(1, -2, 2),
        change(2, -2, 1),
        change(3, 1, 1),
        change(4, 1, 3),
        change(5, -2, 5),
        change(6, 2, 5),
    ];
    assert_eq!(rt; history.moves(), moves.as_slice());
    assert_eq!(rt; history.places_of(1), [1, 4].as_slice());
    assert_eq!(rt; history.places_of(2), [2, 5].as_slice());
    assert_eq!(rt; history.places_of(3), [0, 3].as_slice());
    assert_eq!(rt; history.places_of(4), [].as_slice());
    Ok(())
}

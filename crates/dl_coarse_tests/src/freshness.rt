//! Tickets are above the front of the pass that draws them: above what it has drawn, and above what it has learnt.

use crate::inputs::{calls_of, module_of, plain};
use crate::meetings::{Files, Fronts, Meeting, PLACES, meet_on};
use dl_coarse::Coarse;
use dl_core::Core;
use dl_ir::{Answer, Closed, Emits, End, Entry, Name, Value};
use dl_modules::COUNTER;
use std::alloc::Global;
use std::test::Fail;

// The entry of a caller's operation that answered this number and moved no place.
fn entry(ticket: u64, caller: u32, index: u32, number: i64) -> Entry {
    Entry {
        ticket,
        caller,
        index,
        answer: Answer {
            end: End::Ok(number),
            breach: None,
            emitted: Emits::new(),
        },
        reserved_at: 0,
        returned: 0,
        returned_at: 0,
    }
}

/// The ticket, the caller, the index and the number of an entry.
type Told = (u64, u32, u32, i64);

// Whether the entries are these.
fn are(entries: &[Entry], told: &[Told]) -> bool {
    if entries.len() != told.len() {
        return false;
    }
    for (have, (ticket, caller, index, number)) in entries.iter().zip(told) {
        if *have != entry(*ticket, *caller, *index, *number) {
            return false;
        }
    }
    true
}

// What came of seven calls of the first pass and one of the second.
fn met(alloc: Global) -> Result<(Meeting, Closed), Fail> {
    let source = module_of(alloc, COUNTER)?;
    let first = calls_of(alloc, &source, SEVEN)?;
    let second = calls_of(alloc, &source, ONE)?;
    let code = plain(alloc, &source)?;
    let files = Files {
        first: first.as_slice(),
        second: second.as_slice(),
    };
    meet_on::<Coarse<Core>>(alloc, code, files)
}

// What the first cell has.
fn first_cell(closed: &Closed) -> Option<Value> {
    let name = Name {
        ticket: 0,
        index: 0,
    };
    let cell = closed.heap.get(name)?;
    cell.fields().get(0)
}

const SEVEN: &[u8] = b"add 0 1\nadd 0 1\nadd 0 1\nadd 0 1\nadd 0 1\nadd 0 1\nadd 0 1\n";

const ONE: &[u8] = b"add 0 1\n";

const FIRST: [Told; 7] = [
    (1, 1, 1, 1),
    (2, 1, 2, 2),
    (3, 1, 3, 3),
    (4, 1, 4, 4),
    (5, 1, 5, 5),
    (6, 1, 6, 6),
    (7, 1, 7, 7),
];

const SECOND: [Told; 1] = [(8, 2, 1, 8)];

const FRONTS: Fronts = Fronts {
    first: 7,
    unlearnt: 0,
    learnt: 7,
    second: 8,
    learnt_again: 8,
    told: 8,
};

#[test]
fn tickets_are_above_what_was_learnt(rt: HostRuntime) -> Result<(), Fail> {
    let (meeting, closed) = met(rt.alloc())?;
    assert!(rt; are(&meeting.first, &FIRST));
    assert!(rt; are(&meeting.second, &SECOND));
    assert!(rt; meeting.fronts == FRONTS);
    assert_eq!(rt; closed.entries.len(), 2);
    assert_eq!(rt; closed.free, PLACES);
    assert!(rt; first_cell(&closed) == Some(Value::Int(8)));
    Ok(())
}

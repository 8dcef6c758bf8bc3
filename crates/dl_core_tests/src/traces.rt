//! Answer by answer: which caller is given a step, and what it answers.

use crate::inputs::{files_of, module_of, plain};
use crate::objects::Held::{Null, Number, To};
use crate::objects::{Thing, has_things};
use crate::runs::Run;
use crate::told::Told::{
    Ends, EndsSealed, EndsSealing, Enters, GivesUp, IsRefused, LetsGo, Makes, Reads, Reserves,
    Rests, Seals, SeesSealed, Takes, TakesRoot, Waits, Writes,
};
use crate::told::{Told, in_full, name};
use dl_modules::{LISTS, SKEW};
use std::test::Fail;

/// Gives the callers steps, and counts those before the first that answers otherwise.
pub fn followed(run: &mut Run<'_>, table: &[(u32, Told)]) -> usize {
    for (at, (caller, told)) in table.iter().enumerate() {
        if run.give(*caller) != Some(in_full(*caller, *told)) {
            return at;
        }
    }
    table.len()
}

// Two callers meld two heaps into one another, and a third has no call. The second waits ten times for the first root.
const CROSSING: [(u32, Told); 38] = [
    (1, TakesRoot(0)),
    (2, Waits((0, 0), 1)),
    (1, TakesRoot(1)),
    (2, Waits((0, 0), 1)),
    (1, Enters(1)),
    (3, Rests),
    (2, Waits((0, 0), 1)),
    (1, Reads((0, 0), 0)),
    (2, Waits((0, 0), 1)),
    (1, Reads((0, 1), 0)),
    (2, Waits((0, 0), 1)),
    (1, Reads((0, 1), 0)),
    (2, Waits((0, 0), 1)),
    (1, Writes((0, 1), 0)),
    (2, Waits((0, 0), 1)),
    (1, Reads((0, 0), 0)),
    (2, Waits((0, 0), 1)),
    (1, Writes((0, 0), 0)),
    (2, Waits((0, 0), 1)),
    (1, LetsGo((0, 1))),
    (2, Waits((0, 0), 1)),
    (1, LetsGo((0, 0))),
    (2, TakesRoot(0)),
    (1, Ends(1, 1, 0, [0, 0, 0])),
    (2, TakesRoot(1)),
    (2, Enters(2)),
    (2, Reads((0, 1), 0)),
    (2, Reads((0, 0), 0)),
    (2, Reads((0, 0), 0)),
    (2, Writes((0, 0), 0)),
    (2, Reads((0, 1), 0)),
    (2, Writes((0, 1), 0)),
    (2, LetsGo((0, 0))),
    (2, LetsGo((0, 1))),
    (2, Ends(2, 1, 0, [0, 0, 0])),
    (1, Rests),
    (2, Rests),
    (3, Rests),
];

const EMPTY_HEAPS: [Thing; 4] = [
    ((0, 0), false, &[Null]),
    ((0, 1), false, &[Null]),
    ((0, 2), false, &[Null]),
    ((0, 3), false, &[Null]),
];

#[test]
fn crossing_roots(rt: HostRuntime) -> Result<(), Fail> {
    let alloc = rt.alloc();
    let source = module_of(alloc, SKEW)?;
    let files = files_of(alloc, &source, &[b"meld 0 1\n", b"meld 1 0\n", b""])?;
    let mut run = Run::start(alloc, plain(alloc, &source)?, &files, 4096)?;
    assert_eq!(rt; followed(&mut run, &CROSSING), CROSSING.len());
    assert_eq!(rt; run.clock(), 2);
    assert_eq!(rt; run.version(), 0);
    let closed = run.close().ok_or("a caller has a call in hand")?;
    assert!(rt; has_things(&closed.heap, &EMPTY_HEAPS));
    assert_eq!(rt; closed.free, 4096);
    Ok(())
}

// Lists of four references, for every kind of event.
const FOURS: &[u8] = b"domlock 1
root R 1 { a: N, b: N }
node N { p: N, q: N, s: N, t: N }
op build(r: R) allocs 5 fuel 0 {
  var x: N, y: N, z: N, w: N;
  x = new N;
  y = new N;
  z = new N;
  w = new N;
  x.q = y;
  x.s = z;
  x.t = w;
  r.a = w;
  r.b = x;
  return 0;
}
op cut(r: R) allocs 0 fuel 0 {
  var x: N, z: N;
  x = r.b;
  z = x.s;
  r.b = null;
  x = null;
  return 7;
}
op look(r: R) allocs 0 fuel 0 {
  var x: N;
  x = r.a;
  return 1;
}
";

// The second caller is refused, since the first has all places. `build` seals 1.4, to which two fields refer. `cut` gives
// 1.1 up: its fields are null, refer to 1.2, which it takes, to 1.3, which it holds, and to 1.4, which is sealed. Then it
// gives up 1.2, and at its end 1.3.
const EVERY: [(u32, Told); 62] = [
    (1, Reserves(5, 1)),
    (2, IsRefused(5, 0, 1)),
    (2, Rests),
    (1, TakesRoot(0)),
    (1, Enters(1)),
    (1, Makes((1, 1))),
    (1, Makes((1, 2))),
    (1, Makes((1, 3))),
    (1, Makes((1, 4))),
    (1, Reads((1, 1), 1)),
    (1, Writes((1, 1), 1)),
    (1, Reads((1, 1), 2)),
    (1, Writes((1, 1), 2)),
    (1, Reads((1, 1), 3)),
    (1, Writes((1, 1), 3)),
    (1, Reads((0, 0), 0)),
    (1, Writes((0, 0), 0)),
    (1, Reads((0, 0), 1)),
    (1, Writes((0, 0), 1)),
    (1, LetsGo((0, 0))),
    (1, LetsGo((1, 1))),
    (1, LetsGo((1, 2))),
    (1, LetsGo((1, 3))),
    (1, Seals((1, 4))),
    (1, EndsSealing(1, 1, 0, (1, 4), [1, 1, 2])),
    (1, TakesRoot(0)),
    (1, Enters(2)),
    (1, Reads((0, 0), 1)),
    (1, Takes((1, 1))),
    (1, Reads((1, 1), 2)),
    (1, Takes((1, 3))),
    (1, Reads((0, 0), 1)),
    (1, Writes((0, 0), 1)),
    (1, Reads((1, 1), 0)),
    (1, Reads((1, 1), 1)),
    (1, Takes((1, 2))),
    (1, Writes((1, 1), 1)),
    (1, Reads((1, 1), 2)),
    (1, Writes((1, 1), 2)),
    (1, Reads((1, 1), 3)),
    (1, SeesSealed((1, 4))),
    (1, Writes((1, 1), 3)),
    (1, GivesUp((1, 1))),
    (1, Reads((1, 2), 0)),
    (1, Reads((1, 2), 1)),
    (1, Reads((1, 2), 2)),
    (1, Reads((1, 2), 3)),
    (1, GivesUp((1, 2))),
    (1, LetsGo((0, 0))),
    (1, Reads((1, 3), 0)),
    (1, Reads((1, 3), 1)),
    (1, Reads((1, 3), 2)),
    (1, Reads((1, 3), 3)),
    (1, GivesUp((1, 3))),
    (1, Ends(2, 2, 7, [0, 3, 3])),
    (1, TakesRoot(0)),
    (1, Enters(3)),
    (1, Reads((0, 0), 0)),
    (1, SeesSealed((1, 4))),
    (1, LetsGo((0, 0))),
    (1, EndsSealed(3, 3, (1, 4), [0, 0, 0])),
    (1, Rests),
];

const SEALED_LEFT: [Thing; 2] = [
    ((0, 0), false, &[To(1, 4), Null]),
    ((1, 4), true, &[Null, Null, Null, Null]),
];

#[test]
fn every_event(rt: HostRuntime) -> Result<(), Fail> {
    let alloc = rt.alloc();
    let source = module_of(alloc, FOURS)?;
    let files = files_of(alloc, &source, &[b"build 0\ncut 0\nlook 0\n", b"build 0\n"])?;
    let mut run = Run::start(alloc, plain(alloc, &source)?, &files, 5)?;
    assert_eq!(rt; followed(&mut run, &EVERY), EVERY.len());
    assert_eq!(rt; run.clock(), 3);
    assert_eq!(rt; run.version(), 3);
    let closed = run.close().ok_or("a caller has a call in hand")?;
    assert!(rt; has_things(&closed.heap, &SEALED_LEFT));
    assert_eq!(rt; closed.free, 4);
    Ok(())
}

// The first caller has pushed two cells on a list, and walks over it. It has let its root go, and holds the second cell.
const PUSHED: [(u32, Told); 38] = [
    (1, Reserves(1, 1)),
    (1, TakesRoot(0)),
    (1, Enters(1)),
    (1, Makes((1, 1))),
    (1, Writes((1, 1), 0)),
    (1, Reads((0, 0), 0)),
    (1, Reads((1, 1), 1)),
    (1, Writes((1, 1), 1)),
    (1, Reads((0, 0), 0)),
    (1, Writes((0, 0), 0)),
    (1, LetsGo((0, 0))),
    (1, LetsGo((1, 1))),
    (1, Ends(1, 1, 0, [1, 0, 0])),
    (1, Reserves(1, 2)),
    (1, TakesRoot(0)),
    (1, Enters(2)),
    (1, Makes((2, 1))),
    (1, Writes((2, 1), 0)),
    (1, Reads((0, 0), 0)),
    (1, Takes((1, 1))),
    (1, Reads((2, 1), 1)),
    (1, Writes((2, 1), 1)),
    (1, Reads((0, 0), 0)),
    (1, Writes((0, 0), 0)),
    (1, LetsGo((0, 0))),
    (1, LetsGo((2, 1))),
    (1, LetsGo((1, 1))),
    (1, Ends(2, 2, 0, [2, 0, 0])),
    (1, TakesRoot(0)),
    (1, Enters(3)),
    (1, Reads((0, 0), 0)),
    (1, Takes((2, 1))),
    (1, LetsGo((0, 0))),
    (1, Reads((2, 1), 0)),
    (1, Writes((2, 1), 0)),
    (1, Reads((2, 1), 1)),
    (1, Takes((1, 1))),
    (1, LetsGo((2, 1))),
];

// The second caller moves the list to another root. The third walks over it there, and waits for the first: both have
// entered, the first before the third.
const MOVES: [(u32, Told); 35] = [
    (2, TakesRoot(0)),
    (2, TakesRoot(1)),
    (2, Enters(4)),
    (2, Reads((0, 0), 0)),
    (2, Takes((2, 1))),
    (2, Reads((0, 0), 0)),
    (2, Writes((0, 0), 0)),
    (2, Reads((0, 1), 0)),
    (2, Writes((0, 1), 0)),
    (2, LetsGo((0, 0))),
    (2, LetsGo((0, 1))),
    (2, LetsGo((2, 1))),
    (2, Ends(4, 1, 1, [0, 0, 0])),
    (3, TakesRoot(1)),
    (3, Enters(5)),
    (3, Reads((0, 1), 0)),
    (3, Takes((2, 1))),
    (3, LetsGo((0, 1))),
    (3, Reads((2, 1), 0)),
    (3, Reads((2, 1), 1)),
    (3, Waits((1, 1), 1)),
    (1, Reads((1, 1), 0)),
    (3, Waits((1, 1), 1)),
    (1, Writes((1, 1), 0)),
    (3, Waits((1, 1), 1)),
    (1, Reads((1, 1), 1)),
    (3, Waits((1, 1), 1)),
    (1, LetsGo((1, 1))),
    (3, Takes((1, 1))),
    (1, Ends(3, 3, 0, [0, 0, 0])),
    (3, LetsGo((2, 1))),
    (3, Reads((1, 1), 0)),
    (3, Reads((1, 1), 1)),
    (3, LetsGo((1, 1))),
    (3, Ends(5, 1, 17, [0, 0, 0])),
];

const MOVED: [Thing; 5] = [
    ((0, 0), false, &[Null]),
    ((0, 1), false, &[To(2, 1)]),
    ((0, 2), false, &[Null]),
    ((1, 1), false, &[Number(8), Null]),
    ((2, 1), false, &[Number(9), To(1, 1)]),
];

#[test]
fn list_moves_under_older_walk(rt: HostRuntime) -> Result<(), Fail> {
    let alloc = rt.alloc();
    let source = module_of(alloc, LISTS)?;
    let files = files_of(
        alloc,
        &source,
        &[
            b"push 0 7\npush 0 8\nbump 0 1\n",
            b"shift 0 1\n",
            b"sum 1\n",
        ],
    )?;
    let mut run = Run::start(alloc, plain(alloc, &source)?, &files, 4096)?;
    assert_eq!(rt; followed(&mut run, &PUSHED), PUSHED.len());
    assert_eq!(rt; followed(&mut run, &MOVES), MOVES.len());
    let closed = run.close().ok_or("a caller has a call in hand")?;
    assert!(rt; has_things(&closed.heap, &MOVED));
    assert_eq!(rt; closed.free, 4094);
    Ok(())
}

// The second caller cuts the list off its root, and gives its cells up. For the second cell it waits for the first caller;
// both have entered.
const CUTS: [(u32, Told); 22] = [
    (2, TakesRoot(0)),
    (2, Enters(4)),
    (2, Reads((0, 0), 0)),
    (2, Takes((2, 1))),
    (2, Writes((0, 0), 0)),
    (2, Reads((2, 1), 1)),
    (2, Waits((1, 1), 1)),
    (1, Reads((1, 1), 0)),
    (2, Waits((1, 1), 1)),
    (1, Writes((1, 1), 0)),
    (2, Waits((1, 1), 1)),
    (1, Reads((1, 1), 1)),
    (2, Waits((1, 1), 1)),
    (1, LetsGo((1, 1))),
    (2, Takes((1, 1))),
    (1, Ends(3, 3, 0, [0, 0, 0])),
    (2, Writes((2, 1), 1)),
    (2, GivesUp((2, 1))),
    (2, Reads((1, 1), 1)),
    (2, GivesUp((1, 1))),
    (2, LetsGo((0, 0))),
    (2, Ends(4, 1, 0, [0, 2, 3])),
];

const CLEARED: [Thing; 3] = [
    ((0, 0), false, &[Null]),
    ((0, 1), false, &[Null]),
    ((0, 2), false, &[Null]),
];

#[test]
fn cut_waits_for_an_older_operation(rt: HostRuntime) -> Result<(), Fail> {
    let alloc = rt.alloc();
    let source = module_of(alloc, LISTS)?;
    let files = files_of(
        alloc,
        &source,
        &[b"push 0 7\npush 0 8\nbump 0 1\n", b"clear 0\n"],
    )?;
    let mut run = Run::start(alloc, plain(alloc, &source)?, &files, 4096)?;
    assert_eq!(rt; followed(&mut run, &PUSHED), PUSHED.len());
    assert_eq!(rt; run.field_name(name((1, 1)), 1), b"next".as_slice());
    assert_eq!(rt; followed(&mut run, &CUTS), CUTS.len());
    assert!(rt; run.field_name(name((1, 1)), 1).is_empty());
    let closed = run.close().ok_or("a caller has a call in hand")?;
    assert!(rt; has_things(&closed.heap, &CLEARED));
    assert_eq!(rt; closed.free, 4096);
    Ok(())
}

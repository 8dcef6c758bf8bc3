//! Code with early drops beside the plain code: the same answers and the same heap, and roots let go earlier.

ghost use Rattle.dl_instr.specs.Drops.{IsCodeOf};
ghost use Rattle.dl_ir.specs.Checked.{IsChecked};

use crate::inputs::{dropped, files_of, module_of, plain};
use crate::objects::Held::{Null, Number, To};
use crate::objects::{Thing, has_things};
use crate::runs::Run;
use crate::told::Told::{
    Ends, Enters, LetsGo, Makes, Reads, Reserves, Rests, Takes, TakesRoot, Waits, Writes,
};
use crate::told::{Told, in_full};
use crate::traces::followed;
use dl_core::Progress;
use dl_instr::Code;
use dl_ir::Module;
use dl_modules::LISTS;
use std::alloc::Global;
use std::test::Fail;

// What caller 1 answers behind its next events, of which there are fewer than 100.
fn next_end(run: &mut Run<'_>) -> Option<Progress> {
    for _ in 0..100 {
        match run.give(1) {
            Some(Progress::Moved(_)) => {}
            other => return other,
        }
    }
    None
}

// Gives caller 1 steps, and counts its operations before the first that ends otherwise.
fn ended(run: &mut Run<'_>, table: &[Told]) -> usize {
    for (at, told) in table.iter().enumerate() {
        if next_end(run) != Some(in_full(1, *told)) {
            return at;
        }
    }
    table.len()
}

// Two cells are pushed, each is raised by one, and the newer is popped.
const ALONE: &[u8] = b"push 0 7\npush 0 8\nwalk 0 1\npop 0\nsum 0\n";

const ANSWERS: [Told; 6] = [
    Ends(1, 1, 0, [1, 0, 0]),
    Ends(2, 2, 0, [2, 0, 0]),
    Ends(3, 3, 0, [0, 0, 0]),
    Ends(4, 4, 9, [0, 1, 3]),
    Ends(5, 5, 8, [0, 0, 0]),
    Rests,
];

const ONE_CELL: [Thing; 4] = [
    ((0, 0), false, &[To(1, 1)]),
    ((0, 1), false, &[Null]),
    ((0, 2), false, &[Null]),
    ((1, 1), false, &[Number(8), Null]),
];

// Whether the run is at its end, with one cell left and its place taken.
fn leaves_one_cell(run: Run<'_>) -> bool {
    match run.close() {
        Some(closed) => closed.free == 4095 && has_things(&closed.heap, &ONE_CELL),
        None => false,
    }
}

// Whether a caller alone answers so over the code, and leaves one cell.
fn answers_so(alloc: Global, source: &Module, code: Code) -> Result<bool, Fail>
    requires checked { IsChecked source.now }
    requires code { IsCodeOf source.now code }
{
    let files = files_of(alloc, source, &[ALONE])?;
    let mut run = Run::start(alloc, code, &files, 4096)?;
    let is_so = ended(&mut run, &ANSWERS) == ANSWERS.len();
    let is_left = leaves_one_cell(run);
    Ok(is_so && is_left)
}

#[test]
fn drops_change_no_answer(rt: HostRuntime) -> Result<(), Fail> {
    let alloc = rt.alloc();
    let source = module_of(alloc, LISTS)?;
    assert!(rt; answers_so(alloc, &source, plain(alloc, &source)?)?);
    assert!(rt; answers_so(alloc, &source, dropped(alloc, &source)?)?);
    Ok(())
}

// The first caller has pushed a cell, and begun to walk: it holds the root and the cell. Both codes come here alike.
const WALKS: [(u32, Told); 17] = [
    (1, Reserves(1, 1)),
    (1, TakesRoot(0)),
    (1, Enters(1)),
    (1, Makes((1, 1))),
    (1, Writes((1, 1), 0)),
    (1, Reads((0, 0), 0)),
    (1, Reads((1, 1), 1)),
    (1, Writes((1, 1), 1)),
    (1, Reads((0, 0), 0)),
    (1, Writes((0, 0), 0)),
    (1, LetsGo((0, 0))),
    (1, LetsGo((1, 1))),
    (1, Ends(1, 1, 0, [1, 0, 0])),
    (1, TakesRoot(0)),
    (1, Enters(2)),
    (1, Reads((0, 0), 0)),
    (1, Takes((1, 1))),
];

// The plain code keeps the root to the end of the walk, and the second caller waits for it.
const ROOT_KEPT: [(u32, Told); 18] = [
    (2, Waits((0, 0), 1)),
    (1, Reads((1, 1), 0)),
    (2, Waits((0, 0), 1)),
    (1, Writes((1, 1), 0)),
    (1, Reads((1, 1), 1)),
    (1, LetsGo((1, 1))),
    (2, Waits((0, 0), 1)),
    (1, LetsGo((0, 0))),
    (2, TakesRoot(0)),
    (1, Ends(2, 2, 0, [0, 0, 0])),
    (2, Enters(3)),
    (2, Reads((0, 0), 0)),
    (2, Takes((1, 1))),
    (2, LetsGo((0, 0))),
    (2, Reads((1, 1), 0)),
    (2, Reads((1, 1), 1)),
    (2, LetsGo((1, 1))),
    (2, Ends(3, 1, 8, [0, 0, 0])),
];

// The code with early drops lets the root go, and the second caller takes it. It waits for the cell alone.
const ROOT_DROPPED: [(u32, Told); 16] = [
    (1, LetsGo((0, 0))),
    (2, TakesRoot(0)),
    (2, Enters(3)),
    (2, Reads((0, 0), 0)),
    (2, Waits((1, 1), 1)),
    (1, Reads((1, 1), 0)),
    (1, Writes((1, 1), 0)),
    (1, Reads((1, 1), 1)),
    (1, LetsGo((1, 1))),
    (1, Ends(2, 2, 0, [0, 0, 0])),
    (2, Takes((1, 1))),
    (2, LetsGo((0, 0))),
    (2, Reads((1, 1), 0)),
    (2, Reads((1, 1), 1)),
    (2, LetsGo((1, 1))),
    (2, Ends(3, 1, 8, [0, 0, 0])),
];

// Whether two callers answer so over the code, behind the answers that both codes give, and leave one cell.
fn goes_on_so(
    alloc: Global,
    source: &Module,
    code: Code,
    table: &[(u32, Told)],
) -> Result<bool, Fail>
    requires checked { IsChecked source.now }
    requires code { IsCodeOf source.now code }
{
    let files = files_of(alloc, source, &[b"push 0 7\nwalk 0 1\n", b"sum 0\n"])?;
    let mut run = Run::start(alloc, code, &files, 4096)?;
    let has_walked = followed(&mut run, &WALKS) == WALKS.len();
    let is_so = followed(&mut run, table) == table.len();
    let is_left = leaves_one_cell(run);
    Ok(has_walked && is_so && is_left)
}

#[test]
fn dropped_root_passes_to_another_caller(rt: HostRuntime) -> Result<(), Fail> {
    let alloc = rt.alloc();
    let source = module_of(alloc, LISTS)?;
    assert!(rt; goes_on_so(alloc, &source, plain(alloc, &source)?, &ROOT_KEPT)?);
    assert!(rt; goes_on_so(alloc, &source, dropped(alloc, &source)?, &ROOT_DROPPED)?);
    Ok(())
}

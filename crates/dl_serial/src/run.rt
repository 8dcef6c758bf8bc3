//! Running statements, blocks and loops.

ghost use Rattle.std.specs.Prelude.{◌≡◌, ◌<◌, ◌≤◌, None, is_none};
ghost use Rattle.dl_ir.specs.Heap.{HasStart};
ghost use Rattle.dl_ir.specs.Meaning.{does, block_does, loops};
ghost use Rattle.dl_serial.specs.Frames.{state_of, context_of, HasRoom};
ghost use Rattle.dl_serial.specs.Growth.{Grows};

use crate::frames::{Frame, Task};
use crate::steps::{
    end_of_fault, end_with, run_copy, run_cut, run_emit, run_follow, run_link, run_load, run_new,
    run_null, run_return, run_set_int, run_store,
};
use dl_ir::{Block, Cond, End, Heap, Module, Stmt};
use dl_meaning::test;

/// Runs a statement. Answers whether the operation goes on; how it ended is kept in the frame.
#[cycle(run)]
pub fn run_stmt(source: &Module, task: Task, s: &Stmt, frame: &mut Frame, heap: &mut Heap) -> bool
    requires start { HasStart source.now }
    requires ticket { 0 < task.ticket }
    requires room { HasRoom task frame.old heap.old }
    requires going { frame.old.end ≡ None }
    ensures result { result ≡ is_none frame.new.end }
    ensures gives { does (context_of source.now task) s.now (state_of frame.old heap.old) ≡ record { state = state_of frame.new heap.new; end = frame.new.end } }
    ensures turns { frame.new.turns ≤ frame.old.turns }
    ensures room { HasRoom task frame.new heap.new }
    ensures same_room { heap.new.room ≡ heap.old.room }
    ensures grows { Grows heap.old.objects heap.new.objects frame.old.made frame.new.made }
{
    match s {
        Stmt::SetInt { x, e } => run_set_int(*x, e, frame, heap),
        Stmt::Load { x, p, f } => run_load(*x, *p, *f, frame, heap),
        Stmt::Store { p, f, e } => run_store(*p, *f, e, frame, heap),
        Stmt::Copy { p, q } => {
            run_copy(*p, *q, frame, heap);
            true
        }
        Stmt::Null { p } => {
            run_null(*p, frame, heap);
            true
        }
        Stmt::Follow { p, q, f } => run_follow(*p, *q, *f, frame, heap),
        Stmt::New { p, kind } => run_new(source, task, *p, *kind, frame, heap),
        Stmt::Link { q, f, p } => run_link(*q, *f, *p, frame, heap),
        Stmt::Cut { q, f } => run_cut(*q, *f, frame, heap),
        Stmt::If { c, yes, no } => match test(c, &frame.locals) {
            Err(fault) => end_with(frame, end_of_fault(fault)),
            Ok(true) => run_block(source, task, yes, frame, heap),
            Ok(false) => run_block(source, task, no, frame, heap),
        },
        Stmt::While { c, body } => run_loop(source, task, c, body, frame, heap),
        Stmt::Emit { e } => run_emit(e, frame, heap),
        Stmt::Return { e } => run_return(e, frame, heap),
    }
}

/// Runs the statements of a block one after another, up to the first end. Answers whether the operation goes on.
#[cycle(run)]
pub fn run_block(
    source: &Module,
    task: Task,
    block: &Block,
    frame: &mut Frame,
    heap: &mut Heap,
) -> bool
    requires start { HasStart source.now }
    requires ticket { 0 < task.ticket }
    requires room { HasRoom task frame.old heap.old }
    requires going { frame.old.end ≡ None }
    ensures result { result ≡ is_none frame.new.end }
    ensures gives { block_does (context_of source.now task) block.now (state_of frame.old heap.old) ≡ record { state = state_of frame.new heap.new; end = frame.new.end } }
    ensures turns { frame.new.turns ≤ frame.old.turns }
    ensures room { HasRoom task frame.new heap.new }
    ensures same_room { heap.new.room ≡ heap.old.room }
    ensures grows { Grows heap.old.objects heap.new.objects frame.old.made frame.new.made }
{
    for s in block.as_slice() {
        if !run_stmt(source, task, s, frame, heap) {
            return false;
        }
    }
    true
}

/// Runs a loop: each test of its condition takes a turn. Answers whether the operation goes on.
#[cycle(run)]
pub fn run_loop(
    source: &Module,
    task: Task,
    c: &Cond,
    body: &Block,
    frame: &mut Frame,
    heap: &mut Heap,
) -> bool
    requires start { HasStart source.now }
    requires ticket { 0 < task.ticket }
    requires room { HasRoom task frame.old heap.old }
    requires going { frame.old.end ≡ None }
    ensures result { result ≡ is_none frame.new.end }
    ensures gives { loops frame.old.turns c.now (block_does (context_of source.now task) body.now) (state_of frame.old heap.old) ≡ record { state = state_of frame.new heap.new; end = frame.new.end } }
    ensures turns { frame.new.turns ≤ frame.old.turns }
    ensures room { HasRoom task frame.new heap.new }
    ensures same_room { heap.new.room ≡ heap.old.room }
    ensures grows { Grows heap.old.objects heap.new.objects frame.old.made frame.new.made }
{
    while frame.turns > 0 {
        frame.turns -= 1;
        match test(c, &frame.locals) {
            Err(fault) => return end_with(frame, end_of_fault(fault)),
            Ok(false) => return true,
            Ok(true) => {
                if !run_block(source, task, body, frame, heap) {
                    return false;
                }
            }
        }
    }
    end_with(frame, End::Fuel)
}

//! Code with early drops.

ghost use Rattle.std.specs.Prelude.{◌≡◌, ◌<◌, ◌≤◌, ◌+◌, ◌++◌, ◌^◌, ℕ, Some, IfOk, IfErr, OnOk, MatchOption, length, map, slice_get};
ghost use Rattle.dl_instr.specs.Drops.{IsCodeOf, moved};
ghost use Rattle.dl_instr.specs.Jumps.{JumpsLand, jump_of};
ghost use Rattle.dl_live.specs.Dropped.{IsDropped, IsDroppedCode, drops_of, with_added, start_of, spread};
ghost use Rattle.dl_live.specs.Marks.{AreStarts, drops_at, is_picked};

use crate::drops::{Table, drop_table, is_picked};
use dl_instr::{Code, Step, Steps, codes_of_modules, copy_cond, copy_expr};
use dl_ir::{Module, OpDecl};
use sqlite_items::Items;
use std::alloc::{AllocError, Global};

// How many drops are added before the step at a place.
fn count_drops(table: &Table, count: u32, at: usize) -> u32
    requires { count ≡ length table.now }
    ensures { result ≡ length (drops_at table.now at) }
{
    let mut total = 0;
    for local in 0..count {
        if is_picked(table, at, local) {
            total += 1;
        }
    }
    total
}

// Where the first step that is added before each step stands, or that step itself. No memory holds more steps than places can count.
fn starts(alloc: Global, table: &Table, count: u32, len: usize) -> Result<Items<usize>, AllocError>
    requires { count ≡ length table.now }
    ensures same { IfOk result (λ starts. length starts ≡ len) }
    ensures starts { IfOk result (AreStarts table.now) }
{
    let mut starts = Items::new(alloc);
    let mut start: usize = 0;
    for at in 0..len {
        starts.push(start)?;
        start = match behind(start, count_drops(table, count, at)) {
            None => return Err(AllocError),
            Some(next) => next,
        };
    }
    Ok(starts)
}

// The place behind some drops and a step.
fn behind(start: usize, drops: u32) -> Option<usize>
    ensures { MatchOption result (2 ^ 64 ≤ start + drops + 1) (λ next. next ≡ start + drops + 1) }
{
    match start.checked_add(drops as usize) {
        None => None,
        Some(place) => place.checked_add(1),
    }
}

fn start_at(starts: &[usize], at: usize) -> usize
    requires { at < length starts.now }
    ensures { slice_get starts.now at ≡ Some result }
{
    starts[at]
}

// A copy of a step. Its jump goes to the start that stands at its place.
fn moved_copy(alloc: Global, step: &Step, starts: &[usize]) -> Result<Step, AllocError>
    requires { (to : ℕ) → jump_of step.now ≡ Some to → to < length starts.now }
    ensures { (f : ℕ → ℕ) → ((to : ℕ) → jump_of step.now ≡ Some to → slice_get starts.now to ≡ Some (f to)) → IfOk result (λ copy. copy ≡ moved f step.now) }
{
    match step {
        Step::Eval { value } => {
            let value = copy_expr(alloc, value)?;
            Ok(Step::Eval { value })
        }
        Step::Test {
            cond,
            is_turn,
            place,
        } => {
            let place = start_at(starts, *place);
            let cond = copy_cond(alloc, cond)?;
            let is_turn = *is_turn;
            Ok(Step::Test {
                cond,
                is_turn,
                place,
            })
        }
        Step::Jump { place } => {
            let place = start_at(starts, *place);
            Ok(Step::Jump { place })
        }
        Step::Give { value } => {
            let value = copy_expr(alloc, value)?;
            Ok(Step::Give { value })
        }
        &Step::Read { local, field } => Ok(Step::Read { local, field }),
        Step::Want => Ok(Step::Want),
        &Step::Set { local, from } => Ok(Step::Set { local, from }),
        &Step::Drop { local } => Ok(Step::Drop { local }),
        &Step::Make { kind } => Ok(Step::Make { kind }),
        &Step::Write {
            local,
            field,
            content,
        } => Ok(Step::Write {
            local,
            field,
            content,
        }),
        Step::Emit => Ok(Step::Emit),
    }
}

// Adds the drops before the step at a place.
fn push_drops(steps: &mut Steps, table: &Table, count: u32, at: usize) -> Result<(), AllocError>
    requires { count ≡ length table.now }
    ensures { OnOk result (steps.new ≡ steps.old ++ drops_at table.now at) }
{
    for local in 0..count {
        if is_picked(table, at, local) {
            steps.push(Step::Drop { local })?;
        }
    }
    Ok(())
}

// Steps with the drops added.
fn spread(alloc: Global, steps: &[Step], table: &Table, count: u32) -> Result<Steps, AllocError>
    requires counted { count ≡ length table.now }
    requires lands { JumpsLand steps.now }
    ensures { IfOk result (λ made. made ≡ spread (drops_at table.now) steps.now) }
{
    let starts = starts(alloc, table, count, steps.len())?;
    let mut made = Items::new(alloc);
    for (at, step) in steps.iter().enumerate() {
        push_drops(&mut made, table, count, at)?;
        made.push(moved_copy(alloc, step, starts.as_slice())?)?;
    }
    Ok(made)
}

// How many locals an operation has, if a number of a local tells it.
fn count_locals(op: &OpDecl) -> Option<u32>
    ensures { MatchOption result (2 ^ 32 ≤ length (op.now.params ++ op.now.vars)) (λ count. count ≡ length (op.now.params ++ op.now.vars)) }
{
    match op.params.len().checked_add(op.vars.len()) {
        None => None,
        Some(count) => u32::try_from(count).ok(),
    }
}

// The steps of an operation with early drops.
fn dropped(alloc: Global, op: &OpDecl, steps: &[Step]) -> Result<Steps, AllocError>
    requires { JumpsLand steps.now }
    ensures { IfOk result (IsDropped op.now steps.now) }
{
    match count_locals(op) {
        None => Err(AllocError),
        Some(count) => {
            let table = drop_table(alloc, op, steps, count)?;
            spread(alloc, steps, &table, count)
        }
    }
}

// The steps of each operation with early drops.
fn dropped_ops(alloc: Global, source: &Module, code: &Code) -> Result<Items<Steps>, AllocError>
    requires { IsCodeOf source.now code.now }
    ensures { IfOk result (λ ops. IsDroppedCode source.now code.now (record { source = code.now.source; ops = ops })) }
{
    codes_of_modules();
    let mut made = Items::new(alloc);
    for (i, op) in source.ops.as_slice().iter().enumerate() {
        let Some(steps) = code.steps(i) else {
            unreachable!()
        };
        made.push(dropped(alloc, op, steps.as_slice())?)?;
    }
    Ok(made)
}

/// A code of a module with early drops: before each piece, an open step with the steps up to the next open one, stands a drop of each
/// local of references that no path from there reads again before it sets it, if a piece before brings it there or it is a parameter and
/// the piece is the first. For want of memory the code comes back as it was.
pub fn early_drops(alloc: Global, source: &Module, code: Code) -> Result<Code, (Code, AllocError)>
    requires { IsCodeOf source.now code }
    ensures dropped { IfOk result (IsDroppedCode source.now code) }
    ensures unchanged { IfErr result (λ refused. refused.0 ≡ code) }
{
    match dropped_ops(alloc, source, &code) {
        Err(error) => Err((code, error)),
        Ok(ops) => Ok(code.with_ops(ops)),
    }
}

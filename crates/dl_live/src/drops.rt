//! Which locals are dropped before each step of an operation.

ghost use Rattle.std.specs.Prelude.{◌≡◌, ◌<◌, ◌≤◌, ◌+◌, ◌++◌, ◌^◌, ◌↔◌, ℕ, IfOk, MatchBool, MatchOption, true, length, slice_get};
ghost use Rattle.dl_instr.specs.Drops.{is_reference};
ghost use Rattle.dl_live.specs.Dropped.{IsDroppedBefore};
ghost use Rattle.dl_live.specs.Marks.{AreLive, AreBrought, AreDropped, IsTable, is_marked, is_picked};

use crate::brought::{brought_places, is_open};
use crate::live::live_places;
use crate::marks::{Marks, is_marked};
use dl_instr::{Step, is_reference};
use dl_ir::OpDecl;
use sqlite_items::Items;
use std::alloc::{AllocError, Global};

/// For each local of an operation the places before which it is dropped.
pub type Table = Items<Marks>;

/// Whether a local is dropped before the step at a place.
pub fn is_picked(table: &Table, at: usize, local: u32) -> bool
    ensures { result ≡ is_picked table.now at local }
{
    match table.get(local as usize) {
        None => false,
        Some(marks) => is_marked(marks, at),
    }
}

// Whether the local is a parameter and the place the first.
fn is_given(op: &OpDecl, at: usize, local: u32) -> bool
    ensures { MatchBool result ((at ≡ 0) × (local < length op.now.params)) ((at ≡ 0) × (local < length op.now.params) → ⊥) }
{
    at == 0 && (local as usize) < op.params.len()
}

// Whether a local of references is dropped before the step at a place.
fn is_dropped(
    op: &OpDecl,
    steps: &[Step],
    local: u32,
    live: &Marks,
    brought: &Marks,
    at: usize,
) -> bool
    requires there { at < length steps.now }
    requires refers { is_reference (slice_get (op.now.params ++ op.now.vars) local) ≡ true }
    requires live { AreLive steps.now local live.now }
    requires brought { AreBrought steps.now local brought.now }
    ensures { MatchBool result (IsDroppedBefore op.now steps.now at local) (IsDroppedBefore op.now steps.now at local → ⊥) }
{
    is_open(steps, at)
        && !is_marked(live, at)
        && (is_marked(brought, at) || is_given(op, at, local))
}

// The places before which a local of references is dropped.
fn picked_places(
    alloc: Global,
    op: &OpDecl,
    steps: &[Step],
    local: u32,
    live: &Marks,
    brought: &Marks,
) -> Result<Marks, AllocError>
    requires refers { is_reference (slice_get (op.now.params ++ op.now.vars) local) ≡ true }
    requires live { AreLive steps.now local live.now }
    requires brought { AreBrought steps.now local brought.now }
    ensures { IfOk result (AreDropped op.now steps.now local) }
{
    let mut marks = Items::new(alloc);
    for at in 0..steps.len() {
        let is_picked = is_dropped(op, steps, local, live, brought, at);
        marks.push(is_picked)?;
    }
    Ok(marks)
}

// The places before which a local is dropped.
fn dropped_places(
    alloc: Global,
    op: &OpDecl,
    steps: &[Step],
    local: u32,
) -> Result<Marks, AllocError>
    ensures { IfOk result (AreDropped op.now steps.now local) }
{
    if !is_reference(op, local) {
        return Ok(Items::new(alloc));
    }
    let live = live_places(alloc, steps, local)?;
    let brought = brought_places(alloc, steps, local, &live)?;
    picked_places(alloc, op, steps, local, &live, &brought)
}

/// For each local of an operation the places before which it is dropped.
pub fn drop_table(
    alloc: Global,
    op: &OpDecl,
    steps: &[Step],
    count: u32,
) -> Result<Table, AllocError>
    requires { count ≡ length (op.now.params ++ op.now.vars) }
    ensures { IfOk result (IsTable op.now steps.now) }
{
    let mut table = Items::new(alloc);
    for local in 0..count {
        table.push(dropped_places(alloc, op, steps, local)?)?;
    }
    Ok(table)
}

//! The places to which a piece brings a local.

ghost use Rattle.std.specs.Prelude.{◌≡◌, ◌<◌, ◌≤◌, ◌+◌, ◌⊎◌, ℕ, Some, IfOk, MatchBool, MatchOption, false, true, length, slice_get};
ghost use Rattle.dl_live.specs.Dropped.{IsFilled, Brings, IsBrought, fills, is_open, is_joined};
ghost use Rattle.dl_live.specs.Marks.{AreLive, AreBrought, IsBegun, GoesOnAt, is_marked};

use crate::marks::{Marks, is_marked, mark, no_marks};
use dl_instr::{Step, is_use};
use std::alloc::{AllocError, Global};

/// Whether an open step stands at a place.
pub fn is_open(steps: &[Step], at: usize) -> bool
    ensures { result ≡ is_open (slice_get steps.now at) }
{
    match steps.get(at) {
        None => false,
        Some(step) => !is_use(step),
    }
}

// Whether a step stands at a place that is not open.
fn is_joined(steps: &[Step], at: usize) -> bool
    ensures { result ≡ is_joined (slice_get steps.now at) }
{
    match steps.get(at) {
        None => false,
        Some(step) => is_use(step),
    }
}

// Whether the step sets a local otherwise than by a drop.
fn fills(local: u32, step: &Step) -> bool
    ensures { result ≡ fills local step.now }
{
    match step {
        Step::Set { local: p, .. } => *p == local,
        _ => false,
    }
}

// The first step of the piece that a step stands in, if it stands in one. A piece of a module's code has three steps at most.
fn first_of(steps: &[Step], last: usize) -> Option<usize>
    requires { last < length steps.now }
    ensures { MatchOption result ((first : ℕ) → IsBegun steps.now first last → ⊥) (λ first. IsBegun steps.now first last) }
{
    if is_open(steps, last) {
        Some(last)
    } else if last == 0 {
        None
    } else {
        first_of(steps, last - 1)
    }
}

// Whether one of the steps from the first place to the last sets the local otherwise than by a drop.
fn is_filled(steps: &[Step], local: u32, first: usize, last: usize) -> bool
    requires { last < length steps.now }
    ensures { MatchBool result (IsFilled steps.now local first last) (IsFilled steps.now local first last → ⊥) }
{
    for at in first..last + 1 {
        if fills(local, &steps[at]) {
            return true;
        }
    }
    false
}

// Whether a piece that ends with the step at a place has the local live before it, or sets it otherwise than by a drop.
fn brings(steps: &[Step], local: u32, live: &Marks, last: usize) -> bool
    requires there { last < length steps.now }
    requires live { AreLive steps.now local live.now }
    ensures { MatchBool result (Brings steps.now local last) (Brings steps.now local last → ⊥) }
{
    if is_joined(steps, last + 1) {
        return false;
    }
    match first_of(steps, last) {
        None => false,
        Some(first) => is_marked(live, first) || is_filled(steps, local, first, last),
    }
}

// Marks the places that a path goes on at from the step at a place.
fn mark_next(steps: &[Step], at: usize, marks: &mut Marks)
    requires there { at < length steps.now }
    ensures same { length marks.new ≡ length marks.old }
    ensures marked { (to : ℕ) → GoesOnAt steps.now at to → to < length marks.old → is_marked marks.new to ≡ true }
    ensures kept { (to : ℕ) → is_marked marks.old to ≡ true → is_marked marks.new to ≡ true }
    ensures exact { (to : ℕ) → is_marked marks.new to ≡ true → (is_marked marks.old to ≡ true) ⊎ GoesOnAt steps.now at to }
{
    match &steps[at] {
        Step::Give { .. } => {}
        Step::Jump { place } => mark(marks, *place),
        Step::Test { place, .. } => {
            mark(marks, at + 1);
            mark(marks, *place);
        }
        _ => mark(marks, at + 1),
    }
}

/// The places to which a piece can go on that has the local live before it, or sets it otherwise than by a drop.
pub fn brought_places(
    alloc: Global,
    steps: &[Step],
    local: u32,
    live: &Marks,
) -> Result<Marks, AllocError>
    requires { AreLive steps.now local live.now }
    ensures { IfOk result (AreBrought steps.now local) }
{
    let mut marks = no_marks(alloc, steps.len())?;
    for last in 0..steps.len() {
        if brings(steps, local, live, last) {
            mark_next(steps, last, &mut marks);
        }
    }
    Ok(marks)
}

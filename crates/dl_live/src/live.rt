//! The places before which a local is live.

ghost use Rattle.std.specs.Prelude.{◌≡◌, ◌<◌, ◌≤◌, ◌+◌, ◌^◌, ℕ, Some, IfOk, MatchBool, false, true, length, slice_get};
ghost use Rattle.dl_live.specs.Marks.{GoesOnMarked, IsLiveBy, AllLive, IsSettled, AreLive, is_marked, unmarked};

use crate::marks::{Marks, is_marked, mark, no_marks};
use dl_instr::{Step, reads, sets};
use std::alloc::{AllocError, Global};

// Whether a path goes on from the step at a place to a marked place.
fn goes_on_marked(step: &Step, at: usize, marks: &Marks) -> bool
    requires { at + 1 < 2 ^ 64 }
    ensures { MatchBool result (GoesOnMarked step.now at marks.now) (GoesOnMarked step.now at marks.now → ⊥) }
{
    match step {
        Step::Give { .. } => false,
        Step::Jump { place } => is_marked(marks, *place),
        Step::Test { place, .. } => is_marked(marks, at + 1) || is_marked(marks, *place),
        _ => is_marked(marks, at + 1),
    }
}

// Whether the local is live before the step at a place by what is marked behind it.
fn is_live_by(step: &Step, local: u32, at: usize, marks: &Marks) -> bool
    requires { at + 1 < 2 ^ 64 }
    ensures { MatchBool result (IsLiveBy step.now local at marks.now) (IsLiveBy step.now local at marks.now → ⊥) }
{
    if reads(local, step) {
        return true;
    }
    if sets(local, step) {
        return false;
    }
    goes_on_marked(step, at, marks)
}

// Marks a place if the local is live before it by what is marked behind it. Whether it has become marked.
fn settle(steps: &[Step], local: u32, at: usize, marks: &mut Marks) -> bool
    requires there { at < length steps.now }
    requires same { length marks.old ≡ length steps.now }
    requires sound { AllLive steps.now local marks.old }
    ensures same { length marks.new ≡ length marks.old }
    ensures sound { AllLive steps.now local marks.new }
    ensures more { MatchBool result (unmarked marks.new < unmarked marks.old) ((marks.new ≡ marks.old) × IsSettled steps.now local marks.new at) }
{
    if is_marked(marks, at) {
        return false;
    }
    if !is_live_by(&steps[at], local, at, marks) {
        return false;
    }
    mark(marks, at);
    true
}

// Does so at each place, from the last to the first. Whether one has become marked.
fn sweep(steps: &[Step], local: u32, marks: &mut Marks) -> bool
    requires same { length marks.old ≡ length steps.now }
    requires sound { AllLive steps.now local marks.old }
    ensures same { length marks.new ≡ length marks.old }
    ensures sound { AllLive steps.now local marks.new }
    ensures more { MatchBool result (unmarked marks.new < unmarked marks.old) ((at : ℕ) → at < length steps.now → IsSettled steps.now local marks.new at) }
{
    let mut is_changed = false;
    let count = steps.len();
    for d in 0..count {
        if settle(steps, local, count - 1 - d, marks) {
            is_changed = true;
        }
    }
    is_changed
}

/// The places before which a local is live: on some path from there it is read before it is set. Sweeps over the steps until
/// nothing more becomes marked; a sweep goes backward, so that there are about as many sweeps as loops stand in one another.
pub fn live_places(alloc: Global, steps: &[Step], local: u32) -> Result<Marks, AllocError>
    ensures { IfOk result (AreLive steps.now local) }
{
    let mut marks = no_marks(alloc, steps.len())?;
    loop {
        if !sweep(steps, local, &mut marks) {
            return Ok(marks);
        }
    }
}

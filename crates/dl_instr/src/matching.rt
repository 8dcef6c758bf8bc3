//! Whether a code is one of a module: where its plain steps stand, and what stands between them.

ghost use Rattle.std.specs.Prelude.{◌≡◌, ◌<◌, ◌≤◌, ◌+◌, ◌-◌, ◌^◌, ◌↔◌, ℕ, suc, false, true, not, if◌then◌else◌, IsTrue, length, slice_get, MatchOption, MatchBool};
ghost use Rattle.dl_instr.specs.Code.{op_code};
ghost use Rattle.dl_instr.specs.Drops.{IsAddedDrop, IsWithDrops, IsCodeOf, IsReadFrom};
ghost use Rattle.dl_instr.specs.Jumps.{jump_of};
ghost use Rattle.dl_instr.specs.Matching.{IsTarget, Fits, IsNearest, IsLate, IsFront, IsStuck, IsJumpMoved, IsJumpWrong, AllAdded, IsMatched, jump_in, opened};
ghost use Rattle.dl_instr.specs.Shown.{shown};

use crate::code::Code;
use crate::liveness::{is_read_from, is_reference, is_use};
use crate::plain::{PlainStep, plain_len, plain_step};
use crate::same::{same_cond, same_expr, same_module};
use crate::steps::Step;
use dl_ir::{Expr, Module, OpDecl};

// Whether a plain step and a step are the same but for the places of their jumps.
fn same_step(plain: &PlainStep, step: &Step) -> bool
    ensures { IsTrue result ↔ (opened (shown plain.now) ≡ opened step.now) }
{
    match plain {
        PlainStep::Read { local, field } => match step {
            Step::Read { local: p, field: f } => local == p && field == f,
            _ => false,
        },
        PlainStep::Want => match step {
            Step::Want => true,
            _ => false,
        },
        PlainStep::Set { local, from } => match step {
            Step::Set { local: p, from: q } => local == p && from == q,
            _ => false,
        },
        PlainStep::Drop { local } => match step {
            Step::Drop { local: p } => local == p,
            _ => false,
        },
        PlainStep::Make { kind } => match step {
            Step::Make { kind: k } => kind == k,
            _ => false,
        },
        PlainStep::Eval { value } => match step {
            Step::Eval { value: e } => same_expr(value, e),
            _ => false,
        },
        PlainStep::Write {
            local,
            field,
            content,
        } => match step {
            Step::Write {
                local: p,
                field: f,
                content: q,
            } => local == p && field == f && content == q,
            _ => false,
        },
        PlainStep::Emit => match step {
            Step::Emit => true,
            _ => false,
        },
        PlainStep::Test { cond, is_turn, .. } => match step {
            Step::Test {
                cond: c,
                is_turn: t,
                ..
            } => is_turn == t && same_cond(cond, c),
            _ => false,
        },
        PlainStep::Jump { .. } => match step {
            Step::Jump { .. } => true,
            _ => false,
        },
        PlainStep::Give { value } => match step {
            Step::Give { value: e } => same_expr(value, e),
            _ => false,
        },
        PlainStep::GiveZero => match step {
            Step::Give { value: e } => same_expr(&Expr::Num(0), e),
            _ => false,
        },
    }
}

// Where a step jumps to.
fn jump_of(step: &Step) -> Option<usize>
    ensures { result ≡ jump_of step.now }
{
    match step {
        Step::Test { place, .. } => Some(*place),
        Step::Jump { place } => Some(*place),
        Step::Read { .. } => None,
        Step::Want => None,
        Step::Set { .. } => None,
        Step::Drop { .. } => None,
        Step::Make { .. } => None,
        Step::Eval { .. } => None,
        Step::Write { .. } => None,
        Step::Emit => None,
        Step::Give { .. } => None,
    }
}

// Where a plain step jumps to.
fn plain_jump_of(plain: &PlainStep) -> Option<usize>
    ensures { result ≡ jump_of (shown plain.now) }
{
    match plain {
        PlainStep::Test { place, .. } => Some(*place),
        PlainStep::Jump { place } => Some(*place),
        PlainStep::Read { .. } => None,
        PlainStep::Want => None,
        PlainStep::Set { .. } => None,
        PlainStep::Drop { .. } => None,
        PlainStep::Make { .. } => None,
        PlainStep::Eval { .. } => None,
        PlainStep::Write { .. } => None,
        PlainStep::Emit => None,
        PlainStep::Give { .. } => None,
        PlainStep::GiveZero => None,
    }
}

fn goes_to(jump: Option<usize>, place: usize) -> bool
    ensures { MatchBool result (jump ≡ Some place) (jump ≡ Some place → ⊥) }
{
    match jump {
        None => false,
        Some(goes) => goes == place,
    }
}

// Whether some step jumps to a place.
fn is_target(steps: &[Step], place: usize) -> bool
    ensures { MatchBool result (IsTarget steps.now place) (IsTarget steps.now place → ⊥) }
{
    for step in steps {
        if goes_to(jump_of(step), place) {
            return true;
        }
    }
    false
}

// Where a plain step of an operation jumps to.
fn plain_jump_at(op: &OpDecl, at: usize) -> Option<usize>
    requires { length (op_code op.now) < 2 ^ 64 }
    ensures { result ≡ jump_in (slice_get (op_code op.now) at) }
{
    match plain_step(op, at) {
        None => None,
        Some(plain) => plain_jump_of(&plain),
    }
}

// Whether some plain step jumps to a place.
fn is_plain_target(op: &OpDecl, count: usize, place: usize) -> bool
    requires { count ≡ length (op_code op.now) }
    ensures { MatchBool result (IsTarget (op_code op.now) place) (IsTarget (op_code op.now) place → ⊥) }
{
    for from in 0..count {
        if goes_to(plain_jump_at(op, from), place) {
            return true;
        }
    }
    false
}

fn agree(a: bool, b: bool) -> bool
    ensures { result ≡ (if a then b else not b) }
{
    if a { b } else { !b }
}

// Whether a plain step may stand at a place.
fn may_stand(op: &OpDecl, count: usize, steps: &[Step], i: usize, y: usize) -> bool
    requires counted { count ≡ length (op_code op.now) }
    requires plain { i < length (op_code op.now) }
    requires there { y < length steps.now }
    ensures { MatchBool result (Fits (op_code op.now) steps.now i y) (Fits (op_code op.now) steps.now i y → ⊥) }
{
    match plain_step(op, i) {
        None => false,
        Some(plain) => {
            if !same_step(&plain, &steps[y]) {
                return false;
            }
            let before = is_plain_target(op, count, i + 1);
            let after = is_target(steps, y + 1);
            agree(before, after)
        }
    }
}

// The last place below another where a plain step may stand.
fn nearest(op: &OpDecl, count: usize, steps: &[Step], i: usize, next: usize) -> Option<usize>
    requires counted { count ≡ length (op_code op.now) }
    requires plain { i < length (op_code op.now) }
    requires below { next ≤ length steps.now }
    ensures { MatchOption result ((y : ℕ) → y < next → Fits (op_code op.now) steps.now i y → ⊥) (IsNearest (op_code op.now) steps.now i next) }
{
    let mut y = next;
    while y > 0 {
        y -= 1;
        if may_stand(op, count, steps, i, y) {
            return Some(y);
        }
    }
    None
}

// The latest place of the plain step that is this number of steps before the end, counted from the end.
fn latest(op: &OpDecl, count: usize, steps: &[Step], behind: usize) -> Option<usize>
    requires counted { count ≡ length (op_code op.now) }
    requires few { behind ≤ length (op_code op.now) }
    ensures { MatchOption result (IsStuck (op_code op.now) steps.now) (IsLate (op_code op.now) steps.now behind) }
{
    let mut next = steps.len();
    for d in 0..behind {
        match nearest(op, count, steps, count - 1 - d, next) {
            None => return None,
            Some(x) => next = x,
        }
    }
    Some(next)
}

// Where a jump to a plain step goes.
fn front_of(op: &OpDecl, count: usize, steps: &[Step], place: usize) -> Option<usize>
    requires counted { count ≡ length (op_code op.now) }
    requires few { place < length (op_code op.now) }
    ensures { MatchOption result (IsStuck (op_code op.now) steps.now) (IsFront (op_code op.now) steps.now place) }
{
    if place == 0 {
        return Some(0);
    }
    match latest(op, count, steps, count - (place - 1)) {
        None => None,
        Some(x) => Some(x + 1),
    }
}

// Whether the jump of a plain step that stands at a place, if it has one, goes where it should.
fn jump_is_moved(op: &OpDecl, count: usize, steps: &[Step], i: usize, x: usize) -> bool
    requires counted { count ≡ length (op_code op.now) }
    requires plain { i < length (op_code op.now) }
    requires there { x < length steps.now }
    ensures { MatchBool result (IsJumpMoved (op_code op.now) steps.now i x) (IsJumpWrong (op_code op.now) steps.now i x) }
{
    match plain_jump_at(op, i) {
        None => true,
        Some(place) => match jump_of(&steps[x]) {
            None => true,
            Some(goes) => match front_of(op, count, steps, place) {
                None => false,
                Some(front) => front == goes,
            },
        },
    }
}

// Whether a step that may have been added stands at a place.
fn is_added(op: &OpDecl, steps: &[Step], at: usize) -> bool
    requires { at < length steps.now }
    ensures { MatchBool result (IsAddedDrop op.now steps.now at) (IsAddedDrop op.now steps.now at → ⊥) }
{
    match &steps[at] {
        Step::Drop { local } => {
            let is_apart = match steps.get(at + 1) {
                None => true,
                Some(next) => !is_use(next),
            };
            is_apart && is_reference(op, *local) && !is_read_from(steps, *local, at + 1)
        }
        _ => false,
    }
}

// Whether at each place between two stands a step that may have been added.
fn all_added(op: &OpDecl, steps: &[Step], from: usize, to: usize) -> bool
    requires { to ≤ length steps.now }
    ensures { MatchBool result (AllAdded op.now steps.now from to) (AllAdded op.now steps.now from to → ⊥) }
{
    for at in from..to {
        if !is_added(op, steps, at) {
            return false;
        }
    }
    true
}

// Whether steps are the plain steps of an operation with steps added. Each plain step is sought from the last to the first, as late as
// it can stand: of some equal drops one behind another the last is taken to be the plain one.
fn is_with_drops(op: &OpDecl, steps: &[Step]) -> bool
    ensures { MatchBool result (IsWithDrops op.now (op_code op.now) steps.now) (IsWithDrops op.now (op_code op.now) steps.now → ⊥) }
{
    let len = steps.len();
    match plain_len(op) {
        None => false,
        Some(count) => {
            if len < count {
                return false;
            }
            is_matched(op, count, steps)
        }
    }
}

// Whether the place of the last step of the plain code is the last place.
fn ends_right(behind: usize, x: usize, next: usize) -> bool
    requires { x < next }
    ensures { MatchBool result (behind ≡ 0 → x + 1 ≡ next) ((behind ≡ 0) × (x + 1 ≡ next → ⊥)) }
{
    behind != 0 || x + 1 == next
}

fn is_matched(op: &OpDecl, count: usize, steps: &[Step]) -> bool
    requires { count ≡ length (op_code op.now) }
    ensures { MatchBool result (IsWithDrops op.now (op_code op.now) steps.now) (IsWithDrops op.now (op_code op.now) steps.now → ⊥) }
{
    let mut next = steps.len();
    for d in 0..count {
        let i = count - 1 - d;
        match nearest(op, count, steps, i, next) {
            None => return false,
            Some(x) => {
                if !ends_right(d, x, next) {
                    return false;
                }
                if !all_added(op, steps, x + 1, next) {
                    return false;
                }
                if !jump_is_moved(op, count, steps, i, x) {
                    return false;
                }
                next = x;
            }
        }
    }
    all_added(op, steps, 0, next)
}

/// Whether a code is one of a module: its plain code, or that code with steps added that drop references not used again. Takes no
/// memory; the time grows with about the fourth power of the length of the longest operation, so it is for tests on short operations.
pub fn is_code_of(source: &Module, code: &Code) -> bool
    ensures { IsTrue result ↔ IsCodeOf source.now code.now }
{
    if !same_module(&code.source, source) {
        return false;
    }
    let ops = source.ops.as_slice();
    if code.ops.len() != ops.len() {
        return false;
    }
    for (i, op) in ops.iter().enumerate() {
        match code.ops.get(i) {
            None => return false,
            Some(steps) => {
                if !is_with_drops(op, steps.as_slice()) {
                    return false;
                }
            }
        }
    }
    true
}

//! Whether a local is read again before it is set, on some path through the steps of an operation.

ghost use Rattle.std.specs.Prelude.{◌≡◌, ◌<◌, ◌+◌, ◌++◌, ◌∷◌, [], ℕ, false, true, length, slice_get, MatchBool, MatchOption};
ghost use Rattle.dl_instr.specs.Drops.{IsReadFrom, reads, sets, is_use, is_kind, is_reference, is_side};
ghost use Rattle.dl_instr.specs.Paths.{places_of, is_among, IsNew, IsClosed, IsReadFromSome, IsReadFromNone, AllClosed, SomeNew, SomeReads, NoneReads};

use crate::steps::{Content, Origin, Step};
use dl_ir::{Cond, OpDecl, RefSide, Ty};

// Places that paths have come to, the newest first.
#[derive(Drop)]
pub(crate) enum Reached<'a> {
    Nowhere,
    At { place: usize, rest: &'a Reached<'a> },
}

fn is_side(local: u32, side: RefSide) -> bool
    ensures { result ≡ is_side local side }
{
    match side {
        RefSide::Null => false,
        RefSide::Local(p) => p == local,
    }
}

/// Whether a step reads the reference that a local holds.
pub fn reads(local: u32, step: &Step) -> bool
    ensures { result ≡ reads local step.now }
{
    match step {
        Step::Read { local: q, .. } => *q == local,
        Step::Set { from, .. } => match from {
            Origin::Hand => false,
            Origin::Local(q) => *q == local,
        },
        Step::Write {
            local: q,
            content,
            ..
        } => match content {
            Content::Number => *q == local,
            Content::Local(p) => *q == local || *p == local,
            Content::Null => *q == local,
        },
        Step::Test { cond, .. } => match cond {
            Cond::Ints { .. } => false,
            Cond::Refs { left, right, .. } => is_side(local, *left) || is_side(local, *right),
        },
        Step::Want => false,
        Step::Drop { .. } => false,
        Step::Make { .. } => false,
        Step::Eval { .. } => false,
        Step::Emit => false,
        Step::Jump { .. } => false,
        Step::Give { .. } => false,
    }
}

/// Whether a step sets a local, or drops it.
pub fn sets(local: u32, step: &Step) -> bool
    ensures { result ≡ sets local step.now }
{
    match step {
        Step::Set { local: p, .. } => *p == local,
        Step::Drop { local: p } => *p == local,
        Step::Read { .. } => false,
        Step::Want => false,
        Step::Make { .. } => false,
        Step::Eval { .. } => false,
        Step::Write { .. } => false,
        Step::Emit => false,
        Step::Test { .. } => false,
        Step::Jump { .. } => false,
        Step::Give { .. } => false,
    }
}

/// Whether a step uses what the hand holds.
pub fn is_use(step: &Step) -> bool
    ensures { result ≡ is_use step.now }
{
    match step {
        Step::Want => true,
        Step::Set { from, .. } => match from {
            Origin::Hand => true,
            Origin::Local(_) => false,
        },
        Step::Write { .. } => true,
        Step::Emit => true,
        Step::Read { .. } => false,
        Step::Drop { .. } => false,
        Step::Make { .. } => false,
        Step::Eval { .. } => false,
        Step::Test { .. } => false,
        Step::Jump { .. } => false,
        Step::Give { .. } => false,
    }
}

fn is_kind(ty: Ty) -> bool
    ensures { result ≡ is_kind ty }
{
    match ty {
        Ty::Int => false,
        Ty::Of(_) => true,
    }
}

/// Whether a local is declared and holds references.
pub fn is_reference(op: &OpDecl, local: u32) -> bool
    ensures { result ≡ is_reference (slice_get (op.now.params ++ op.now.vars) local) }
{
    let local = local as usize;
    let params = op.params.len();
    let declared = if local < params {
        op.params.get(local)
    } else {
        op.vars.get(local - params)
    };
    match declared {
        None => false,
        Some(declared) => is_kind(declared.ty),
    }
}

fn contains(reached: &Reached, place: usize) -> bool
    ensures { result ≡ is_among place (places_of reached.now) }
{
    match reached {
        Reached::Nowhere => false,
        Reached::At { place: other, rest } => *other == place || contains(rest, place),
    }
}

// A place, if it is one of the steps and not reached yet.
fn new_place(steps: &[Step], place: usize, reached: &Reached) -> Option<usize>
    ensures { MatchOption result (place < length steps.now → is_among place (places_of reached.now) ≡ true) (λ new. (new ≡ place) × (place < length steps.now) × (is_among place (places_of reached.now) ≡ false)) }
{
    if place < steps.len() && !contains(reached, place) {
        Some(place)
    } else {
        None
    }
}

// A place not reached yet to which a path goes on from a place without setting the local there.
fn new_from(steps: &[Step], local: u32, at: usize, reached: &Reached) -> Option<usize>
    ensures { MatchOption result (IsClosed steps.now local (places_of reached.now) at) (IsNew steps.now local (places_of reached.now) at) }
{
    let step = steps.get(at)?;
    if sets(local, step) {
        return None;
    }
    match step {
        Step::Give { .. } => None,
        Step::Jump { place } => new_place(steps, *place, reached),
        Step::Test { place, .. } => match new_place(steps, at + 1, reached) {
            Some(new) => Some(new),
            None => new_place(steps, *place, reached),
        },
        _ => new_place(steps, at + 1, reached),
    }
}

// A place not reached yet to which a path goes on from one of some places.
fn next_place<'a>(
    steps: &[Step],
    local: u32,
    some: &Reached<'a>,
    reached: &Reached<'a>,
) -> Option<usize>
    ensures { MatchOption result (AllClosed steps.now local (places_of some.now) (places_of reached.now)) (SomeNew steps.now local (places_of some.now) (places_of reached.now)) }
{
    match some {
        Reached::Nowhere => None,
        Reached::At { place, rest } => match new_from(steps, local, *place, reached) {
            Some(new) => Some(new),
            None => next_place(steps, local, rest, reached),
        },
    }
}

// Whether the step at a place reads the local.
fn reads_at(steps: &[Step], local: u32, at: usize) -> bool
    ensures { MatchBool result (SomeReads steps.now local (at ∷ [])) (NoneReads steps.now local (at ∷ [])) }
{
    match steps.get(at) {
        None => false,
        Some(step) => reads(local, step),
    }
}

// Whether a step at one of the places reads the local.
fn any_reads(steps: &[Step], local: u32, reached: &Reached) -> bool
    ensures { MatchBool result (SomeReads steps.now local (places_of reached.now)) (NoneReads steps.now local (places_of reached.now)) }
{
    match reached {
        Reached::Nowhere => false,
        Reached::At { place, rest } => {
            reads_at(steps, local, *place) || any_reads(steps, local, rest)
        }
    }
}

// Whether from one of the places, on some path, the local is read before it is set. It goes as deep as there are places on such paths.
fn is_read_from_some(steps: &[Step], local: u32, reached: &Reached) -> bool
    ensures { MatchBool result (IsReadFromSome steps.now local (places_of reached.now)) (IsReadFromNone steps.now local (places_of reached.now)) }
{
    if any_reads(steps, local, reached) {
        return true;
    }
    match next_place(steps, local, reached, reached) {
        None => false,
        Some(place) => {
            let more = Reached::At {
                place,
                rest: &*reached,
            };
            is_read_from_some(steps, local, &more)
        }
    }
}

// Whether on some path from a place the local is read before it is set.
pub(crate) fn is_read_from(steps: &[Step], local: u32, at: usize) -> bool
    ensures { MatchBool result (IsReadFrom steps.now local at) (IsReadFrom steps.now local at → ⊥) }
{
    let start = Reached::At {
        place: at,
        rest: &Reached::Nowhere,
    };
    is_read_from_some(steps, local, &start)
}

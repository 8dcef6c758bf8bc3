//! The plain step at a place, found in the module without making its code.

ghost use Rattle.std.specs.Prelude.{◌≡◌, ◌<◌, ◌≤◌, ◌+◌, ◌^◌, ◌∷◌, [], false, true, length, slice_get, MatchOption};
ghost use Rattle.std.specs.Option.{option_map};
ghost use Rattle.dl_instr.specs.Code.{stmt_code, block_code, op_code};
ghost use Rattle.dl_instr.specs.Shown.{shown};
ghost use Rattle.dl_instr.specs.declared.steps.Step.TheVariants.{Read, Want, Set, Write, Test};
ghost use Rattle.dl_instr.specs.declared.steps.Origin.TheVariants.{Hand, Local};

use crate::steps::{Content, Origin};
use dl_ir::{Block, Cond, Expr, OpDecl, Stmt};

// A step of plain code, with the expressions of the module that it comes from.
#[derive(Clone, Copy)]
pub(crate) enum PlainStep<'a> {
    Read {
        local: u32,
        field: u32,
    },
    Want,
    Set {
        local: u32,
        from: Origin,
    },
    Drop {
        local: u32,
    },
    Make {
        kind: u32,
    },
    Eval {
        value: &'a Expr,
    },
    Write {
        local: u32,
        field: u32,
        content: Content,
    },
    Emit,
    Test {
        cond: &'a Cond,
        is_turn: bool,
        place: usize,
    },
    Jump {
        place: usize,
    },
    Give {
        value: &'a Expr,
    },
    // `give 0`, behind the last statement
    GiveZero,
}

// The place behind a block, where a test stands before the block.
#[cycle(ends)]
fn inner_end(block: &Block, test: usize) -> Option<usize>
    ensures { MatchOption result (2 ^ 64 ≤ test + 1 + length (block_code block.now (test + 1))) (λ end. end ≡ test + 1 + length (block_code block.now (test + 1))) }
{
    match test.checked_add(1) {
        None => None,
        Some(first) => block_end(block, first),
    }
}

// The place behind a statement, whose first step stands at a place.
#[cycle(ends)]
fn stmt_end(s: &Stmt, first: usize) -> Option<usize>
    ensures { MatchOption result (2 ^ 64 ≤ first + length (stmt_code s.now first)) (λ end. end ≡ first + length (stmt_code s.now first)) }
{
    match s {
        Stmt::Copy { .. } => first.checked_add(1),
        Stmt::Null { .. } => first.checked_add(1),
        Stmt::Return { .. } => first.checked_add(1),
        Stmt::SetInt { .. } => first.checked_add(2),
        Stmt::Load { .. } => first.checked_add(2),
        Stmt::Store { .. } => first.checked_add(2),
        Stmt::New { .. } => first.checked_add(2),
        Stmt::Emit { .. } => first.checked_add(2),
        Stmt::Follow { .. } => first.checked_add(3),
        Stmt::Link { .. } => first.checked_add(3),
        Stmt::Cut { .. } => first.checked_add(3),
        Stmt::If { yes, no, .. } => match inner_end(yes, first) {
            None => None,
            Some(end) => {
                if no.is_empty() {
                    Some(end)
                } else {
                    inner_end(no, end)
                }
            }
        },
        Stmt::While { body, .. } => match inner_end(body, first) {
            None => None,
            Some(end) => end.checked_add(1),
        },
    }
}

// The place behind a block.
#[cycle(ends)]
fn block_end(block: &Block, first: usize) -> Option<usize>
    ensures { MatchOption result (2 ^ 64 ≤ first + length (block_code block.now first)) (λ end. end ≡ first + length (block_code block.now first)) }
{
    let mut place = first;
    for s in block.as_slice() {
        match stmt_end(s, place) {
            None => return None,
            Some(end) => place = end,
        }
    }
    Some(place)
}

// The number of the plain steps of an operation.
pub(crate) fn plain_len(op: &OpDecl) -> Option<usize>
    ensures { MatchOption result (2 ^ 64 ≤ length (op_code op.now)) (λ len. len ≡ length (op_code op.now)) }
{
    match block_end(&op.body, 0) {
        None => None,
        Some(end) => end.checked_add(1),
    }
}

// One of two steps.
fn of_two<'a>(at: usize, a: PlainStep<'a>, b: PlainStep<'a>) -> Option<PlainStep<'a>>
    ensures { option_map shown result ≡ slice_get (shown a.entry ∷ shown b.entry ∷ []) at }
{
    match at {
        0 => Some(a),
        1 => Some(b),
        _ => None,
    }
}

fn of_one(at: usize, a: PlainStep<'_>) -> Option<PlainStep<'_>>
    ensures { option_map shown result ≡ slice_get (shown a.entry ∷ []) at }
{
    match at {
        0 => Some(a),
        _ => None,
    }
}

// The step at a place of a `read` and its `want`, and a step that uses the reference.
fn of_read<'a>(at: usize, local: u32, field: u32, last: PlainStep<'a>) -> Option<PlainStep<'a>>
    ensures { option_map shown result ≡ slice_get (Read local field ∷ Want ∷ shown last.entry ∷ []) at }
{
    match at {
        0 => Some(PlainStep::Read { local, field }),
        1 => Some(PlainStep::Want),
        2 => Some(last),
        _ => None,
    }
}

// A `set` of what the hand holds.
fn set_hand<'a>(local: u32) -> PlainStep<'a>
    ensures { shown result ≡ Set local Hand }
{
    PlainStep::Set {
        local,
        from: Origin::Hand,
    }
}

fn read<'a>(local: u32, field: u32) -> PlainStep<'a>
    ensures { shown result ≡ Read local field }
{
    PlainStep::Read { local, field }
}

fn copy<'a>(local: u32, other: u32) -> PlainStep<'a>
    ensures { shown result ≡ Set local (Local other) }
{
    PlainStep::Set {
        local,
        from: Origin::Local(other),
    }
}

fn test(cond: &Cond, is_turn: bool, place: usize) -> PlainStep<'_>
    ensures { shown result ≡ Test cond.now is_turn place }
{
    PlainStep::Test {
        cond,
        is_turn,
        place,
    }
}

// A `write` into a field.
fn write<'a>(local: u32, field: u32, content: Content) -> PlainStep<'a>
    ensures { shown result ≡ Write local field content }
{
    PlainStep::Write {
        local,
        field,
        content,
    }
}

// The step of a statement that is this far behind its first one.
#[cycle(finds)]
fn stmt_step<'a>(s: &'a Stmt, first: usize, at: usize) -> Option<PlainStep<'a>>
    requires { first + length (stmt_code s.now first) < 2 ^ 64 }
    ensures { option_map shown result ≡ slice_get (stmt_code s.now first) at }
{
    match s {
        Stmt::SetInt { x, e } => of_two(at, PlainStep::Eval { value: e }, set_hand(*x)),
        Stmt::Load { x, p, f } => of_two(at, read(*p, *f), set_hand(*x)),
        Stmt::Store { p, f, e } => {
            let last = write(*p, *f, Content::Number);
            of_two(at, PlainStep::Eval { value: e }, last)
        }
        Stmt::Copy { p, q } => of_one(at, copy(*p, *q)),
        Stmt::Null { p } => of_one(at, PlainStep::Drop { local: *p }),
        Stmt::Follow { p, q, f } => of_read(at, *q, *f, set_hand(*p)),
        Stmt::New { p, kind } => of_two(at, PlainStep::Make { kind: *kind }, set_hand(*p)),
        Stmt::Link { q, f, p } => of_read(at, *q, *f, write(*q, *f, Content::Local(*p))),
        Stmt::Cut { q, f } => of_read(at, *q, *f, write(*q, *f, Content::Null)),
        Stmt::Emit { e } => of_two(at, PlainStep::Eval { value: e }, PlainStep::Emit),
        Stmt::Return { e } => of_one(at, PlainStep::Give { value: e }),
        Stmt::If { c, yes, no } => {
            let end = inner_end(yes, first)?;
            if at == 0 {
                let place = if no.is_empty() { end } else { end + 1 };
                Some(test(c, false, place))
            } else if at < end - first {
                block_step(yes, first + 1, at - 1)
            } else if no.is_empty() {
                None
            } else {
                let last = inner_end(no, end)?;
                if at == end - first {
                    Some(PlainStep::Jump { place: last })
                } else {
                    block_step(no, end + 1, at - (end - first) - 1)
                }
            }
        }
        Stmt::While { c, body } => {
            let end = inner_end(body, first)?;
            if at == 0 {
                Some(test(c, true, end + 1))
            } else if at < end - first {
                block_step(body, first + 1, at - 1)
            } else if at == end - first {
                Some(PlainStep::Jump { place: first })
            } else {
                None
            }
        }
    }
}

// The step of a block that is this far behind its first one.
#[cycle(finds)]
fn block_step<'a>(block: &'a Block, first: usize, at: usize) -> Option<PlainStep<'a>>
    requires { first + length (block_code block.now first) < 2 ^ 64 }
    ensures { option_map shown result ≡ slice_get (block_code block.now first) at }
{
    let mut place = first;
    let mut left = at;
    for s in block.as_slice() {
        let end = stmt_end(s, place)?;
        let count = end - place;
        if left < count {
            return stmt_step(s, place, left);
        }
        left -= count;
        place = end;
    }
    None
}

// The plain step of an operation at a place.
pub(crate) fn plain_step(op: &OpDecl, at: usize) -> Option<PlainStep<'_>>
    requires { length (op_code op.now) < 2 ^ 64 }
    ensures { option_map shown result ≡ slice_get (op_code op.now) at }
{
    let end = block_end(&op.body, 0)?;
    if at < end {
        block_step(&op.body, 0, at)
    } else if at == end {
        Some(PlainStep::GiveZero)
    } else {
        None
    }
}

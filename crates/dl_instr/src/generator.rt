//! The plain code of a module, made statement by statement.

ghost use Rattle.std.specs.Prelude.{◌≡◌, List, [], ◌∷◌, ◌++◌, ◌<◌, IfOk, OnOk, length, slice_set};
ghost use Rattle.dl_instr.specs.Code.{stmt_code, block_code, op_code, code, if_code, tested, skipped};
ghost use Rattle.dl_instr.specs.declared.steps.Step.{Step};
ghost use Rattle.dl_instr.specs.declared.steps.Step.TheVariants.{Read, Want, Set, Eval, Write, Test};
ghost use Rattle.dl_instr.specs.declared.steps.Origin.TheVariants.{Hand, Local};

use crate::code::Code;
use crate::copies::{copy_cond, copy_expr, copy_module};
use crate::steps::{Content, Origin, Step, Steps};
use dl_ir::{Block, Cond, Expr, Module, OpDecl, Stmt};
use sqlite_items::Items;
use std::alloc::{AllocError, Global};

fn read(local: u32, field: u32) -> Step
    ensures { result ≡ Read local field }
{
    Step::Read { local, field }
}

// The local gets what the hand holds.
fn set(local: u32) -> Step
    ensures { result ≡ Set local Hand }
{
    Step::Set {
        local,
        from: Origin::Hand,
    }
}

fn copy(local: u32, other: u32) -> Step
    ensures { result ≡ Set local (Local other) }
{
    Step::Set {
        local,
        from: Origin::Local(other),
    }
}

fn write(local: u32, field: u32, content: Content) -> Step
    ensures { result ≡ Write local field content }
{
    Step::Write {
        local,
        field,
        content,
    }
}

fn push_two(steps: &mut Steps, first: Step, second: Step) -> Result<(), AllocError>
    ensures { OnOk result (steps.new ≡ steps.old ++ first ∷ second ∷ []) }
{
    steps.push(first)?;
    steps.push(second)
}

// Adds the reading of a field, whose target is held then, and a step that uses it.
fn push_read(steps: &mut Steps, local: u32, field: u32, last: Step) -> Result<(), AllocError>
    ensures { OnOk result (steps.new ≡ steps.old ++ Read local field ∷ Want ∷ last ∷ []) }
{
    steps.push(read(local, field))?;
    push_two(steps, Step::Want, last)
}

// Adds the evaluation of an expression, and a step that uses the value.
fn push_eval(alloc: Global, steps: &mut Steps, value: &Expr, last: Step) -> Result<(), AllocError>
    ensures { OnOk result (steps.new ≡ steps.old ++ Eval value.now ∷ last ∷ []) }
{
    let value = copy_expr(alloc, value)?;
    push_two(steps, Step::Eval { value }, last)
}

// Puts a test in the place of a step, which goes on behind the last step where the condition is false.
fn put_test(
    alloc: Global,
    steps: &mut Steps,
    at: usize,
    cond: &Cond,
    is_turn: bool,
) -> Result<(), AllocError>
    requires { at < length steps.old }
    ensures { OnOk result (steps.new ≡ slice_set steps.old at (Test cond.now is_turn (length steps.old))) }
{
    let place = steps.len();
    let cond = copy_cond(alloc, cond)?;
    let test = Step::Test {
        cond,
        is_turn,
        place,
    };
    steps.set(at, test);
    Ok(())
}

/// Adds the steps of a statement.
#[cycle(statements)]
fn add_stmt(alloc: Global, steps: &mut Steps, s: &Stmt) -> Result<(), AllocError>
    ensures { OnOk result (steps.new ≡ steps.old ++ stmt_code s.now (length steps.old)) }
{
    match s {
        Stmt::SetInt { x, e } => push_eval(alloc, steps, e, set(*x)),
        Stmt::Load { x, p, f } => push_two(steps, read(*p, *f), set(*x)),
        Stmt::Store { p, f, e } => push_eval(alloc, steps, e, write(*p, *f, Content::Number)),
        Stmt::Copy { p, q } => steps.push(copy(*p, *q)),
        Stmt::Null { p } => steps.push(Step::Drop { local: *p }),
        Stmt::Follow { p, q, f } => push_read(steps, *q, *f, set(*p)),
        Stmt::New { p, kind } => push_two(steps, Step::Make { kind: *kind }, set(*p)),
        Stmt::Link { q, f, p } => push_read(steps, *q, *f, write(*q, *f, Content::Local(*p))),
        Stmt::Cut { q, f } => push_read(steps, *q, *f, write(*q, *f, Content::Null)),
        Stmt::If { c, yes, no } => {
            if no.is_empty() {
                return add_if(alloc, steps, c, yes);
            }
            add_tested(alloc, steps, c, false, yes, Step::Want)?;
            add_other(alloc, steps, no)
        }
        Stmt::While { c, body } => {
            let place = steps.len();
            add_tested(alloc, steps, c, true, body, Step::Jump { place })
        }
        Stmt::Emit { e } => push_eval(alloc, steps, e, Step::Emit),
        Stmt::Return { e } => {
            let value = copy_expr(alloc, e)?;
            steps.push(Step::Give { value })
        }
    }
}

// Adds the steps of the statements of a block, one behind another.
#[cycle(statements)]
fn add_block(alloc: Global, steps: &mut Steps, block: &Block) -> Result<(), AllocError>
    ensures { OnOk result (steps.new ≡ steps.old ++ block_code block.now (length steps.old)) }
{
    for s in block.as_slice() {
        add_stmt(alloc, steps, s)?;
    }
    Ok(())
}

// Adds a test, and the block that it guards. A step stands in for the test until its place is known.
#[cycle(statements)]
fn add_if(alloc: Global, steps: &mut Steps, cond: &Cond, block: &Block) -> Result<(), AllocError>
    ensures { OnOk result (steps.new ≡ steps.old ++ if_code cond.now (block_code block.now) (length steps.old)) }
{
    let test = steps.len();
    steps.push(Step::Want)?;
    add_block(alloc, steps, block)?;
    put_test(alloc, steps, test, cond, false)
}

// Adds a test, the block that it guards, and a last step.
#[cycle(statements)]
fn add_tested(
    alloc: Global,
    steps: &mut Steps,
    cond: &Cond,
    is_turn: bool,
    block: &Block,
    last: Step,
) -> Result<(), AllocError>
    ensures { OnOk result (steps.new ≡ steps.old ++ tested cond.now is_turn (block_code block.now) last (length steps.old)) }
{
    let test = steps.len();
    steps.push(Step::Want)?;
    add_block(alloc, steps, block)?;
    steps.push(last)?;
    put_test(alloc, steps, test, cond, is_turn)
}

// Adds a block behind a step that stands in for the jump over it.
#[cycle(statements)]
fn add_other(alloc: Global, steps: &mut Steps, block: &Block) -> Result<(), AllocError>
    requires { 0 < length steps.old }
    ensures { (front : List Step) → (last : Step) → steps.old ≡ front ++ last ∷ [] → OnOk result (steps.new ≡ front ++ skipped (block_code block.now) (length steps.old)) }
{
    let jump = steps.len() - 1;
    add_block(alloc, steps, block)?;
    let place = steps.len();
    steps.set(jump, Step::Jump { place });
    Ok(())
}

// The steps of an operation.
fn op_steps(alloc: Global, op: &OpDecl) -> Result<Steps, AllocError>
    ensures { IfOk result (λ steps. steps ≡ op_code op.now) }
{
    let mut steps = Items::new(alloc);
    add_block(alloc, &mut steps, &op.body)?;
    let value = Expr::Num(0);
    steps.push(Step::Give { value })?;
    Ok(steps)
}

/// The code of a module.
pub fn instrument(alloc: Global, source: &Module) -> Result<Code, AllocError>
    ensures { IfOk result (λ made. made ≡ code source.now) }
{
    let mut ops = Items::new(alloc);
    for op in source.ops.as_slice() {
        ops.push(op_steps(alloc, op)?)?;
    }
    let source = copy_module(alloc, source)?;
    Ok(Code { source, ops })
}

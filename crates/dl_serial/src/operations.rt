//! The operation of one call.

ghost use Rattle.std.specs.Prelude.{◌≡◌, ◌+◌, ◌<◌, ◌≤◌, ℤ, IfOk, OnOk, map};
ghost use Rattle.std.specs.List.{zip};
ghost use Rattle.std.specs.FinMap as finite;
ghost use Rattle.dl_ir.specs.declared.modules.LocalDecl.{LocalDecl};
ghost use Rattle.dl_ir.specs.CallForms.{AllFit, IsCallOf};
ghost use Rattle.dl_ir.specs.Checked.{IsChecked};
ghost use Rattle.dl_ir.specs.Heap.{HasStart, IsHeapOf, blank};
ghost use Rattle.dl_meaning.specs.FirstStates.{HasTicketsBelow};
ghost use Rattle.dl_serial.specs.Arguments.{CanHold, AllHeld};
ghost use Rattle.dl_serial.specs.Growth.{Grows};
ghost use Rattle.dl_serial.specs.Rooms.{allocs_of};
ghost use Rattle.dl_shape.specs.Operation.{argument_value as value_given, first_locals as locals_first, body_outcome, result_of, operated};

use crate::frames::{Frame, Task};
use crate::run::run_block;
use dl_ir::{Answer, Call, Emits, End, Heap, LocalDecl, Module, Name, OpDecl, Ty, Value};
use dl_shape::settle;
use std::alloc::{AllocError, Global};
use std::mem::replace;

/// Runs the operation of a call, with a ticket that names what it makes, and settles the heap. Memory is wanting too
/// where the heap has no room for as many objects as the operation may make. The heap is spent then: it is of no use but
/// to be dropped.
pub fn run_op(
    alloc: Global,
    source: &Module,
    heap: &mut Heap,
    ticket: u64,
    call: &Call,
) -> Result<Answer, AllocError>
    requires checked { IsChecked source.now }
    requires of_module { IsCallOf source.now call.now }
    requires heap { IsHeapOf source.now heap.old.objects }
    requires below { HasTicketsBelow ticket heap.old.objects }
    ensures answer { IfOk result (λ answer. answer ≡ (operated source.now heap.old.objects ticket call.now).answer) }
    ensures left { OnOk result (heap.new ≡ record heap.old { objects = (operated source.now heap.old.objects ticket call.now).objects }) }
    ensures heap { OnOk result (IsHeapOf source.now heap.new.objects) }
    ensures below { OnOk result (HasTicketsBelow (ticket + 1) heap.new.objects) }
    ensures grows { OnOk result (Grows heap.old.objects heap.new.objects 0 (allocs_of source.now call.now)) }
{
    run_op_in(alloc, source, heap, ticket, call, &mut Vec::new(alloc))
}

/// Runs the operation of a call as `run_op` does, with the memory of the last operation's locals, which it leaves for the
/// next.
pub fn run_op_in(
    alloc: Global,
    source: &Module,
    heap: &mut Heap,
    ticket: u64,
    call: &Call,
    memory: &mut Vec<Value>,
) -> Result<Answer, AllocError>
    requires checked { IsChecked source.now }
    requires of_module { IsCallOf source.now call.now }
    requires heap { IsHeapOf source.now heap.old.objects }
    requires below { HasTicketsBelow ticket heap.old.objects }
    ensures answer { IfOk result (λ answer. answer ≡ (operated source.now heap.old.objects ticket call.now).answer) }
    ensures left { OnOk result (heap.new ≡ record heap.old { objects = (operated source.now heap.old.objects ticket call.now).objects }) }
    ensures heap { OnOk result (IsHeapOf source.now heap.new.objects) }
    ensures below { OnOk result (HasTicketsBelow (ticket + 1) heap.new.objects) }
    ensures grows { OnOk result (Grows heap.old.objects heap.new.objects 0 (allocs_of source.now call.now)) }
{
    match source.ops.get(call.op as usize) {
        Some(op) if heap.has_room_for(op.allocs as usize) => {
            let args = call.args.as_slice();
            run_body(alloc, source, heap, ticket, op, args, memory)
        }
        Some(_) => Err(AllocError),
        None => unreachable!(),
    }
}

// Runs the body of an operation, and settles the heap.
fn run_body(
    alloc: Global,
    source: &Module,
    heap: &mut Heap,
    ticket: u64,
    op: &OpDecl,
    args: &[i64],
    memory: &mut Vec<Value>,
) -> Result<Answer, AllocError>
    requires start { HasStart source.now }
    requires fits { AllFit source.now op.now.params args.now }
    requires ticket { 0 < ticket }
    requires room { finite.len heap.old.objects + op.now.allocs ≤ heap.old.room }
    ensures answer { IfOk result (λ answer. answer ≡ (result_of (body_outcome source.now heap.old.objects ticket args.now op.now)).answer) }
    ensures left { OnOk result (heap.new ≡ record heap.old { objects = (result_of (body_outcome source.now heap.old.objects ticket args.now op.now)).objects }) }
    ensures grows { OnOk result (Grows heap.old.objects heap.new.objects 0 op.now.allocs) }
{
    let mut frame = Frame {
        locals: first_locals(replace(memory, Vec::new(alloc)), op, args)?,
        turns: op.fuel,
        made: 0,
        emitted: Emits::new(),
        end: None,
    };
    let task = Task {
        ticket,
        allocs: op.allocs,
    };
    run_block(source, task, &op.body, &mut frame, heap);
    let breach = settle(heap);
    *memory = frame.locals;
    Ok(Answer {
        end: frame.end.unwrap_or(End::Ok(0)),
        breach,
        emitted: frame.emitted,
    })
}

// The locals with which an operation begins, in memory of others: its arguments, then its vars.
fn first_locals(memory: Vec<Value>, op: &OpDecl, args: &[i64]) -> Result<Vec<Value>, AllocError>
    requires { AllHeld op.now.params args.now }
    ensures { IfOk result (λ locals. locals.items ≡ locals_first op.now args.now) }
{
    let mut locals = arguments_given(memory, op.params.as_slice(), args)?;
    for var in op.vars.as_slice() {
        locals.push(first_value(var.ty))?;
    }
    Ok(locals)
}

// The values of arguments for parameters, in memory of others.
fn arguments_given(
    memory: Vec<Value>,
    params: &[LocalDecl],
    args: &[i64],
) -> Result<Vec<Value>, AllocError>
    requires { AllHeld params.now args.now }
    ensures { IfOk result (λ locals. locals.items ≡ map (λ (given : LocalDecl × ℤ). value_given given.0.ty given.1) (zip params.now args.now)) }
{
    let mut locals = memory;
    locals.clear();
    for (at, param) in params.iter().enumerate() {
        locals.push(argument_value(param.ty, args[at]))?;
    }
    Ok(locals)
}

// The value of an argument for a parameter of a type.
fn argument_value(ty: Ty, argument: i64) -> Value
    requires { CanHold ty argument }
    ensures { result ≡ value_given ty argument }
{
    match ty {
        Ty::Int => Value::Int(argument),
        Ty::Of(_) => Value::Ref(Some(Name {
            ticket: 0,
            index: argument as u32,
        })),
    }
}

// The value with which a var of a type begins.
fn first_value(ty: Ty) -> Value
    ensures { result ≡ blank ty }
{
    match ty {
        Ty::Int => Value::Int(0),
        Ty::Of(_) => Value::Ref(None),
    }
}

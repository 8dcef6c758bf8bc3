// A call is put into a caller's hand, and its operation enters.
ghost use Rattle.std.specs.Prelude.{◌≡◌, ℕ, ℤ, ◌+◌, ◌<◌, ◌≤◌, ◌^◌, ◌++◌, [], length, map, None, Some, slice_get};
ghost use Rattle.std.specs.List.{zip};
ghost use Rattle.std.specs.Option.{option_copied};
ghost use Rattle.std.specs.FinMap as finite;
ghost use Rattle.dl_ir.specs.declared.modules.LocalDecl.{LocalDecl};
ghost use Rattle.dl_ir.specs.declared.modules.OpDecl.{OpDecl};
ghost use Rattle.dl_ir.specs.Heap.{blank};
ghost use Rattle.dl_shape.specs.Operation.{argument_value as value_given, first_locals as locals_first};
ghost use Rattle.dl_core.specs.Accounts.{shown_account};
ghost use Rattle.dl_core.specs.Arguments.{CanHold, AllHeld, HoldsCall};
ghost use Rattle.dl_core.specs.Events.{begun as begins, entered as enters};
ghost use Rattle.dl_core.specs.Frames.{at_rest};
ghost use Rattle.dl_core.specs.Plans.{Plan, locals_of, fuel_of};
ghost use Rattle.dl_core.specs.Shown.{shown, memory_of, rooms_of, CanGoOn, HasTurns};
ghost use Rattle.dl_core.specs.Turns.{call_of};

use crate::frames::Frame;
use crate::lists::Row;
use crate::ready::make_ready;
use crate::roots::put_roots;
use crate::stages::Stage;
use dl_instr::Code;
use dl_ir::{LocalDecl, Name, OpDecl, Ty, Value};

// The declaration of an operation, if there is one.
fn op_of(code: &Code, op: u32) -> Option<&OpDecl>
    ensures { option_copied result ≡ slice_get code.now.source.ops op }
{
    code.source().ops.get(op as usize)
}

/// A call is in hand.
pub fn begun(code: &Code, number: u32, args: &[i64], frame: &mut Frame)
    requires idle { shown frame.old ≡ at_rest frame.old.index (shown frame.old).finished }
    requires can { CanGoOn code.now frame.old }
    requires turns { HasTurns code.now }
    requires held { HoldsCall code.now (call_of number args.now) }
    requires index { frame.old.index + 1 < 2 ^ 32 }
    requires args_fit { length args.now ≤ frame.old.args.room }
    requires roots { length args.now ≤ frame.old.roots.room }
    ensures can { CanGoOn code.now frame.new }
    ensures shown { shown frame.new ≡ begins (call_of number args.now) (shown frame.old) }
    ensures account { shown_account frame.new ≡ shown_account frame.old }
    ensures entries { frame.new.entries ≡ frame.old.entries }
    ensures memory { memory_of frame.new ≡ memory_of frame.old }
{
    frame.index += 1;
    frame.stage = Stage::Called;
    frame.op = number;
    frame.args.refill(args);
    frame.roots.clear();
    if let Some(op) = op_of(code, number) {
        put_roots(op.params.as_slice(), args, &mut frame.roots);
    }
}

// The value of an argument for a parameter of a type.
fn argument_value(ty: Ty, argument: i64) -> Value
    requires { CanHold ty argument }
    ensures { result ≡ value_given ty argument }
{
    match ty {
        Ty::Int => Value::Int(argument),
        Ty::Of(_) => Value::Ref(Some(Name {
            ticket: 0,
            index: argument as u32,
        })),
    }
}

// The value with which a var of a type begins.
fn first_value(ty: Ty) -> Value
    ensures { result ≡ blank ty }
{
    match ty {
        Ty::Int => Value::Int(0),
        Ty::Of(_) => Value::Ref(None),
    }
}

// The values of arguments for parameters are put behind the locals.
fn give_arguments(params: &[LocalDecl], args: &[i64], locals: &mut Row<Value>)
    requires held { AllHeld params.now args.now }
    requires room { length locals.old.items + length params.now ≤ locals.old.room }
    ensures { locals.new ≡ record locals.old { items = locals.old.items ++ map (λ (given : LocalDecl × ℤ). value_given given.0.ty given.1) (zip params.now args.now) } }
{
    for (at, param) in params.iter().enumerate() {
        locals.push(argument_value(param.ty, args[at]));
    }
}

// The locals with which an operation begins: its arguments, then its vars.
fn first_locals(op: &OpDecl, args: &[i64], locals: &mut Row<Value>)
    requires held { AllHeld op.now.params args.now }
    requires room { length op.now.params + length op.now.vars ≤ locals.old.room }
    ensures locals { locals.new ≡ record locals.old { items = locals_first op.now args.now } }
    ensures few { length locals.new.items ≤ length op.now.params + length op.now.vars }
{
    locals.clear();
    give_arguments(op.params.as_slice(), args, locals);
    for var in op.vars.as_slice() {
        locals.push(first_value(var.ty));
    }
}

// The locals and the turns with which the operation begins.
fn prepare(code: &Code, frame: &mut Frame)
    requires held { HoldsCall code.now (shown frame.old).call }
    requires room { 32 ≤ frame.old.locals.room }
    ensures shown { (plan : Plan) → plan.code ≡ code.now → shown frame.new ≡ record (shown frame.old) { locals = locals_of plan (shown frame.old).call; turns = fuel_of plan (shown frame.old).call } }
    ensures few { length frame.new.locals.items ≤ 32 }
    ensures rooms { rooms_of frame.new ≡ rooms_of frame.old }
{
    match op_of(code, frame.op) {
        Some(op) => {
            frame.turns = op.fuel;
            first_locals(op, frame.args.as_slice(), &mut frame.locals);
        }
        None => unreachable!(),
    }
}

/// The operation has this ticket, and begins.
pub fn entered(code: &Code, ticket: u64, frame: &mut Frame)
    requires can { CanGoOn code.now frame.old }
    requires held { HoldsCall code.now (shown frame.old).call }
    requires room { 32 ≤ frame.old.locals.room }
    ensures can { CanGoOn code.now frame.new }
    ensures shown { (plan : Plan) → plan.code ≡ code.now → shown frame.new ≡ enters plan ticket (shown frame.old) }
    ensures rooms { rooms_of frame.new ≡ rooms_of frame.old }
{
    frame.stage = Stage::Running;
    frame.ticket = ticket;
    prepare(code, frame);
    make_ready(code, frame);
}

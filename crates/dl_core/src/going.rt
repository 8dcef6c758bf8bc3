// Local steps and events at a step of the code.
ghost use Rattle.std.specs.Prelude.{◌≡◌, ◌+◌, ◌<◌, ◌^◌, None, Some, slice_get, slice_set};
ghost use Rattle.std.specs.Option.{option_copied};
ghost use Rattle.std.specs.FinMap as finite;
ghost use Rattle.dl_ir.specs.Meaning.{fault_end};
ghost use Rattle.dl_ir.specs.Evaluation.{holds_of, number_of};
ghost use Rattle.dl_core.specs.Frames.{is_to_loosen as to_loosen, has_booked as booked_in, loosened, assigned, ended, advanced, gone_to, with_hand, value_in_hand, target_at, target_in_hand};
ghost use Rattle.dl_core.specs.LocalSteps.{on_emit, on_wanted, on_test, on_truth, on_number, next_step, content_of as content_in};
ghost use Rattle.dl_core.specs.Plans.{Plan, allocs_of};
ghost use Rattle.dl_core.specs.Shown.{shown, shown_at, rooms_of, HasSpace, after};

use crate::bits::{assign, end, has_booked, held, target_held, target_of};
use crate::dues::Due;
use crate::frames::Frame;
use dl_instr::{Content, Origin, Step};
use dl_ir::{Cond, End, Expr, Fault, Name, Value};
use dl_meaning::{evaluate, test};

// The end that a fault in an expression is.
fn end_of_fault(fault: Fault) -> End
    ensures { result ≡ fault_end fault }
{
    match fault {
        Fault::Overflow => End::Overflow,
        Fault::DivZero => End::DivZero,
    }
}

// What is written into a field.
fn content_of(content: Content, frame: &Frame) -> Value
    ensures { result ≡ content_in content (shown frame.now) }
{
    match content {
        Content::Number => held(frame),
        Content::Local(local) => Value::Ref(target_of(frame, local)),
        Content::Null => Value::Ref(None),
    }
}

// `want`
fn want(frame: &mut Frame) -> Option<Due>
    requires { frame.old.place + 1 < 2 ^ 64 }
    ensures next { (result, shown frame.new) ≡ after (on_wanted (target_in_hand (shown frame.old)) (shown frame.old)) (shown frame.old) }
    ensures rooms { rooms_of frame.new ≡ rooms_of frame.old }
{
    match target_held(frame) {
        Some(name) if !has_booked(frame, name) => Some(Due::Takes { name }),
        _ => {
            frame.place += 1;
            None
        }
    }
}

// `eval E`
fn eval(value: &Expr, frame: &mut Frame) -> Option<Due>
    requires { frame.old.place + 1 < 2 ^ 64 }
    ensures next { (plan : Plan) → (result, shown frame.new) ≡ after (next_step plan (shown frame.old) (Some (Step.Eval value.now))) (shown frame.old) }
    ensures rooms { rooms_of frame.new ≡ rooms_of frame.old }
{
    match evaluate(value, frame.locals.as_slice()) {
        Ok(n) => {
            frame.hand = Some(Value::Int(n));
            frame.place += 1;
        }
        Err(fault) => end(frame, end_of_fault(fault)),
    }
    None
}

// `give E`
fn give(value: &Expr, frame: &mut Frame) -> Option<Due>
    ensures next { (plan : Plan) → (result, shown frame.new) ≡ after (next_step plan (shown frame.old) (Some (Step.Give value.now))) (shown frame.old) }
    ensures rooms { rooms_of frame.new ≡ rooms_of frame.old }
{
    match evaluate(value, frame.locals.as_slice()) {
        Ok(n) => end(frame, End::Ok(n)),
        Err(fault) => end(frame, end_of_fault(fault)),
    }
    None
}

// A test, whose turn is taken.
fn branch(cond: &Cond, place: usize, frame: &mut Frame) -> Option<Due>
    requires { frame.old.place + 1 < 2 ^ 64 }
    ensures next { (result, shown frame.new) ≡ after (on_truth (holds_of cond.now frame.old.locals.items) place (shown frame.old)) (shown frame.old) }
    ensures rooms { rooms_of frame.new ≡ rooms_of frame.old }
{
    match test(cond, frame.locals.as_slice()) {
        Ok(true) => frame.place += 1,
        Ok(false) => frame.place = place,
        Err(fault) => end(frame, end_of_fault(fault)),
    }
    None
}

// `test C else L` and `turn C else L`
fn try_test(cond: &Cond, is_turn: bool, place: usize, frame: &mut Frame) -> Option<Due>
    requires { frame.old.place + 1 < 2 ^ 64 }
    ensures next { (plan : Plan) → (result, shown frame.new) ≡ after (next_step plan (shown frame.old) (Some (Step.Test cond.now is_turn place))) (shown frame.old) }
    ensures rooms { rooms_of frame.new ≡ rooms_of frame.old }
{
    if is_turn {
        if frame.turns == 0 {
            end(frame, End::Fuel);
            return None;
        }
        frame.turns -= 1;
    }
    branch(cond, place, frame)
}

// `set x` and `copy p q`
fn set(local: u32, from: Origin, frame: &mut Frame) -> Option<Due>
    requires place { frame.old.place + 1 < 2 ^ 64 }
    requires space { HasSpace frame.old }
    ensures next { (plan : Plan) → (result, shown frame.new) ≡ after (next_step plan (shown frame.old) (Some (Step.Set local from))) (shown frame.old) }
    ensures rooms { rooms_of frame.new ≡ rooms_of frame.old }
{
    frame.place += 1;
    match from {
        Origin::Hand => {
            let value = held(frame);
            frame.hand = None;
            assign(frame, local, value);
        }
        Origin::Local(other) => {
            let value = Value::Ref(target_of(frame, other));
            assign(frame, local, value);
        }
    }
    None
}

// The event at the object that a local refers to; the operation ends at null.
fn at_object(target: Option<Name>, frame: &mut Frame) -> Option<Name>
    ensures next { shown frame.new ≡ shown_at target (shown frame.old) }
    ensures same { result ≡ target }
    ensures rooms { rooms_of frame.new ≡ rooms_of frame.old }
{
    if target.is_none() {
        end(frame, End::Null);
    }
    target
}

// `make K`
fn make(kind: u32, allocs: u32, frame: &mut Frame) -> Option<Due>
    ensures next { (plan : Plan) → allocs_of plan (shown frame.old).call ≡ allocs → (result, shown frame.new) ≡ after (next_step plan (shown frame.old) (Some (Step.Make kind))) (shown frame.old) }
    ensures rooms { rooms_of frame.new ≡ rooms_of frame.old }
{
    if allocs <= frame.made {
        end(frame, End::Quota);
        return None;
    }
    let name = Name {
        ticket: frame.ticket,
        index: frame.made + 1,
    };
    Some(Due::Makes { name, kind })
}

// The number in the hand; 0 where it holds none.
fn number_in(hand: Option<Value>) -> i64
    ensures { result ≡ number_of hand }
{
    match hand {
        Some(Value::Int(number)) => number,
        _ => 0,
    }
}

// `emit`
fn emit(frame: &mut Frame) -> Option<Due>
    requires place { frame.old.place + 1 < 2 ^ 64 }
    ensures next { (result, shown frame.new) ≡ after (on_emit (shown frame.old)) (shown frame.old) }
    ensures rooms { rooms_of frame.new ≡ rooms_of frame.old }
{
    if frame.emitted.is_full() {
        end(frame, End::Emits);
        return None;
    }
    frame.emitted.push(number_in(frame.hand));
    frame.hand = None;
    frame.place += 1;
    None
}

// What comes next at a step of the code; a local step is carried out.
pub fn go_step(step: &Step, allocs: u32, frame: &mut Frame) -> Option<Due>
    requires place { frame.old.place + 1 < 2 ^ 64 }
    requires space { HasSpace frame.old }
    ensures next { (plan : Plan) → allocs_of plan (shown frame.old).call ≡ allocs → (result, shown frame.new) ≡ after (next_step plan (shown frame.old) (Some step.now)) (shown frame.old) }
    ensures rooms { rooms_of frame.new ≡ rooms_of frame.old }
{
    match step {
        Step::Read { local, field } => {
            let name = at_object(target_of(frame, *local), frame)?;
            Some(Due::Reads {
                name,
                field: *field,
            })
        }
        Step::Want => want(frame),
        Step::Set { local, from } => set(*local, *from, frame),
        Step::Drop { local } => {
            frame.place += 1;
            assign(frame, *local, Value::Ref(None));
            None
        }
        Step::Make { kind } => make(*kind, allocs, frame),
        Step::Eval { value } => eval(value, frame),
        Step::Write {
            local,
            field,
            content,
        } => {
            let value = content_of(*content, frame);
            let name = at_object(target_of(frame, *local), frame)?;
            Some(Due::Writes {
                name,
                field: *field,
                value,
            })
        }
        Step::Emit => emit(frame),
        Step::Test {
            cond,
            is_turn,
            place,
        } => try_test(cond, *is_turn, *place, frame),
        Step::Jump { place } => {
            frame.place = *place;
            None
        }
        Step::Give { value } => give(value, frame),
    }
}

// What comes next for a caller: a local step, which is carried out, or an event.
ghost use Rattle.std.specs.Prelude.{◌≡◌, ℕ, ◌+◌, ◌<◌, ◌≤◌, ◌^◌, None, Some, [], ◌∷◌, slice_get, slice_set, length};
ghost use Rattle.std.specs.Option.{option_copied};
ghost use Rattle.std.specs.FinMap as finite;
ghost use Rattle.dl_ir.specs.declared.answers.End.TheVariants as ends;
ghost use Rattle.dl_core.specs.declared.stages.Booked.{Booked};
ghost use Rattle.dl_core.specs.Frames.{loosened, assigned, ended};
ghost use Rattle.dl_core.specs.LocalSteps.{next as next_in, next_step, next_stage, next_after, next_called, next_root, next_held, next_local, next_loose, next_field, next_value, next_target, first_referring as referring_first};
ghost use Rattle.dl_core.specs.Plans.{Plan, allocs_of as allocs_in, roots_of as roots_in, steps_of, reference_from as reference_in};
ghost use Rattle.dl_core.specs.Shown.{shown, rooms_of, HasSpace, after, HasFewFields};

use crate::bits::{assign, end, has_booked};
use crate::codes::{allocs_of, reference_from, step_at};
use crate::dues::Due;
use crate::frames::{Frame, target_in};
use crate::going::go_step;
use crate::stages::{Booked, Stage};
use dl_instr::Code;
use dl_ir::{End, Name, Value};

// What comes next at a step of the code.
fn go_running(code: &Code, frame: &mut Frame) -> Option<Due>
    requires space { HasSpace frame.old }
    ensures next { (plan : Plan) → plan.code ≡ code.now → (result, shown frame.new) ≡ after (next_step plan (shown frame.old) (slice_get (steps_of plan (shown frame.old).call) frame.old.place)) (shown frame.old) }
    ensures rooms { rooms_of frame.new ≡ rooms_of frame.old }
{
    match step_at(code, frame.op, frame.place) {
        Some(step) => go_step(step, allocs_of(code, frame.op), frame),
        None => {
            end(frame, End::Ok(0));
            None
        }
    }
}

// A field of the object that is being given up, which has this target.
fn go_target(name: Name, field: u32, target: Option<Name>, frame: &mut Frame) -> Option<Due>
    requires { field + 1 < 2 ^ 32 }
    ensures next { (result, shown frame.new) ≡ after (next_target (shown frame.old) name field target) (shown frame.old) }
    ensures rooms { rooms_of frame.new ≡ rooms_of frame.old }
{
    match target {
        None => {
            frame.hand = None;
            frame.cursor = field + 1;
            None
        }
        Some(target) => {
            if has_booked(frame, target) || frame.seen {
                Some(Due::Writes {
                    name,
                    field,
                    value: Value::Ref(None),
                })
            } else {
                Some(Due::Takes { name: target })
            }
        }
    }
}

// The next field of the object that is being given up.
fn go_field(name: Name, field: Option<u32>, frame: &mut Frame) -> Option<Due>
    requires { (at : ℕ) → field ≡ Some at → at + 1 < 2 ^ 32 }
    ensures next { (result, shown frame.new) ≡ after (next_field (shown frame.old) name field) (shown frame.old) }
    ensures rooms { rooms_of frame.new ≡ rooms_of frame.old }
{
    match field {
        None => Some(Due::GivesUp { name }),
        Some(field) => match frame.hand {
            None => Some(Due::Reads { name, field }),
            Some(value) => go_target(name, field, target_in(value), frame),
        },
    }
}

fn booked_at(frame: &Frame, name: Name) -> Option<Booked>
    ensures { result ≡ finite.get frame.now.book.rows name }
{
    match frame.book.get(name) {
        Some(booked) => Some(*booked),
        None => None,
    }
}

// The first loose object is given up or let go.
fn go_loose(code: &Code, name: Name, frame: &mut Frame) -> Option<Due>
    requires { HasFewFields code.now }
    ensures next { (plan : Plan) → plan.code ≡ code.now → (result, shown frame.new) ≡ after (next_loose plan (shown frame.old) name (finite.get frame.old.book.rows name)) (shown frame.old) }
    ensures rooms { rooms_of frame.new ≡ rooms_of frame.old }
{
    match booked_at(frame, name) {
        Some(booked) if name.ticket > 0 && booked.fields == 0 => {
            let field = reference_from(code, booked.kind, frame.cursor);
            go_field(name, field, frame)
        }
        _ => Some(Due::LetsGo { name }),
    }
}

// The number of the first of these locals that refers to an object, if one does; the first of them has this number.
fn first_referring(at: u32, locals: &[Value]) -> Option<u32>
    requires { at + length locals.now < 2 ^ 32 }
    ensures { result ≡ referring_first at locals.now }
{
    match locals {
        [] => None,
        [first, rest @ ..] => match target_in(*first) {
            Some(_) => Some(at),
            None => first_referring(at + 1, rest),
        },
    }
}

// The operation has ended: locals become null, and then what is held is sealed.
fn go_ended(ended: End, frame: &mut Frame) -> Option<Due>
    requires space { HasSpace frame.old }
    requires locals { length frame.old.locals.items < 2 ^ 32 }
    ensures next { (result, shown frame.new) ≡ after (next_local (shown frame.old) ended (referring_first 0 frame.old.locals.items)) (shown frame.old) }
    ensures rooms { rooms_of frame.new ≡ rooms_of frame.old }
{
    match first_referring(0, frame.locals.as_slice()) {
        Some(local) => {
            assign(frame, local, Value::Ref(None));
            None
        }
        None => match frame.book.first_name() {
            Some(name) => Some(Due::Seals { name }),
            None => Some(Due::Finishes { end: ended }),
        },
    }
}

// What a call takes before it enters.
fn due_called(code: &Code, frame: &Frame) -> Due
    requires roots { (plan : Plan) → plan.code ≡ code.now → frame.now.roots.items ≡ roots_in plan (shown frame.now).call }
    ensures { (plan : Plan) → plan.code ≡ code.now → result ≡ next_called plan (shown frame.now) }
{
    let need = allocs_of(code, frame.op);
    if frame.spares < need {
        return Due::Reserves { need };
    }
    due_root(frame.roots.get(frame.taken))
}

// The next root is taken, if there is one.
fn due_root(root: Option<u32>) -> Due
    ensures { result ≡ next_root root }
{
    match root {
        Some(number) => Due::TakesRoot { number },
        None => Due::Enters,
    }
}

/// What comes next: a local step, which is carried out, or an event.
pub fn go(code: &Code, frame: &mut Frame) -> Option<Due>
    requires space { HasSpace frame.old }
    requires few { HasFewFields code.now }
    requires locals { length frame.old.locals.items < 2 ^ 32 }
    requires roots { (plan : Plan) → plan.code ≡ code.now → frame.old.roots.items ≡ roots_in plan (shown frame.old).call }
    ensures next { (plan : Plan) → plan.code ≡ code.now → (result, shown frame.new) ≡ after (next_in plan (shown frame.old)) (shown frame.old) }
    ensures rooms { rooms_of frame.new ≡ rooms_of frame.old }
{
    match frame.loose.get(0) {
        Some(name) => go_loose(code, name, frame),
        None => match frame.stage {
            Stage::Idle => Some(Due::Nothing),
            Stage::Called => Some(due_called(code, frame)),
            Stage::Running => go_running(code, frame),
            Stage::Ended(end) => go_ended(end, frame),
        },
    }
}

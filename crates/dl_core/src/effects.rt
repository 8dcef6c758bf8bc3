// What each event makes of the caller's frame.
ghost use Rattle.std.specs.Prelude.{◌≡◌, ℕ, ◌+◌, ◌<◌, ◌^◌, None, Some, [], slice_get, length};
ghost use Rattle.std.specs.FinMap as finite;
ghost use Rattle.dl_ir.specs.References.{target_in as target_of_value};
ghost use Rattle.dl_instr.specs.declared.code.Code.{Code};
ghost use Rattle.dl_core.specs.Frames.{advanced, lowered, raised, target_in_hand, with_booked, without_booked};
ghost use Rattle.dl_core.specs.Events.{moved_on, moved_past, seen_by, or_first, has_read as reads, wrote as writes, took as takes, saw_sealed as sees, let_go as lets_go, gave_up as gives_up, sealed as seals, made as makes, took_root as takes_root, reserved as reserves};
ghost use Rattle.dl_core.specs.Plans.{Plan};
ghost use Rattle.dl_core.specs.Shown.{shown, rooms_of, CanGoOn, HasFewRefs, HasStep, IsAtStep, IsFewField};

use crate::bits::{end, loosen, target_held};
use crate::codes::step_at;
use crate::frames::{Frame, target_in};
use crate::ready::make_ready;
use crate::recounts::{lower, raise};
use crate::stages::Booked;
use dl_instr::Code;
use dl_ir::{End, Name, Value};

// The code goes on behind a step.
fn pass_step(code: &Code, frame: &mut Frame)
    requires { HasStep code.now frame.old }
    ensures shown { shown frame.new ≡ advanced (shown frame.old) }
    ensures rooms { rooms_of frame.new ≡ rooms_of frame.old }
{
    match step_at(code, frame.op, frame.place) {
        Some(_) => frame.place += 1,
        None => unreachable!(),
    }
}

// The code goes on, unless a loose object is worked off.
fn move_on(code: &Code, frame: &mut Frame)
    requires { IsAtStep code.now frame.old }
    ensures shown { shown frame.new ≡ moved_on frame.old.loose.items (shown frame.old) }
    ensures rooms { rooms_of frame.new ≡ rooms_of frame.old }
{
    match frame.loose.get(0) {
        None => pass_step(code, frame),
        Some(_) => {}
    }
}

// An object is held from now on, to which so many fields refer.
fn hold(frame: &mut Frame, name: Name, kind: u32, fields: u32)
    requires { finite.len frame.old.book.rows < frame.old.book.room }
    ensures shown { shown frame.new ≡ with_booked name kind fields (shown frame.old) }
    ensures rooms { rooms_of frame.new ≡ rooms_of frame.old }
{
    frame.book.put(name, Booked { kind, fields });
}

// The object is held no longer.
fn release(frame: &mut Frame, name: Name)
    ensures shown { shown frame.new ≡ without_booked name (shown frame.old) }
    ensures rooms { rooms_of frame.new ≡ rooms_of frame.old }
{
    frame.book.remove(name);
}

/// A field was found to hold this value.
pub fn has_read(code: &Code, value: Value, frame: &mut Frame)
    requires can { CanGoOn code.now frame.old }
    requires step { IsAtStep code.now frame.old }
    ensures can { CanGoOn code.now frame.new }
    ensures shown { (plan : Plan) → plan.code ≡ code.now → shown frame.new ≡ reads plan value (shown frame.old) }
    ensures rooms { rooms_of frame.new ≡ rooms_of frame.old }
{
    move_on(code, frame);
    frame.hand = Some(value);
    make_ready(code, frame);
}

// The code goes on, or the next field of the object that is being given up comes.
fn move_past(code: &Code, field: u32, frame: &mut Frame)
    requires step { IsAtStep code.now frame.old }
    requires field { IsFewField frame.old field }
    ensures shown { shown frame.new ≡ moved_past frame.old.loose.items field (shown frame.old) }
    ensures rooms { rooms_of frame.new ≡ rooms_of frame.old }
{
    match frame.loose.get(0) {
        None => pass_step(code, frame),
        Some(_) => {
            frame.cursor = field + 1;
            frame.seen = false;
        }
    }
}

// One field less refers to what the hand refers to, and one more to the object of the value.
fn recount(code: &Code, field: u32, value: Value, frame: &mut Frame)
    requires step { IsAtStep code.now frame.old }
    requires field { IsFewField frame.old field }
    requires few { HasFewRefs frame.old }
    ensures can { CanGoOn code.now frame.old → CanGoOn code.now frame.new }
    ensures shown { shown frame.new ≡ moved_past frame.old.loose.items field (record (shown frame.old) { hand = None; book = raised (target_of_value value) (lowered (target_in_hand (shown frame.old)) frame.old.book.rows) }) }
    ensures rooms { rooms_of frame.new ≡ rooms_of frame.old }
{
    let lost = target_held(frame);
    frame.hand = None;
    lower(lost, &mut frame.book);
    raise(target_in(value), &mut frame.book);
    move_past(code, field, frame);
}

/// A field got this value. Where it holds references, the hand has the old one.
pub fn wrote(code: &Code, field: u32, value: Value, frame: &mut Frame)
    requires can { CanGoOn code.now frame.old }
    requires step { IsAtStep code.now frame.old }
    requires field { IsFewField frame.old field }
    requires few { HasFewRefs frame.old }
    ensures can { CanGoOn code.now frame.new }
    ensures shown { (plan : Plan) → plan.code ≡ code.now → shown frame.new ≡ writes plan field value (shown frame.old) }
    ensures rooms { rooms_of frame.new ≡ rooms_of frame.old }
{
    let lost = target_held(frame);
    recount(code, field, value, frame);
    loosen(frame, lost);
    make_ready(code, frame);
}

/// A hidden object of this kind was taken. It was free, so one field refers to it.
pub fn took(code: &Code, name: Name, kind: u32, frame: &mut Frame)
    requires can { CanGoOn code.now frame.old }
    requires step { IsAtStep code.now frame.old }
    requires book { finite.len frame.old.book.rows < frame.old.book.room }
    requires loose { finite.len frame.old.book.rows < frame.old.loose.room }
    ensures can { CanGoOn code.now frame.new }
    ensures shown { (plan : Plan) → plan.code ≡ code.now → shown frame.new ≡ takes plan name kind (shown frame.old) }
    ensures rooms { rooms_of frame.new ≡ rooms_of frame.old }
{
    move_on(code, frame);
    hold(frame, name, kind, 1);
    make_ready(code, frame);
}

// The operation ends, or the field of the object that is being given up may be written.
fn see(name: Name, frame: &mut Frame)
    ensures shown { shown frame.new ≡ seen_by frame.old.loose.items name (shown frame.old) }
    ensures rooms { rooms_of frame.new ≡ rooms_of frame.old }
{
    match frame.loose.get(0) {
        None => end(frame, End::Sealed(name)),
        Some(_) => frame.seen = true,
    }
}

/// An object was found to be sealed.
pub fn saw_sealed(code: &Code, name: Name, frame: &mut Frame)
    requires can { CanGoOn code.now frame.old }
    ensures can { CanGoOn code.now frame.new }
    ensures shown { (plan : Plan) → plan.code ≡ code.now → shown frame.new ≡ sees plan name (shown frame.old) }
    ensures rooms { rooms_of frame.new ≡ rooms_of frame.old }
{
    see(name, frame);
    make_ready(code, frame);
}

/// The first loose object was let go.
pub fn let_go(code: &Code, name: Name, frame: &mut Frame)
    requires can { CanGoOn code.now frame.old }
    requires first { slice_get frame.old.loose.items 0 ≡ Some name }
    ensures can { CanGoOn code.now frame.new }
    ensures shown { (plan : Plan) → plan.code ≡ code.now → shown frame.new ≡ lets_go plan name (shown frame.old) }
    ensures rooms { rooms_of frame.new ≡ rooms_of frame.old }
{
    frame.loose.drop_first();
    release(frame, name);
    make_ready(code, frame);
}

/// The first loose object was given up, and its place is spare.
pub fn gave_up(code: &Code, name: Name, frame: &mut Frame)
    requires can { CanGoOn code.now frame.old }
    requires first { slice_get frame.old.loose.items 0 ≡ Some name }
    requires spares { frame.old.spares + 1 < 2 ^ 32 }
    ensures can { CanGoOn code.now frame.new }
    ensures shown { (plan : Plan) → plan.code ≡ code.now → shown frame.new ≡ gives_up plan name (shown frame.old) }
    ensures rooms { rooms_of frame.new ≡ rooms_of frame.old }
{
    frame.loose.drop_first();
    frame.cursor = 0;
    frame.spares += 1;
    release(frame, name);
    make_ready(code, frame);
}

// The earlier name, if there is one.
fn first_of(earlier: Option<Name>, name: Name) -> Option<Name>
    ensures { result ≡ or_first earlier name }
{
    match earlier {
        Some(earlier) => Some(earlier),
        None => Some(name),
    }
}

/// An object was sealed.
pub fn sealed(code: &Code, name: Name, frame: &mut Frame)
    requires can { CanGoOn code.now frame.old }
    requires none { frame.old.loose.items ≡ [] }
    ensures can { CanGoOn code.now frame.new }
    ensures shown { (plan : Plan) → plan.code ≡ code.now → shown frame.new ≡ seals plan name (shown frame.old) }
    ensures rooms { rooms_of frame.new ≡ rooms_of frame.old }
{
    frame.breach = first_of(frame.breach, name);
    release(frame, name);
    make_ready(code, frame);
}

/// An object of this kind was made on a spare place, and nothing but the hand refers to it.
pub fn made(code: &Code, name: Name, kind: u32, frame: &mut Frame)
    requires can { CanGoOn code.now frame.old }
    requires step { HasStep code.now frame.old }
    requires made { frame.old.made + 1 < 2 ^ 32 }
    requires book { finite.len frame.old.book.rows < frame.old.book.room }
    requires loose { finite.len frame.old.book.rows < frame.old.loose.room }
    ensures can { CanGoOn code.now frame.new }
    ensures shown { (plan : Plan) → plan.code ≡ code.now → shown frame.new ≡ makes plan name kind (shown frame.old) }
    ensures rooms { rooms_of frame.new ≡ rooms_of frame.old }
{
    frame.made += 1;
    frame.spares = frame.spares.saturating_sub(1);
    pass_step(code, frame);
    frame.hand = Some(Value::Ref(Some(name)));
    hold(frame, name, kind, 0);
    make_ready(code, frame);
}

// One root more was taken.
fn take_next(frame: &mut Frame)
    requires { frame.old.taken < length frame.old.roots.items }
    ensures shown { shown frame.new ≡ record (shown frame.old) { taken = frame.old.taken + 1 } }
    ensures rooms { rooms_of frame.new ≡ rooms_of frame.old }
{
    if frame.taken < frame.roots.len() {
        frame.taken += 1;
    }
}

/// The next root was taken; no field refers to a root.
pub fn took_root(code: &Code, number: u32, kind: u32, frame: &mut Frame)
    requires can { CanGoOn code.now frame.old }
    requires taken { frame.old.taken < length frame.old.roots.items }
    requires book { finite.len frame.old.book.rows < frame.old.book.room }
    requires loose { finite.len frame.old.book.rows < frame.old.loose.room }
    ensures can { CanGoOn code.now frame.new }
    ensures shown { shown frame.new ≡ takes_root number kind (shown frame.old) }
    ensures rooms { rooms_of frame.new ≡ rooms_of frame.old }
{
    take_next(frame);
    let name = Name {
        ticket: 0,
        index: number,
    };
    hold(frame, name, kind, 0);
}

/// So many places are reserved.
pub fn reserved(need: u32, frame: &mut Frame)
    ensures can { (code : Code) → CanGoOn code frame.old → CanGoOn code frame.new }
    ensures shown { shown frame.new ≡ reserves need (shown frame.old) }
    ensures rooms { rooms_of frame.new ≡ rooms_of frame.old }
{
    frame.spares = need;
}

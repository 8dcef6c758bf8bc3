// Events that touch one object, with what they make of the caller's frame.
ghost use Rattle.std.specs.Prelude.{◌≡◌, ℕ, ◌+◌, ◌<◌, ◌≤◌, ◌^◌, [], Some, slice_get, length};
ghost use Rattle.std.specs.FinMap as finite;
ghost use Rattle.dl_ir.specs.declared.names.Name.{Name};
ghost use Rattle.dl_ir.specs.Heap.{root};
ghost use Rattle.dl_core.specs.declared.dues.Due.TheVariants as dues;
ghost use Rattle.dl_core.specs.Core.{stands, lock_of as lock_in};
ghost use Rattle.dl_core.specs.Events.{aim};
ghost use Rattle.dl_core.specs.Needs.{CanTake, CanMake, CanTouch};
ghost use Rattle.dl_core.specs.Plans.{Plan};
ghost use Rattle.dl_core.specs.Shared.{touched};
ghost use Rattle.dl_core.specs.Shown.{shown, rooms_of, CanGoOn, HasFewRefs, IsAtStep, IsFewField};

use crate::answers::{Event, Lock, Progress};
use crate::dues::Due;
use crate::effects;
use crate::frames::Frame;
use crate::objects::{Mark, Object};
use crate::shared::{field_at, look, new_object, set_field, set_mark};
use dl_instr::Code;
use dl_ir::{Name, Table, Value};

// The lock that an event at an object takes.
fn lock_of(name: Name) -> Lock
    ensures { result ≡ lock_in name }
{
    if name.ticket == 0 {
        Lock::Root(name.index)
    } else {
        Lock::Object(name)
    }
}

// Why an event at an object does not take place.
fn stand(name: Name, heap: &Table<Object>) -> Progress
    ensures { result ≡ stands heap.now.rows (Some name) }
{
    match look(name, heap) {
        Some(seen) => match seen.mark {
            Mark::Held(by) => Progress::Waiting {
                lock: lock_of(name),
                by,
            },
            _ => Progress::Idle,
        },
        None => Progress::Idle,
    }
}

/// A root is taken.
pub fn take_root(
    code: &Code,
    caller: u32,
    number: u32,
    heap: &mut Table<Object>,
    frame: &mut Frame,
) -> Progress
    requires can { CanGoOn code.now frame.old }
    requires taken { frame.old.taken < length frame.old.roots.items }
    requires more { CanTake frame.old heap.old (root number) }
    requires few { finite.len heap.old.rows ≤ heap.old.room }
    ensures touched { (plan : Plan) → plan.code ≡ code.now → (shown frame.new, heap.new.rows, result) ≡ touched plan caller heap.old.rows (root number) (dues.TakesRoot number) (shown frame.old) }
    ensures can { CanGoOn code.now frame.new }
    ensures rooms { rooms_of frame.new ≡ rooms_of frame.old }
    ensures few { finite.len heap.new.rows ≤ heap.new.room }
    ensures room { heap.new.room ≡ heap.old.room }
{
    let name = Name {
        ticket: 0,
        index: number,
    };
    match look(name, heap) {
        Some(seen) => match seen.mark {
            Mark::Free => {
                set_mark(name, Mark::Held(caller), heap);
                effects::took_root(code, number, seen.kind, frame);
                Progress::Moved(Event::TakeRoot { root: number })
            }
            _ => stand(name, heap),
        },
        None => stand(name, heap),
    }
}

/// A field is read.
pub fn read(
    code: &Code,
    name: Name,
    field: u32,
    heap: &Table<Object>,
    frame: &mut Frame,
) -> Progress
    requires can { CanGoOn code.now frame.old }
    requires step { IsAtStep code.now frame.old }
    ensures touched { (plan : Plan) (caller : ℕ) → plan.code ≡ code.now → (shown frame.new, heap.now.rows, result) ≡ touched plan caller heap.now.rows name (dues.Reads name field) (shown frame.old) }
    ensures can { CanGoOn code.now frame.new }
    ensures rooms { rooms_of frame.new ≡ rooms_of frame.old }
{
    match field_at(name, field, heap) {
        Some(value) => {
            effects::has_read(code, value, frame);
            Progress::Moved(Event::Read { name, field })
        }
        None => stand(name, heap),
    }
}

/// A field is written.
pub fn write(
    code: &Code,
    name: Name,
    field: u32,
    value: Value,
    heap: &mut Table<Object>,
    frame: &mut Frame,
) -> Progress
    requires can { CanGoOn code.now frame.old }
    requires step { IsAtStep code.now frame.old }
    requires field { IsFewField frame.old field }
    requires refs { HasFewRefs frame.old }
    requires few { finite.len heap.old.rows ≤ heap.old.room }
    ensures touched { (plan : Plan) (caller : ℕ) → plan.code ≡ code.now → (shown frame.new, heap.new.rows, result) ≡ touched plan caller heap.old.rows name (dues.Writes name field value) (shown frame.old) }
    ensures can { CanGoOn code.now frame.new }
    ensures rooms { rooms_of frame.new ≡ rooms_of frame.old }
    ensures few { finite.len heap.new.rows ≤ heap.new.room }
    ensures room { heap.new.room ≡ heap.old.room }
{
    match look(name, heap) {
        Some(_) => {
            set_field(name, field, value, heap);
            effects::wrote(code, field, value, frame);
            Progress::Moved(Event::Write { name, field })
        }
        None => stand(name, heap),
    }
}

/// A hidden object is taken, or seen to be sealed.
pub fn take(
    code: &Code,
    caller: u32,
    name: Name,
    heap: &mut Table<Object>,
    frame: &mut Frame,
) -> Progress
    requires can { CanGoOn code.now frame.old }
    requires step { IsAtStep code.now frame.old }
    requires more { CanTake frame.old heap.old name }
    requires few { finite.len heap.old.rows ≤ heap.old.room }
    ensures touched { (plan : Plan) → plan.code ≡ code.now → (shown frame.new, heap.new.rows, result) ≡ touched plan caller heap.old.rows name (dues.Takes name) (shown frame.old) }
    ensures can { CanGoOn code.now frame.new }
    ensures rooms { rooms_of frame.new ≡ rooms_of frame.old }
    ensures few { finite.len heap.new.rows ≤ heap.new.room }
    ensures room { heap.new.room ≡ heap.old.room }
{
    match look(name, heap) {
        Some(seen) => match seen.mark {
            Mark::Free => {
                set_mark(name, Mark::Held(caller), heap);
                effects::took(code, name, seen.kind, frame);
                Progress::Moved(Event::Take { name })
            }
            Mark::Held(_) => stand(name, heap),
            Mark::Sealed(_) => {
                effects::saw_sealed(code, name, frame);
                Progress::Moved(Event::SeeSealed { name })
            }
        },
        None => stand(name, heap),
    }
}

/// The first loose object is let go.
pub fn let_go(code: &Code, name: Name, heap: &mut Table<Object>, frame: &mut Frame) -> Progress
    requires can { CanGoOn code.now frame.old }
    requires first { slice_get frame.old.loose.items 0 ≡ Some name }
    requires few { finite.len heap.old.rows ≤ heap.old.room }
    ensures touched { (plan : Plan) (caller : ℕ) → plan.code ≡ code.now → (shown frame.new, heap.new.rows, result) ≡ touched plan caller heap.old.rows name (dues.LetsGo name) (shown frame.old) }
    ensures can { CanGoOn code.now frame.new }
    ensures rooms { rooms_of frame.new ≡ rooms_of frame.old }
    ensures few { finite.len heap.new.rows ≤ heap.new.room }
    ensures room { heap.new.room ≡ heap.old.room }
{
    match look(name, heap) {
        Some(_) => {
            set_mark(name, Mark::Free, heap);
            effects::let_go(code, name, frame);
            Progress::Moved(Event::LetGo { name })
        }
        None => stand(name, heap),
    }
}

/// The first loose object is given up.
pub fn give_up(code: &Code, name: Name, heap: &mut Table<Object>, frame: &mut Frame) -> Progress
    requires can { CanGoOn code.now frame.old }
    requires first { slice_get frame.old.loose.items 0 ≡ Some name }
    requires spares { frame.old.spares + 1 < 2 ^ 32 }
    requires few { finite.len heap.old.rows ≤ heap.old.room }
    ensures touched { (plan : Plan) (caller : ℕ) → plan.code ≡ code.now → (shown frame.new, heap.new.rows, result) ≡ touched plan caller heap.old.rows name (dues.GivesUp name) (shown frame.old) }
    ensures can { CanGoOn code.now frame.new }
    ensures rooms { rooms_of frame.new ≡ rooms_of frame.old }
    ensures few { finite.len heap.new.rows ≤ heap.new.room }
    ensures room { heap.new.room ≡ heap.old.room }
{
    match look(name, heap) {
        Some(_) => {
            heap.remove(name);
            effects::gave_up(code, name, frame);
            Progress::Moved(Event::GiveUp { name })
        }
        None => stand(name, heap),
    }
}

/// An object is sealed.
pub fn seal(code: &Code, name: Name, heap: &mut Table<Object>, frame: &mut Frame) -> Progress
    requires can { CanGoOn code.now frame.old }
    requires none { frame.old.loose.items ≡ [] }
    requires few { finite.len heap.old.rows ≤ heap.old.room }
    ensures touched { (plan : Plan) (caller : ℕ) → plan.code ≡ code.now → (shown frame.new, heap.new.rows, result) ≡ touched plan caller heap.old.rows name (dues.Seals name) (shown frame.old) }
    ensures can { CanGoOn code.now frame.new }
    ensures rooms { rooms_of frame.new ≡ rooms_of frame.old }
    ensures few { finite.len heap.new.rows ≤ heap.new.room }
    ensures room { heap.new.room ≡ heap.old.room }
{
    match look(name, heap) {
        Some(_) => {
            set_mark(name, Mark::Sealed(frame.ticket), heap);
            effects::sealed(code, name, frame);
            Progress::Moved(Event::Seal { name })
        }
        None => stand(name, heap),
    }
}

/// An object is made.
pub fn make(
    code: &Code,
    caller: u32,
    name: Name,
    kind: u32,
    heap: &mut Table<Object>,
    frame: &mut Frame,
) -> Progress
    requires can { CanGoOn code.now frame.old }
    requires may { CanMake code.now frame.old heap.old }
    requires few { finite.len heap.old.rows ≤ heap.old.room }
    ensures touched { (plan : Plan) → plan.code ≡ code.now → (shown frame.new, heap.new.rows, result) ≡ touched plan caller heap.old.rows name (dues.Makes name kind) (shown frame.old) }
    ensures can { CanGoOn code.now frame.new }
    ensures rooms { rooms_of frame.new ≡ rooms_of frame.old }
    ensures few { finite.len heap.new.rows ≤ heap.new.room }
    ensures room { heap.new.room ≡ heap.old.room }
{
    match look(name, heap) {
        Some(_) => stand(name, heap),
        None => {
            heap.put(name, new_object(code, caller, kind));
            effects::made(code, name, kind, frame);
            Progress::Moved(Event::Make { name })
        }
    }
}

/// The event that comes next takes place, if it is one at an object.
pub fn touch(
    code: &Code,
    caller: u32,
    due: Due,
    heap: &mut Table<Object>,
    frame: &mut Frame,
) -> Progress
    requires can { CanGoOn code.now frame.old }
    requires needs { CanTouch code.now frame.old heap.old due }
    requires few { finite.len heap.old.rows ≤ heap.old.room }
    ensures touched { (plan : Plan) (name : Name) → plan.code ≡ code.now → aim due ≡ Some name → (shown frame.new, heap.new.rows, result) ≡ touched plan caller heap.old.rows name due (shown frame.old) }
    ensures can { CanGoOn code.now frame.new }
    ensures rooms { rooms_of frame.new ≡ rooms_of frame.old }
    ensures few { finite.len heap.new.rows ≤ heap.new.room }
    ensures room { heap.new.room ≡ heap.old.room }
{
    match due {
        Due::TakesRoot { number } => take_root(code, caller, number, heap, frame),
        Due::Reads { name, field } => read(code, name, field, heap, frame),
        Due::Writes { name, field, value } => write(code, name, field, value, heap, frame),
        Due::Takes { name } => take(code, caller, name, heap, frame),
        Due::LetsGo { name } => let_go(code, name, heap, frame),
        Due::GivesUp { name } => give_up(code, name, heap, frame),
        Due::Seals { name } => seal(code, name, heap, frame),
        Due::Makes { name, kind } => make(code, caller, name, kind, heap, frame),
        _ => Progress::Idle,
    }
}

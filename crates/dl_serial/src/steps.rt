//! What each simple statement does. Each answers whether the operation goes on; how it ended is kept in the frame.

ghost use Rattle.std.specs.Prelude.{◌≡◌, ◌<◌, ◌≤◌, ◌+◌, None, Some, false, if◌then◌else◌, is_none, slice_get, slice_set, option_and_then};
ghost use Rattle.std.specs.FinMap as finite;
ghost use Rattle.dl_ir.specs.Heap.{HasStart};
ghost use Rattle.dl_ir.specs.Meaning.{Context, State, Outcome, fault_end, field_in, object_of, step, unless_sealed, links_to};
ghost use Rattle.dl_ir.specs.Evaluation.{number_of, target_of};
ghost use Rattle.dl_serial.specs.Frames.{state_of, context_of, HasRoom};
ghost use Rattle.dl_serial.specs.Growth.{Grows};
ghost use Rattle.dl_ir.specs.declared.statements.Stmt.{Stmt-F};
ghost use Rattle.dl_ir.specs.declared.objects.Obj.{Obj};

use crate::frames::{Frame, Task};
use dl_ir::{End, Expr, Fault, Fields, Heap, Module, Name, Obj, Value};
use dl_meaning::{evaluate, target_at};

/// The end that a fault in an expression is.
pub fn end_of_fault(fault: Fault) -> End
    ensures { result ≡ fault_end fault }
{
    match fault {
        Fault::Overflow => End::Overflow,
        Fault::DivZero => End::DivZero,
    }
}

/// What a field of an object holds.
#[inline(always)]
pub fn field_of(heap: &Heap, name: Name, field: u32) -> Option<Value>
    ensures { result ≡ option_and_then (λ (object : Obj). slice_get object.fields field) (finite.get heap.now.objects name) }
{
    heap.field(name, field as usize)
}

/// Ends the operation, so that it does not go on.
pub fn end_with(frame: &mut Frame, end: End) -> bool
    ensures frame { frame.new ≡ record frame.old { end = Some end } }
    ensures goes_on { result ≡ false }
{
    frame.end = Some(end);
    false
}

#[inline(always)]
fn set_local(frame: &mut Frame, x: u32, value: Value)
    ensures locals { frame.new.locals.items ≡ slice_set frame.old.locals.items x value }
    ensures turns { frame.new.turns ≡ frame.old.turns }
    ensures made { frame.new.made ≡ frame.old.made }
    ensures emitted { frame.new.emitted ≡ frame.old.emitted }
    ensures end { frame.new.end ≡ frame.old.end }
{
    if (x as usize) < frame.locals.len() {
        frame.locals[x as usize] = value;
    }
}

/// `x = e;`
pub fn run_set_int(x: u32, e: &Expr, frame: &mut Frame, heap: &Heap) -> bool
    requires going { frame.old.end ≡ None }
    ensures result { result ≡ is_none frame.new.end }
    ensures gives { (cx : Context) → step cx (Stmt-F.SetInt x e.now) (state_of frame.old heap.now) ≡ record { state = state_of frame.new heap.now; end = frame.new.end } }
    ensures turns { frame.new.turns ≡ frame.old.turns }
    ensures made { frame.new.made ≡ frame.old.made }
{
    match evaluate(e, &frame.locals) {
        Ok(n) => {
            set_local(frame, x, Value::Int(n));
            true
        }
        Err(fault) => end_with(frame, end_of_fault(fault)),
    }
}

/// `x = p.f;`, where the field holds a number
pub fn run_load(x: u32, p: u32, f: u32, frame: &mut Frame, heap: &Heap) -> bool
    requires going { frame.old.end ≡ None }
    ensures result { result ≡ is_none frame.new.end }
    ensures gives { (cx : Context) → step cx (Stmt-F.Load x p f) (state_of frame.old heap.now) ≡ record { state = state_of frame.new heap.now; end = frame.new.end } }
    ensures turns { frame.new.turns ≡ frame.old.turns }
    ensures made { frame.new.made ≡ frame.old.made }
{
    match target_at(&frame.locals, p) {
        None => end_with(frame, End::Null),
        Some(name) => {
            let n = number_held(field_of(heap, name, f));
            set_local(frame, x, Value::Int(n));
            true
        }
    }
}

#[inline(always)]
fn number_held(held: Option<Value>) -> i64
    ensures { result ≡ number_of held }
{
    match held {
        Some(Value::Int(n)) => n,
        _ => 0,
    }
}

/// `p.f = e;`
pub fn run_store(p: u32, f: u32, e: &Expr, frame: &mut Frame, heap: &mut Heap) -> bool
    requires going { frame.old.end ≡ None }
    ensures result { result ≡ is_none frame.new.end }
    ensures gives { (cx : Context) → step cx (Stmt-F.Store p f e.now) (state_of frame.old heap.old) ≡ record { state = state_of frame.new heap.new; end = frame.new.end } }
    ensures turns { frame.new.turns ≡ frame.old.turns }
    ensures made { frame.new.made ≡ frame.old.made }
    ensures len { finite.len heap.new.objects ≡ finite.len heap.old.objects }
    ensures grows { Grows heap.old.objects heap.new.objects 0 0 }
    ensures room { heap.new.room ≡ heap.old.room }
{
    match evaluate(e, &frame.locals) {
        Err(fault) => end_with(frame, end_of_fault(fault)),
        Ok(n) => match target_at(&frame.locals, p) {
            None => end_with(frame, End::Null),
            Some(name) => {
                heap.set_field(name, f as usize, Value::Int(n));
                true
            }
        },
    }
}

/// `p = q;`
pub fn run_copy(p: u32, q: u32, frame: &mut Frame, heap: &Heap)
    requires going { frame.old.end ≡ None }
    ensures going { frame.new.end ≡ None }
    ensures gives { (cx : Context) → step cx (Stmt-F.Copy p q) (state_of frame.old heap.now) ≡ record { state = state_of frame.new heap.now; end = frame.new.end } }
    ensures turns { frame.new.turns ≡ frame.old.turns }
    ensures made { frame.new.made ≡ frame.old.made }
{
    let target = target_at(&frame.locals, q);
    set_local(frame, p, Value::Ref(target));
}

/// `p = null;`
pub fn run_null(p: u32, frame: &mut Frame, heap: &Heap)
    requires going { frame.old.end ≡ None }
    ensures going { frame.new.end ≡ None }
    ensures gives { (cx : Context) → step cx (Stmt-F.Null p) (state_of frame.old heap.now) ≡ record { state = state_of frame.new heap.now; end = frame.new.end } }
    ensures turns { frame.new.turns ≡ frame.old.turns }
    ensures made { frame.new.made ≡ frame.old.made }
{
    set_local(frame, p, Value::Ref(None));
}

/// `p = q.f;`, where the field holds a reference
pub fn run_follow(p: u32, q: u32, f: u32, frame: &mut Frame, heap: &Heap) -> bool
    requires going { frame.old.end ≡ None }
    ensures result { result ≡ is_none frame.new.end }
    ensures gives { (cx : Context) → step cx (Stmt-F.Follow p q f) (state_of frame.old heap.now) ≡ record { state = state_of frame.new heap.now; end = frame.new.end } }
    ensures turns { frame.new.turns ≡ frame.old.turns }
    ensures made { frame.new.made ≡ frame.old.made }
{
    match target_at(&frame.locals, q) {
        None => end_with(frame, End::Null),
        Some(name) => {
            let target = target_held(field_of(heap, name, f));
            match sealed_end(heap, target) {
                Some(sealed) => end_with(frame, sealed),
                None => {
                    set_local(frame, p, Value::Ref(target));
                    true
                }
            }
        }
    }
}

/// `p = new K;`
pub fn run_new(
    source: &Module,
    task: Task,
    p: u32,
    kind: u32,
    frame: &mut Frame,
    heap: &mut Heap,
) -> bool
    requires start { HasStart source.now }
    requires ticket { 0 < task.ticket }
    requires room { HasRoom task frame.old heap.old }
    requires going { frame.old.end ≡ None }
    ensures result { result ≡ is_none frame.new.end }
    ensures gives { step (context_of source.now task) (Stmt-F.New p kind) (state_of frame.old heap.old) ≡ record { state = state_of frame.new heap.new; end = frame.new.end } }
    ensures turns { frame.new.turns ≡ frame.old.turns }
    ensures room { HasRoom task frame.new heap.new }
    ensures same_room { heap.new.room ≡ heap.old.room }
    ensures grows { Grows heap.old.objects heap.new.objects frame.old.made frame.new.made }
{
    if frame.made >= task.allocs {
        return end_with(frame, End::Quota);
    }
    frame.made += 1;
    let name = Name {
        ticket: task.ticket,
        index: frame.made,
    };
    heap.put(name, new_object(source, kind));
    set_local(frame, p, Value::Ref(Some(name)));
    true
}

/// `q.f = p;`, where the field holds a reference
pub fn run_link(q: u32, f: u32, p: u32, frame: &mut Frame, heap: &mut Heap) -> bool
    requires going { frame.old.end ≡ None }
    ensures result { result ≡ is_none frame.new.end }
    ensures gives { (cx : Context) → step cx (Stmt-F.Link q f p) (state_of frame.old heap.old) ≡ record { state = state_of frame.new heap.new; end = frame.new.end } }
    ensures turns { frame.new.turns ≡ frame.old.turns }
    ensures made { frame.new.made ≡ frame.old.made }
    ensures len { finite.len heap.new.objects ≡ finite.len heap.old.objects }
    ensures grows { Grows heap.old.objects heap.new.objects 0 0 }
    ensures room { heap.new.room ≡ heap.old.room }
{
    let target = target_at(&frame.locals, p);
    link(q, f, target, frame, heap)
}

/// `q.f = null;`
pub fn run_cut(q: u32, f: u32, frame: &mut Frame, heap: &mut Heap) -> bool
    requires going { frame.old.end ≡ None }
    ensures result { result ≡ is_none frame.new.end }
    ensures gives { (cx : Context) → step cx (Stmt-F.Cut q f) (state_of frame.old heap.old) ≡ record { state = state_of frame.new heap.new; end = frame.new.end } }
    ensures turns { frame.new.turns ≡ frame.old.turns }
    ensures made { frame.new.made ≡ frame.old.made }
    ensures len { finite.len heap.new.objects ≡ finite.len heap.old.objects }
    ensures grows { Grows heap.old.objects heap.new.objects 0 0 }
    ensures room { heap.new.room ≡ heap.old.room }
{
    link(q, f, None, frame, heap)
}

// Writes a reference into a field, by the target that the field gets.
#[inline(always)]
fn link(q: u32, f: u32, target: Option<Name>, frame: &mut Frame, heap: &mut Heap) -> bool
    requires going { frame.old.end ≡ None }
    ensures result { result ≡ is_none frame.new.end }
    ensures gives { links_to q f target (state_of frame.old heap.old) ≡ record { state = state_of frame.new heap.new; end = frame.new.end } }
    ensures turns { frame.new.turns ≡ frame.old.turns }
    ensures made { frame.new.made ≡ frame.old.made }
    ensures len { finite.len heap.new.objects ≡ finite.len heap.old.objects }
    ensures grows { Grows heap.old.objects heap.new.objects 0 0 }
    ensures room { heap.new.room ≡ heap.old.room }
{
    match target_at(&frame.locals, q) {
        None => end_with(frame, End::Null),
        Some(name) => match sealed_end_at(heap, name, f) {
            Some(sealed) => end_with(frame, sealed),
            None => {
                heap.set_field(name, f as usize, Value::Ref(target));
                true
            }
        },
    }
}

/// `emit e;`
pub fn run_emit(e: &Expr, frame: &mut Frame, heap: &Heap) -> bool
    requires going { frame.old.end ≡ None }
    ensures result { result ≡ is_none frame.new.end }
    ensures gives { (cx : Context) → step cx (Stmt-F.Emit e.now) (state_of frame.old heap.now) ≡ record { state = state_of frame.new heap.now; end = frame.new.end } }
    ensures turns { frame.new.turns ≡ frame.old.turns }
    ensures made { frame.new.made ≡ frame.old.made }
{
    match evaluate(e, &frame.locals) {
        Err(fault) => end_with(frame, end_of_fault(fault)),
        Ok(_) if frame.emitted.is_full() => end_with(frame, End::Emits),
        Ok(n) => {
            frame.emitted.push(n);
            true
        }
    }
}

/// `return e;`
pub fn run_return(e: &Expr, frame: &mut Frame, heap: &Heap) -> bool
    requires going { frame.old.end ≡ None }
    ensures result { result ≡ is_none frame.new.end }
    ensures gives { (cx : Context) → step cx (Stmt-F.Return e.now) (state_of frame.old heap.now) ≡ record { state = state_of frame.new heap.now; end = frame.new.end } }
    ensures turns { frame.new.turns ≡ frame.old.turns }
    ensures made { frame.new.made ≡ frame.old.made }
{
    match evaluate(e, &frame.locals) {
        Ok(n) => end_with(frame, End::Ok(n)),
        Err(fault) => end_with(frame, end_of_fault(fault)),
    }
}

// The end of following or overwriting a reference to a sealed object, if it refers to one.
#[inline(always)]
fn sealed_end(heap: &Heap, target: Option<Name>) -> Option<End>
    ensures { (s : State) (next : Outcome) → s.objects ≡ heap.now.objects → unless_sealed target s next ≡ (if is_none result then next else record { state = s; end = result }) }
{
    match target {
        Some(name) if heap.is_sealed(name) => Some(End::Sealed(name)),
        _ => None,
    }
}

// The end of overwriting the reference in a field, if it refers to a sealed object. The field is not looked up where no
// object may be sealed.
#[inline(always)]
fn sealed_end_at(heap: &Heap, name: Name, field: u32) -> Option<End>
    ensures { (s : State) (next : Outcome) → s.objects ≡ heap.now.objects → unless_sealed (target_of (field_in s name field)) s next ≡ (if is_none result then next else record { state = s; end = result }) }
{
    if !heap.may_have_sealed() {
        return None;
    }
    sealed_end(heap, target_held(field_of(heap, name, field)))
}

#[inline(always)]
fn target_held(held: Option<Value>) -> Option<Name>
    ensures { result ≡ target_of held }
{
    match held {
        Some(Value::Ref(target)) => target,
        _ => None,
    }
}

fn new_object(source: &Module, kind: u32) -> Obj
    requires { HasStart source.now }
    ensures { result ≡ object_of kind (slice_get source.now.kinds kind) }
{
    match source.kinds.get(kind as usize) {
        Some(declared) => Obj::blank(kind, declared),
        None => Obj {
            kind,
            sealed: false,
            fields: Fields::new(),
        },
    }
}

//! The heap: objects under their names, with what settling has to know of them at hand.

ghost use Rattle.std.specs.Prelude.{◌≡◌, ℕ, false, [], ◌∷◌, ◌+◌, ◌^◌, ◌<◌, ◌≤◌, ◌↔◌, IsTrue, IfOk, OnOk, Some, length, option_and_then, slice_get, count_by, None, if◌then◌else◌};
ghost use Rattle.std.specs.List.{AllByRecursion};
ghost use Rattle.std.specs.FinMap as map;
ghost use Rattle.dl_ir.specs.Heap.{Objects, hidden_count, with_field, blank_object, roots_from, roots_of, start_objects, StandInRow, HasStart, IsHeapOf};
ghost use Rattle.dl_ir.specs.Census.{HasFewFields};
ghost use Rattle.dl_ir.specs.References.{refs, refers_to, is_loose, is_shared, first_name, with_seal};
ghost use Rattle.dl_ir.specs.Meaning.{is_sealed};
ghost use Rattle.dl_ir.specs.Rows.{added};
ghost use Rattle.dl_ir.specs.declared.modules.KindDecl.{KindDecl};
ghost use Rattle.dl_ir.specs.declared.names.Name.{Name};
ghost use Rattle.dl_ir.specs.declared.objects.Obj.{Obj};

use crate::census::Census;
use crate::iterators::HeapIter;
use crate::modules::{KindDecl, Module};
use crate::names::{Name, Value};
use crate::objects::Obj;
use crate::views::{FieldsRef, ObjRef};
use std::alloc::{AllocError, Global};
use std::marker::Model;

// No machine has memory for more objects, and so many have fewer fields than a count can hold.
const MOST_OBJECTS: usize = 1 << 48;

/// Objects under their names, with memory for a number of objects that is chosen when it is made. Beside each object
/// it keeps how many fields refer to it, so that what an operation leaves to be removed or sealed is at hand.
#[derive(Drop)]
pub struct Heap {
    census: Census,
    // Whether a field may refer to an object that is not there.
    may_dangle: bool,
    // Whether an object may be sealed.
    has_sealed: bool,
}

impl Model for Heap {
    ghost use Rattle.dl_ir.specs.Heap.{View};
    ghost use Rattle.dl_ir.specs.Codes.{coded_view};

    ghost Value = { View };

    ghost coded = { coded_view };

    ghost use Rattle.dl_ir.specs.Census.{IsKnown};

    ghost view = { λ h. record { objects = h.census.objects.rows; room = h.census.objects.room } };

    ghost invariant = { λ h. IsKnown h.census h.may_dangle h.has_sealed };
}

impl Heap {
    /// An empty heap with memory for so many objects.
    pub fn new(alloc: Global, room: usize) -> Result<Heap, AllocError>
        ensures { IfOk result (λ h. h ≡ record { objects = map.empty; room = room }) }
    {
        if room > MOST_OBJECTS {
            return Err(AllocError);
        }
        Ok(Heap {
            census: Census::new(alloc, room)?,
            may_dangle: false,
            has_sealed: false,
        })
    }

    /// The start heap of a module, with memory for so many hidden objects.
    pub fn start(alloc: Global, declared: &Module, places: u32) -> Result<Heap, AllocError>
        requires { HasStart declared.now }
        ensures start { IfOk result (λ h. h ≡ record { objects = start_objects declared.now; room = map.len (start_objects declared.now) + places }) }
        ensures of_module { IfOk result (λ h. IsHeapOf declared.now h.objects) }
    {
        let roots = root_count(declared.kinds.as_slice());
        let mut heap = Heap::new(alloc, roots + places as usize)?;
        add_roots(declared.kinds.as_slice(), &mut heap);
        Ok(heap)
    }

    /// The object with this name, if there is one.
    #[inline(always)]
    pub fn get(&self, name: Name) -> Option<ObjRef<'_>>
        ensures { result ≡ map.get self.now.objects name }
    {
        self.census.get(name)
    }

    /// The value of a field of an object, if the object is there and has the field.
    #[inline(always)]
    pub fn field(&self, name: Name, at: usize) -> Option<Value>
        ensures { result ≡ option_and_then (λ (object : Obj). slice_get object.fields at) (map.get self.now.objects name) }
    {
        self.census.field(name, at)
    }

    /// Whether the object with this name is sealed. It is not looked up where no object may be.
    #[inline(always)]
    pub fn is_sealed(&self, name: Name) -> bool
        ensures { result ≡ is_sealed (map.get self.now.objects name) }
    {
        if !self.has_sealed {
            return false;
        }
        match self.census.get(name) {
            Some(object) => object.is_sealed(),
            None => false,
        }
    }

    /// Whether an object may be sealed. Where it answers no, none is.
    #[inline(always)]
    pub fn may_have_sealed(&self) -> bool
        ensures { result ≡ false → (name : Name) → is_sealed (map.get self.now.objects name) ≡ false }
    {
        self.has_sealed
    }

    /// The number of fields that refer to the object of this name. It is looked up, and counted only where there is
    /// no such object and some field may refer to an object that is not there.
    pub fn refs(&self, name: Name) -> u64
        ensures count { result ≡ refs self.now.objects name }
        ensures small { result ≤ 2 ^ 52 }
    {
        match self.census.count(name) {
            Some(count) => count,
            None => self.refs_to_absent(name),
        }
    }

    // The number of fields that refer to a name that no object has.
    fn refs_to_absent(&self, name: Name) -> u64
        requires { map.get self.now.objects name ≡ None }
        ensures count { result ≡ refs self.now.objects name }
        ensures small { result ≤ 2 ^ 52 }
    {
        if self.may_dangle {
            fields_that_refer(&self.census, name)
        } else {
            0
        }
    }

    /// Writes a field of an object. Nothing changes where there is no such object or field.
    #[inline(always)]
    pub fn set_field(&mut self, name: Name, field: usize, value: Value)
        ensures { self.new ≡ record self.old { objects = with_field self.old.objects name field value } }
    {
        if let Some(before) = self.census.replace_field(name, field, value) {
            self.census.lose(before);
            let there = self.census.gain(value);
            self.may_dangle |= !there;
        }
    }

    /// Puts an object under a name, in the place of any other. It takes no memory.
    pub fn put(&mut self, name: Name, object: Obj)
        requires { map.len self.old.objects < self.old.room }
        ensures { self.new ≡ record self.old { objects = map.insert self.old.objects name object } }
    {
        self.remove(name);
        self.enter(name, object);
    }

    // Puts an object under a name that no object has.
    fn enter(&mut self, name: Name, object: Obj)
        requires absent { map.get self.old.objects name ≡ None }
        requires room { map.len self.old.objects < self.old.room }
        ensures { self.new ≡ record self.old { objects = map.insert self.old.objects name object } }
    {
        let refs = self.refs_to_absent(name);
        let there = self.census.gain_all(&object.fields);
        let own = count_in(&object.fields.view(), name);
        self.has_sealed |= object.sealed;
        self.census.enter(name, object, refs + own);
        self.may_dangle |= !there;
    }

    /// Removes the object with this name, if there is one.
    pub fn remove(&mut self, name: Name)
        ensures { self.new ≡ record self.old { objects = map.remove self.old.objects name } }
    {
        if let Some(row) = self.census.take(name) {
            self.census.lose_all(&row.object.fields);
            self.may_dangle |= row.refs > 0;
        }
    }

    /// Seals the object with this name, if there is one.
    pub fn seal(&mut self, name: Name)
        ensures { self.new ≡ record self.old { objects = with_seal self.old.objects name } }
    {
        self.census.seal(name);
        self.has_sealed = true;
    }

    /// The least name of a hidden unsealed object to which no field refers, if there is one.
    pub fn first_loose(&self) -> Option<Name>
        ensures { result ≡ first_name (is_loose self.now.objects) self.now.objects }
    {
        self.census.first_loose()
    }

    /// The least name of a hidden unsealed object to which two fields or more refer, if there is one.
    pub fn first_shared(&self) -> Option<Name>
        ensures { result ≡ first_name (is_shared self.now.objects) self.now.objects }
    {
        self.census.first_shared()
    }

    /// The names of the objects with the objects, in the order of names.
    pub fn iter(&self) -> HeapIter<'_>
        ensures { result ≡ map.entries self.now.objects }
    {
        self.census.iter()
    }

    /// The number of objects.
    pub fn len(&self) -> usize
        ensures { result ≡ map.len self.now.objects }
    {
        self.census.len()
    }

    /// The number of hidden objects. It looks at each name.
    pub fn hidden_len(&self) -> usize
        ensures { result ≡ hidden_count self.now.objects }
    {
        hidden_in(&self.census)
    }

    pub fn is_empty(&self) -> bool
        ensures { IsTrue result ↔ (map.len self.now.objects ≡ 0) }
    {
        self.len() == 0
    }

    /// Whether there is memory for so many more objects.
    pub fn has_room_for(&self, more: usize) -> bool
        ensures { IsTrue result ↔ (map.len self.now.objects + more ≤ self.now.room) }
    {
        self.census.has_room_for(more)
    }

    /// Whether there is no memory for another object.
    pub fn is_full(&self) -> bool
        ensures { IsTrue result ↔ (self.now.room ≤ map.len self.now.objects) }
    {
        self.census.is_full()
    }
}

fn one_if(holds: bool) -> usize
    ensures { result ≡ (if holds then 1 else 0) }
{
    if holds { 1 } else { 0 }
}

// The number of hidden objects, counted.
fn hidden_in(census: &Census) -> usize
    requires { map.len census.now.objects.rows ≤ 2 ^ 48 }
    ensures { result ≡ hidden_count census.now.objects.rows }
{
    let mut hidden = 0;
    for (name, _) in census.iter() {
        hidden += one_if(name.ticket > 0);
    }
    hidden
}

// The number of fields that refer to this name, counted.
fn fields_that_refer(census: &Census, name: Name) -> u64
    requires fields { HasFewFields census.now.objects.rows }
    requires few { map.len census.now.objects.rows ≤ 2 ^ 48 }
    ensures { result ≡ refs census.now.objects.rows name }
{
    let mut count = 0;
    for (_, object) in census.iter() {
        count += count_in(&object.fields(), name);
    }
    count
}

// The number of these fields that refer to this name.
fn count_in(fields: &FieldsRef<'_>, name: Name) -> u64
    ensures { result ≡ count_by (refers_to name) fields.now }
{
    let mut count = 0;
    for value in fields.iter() {
        if refers_to(value, name) {
            count += 1;
        }
    }
    count
}

fn refers_to(value: Value, name: Name) -> bool
    ensures { result ≡ refers_to name value }
{
    match value {
        Value::Ref(Some(target)) => name.ticket == target.ticket && name.index == target.index,
        _ => false,
    }
}

// The number of roots of these kinds.
fn root_count(kinds: &[KindDecl]) -> usize
    requires { StandInRow 0 kinds.now }
    ensures { result ≡ length (roots_of 0 kinds.now) }
{
    let mut count = 0;
    for declared in kinds {
        count += declared.count as usize;
    }
    count
}

// Adds the roots of the kinds, in order.
fn add_roots(kinds: &[KindDecl], heap: &mut Heap)
    requires few_kinds { length kinds.now ≤ 16 }
    requires few_fields { AllByRecursion (λ (k : KindDecl). length k.fields ≤ 16) kinds.now }
    requires row { StandInRow 0 kinds.now }
    requires room { map.len heap.old.objects + length (roots_of 0 kinds.now) ≤ heap.old.room }
    ensures { heap.new ≡ record heap.old { objects = added heap.old.objects (roots_of 0 kinds.now) } }
{
    for (kind, declared) in kinds.iter().enumerate() {
        add_roots_of(kind as u32, declared, heap);
    }
}

// Adds the roots of a kind.
fn add_roots_of(kind: u32, declared: &KindDecl, heap: &mut Heap)
    requires few_fields { length declared.now.fields ≤ 16 }
    requires numbers { declared.now.first + declared.now.count < 2 ^ 32 }
    requires room { map.len heap.old.objects + declared.now.count ≤ heap.old.room }
    ensures { heap.new ≡ record heap.old { objects = added heap.old.objects (roots_from declared.now.first declared.now.count (blank_object kind declared.now)) } }
{
    for i in 0..declared.count {
        let name = Name {
            ticket: 0,
            index: declared.first + i,
        };
        heap.put(name, Obj::blank(kind, declared));
    }
}

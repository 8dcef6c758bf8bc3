//! The objects of a heap with what is counted and filed beside them.

ghost use Rattle.std.specs.Prelude.{◌≡◌, ◌&&◌, ◌↔◌, ◌+◌, ◌^◌, ◌<◌, ◌≤◌, ℕ, true, false, Some, None, IfOk, IsTrue, OnSome, length, count_by, ◌∷◌, [], nat_lt, slice_get, option_and_then, if◌then◌else◌};
ghost use Rattle.std.specs.Option.{option_map};
ghost use Rattle.std.specs.Ordering.{eq_by_cmp};
ghost use Rattle.std.specs.FinMap as map;
ghost use Rattle.dl_ir.specs.Census.{open_at, marked, with_count, IsFiled, Gains, Loses, AreThere};
ghost use Rattle.dl_ir.specs.Heap.{name_cmp, with_field};
ghost use Rattle.dl_ir.specs.References.{refers_to, target_in, with_seal};
ghost use Rattle.dl_ir.specs.declared.names.Name.{Name};
ghost use Rattle.dl_ir.specs.declared.objects.Obj.{Obj};
ghost use Rattle.dl_ir.specs.declared.rows.Row.{Row};

use crate::iterators::HeapIter;
use crate::marks::Marks;
use crate::names::{Name, Value};
use crate::objects::{Fields, Obj};
use crate::rows::Row;
use crate::stores::Store;
use crate::views::ObjRef;
use std::alloc::{AllocError, Global};
use std::marker::Model;

/// The objects of a heap, each with the number of fields that refer to it, and the names of those that settling changes:
/// the loose ones, to which no field refers, and the shared ones, to which two or more do.
#[derive(Drop)]
pub struct Census {
    rows: Store,
    loose: Marks,
    shared: Marks,
}

impl Model for Census {
    ghost use Rattle.dl_ir.specs.Counted.{Counted, coded_counted, counted_by};

    ghost Value = { Counted };

    ghost coded = { coded_counted };

    ghost view = { λ c. counted_by c.rows c.loose c.shared };
}

impl Census {
    /// A census of no objects, with memory for so many.
    pub fn new(alloc: Global, room: usize) -> Result<Census, AllocError>
        ensures objects { IfOk result (λ census. census.objects ≡ record { rows = map.empty; room = room }) }
        ensures counts { IfOk result (λ census. census.counts ≡ record { rows = map.empty; room = room }) }
        ensures filed { IfOk result IsFiled }
    {
        Ok(Census {
            rows: Store::new(alloc, room)?,
            loose: Marks::new(alloc, room)?,
            shared: Marks::new(alloc, room)?,
        })
    }

    /// The object with this name, if there is one.
    #[inline(always)]
    pub fn get(&self, name: Name) -> Option<ObjRef<'_>>
        ensures { result ≡ map.get self.now.objects.rows name }
    {
        self.rows.get(name)
    }

    /// The value of a field of an object, if the object is there and has the field.
    #[inline(always)]
    pub fn field(&self, name: Name, at: usize) -> Option<Value>
        ensures { result ≡ option_and_then (λ (object : Obj). slice_get object.fields at) (map.get self.now.objects.rows name) }
    {
        self.rows.field(name, at)
    }

    /// The number of fields that refer to the object with this name, if there is one.
    #[inline(always)]
    pub fn count(&self, name: Name) -> Option<u64>
        ensures { result ≡ map.get self.now.counts.rows name }
    {
        self.rows.count(name)
    }

    /// The least name of a loose object, if there is one.
    pub fn first_loose(&self) -> Option<Name>
        ensures { result ≡ option_map (λ (e : Name × Unit {0}). e.0) (slice_get (map.entries self.now.loose.rows) 0) }
    {
        self.loose.first_name()
    }

    /// The least name of a shared object, if there is one.
    pub fn first_shared(&self) -> Option<Name>
        ensures { result ≡ option_map (λ (e : Name × Unit {0}). e.0) (slice_get (map.entries self.now.shared.rows) 0) }
    {
        self.shared.first_name()
    }

    /// The names of the objects with the objects, in the order of names.
    pub fn iter(&self) -> HeapIter<'_>
        ensures { result ≡ map.entries self.now.objects.rows }
    {
        self.rows.iter()
    }

    /// The number of objects.
    pub fn len(&self) -> usize
        ensures { result ≡ map.len self.now.objects.rows }
    {
        self.rows.len()
    }

    /// Whether there is memory for so many more objects.
    pub fn has_room_for(&self, more: usize) -> bool
        ensures { IsTrue result ↔ (map.len self.now.objects.rows + more ≤ self.now.objects.room) }
    {
        self.rows.has_room_for(more)
    }

    /// Whether there is no memory for another object.
    pub fn is_full(&self) -> bool
        ensures { IsTrue result ↔ (self.now.objects.room ≤ map.len self.now.objects.rows) }
    {
        self.rows.is_full()
    }

    /// Writes a field of an object, and answers the value that it had. Nothing changes where there is no such object or
    /// field. What the values refer to stays as it was counted.
    #[inline(always)]
    pub fn replace_field(&mut self, name: Name, field: usize, value: Value) -> Option<Value>
        ensures before { result ≡ option_and_then (λ (object : Obj). slice_get object.fields field) (map.get self.old.objects.rows name) }
        ensures written { self.new ≡ record self.old { objects = record self.old.objects { rows = with_field self.old.objects.rows name field value } } }
    {
        self.rows.replace_field(name, field, value)
    }

    /// Seals an object. Nothing changes where there is no such object.
    pub fn seal(&mut self, name: Name)
        requires filed { IsFiled self.old }
        ensures filed { IsFiled self.new }
        ensures counts { self.new.counts ≡ self.old.counts }
        ensures objects { self.new.objects ≡ record self.old.objects { rows = with_seal self.old.objects.rows name } }
    {
        self.rows.seal(name);
        self.loose.remove(name);
        self.shared.remove(name);
    }

    /// Puts in an object that is not there, with the number of fields that refer to it. What its own fields refer to
    /// stays as it was counted.
    pub fn enter(&mut self, name: Name, object: Obj, refs: u64)
        requires filed { IsFiled self.old }
        requires absent { map.get self.old.objects.rows name ≡ None }
        requires room { map.len self.old.objects.rows < self.old.objects.room }
        ensures filed { IsFiled self.new }
        ensures counts { self.new.counts.rows ≡ map.insert self.old.counts.rows name refs }
        ensures objects { self.new.objects ≡ record self.old.objects { rows = map.insert self.old.objects.rows name object } }
    {
        let is_open = is_open(name, object.sealed);
        self.rows.enter(name, Row { refs, object });
        mark(&mut self.loose, name, is_open, refs == 0);
        mark(&mut self.shared, name, is_open, refs >= 2);
    }

    // Files the name of an object that had another number before.
    #[inline(always)]
    fn refile(&mut self, name: Name, is_open: bool, before: u64, count: u64)
        requires filed { IsFiled (with_count name before self.old) }
        requires now { map.get self.old.counts.rows name ≡ Some count }
        requires opened { open_at name (map.get self.old.objects.rows name) ≡ is_open }
        ensures filed { IsFiled self.new }
        ensures counts { self.new.counts ≡ self.old.counts }
        ensures objects { self.new.objects ≡ self.old.objects }
    {
        remark(&mut self.loose, name, is_open, before == 0, count == 0);
        remark(&mut self.shared, name, is_open, before >= 2, count >= 2);
    }

    /// Counts a value that a field holds now. Answers whether what it refers to is there.
    #[inline(always)]
    pub fn gain(&mut self, value: Value) -> bool
        requires filed { IsFiled self.old }
        requires few { (name : Name) (count : ℕ) → map.get self.old.counts.rows name ≡ Some count → count + 1 < 2 ^ 64 }
        ensures filed { IsFiled self.new }
        ensures counts { Gains self.old.counts.rows self.new.counts.rows (value ∷ []) }
        ensures objects { self.new.objects ≡ self.old.objects }
        ensures there { result ≡ true → AreThere self.old.objects.rows (value ∷ []) }
    {
        let Some(target) = target_in(value) else {
            return true;
        };
        match self.rows.recount(target, 1, 0) {
            Some((before, sealed)) => {
                self.refile(target, is_open(target, sealed), before, before + 1);
                true
            }
            None => false,
        }
    }

    /// Counts a value no more that a field has held.
    #[inline(always)]
    pub fn lose(&mut self, value: Value)
        requires filed { IsFiled self.old }
        ensures filed { IsFiled self.new }
        ensures counts { Loses self.old.counts.rows self.new.counts.rows (value ∷ []) }
        ensures objects { self.new.objects ≡ self.old.objects }
    {
        let Some(target) = target_in(value) else {
            return;
        };
        if let Some((before, sealed)) = self.rows.recount(target, 0, 1) {
            self.refile(
                target,
                is_open(target, sealed),
                before,
                before.saturating_sub(1),
            );
        }
    }

    /// Counts the values that an object's fields hold now. Answers whether all that they refer to is there.
    pub fn gain_all(&mut self, fields: &Fields) -> bool
        requires filed { IsFiled self.old }
        requires few { (name : Name) (count : ℕ) → map.get self.old.counts.rows name ≡ Some count → count + 16 < 2 ^ 64 }
        ensures filed { IsFiled self.new }
        ensures sixteen { length fields.now ≤ 16 }
        ensures counts { Gains self.old.counts.rows self.new.counts.rows fields.now }
        ensures objects { self.new.objects ≡ self.old.objects }
        ensures there { result ≡ true → AreThere self.old.objects.rows fields.now }
    {
        let mut all = true;
        for value in fields.iter() {
            let there = self.gain(value);
            all = all && there;
        }
        all
    }

    /// Counts the values no more that an object's fields have held.
    pub fn lose_all(&mut self, fields: &Fields)
        requires filed { IsFiled self.old }
        ensures filed { IsFiled self.new }
        ensures counts { Loses self.old.counts.rows self.new.counts.rows fields.now }
        ensures objects { self.new.objects ≡ self.old.objects }
    {
        for value in fields.iter() {
            self.lose(value);
        }
    }

    /// Takes an object out with the number of fields that refer to it, and leaves what its own fields refer to as it was
    /// counted.
    pub fn take(&mut self, name: Name) -> Option<Row>
        requires filed { IsFiled self.old }
        ensures filed { IsFiled self.new }
        ensures taken { option_map (λ (row : Row). row.object) result ≡ map.get self.old.objects.rows name }
        ensures refs { option_map (λ (row : Row). row.refs) result ≡ map.get self.old.counts.rows name }
        ensures counts { self.new.counts.rows ≡ map.remove self.old.counts.rows name }
        ensures objects { self.new.objects ≡ record self.old.objects { rows = map.remove self.old.objects.rows name } }
    {
        let row = self.rows.remove(name)?;
        self.loose.remove(name);
        self.shared.remove(name);
        Some(row)
    }
}

// What a value refers to, if it does.
fn target_in(value: Value) -> Option<Name>
    ensures { result ≡ target_in value }
{
    match value {
        Value::Ref(target) => target,
        Value::Int(_) => None,
    }
}

// Whether an object of this name is hidden and unsealed.
fn is_open(name: Name, sealed: bool) -> bool
    ensures { result ≡ (nat_lt 0 name.ticket && (if sealed then false else true)) }
{
    name.ticket > 0 && !sealed
}

// Puts a name among others where it is of an open object that fits, or else takes it away.
#[inline(always)]
fn mark(names: &mut Marks, name: Name, is_open: bool, fits: bool)
    requires { map.get names.old.rows name ≡ None → map.len names.old.rows < names.old.room }
    ensures { names.new ≡ record names.old { rows = marked (is_open && fits) names.old.rows name } }
{
    if is_open && fits {
        names.put(name);
    } else {
        names.remove(name);
    }
}

// Marks a name where what is told of its count changes.
#[inline(always)]
fn remark(names: &mut Marks, name: Name, is_open: bool, fitted: bool, fits: bool)
    requires before { map.contains_key names.old.rows name ≡ (is_open && fitted) }
    requires room { map.get names.old.rows name ≡ None → map.len names.old.rows < names.old.room }
    ensures here { map.contains_key names.new.rows name ≡ (is_open && fits) }
    ensures beside { (n : Name) → eq_by_cmp name_cmp n name ≡ false → map.contains_key names.new.rows n ≡ map.contains_key names.old.rows n }
    ensures room { names.new.room ≡ names.old.room }
{
    if fitted != fits {
        mark(names, name, is_open, fits);
    }
}

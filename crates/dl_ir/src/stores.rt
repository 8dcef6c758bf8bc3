//! The rows of a heap in memory: what is kept of each object, and aside what only objects of many fields have.

ghost use Rattle.std.specs.Prelude.{◌≡◌, ◌+◌, ◌^◌, ◌<◌, ◌≤◌, ◌↔◌, IsTrue, IfOk, None, Some, Bool, length, map as list_map, option_and_then, slice_get, if◌then◌else◌};
ghost use Rattle.std.specs.Option.{option_map};
ghost use Rattle.std.specs.FinMap as map;
ghost use Rattle.dl_ir.specs.Cells.{value_in};
ghost use Rattle.dl_ir.specs.Counted.{object_of, refs_of, objects_along, recounted_row, row_with, sealed_row};
ghost use Rattle.dl_ir.specs.Joined.{aside};
ghost use Rattle.dl_ir.specs.Rows.{changed};
ghost use Rattle.dl_ir.specs.declared.rows.Row.{Row};

use crate::cells::Cell;
use crate::iterators::HeapIter;
use crate::names::{Name, Value};
use crate::objects::{Fields, Obj};
use crate::parts::Far;
use crate::rows::{Head, Row};
use crate::tables::Table;
use crate::views::ObjRef;
use std::alloc::{AllocError, Global};
use std::marker::Model;

/// Objects under their names, each with the number of fields that refer to it. The values of an object's first four fields
/// lie beside that number, so that objects of few fields take little memory; those behind them stand in a table of their own.
#[derive(Drop)]
pub struct Store {
    heads: Table<Head>,
    tails: Table<Far>,
}

impl Model for Store {
    ghost use Rattle.dl_ir.specs.declared.rows.Row.{Row};
    ghost use Rattle.dl_ir.specs.Codes.{coded_row};
    ghost use Rattle.dl_ir.specs.Joined.{joined, IsStored};
    ghost use Rattle.dl_ir.specs.Rows.{Rows, coded_rows};

    ghost Value = { Rows Row };

    ghost coded = { coded_rows coded_row };

    ghost view = { λ s. record { rows = joined s.heads.rows s.tails.rows; room = s.heads.room } };

    ghost invariant = { λ s. IsStored s.heads s.tails };
}

impl Store {
    /// An empty store with memory for so many objects.
    pub fn new(alloc: Global, room: usize) -> Result<Store, AllocError>
        ensures { IfOk result (λ s. s ≡ record { rows = map.empty; room = room }) }
    {
        Ok(Store {
            heads: Table::new(alloc, room)?,
            tails: Table::new(alloc, room)?,
        })
    }

    /// The object with this name, if there is one.
    #[inline(always)]
    pub fn get(&self, name: Name) -> Option<ObjRef<'_>>
        ensures { result ≡ option_map object_of (map.get self.now.rows name) }
    {
        match self.heads.get(name) {
            Some(head) => Some(ObjRef {
                kind: head.kind,
                sealed: head.sealed,
                near: head.near.held(),
                far: far_of(&self.tails, name, head.wide),
            }),
            None => None,
        }
    }

    /// The value of a field of an object, if the object is there and has the field.
    #[inline(always)]
    pub fn field(&self, name: Name, at: usize) -> Option<Value>
        ensures { result ≡ option_and_then (λ (row : Row). slice_get row.object.fields at) (map.get self.now.rows name) }
    {
        if at < 4 {
            match self.heads.get(name) {
                Some(head) => head.near.get(at),
                None => None,
            }
        } else {
            match self.tails.get(name) {
                Some(far) => far.get(at - 4),
                None => None,
            }
        }
    }

    /// The number of fields that refer to the object with this name, if there is one.
    #[inline(always)]
    pub fn count(&self, name: Name) -> Option<u64>
        ensures { result ≡ option_map refs_of (map.get self.now.rows name) }
    {
        match self.heads.get(name) {
            Some(head) => Some(head.refs),
            None => None,
        }
    }

    /// The names of the objects with the objects, in the order of names.
    pub fn iter(&self) -> HeapIter<'_>
        ensures { result ≡ objects_along (map.entries self.now.rows) }
    {
        HeapIter {
            heads: self.heads.iter(),
            tails: &self.tails,
        }
    }

    /// The number of objects.
    pub fn len(&self) -> usize
        ensures { result ≡ map.len self.now.rows }
    {
        self.heads.len()
    }

    /// Whether there is memory for so many more objects.
    pub fn has_room_for(&self, more: usize) -> bool
        ensures { IsTrue result ↔ (map.len self.now.rows + more ≤ self.now.room) }
    {
        self.heads.has_room_for(more)
    }

    /// Whether there is no memory for another object.
    pub fn is_full(&self) -> bool
        ensures { IsTrue result ↔ (self.now.room ≤ map.len self.now.rows) }
    {
        self.heads.is_full()
    }

    /// Writes a field of an object, and answers the value that it had. Nothing changes where there is no such object or
    /// field.
    #[inline(always)]
    pub fn replace_field(&mut self, name: Name, field: usize, value: Value) -> Option<Value>
        ensures before { result ≡ option_and_then (λ (row : Row). slice_get row.object.fields field) (map.get self.old.rows name) }
        ensures written { self.new ≡ record self.old { rows = changed self.old.rows name (row_with field value) } }
    {
        if field < 4 {
            self.heads.replace_near(name, field, value)
        } else {
            self.tails.replace_far(name, field - 4, value)
        }
    }

    /// Seals an object. Nothing changes where there is no such object.
    pub fn seal(&mut self, name: Name)
        ensures { self.new ≡ record self.old { rows = changed self.old.rows name sealed_row } }
    {
        self.heads.seal(name);
    }

    /// Adds to the number of an object and then takes away from it, down to 0, and answers what it was and whether the
    /// object is sealed. Nothing changes where there is no such object.
    #[inline(always)]
    pub fn recount(&mut self, name: Name, more: u64, fewer: u64) -> Option<(u64, bool)>
        requires { (row : Row) → map.get self.old.rows name ≡ Some row → 0 < more → row.refs + more < 2 ^ 64 }
        ensures before { result ≡ option_map (λ (row : Row). (row.refs, row.object.sealed)) (map.get self.old.rows name) }
        ensures recounted { self.new ≡ record self.old { rows = changed self.old.rows name (recounted_row more fewer) } }
    {
        self.heads.recount(name, more, fewer)
    }

    /// Puts in an object under a name that none has, with the number of fields that refer to it. It takes no memory.
    pub fn enter(&mut self, name: Name, row: Row)
        requires absent { map.get self.old.rows name ≡ None }
        requires room { map.len self.old.rows < self.old.room }
        ensures { self.new ≡ record self.old { rows = map.insert self.old.rows name row } }
    {
        let object = row.object;
        let (near, far) = object.fields.into_parts();
        let wide = far.len() > 0;
        self.heads.put(
            name,
            Head {
                refs: row.refs,
                kind: object.kind,
                sealed: object.sealed,
                wide,
                near,
            },
        );
        if wide {
            self.tails.put(name, far);
        }
    }

    /// Takes an object out, if it is there, with the number of fields that refer to it.
    pub fn remove(&mut self, name: Name) -> Option<Row>
        ensures value { result ≡ map.get self.old.rows name }
        ensures left { self.new ≡ record self.old { rows = map.remove self.old.rows name } }
    {
        let head = self.heads.remove(name)?;
        let far = take_far(&mut self.tails, name, head.wide);
        Some(Row {
            refs: head.refs,
            object: Obj {
                kind: head.kind,
                sealed: head.sealed,
                fields: Fields::of_parts(head.near, far),
            },
        })
    }
}

// The cells of what stands aside under a name, where something does.
#[inline(always)]
pub fn far_of<'a>(tails: &'a Table<Far>, name: Name, wide: bool) -> &'a [Cell]
    ensures value { list_map value_in result.now ≡ aside wide (map.get tails.now.rows name) }
    ensures few { length result.now ≤ 12 }
{
    if wide && let Some(far) = tails.get(name) {
        return far.held();
    }
    &[]
}

// Takes what stands aside under a name, where something does.
fn take_far(tails: &mut Table<Far>, name: Name, wide: bool) -> Far
    ensures value { result ≡ aside wide (map.get tails.old.rows name) }
    ensures left { tails.new ≡ (if wide then record tails.old { rows = map.remove tails.old.rows name } else tails.old) }
{
    if wide && let Some(far) = tails.remove(name) {
        return far;
    }
    Far::new()
}

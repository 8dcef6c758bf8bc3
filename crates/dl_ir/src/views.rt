//! Objects and their fields as a heap shows them.

ghost use Rattle.std.specs.Prelude.{◌≡◌, ◌≤◌, ◌↔◌, ◌++◌, [], IsTrue, length, slice_get};

use crate::cells::{Cell, value_of};
use crate::iterators::FieldsIter;
use crate::names::Value;
use std::marker::Model;

/// The values of the fields of an object in a heap, at most 16, in the order of declaration.
#[derive(Drop)]
pub struct FieldsRef<'a> {
    pub(crate) near: &'a [Cell],
    pub(crate) far: &'a [Cell],
}

impl<'a> Model for FieldsRef<'a> {
    ghost use Rattle.std.specs.Prelude.{List, map, length, ◌++◌, ◌+◌, ◌≤◌};
    ghost use Rattle.std.specs.Coded.{coded_list};
    ghost use Rattle.dl_ir.specs.declared.names.Value.{Value as Held};
    ghost use Rattle.dl_ir.specs.Cells.{value_in};
    ghost use Rattle.dl_ir.specs.Values.{coded_value};

    ghost Value = { List Held };

    ghost coded = { coded_list coded_value };

    ghost view = { λ f. map value_in (f.near.now ++ f.far.now) };

    ghost invariant = { λ f. length f.near.now + length f.far.now ≤ 16 };
}

impl<'a> FieldsRef<'a> {
    /// The value of the field with this number, if there is one.
    #[inline(always)]
    pub fn get(&self, at: usize) -> Option<Value>
        ensures { result ≡ slice_get self.now at }
    {
        match cell_at(self.near, self.far, at) {
            Some(cell) => Some(value_of(cell)),
            None => None,
        }
    }

    pub fn len(&self) -> usize
        ensures value { result ≡ length self.now }
        ensures few { result ≤ 16 }
    {
        self.near.len() + self.far.len()
    }

    pub fn is_empty(&self) -> bool
        ensures { IsTrue result ↔ (self.now ≡ []) }
    {
        self.len() == 0
    }

    /// The values, in order.
    pub fn iter(&self) -> FieldsIter<'a>
        ensures value { result ≡ self.now }
        ensures few { length result ≤ 16 }
    {
        FieldsIter {
            near: self.near,
            far: self.far,
        }
    }
}

// The cell of the field with this number, if there is one.
#[inline(always)]
fn cell_at(near: &[Cell], far: &[Cell], at: usize) -> Option<Cell>
    ensures { result ≡ slice_get (near.now ++ far.now) at }
{
    if at < near.len() {
        Some(near[at])
    } else {
        far.get(at - near.len()).copied()
    }
}

/// An object as a heap shows it.
#[derive(Drop)]
pub struct ObjRef<'a> {
    pub(crate) kind: u32,
    pub(crate) sealed: bool,
    pub(crate) near: &'a [Cell],
    pub(crate) far: &'a [Cell],
}

impl<'a> Model for ObjRef<'a> {
    ghost use Rattle.std.specs.Prelude.{map, length, ◌++◌, ◌+◌, ◌≤◌};
    ghost use Rattle.dl_ir.specs.declared.objects.Obj.{Obj};
    ghost use Rattle.dl_ir.specs.Cells.{value_in};
    ghost use Rattle.dl_ir.specs.Codes.{coded_object};

    ghost Value = { Obj };

    ghost coded = { coded_object };

    ghost view = { λ o. record { kind = o.kind; sealed = o.sealed; fields = map value_in (o.near.now ++ o.far.now) } };

    ghost invariant = { λ o. length o.near.now + length o.far.now ≤ 16 };
}

impl<'a> ObjRef<'a> {
    /// The number of its kind.
    pub fn kind(&self) -> u32
        ensures { result ≡ self.now.kind }
    {
        self.kind
    }

    /// Whether it is sealed, and so stays as it is for good.
    pub fn is_sealed(&self) -> bool
        ensures { result ≡ self.now.sealed }
    {
        self.sealed
    }

    pub fn fields(&self) -> FieldsRef<'a>
        ensures value { result ≡ self.now.fields }
        ensures few { length result ≤ 16 }
    {
        FieldsRef {
            near: self.near,
            far: self.far,
        }
    }
}

//! Objects and their fields.

ghost use Rattle.std.specs.Prelude.{◌≡◌, [], ◌∷◌, ◌++◌, ◌<◌, ◌≤◌, length, slice_get, slice_set, ◌↔◌, IsTrue};
ghost use Rattle.dl_ir.specs.Cells.{IsSplit};
ghost use Rattle.dl_ir.specs.Heap.{blank, blank_fields, blank_object};

use crate::iterators::FieldsIter;
use crate::modules::{FieldDecl, KindDecl, Ty};
use crate::names::Value;
use crate::parts::{Far, Near};
use crate::views::FieldsRef;
use std::marker::Model;

/// The values of an object's fields, at most 16, in the order of declaration. They take no memory of their own.
#[derive(Debug, Drop)]
pub struct Fields {
    near: Near,
    far: Far,
}

impl Model for Fields {
    ghost use Rattle.std.specs.Prelude.{List, ◌++◌};
    ghost use Rattle.std.specs.Coded.{coded_list};
    ghost use Rattle.dl_ir.specs.declared.names.Value.{Value as Held};
    ghost use Rattle.dl_ir.specs.Cells.{IsSplit};
    ghost use Rattle.dl_ir.specs.Values.{coded_value};

    ghost Value = { List Held };

    ghost coded = { coded_list coded_value };

    ghost view = { λ a. a.near ++ a.far };

    ghost invariant = { λ a. IsSplit a.near a.far };
}

impl Fields {
    pub fn new() -> Fields
        ensures { result ≡ [] }
    {
        Fields {
            near: Near::new(),
            far: Far::new(),
        }
    }

    /// Fields as they begin: numbers 0 and references null.
    pub fn blank(fields: &[FieldDecl]) -> Fields
        requires { length fields.now ≤ 16 }
        ensures { result ≡ blank_fields fields.now }
    {
        let mut blanks = Fields::new();
        for field in fields {
            blanks.push(blank_value(field.ty));
        }
        blanks
    }

    /// The fields whose first values are these, with those behind them.
    pub(crate) fn of_parts(near: Near, far: Far) -> Fields
        requires { IsSplit near far }
        ensures { result ≡ near ++ far }
    {
        Fields { near, far }
    }

    /// The first values, and those behind them.
    pub(crate) fn into_parts(self) -> (Near, Far)
        ensures value { result.0 ++ result.1 ≡ self }
        ensures split { IsSplit result.0 result.1 }
    {
        (self.near, self.far)
    }

    /// Adds a field behind the others.
    pub fn push(&mut self, value: Value)
        requires { length self.old < 16 }
        ensures { self.new ≡ self.old ++ value ∷ [] }
    {
        if self.near.len() < 4 {
            self.near.push(value);
        } else {
            self.far.push(value);
        }
    }

    /// The value of the field with this number, if there is one.
    pub fn get(&self, at: usize) -> Option<Value>
        ensures { result ≡ slice_get self.now at }
    {
        self.view().get(at)
    }

    /// Writes the field with this number, if there is one.
    pub fn set(&mut self, at: usize, value: Value)
        ensures { self.new ≡ slice_set self.old at value }
    {
        let near = self.near.len();
        if at < near {
            self.near.replace(at, value);
        } else {
            self.far.replace(at - near, value);
        }
    }

    pub fn len(&self) -> usize
        ensures { result ≡ length self.now }
    {
        self.view().len()
    }

    pub fn is_empty(&self) -> bool
        ensures { IsTrue result ↔ (self.now ≡ []) }
    {
        self.view().is_empty()
    }

    /// The values, in order.
    pub fn iter(&self) -> FieldsIter<'_>
        ensures value { result ≡ self.now }
        ensures few { length result ≤ 16 }
    {
        self.view().iter()
    }

    /// The values as a heap shows those of an object.
    pub fn view(&self) -> FieldsRef<'_>
        ensures { result ≡ self.now }
    {
        FieldsRef {
            near: self.near.held(),
            far: self.far.held(),
        }
    }
}

// The value with which a field of this type begins.
fn blank_value(ty: Ty) -> Value
    ensures { result ≡ blank ty }
{
    match ty {
        Ty::Int => Value::Int(0),
        Ty::Of(_) => Value::Ref(None),
    }
}

/// An object of a heap.
#[derive(Debug, Drop)]
pub struct Obj {
    /// The number of its kind.
    pub kind: u32,
    /// Whether it is sealed, and so stays as it is for good.
    pub sealed: bool,
    pub fields: Fields,
}

impl Obj {
    /// An object of the kind with this number as it begins: unsealed, numbers 0 and references null.
    pub fn blank(kind: u32, declared: &KindDecl) -> Obj
        requires { length declared.now.fields ≤ 16 }
        ensures { result ≡ blank_object kind declared.now }
    {
        Obj {
            kind,
            sealed: false,
            fields: Fields::blank(declared.fields.as_slice()),
        }
    }
}

//! Walks through tables, through heaps, and through the fields of an object.

ghost use Rattle.std.specs.Prelude.{◌≡◌};

use crate::cells::{Cell, value_of};
use crate::names::{Name, Value};
use crate::parts::Far;
use crate::rows::Head;
use crate::stores::far_of;
use crate::tables::Table;
use crate::views::ObjRef;
use std::marker::Model;

/// The names of a table with their values, in the order of names.
#[derive(Drop)]
pub struct TableIter<'a, V> {
    pub(crate) left: &'a [(Name, Option<V>)],
}

impl<'a, V> Model for TableIter<'a, V> {
    ghost use Rattle.std.specs.Prelude.{List};
    ghost use Rattle.dl_ir.specs.declared.names.Name.{Name};
    ghost use Rattle.dl_ir.specs.Places.{present};

    ghost Value = { List (Name × V) };

    ghost view = { λ iter. present iter.left.now };
}

impl<'a, V> Iterator for TableIter<'a, V> {
    ghost use Rattle.std.specs.Prelude.{length};
    ghost use Rattle.std.specs.Iterator.{YieldsFirstBy, at_most};

    type Item = (Name, &'a V);

    ghost next_gives = { YieldsFirstBy (λ entry. (entry.0, entry.1.now)) (λ iter. iter) };

    ghost remaining = { λ iter. at_most (length iter) };

    fn next(&mut self) -> Option<(Name, &'a V)> {
        while let [first, rest @ ..] = self.left {
            self.left = rest;
            if let Some(value) = &first.1 {
                return Some((first.0, value));
            }
        }
        None
    }
}

/// The names of a heap with their objects, in the order of names.
#[derive(Drop)]
pub struct HeapIter<'a> {
    pub(crate) heads: TableIter<'a, Head>,
    // The values that stand aside.
    pub(crate) tails: &'a Table<Far>,
}

impl<'a> Model for HeapIter<'a> {
    ghost use Rattle.std.specs.Prelude.{List};
    ghost use Rattle.dl_ir.specs.declared.names.Name.{Name};
    ghost use Rattle.dl_ir.specs.declared.objects.Obj.{Obj};
    ghost use Rattle.dl_ir.specs.Counted.{objects_along};
    ghost use Rattle.dl_ir.specs.Joined.{along};

    ghost Value = { List (Name × Obj) };

    ghost view = { λ iter. objects_along (along iter.tails.now.rows iter.heads) };
}

impl<'a> Iterator for HeapIter<'a> {
    ghost use Rattle.std.specs.Prelude.{length};
    ghost use Rattle.std.specs.Iterator.{YieldsFirstBy, at_most};

    type Item = (Name, ObjRef<'a>);

    ghost next_gives = { YieldsFirstBy (λ entry. entry) (λ iter. iter) };

    ghost remaining = { λ iter. at_most (length iter) };

    fn next(&mut self) -> Option<(Name, ObjRef<'a>)> {
        match self.heads.next() {
            Some((name, head)) => Some((
                name,
                ObjRef {
                    kind: head.kind,
                    sealed: head.sealed,
                    near: head.near.held(),
                    far: far_of(self.tails, name, head.wide),
                },
            )),
            None => None,
        }
    }
}

/// The values of an object's fields, in order.
#[derive(Drop)]
pub struct FieldsIter<'a> {
    pub(crate) near: &'a [Cell],
    pub(crate) far: &'a [Cell],
}

impl<'a> Model for FieldsIter<'a> {
    ghost use Rattle.std.specs.Prelude.{List, map, ◌++◌};
    ghost use Rattle.dl_ir.specs.declared.names.Value.{Value as Held};
    ghost use Rattle.dl_ir.specs.Cells.{value_in};

    ghost Value = { List Held };

    ghost view = { λ iter. map value_in (iter.near.now ++ iter.far.now) };
}

impl<'a> Iterator for FieldsIter<'a> {
    ghost use Rattle.std.specs.Prelude.{length};
    ghost use Rattle.std.specs.Iterator.{YieldsFirstBy, at_most};

    type Item = Value;

    ghost next_gives = { YieldsFirstBy (λ value. value) (λ iter. iter) };

    ghost remaining = { λ iter. at_most (length iter) };

    fn next(&mut self) -> Option<Value> {
        if let [first, rest @ ..] = self.near {
            self.near = rest;
            return Some(value_of(*first));
        }
        if let [first, rest @ ..] = self.far {
            self.far = rest;
            return Some(value_of(*first));
        }
        None
    }
}

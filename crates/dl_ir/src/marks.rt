//! Small sets of names, of which the least is asked for.

ghost use Rattle.std.specs.Prelude.{◌≡◌, ◌+◌, ◌-◌, ◌<◌, ◌≤◌, true, [], IfOk, IfErr, length, vec_capacity};
ghost use Rattle.std.specs.List.{insert, remove, slice_get};
ghost use Rattle.std.specs.Option.{option_map};
ghost use Rattle.std.specs.FinMap as map;
ghost use Rattle.dl_ir.specs.Heap.{name_cmp};
ghost use Rattle.dl_ir.specs.Marks.{rising};
ghost use Rattle.dl_ir.specs.Places.{IsAt, IsGap};

use crate::names::Name;
use std::alloc::{AllocError, Global};
use std::cmp::Ordering;
use std::marker::Model;

/// A set of names, with memory for a number of them that is chosen when it is made. The least name is at hand. Time to
/// put or to remove a name grows with the number of names below it, and with the logarithm of all.
#[derive(Drop)]
pub struct Marks {
    // In falling order, so that the least name is put and removed without moving others.
    names: Vec<Name>,
    room: usize,
}

impl Model for Marks {
    ghost use Rattle.std.specs.FinMap as map;
    ghost use Rattle.std.specs.Prelude.{vec_capacity};
    ghost use Rattle.dl_ir.specs.Rows.{Rows, coded_rows};
    ghost use Rattle.dl_ir.specs.Marks.{IsMarks, rising};
    ghost use base.Stored.{coded_unit};

    ghost Value = { Rows (Unit {0}) };

    ghost coded = { coded_rows coded_unit };

    ghost view = { λ marks. record { rows = map.from_sorted (rising marks.names.items); room = marks.room } };

    ghost invariant = { λ marks. IsMarks marks.names.items marks.room (vec_capacity marks.names) };
}

impl Marks {
    /// No names, with memory for so many.
    pub fn new(alloc: Global, room: usize) -> Result<Marks, AllocError>
        ensures { IfOk result (λ marks. marks ≡ record { rows = map.empty; room = room }) }
    {
        Ok(Marks {
            names: Vec::with_capacity(alloc, room)?,
            room,
        })
    }

    /// Puts a name among them. It takes no memory.
    #[inline(always)]
    pub fn put(&mut self, name: Name)
        requires { map.get self.old.rows name ≡ None → map.len self.old.rows < self.old.room }
        ensures { self.new ≡ record self.old { rows = map.insert self.old.rows name tt } }
    {
        match place(&self.names, name) {
            Ok(_) => {}
            Err(at) => put_at(&mut self.names, at, name),
        }
    }

    /// Removes a name, if it is among them.
    #[inline(always)]
    pub fn remove(&mut self, name: Name)
        ensures { self.new ≡ record self.old { rows = map.remove self.old.rows name } }
    {
        match place(&self.names, name) {
            Ok(at) => remove_at(&mut self.names, at),
            Err(_) => {}
        }
    }

    /// The least name, if there is one.
    pub fn first_name(&self) -> Option<Name>
        ensures { result ≡ option_map (λ (e : Name × Unit {0}). e.0) (slice_get (map.entries self.now.rows) 0) }
    {
        self.names.last().copied()
    }
}

// Where the name is among falling names, or where it would stand. At the end nothing is searched.
#[inline(always)]
fn place(names: &[Name], name: Name) -> Result<usize, usize>
    requires { map.is_sorted name_cmp (rising names.now) ≡ true }
    ensures found { IfOk result (λ at. (at < length names.now) × IsAt name (rising names.now) (length names.now - 1 - at)) }
    ensures absent { IfErr result (λ at. (at ≤ length names.now) × IsGap name (rising names.now) (length names.now - at)) }
{
    let Some(last) = names.last() else {
        return Err(0);
    };
    match name.cmp(last) {
        Ordering::Less => Err(names.len()),
        Ordering::Equal => Ok(names.len() - 1),
        Ordering::Greater => search(names, name),
    }
}

// Where the name is among falling names, or where it would stand.
fn search(names: &[Name], name: Name) -> Result<usize, usize>
    requires { map.is_sorted name_cmp (rising names.now) ≡ true }
    ensures found { IfOk result (λ at. (at < length names.now) × IsAt name (rising names.now) (length names.now - 1 - at)) }
    ensures absent { IfErr result (λ at. (at ≤ length names.now) × IsGap name (rising names.now) (length names.now - at)) }
{
    names.binary_search_by(|held| name.cmp(held))
}

// Puts a name at a place.
#[inline(always)]
fn put_at(names: &mut Vec<Name>, at: usize, name: Name)
    requires within { at ≤ length names.old.items }
    requires room { length names.old.items < vec_capacity names.old }
    ensures items { names.new.items ≡ insert names.old.items at name }
    ensures capacity { vec_capacity names.old ≤ vec_capacity names.new }
{
    let put = if at == names.len() {
        names.push(name)
    } else {
        names.insert(at, name)
    };
    match put {
        Ok(()) => {}
        Err(_) => unreachable!(),
    }
}

// Removes the name at a place.
#[inline(always)]
fn remove_at(names: &mut Vec<Name>, at: usize)
    requires { at < length names.old.items }
    ensures items { names.new.items ≡ remove names.old.items at }
    ensures capacity { vec_capacity names.new ≡ vec_capacity names.old }
{
    if at + 1 == names.len() {
        names.pop();
    } else {
        names.remove(at);
    }
}

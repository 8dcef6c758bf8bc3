// Lists with memory for a number of elements.
ghost use Rattle.std.specs.Prelude.{◌≡◌, ◌<◌, ◌++◌, [], ◌∷◌, ◌≤◌, length, IfOk, insert, slice_get, slice_set};
ghost use Rattle.std.specs.Option.{option_copied};

use sqlite_items::Items;
use std::alloc::{AllocError, Global};
use std::marker::Model;

/// A list with memory for a number of elements that is chosen when it is made.
#[derive(Drop)]
pub struct Row<T> {
    items: Vec<T>,
    room: usize,
}

impl<T> Model for Row<T> {
    ghost use Rattle.std.specs.Prelude.{vec_capacity, ◌≤◌};
    ghost use Rattle.dl_core.specs.Rooms.{Roomed, coded_roomed};

    ghost Value = { Roomed T };

    ghost coded = { coded_roomed T.code };

    ghost view = { λ r. record { items = r.items.items; room = r.room } };

    ghost invariant = { λ r. r.room ≤ vec_capacity r.items };
}

impl<T> Row<T> {
    /// An empty list with memory for so many elements.
    pub fn new(alloc: Global, room: usize) -> Result<Row<T>, AllocError>
        ensures { IfOk result (λ r. r ≡ record { items = []; room = room }) }
    {
        Ok(Row {
            items: Vec::with_capacity(alloc, room)?,
            room,
        })
    }

    pub fn as_slice(&self) -> &[T]
        ensures { result.now ≡ self.now.items }
    {
        self.items.as_slice()
    }

    pub fn len(&self) -> usize
        ensures { result ≡ length self.now.items }
    {
        self.items.len()
    }
}

impl<T: Copy> Row<T> {
    /// The element at a place, if there is one.
    pub fn get(&self, at: usize) -> Option<T>
        ensures { result ≡ slice_get self.now.items at }
    {
        if at < self.items.len() {
            Some(self.items[at])
        } else {
            None
        }
    }
}

impl<T: Drop> Row<T> {
    /// Adds an element behind the others. It takes no memory.
    pub fn push(&mut self, item: T)
        requires { length self.old.items < self.old.room }
        ensures { self.new ≡ record self.old { items = self.old.items ++ item ∷ [] } }
    {
        match self.items.push(item) {
            Ok(()) => {}
            Err(_) => unreachable!(),
        }
    }

    /// Writes the element at a place, if there is one.
    pub fn set(&mut self, at: usize, item: T)
        ensures { self.new ≡ record self.old { items = slice_set self.old.items at item } }
    {
        if at < self.items.len() {
            self.items[at] = item;
        }
    }

    pub fn clear(&mut self)
        ensures { self.new ≡ record self.old { items = [] } }
    {
        self.items.clear();
    }

    /// Puts an element before the one at a place, or behind the last.
    pub fn insert(&mut self, at: usize, item: T)
        requires room { length self.old.items < self.old.room }
        requires at { at ≤ length self.old.items }
        ensures { self.new ≡ record self.old { items = insert self.old.items at item } }
    {
        match self.items.insert(at, item) {
            Ok(()) => {}
            Err(_) => unreachable!(),
        }
    }

    /// The elements, in order.
    pub fn into_items(self) -> Items<T>
        ensures { result ≡ self.items }
    {
        let Row { items, room: _ } = self;
        Items::from_vec(items)
    }
}

impl<T: Copy + Drop> Row<T> {
    /// Puts these elements in the place of those that are there.
    pub fn refill(&mut self, items: &[T])
        requires { length items.now ≤ self.old.room }
        ensures { self.new ≡ record self.old { items = items.now } }
    {
        self.clear();
        for item in items {
            self.push(*item);
        }
    }
}

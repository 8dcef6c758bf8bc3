// A list from whose front elements go, with memory for a number of elements.
ghost use Rattle.std.specs.Prelude.{◌≡◌, ◌<◌, ◌≤◌, ◌++◌, [], ◌∷◌, drop, length, vec_capacity, IfOk, slice_get};
ghost use Rattle.dl_core.specs.Frames.{behind_of};

use std::alloc::{AllocError, Global};
use std::marker::Model;

/// A list with memory for a number of elements that is chosen when it is made. Adding an element and removing the first take
/// time that does not grow with the list, over many calls together.
#[derive(Drop)]
pub struct Queue<T> {
    // The elements stand from the head on; those before it are gone.
    items: Vec<T>,
    head: usize,
    room: usize,
}

impl<T> Model for Queue<T> {
    ghost use Rattle.std.specs.Prelude.{◌+◌, ◌≤◌, drop, length, vec_capacity};
    ghost use Rattle.dl_core.specs.Rooms.{Roomed, coded_roomed};

    ghost Value = { Roomed T };

    ghost coded = { coded_roomed T.code };

    ghost view = { λ q. record { items = drop q.head q.items.items; room = q.room } };

    ghost invariant = { λ q. (q.head ≤ length q.items.items) × (q.room + q.room ≤ vec_capacity q.items) };
}

impl<T> Queue<T> {
    /// An empty list with memory for so many elements.
    pub fn new(alloc: Global, room: usize) -> Result<Queue<T>, AllocError>
        ensures { IfOk result (λ q. q ≡ record { items = []; room = room }) }
    {
        let Some(memory) = room.checked_mul(2) else {
            return Err(AllocError);
        };
        Ok(Queue {
            items: Vec::with_capacity(alloc, memory)?,
            head: 0,
            room,
        })
    }

    pub fn as_slice(&self) -> &[T]
        ensures { result.now ≡ self.now.items }
    {
        &self.items[self.head..]
    }
}

impl<T: Copy> Queue<T> {
    /// The element at a place, if there is one.
    pub fn get(&self, at: usize) -> Option<T>
        ensures { result ≡ slice_get self.now.items at }
    {
        let items = self.as_slice();
        if at < items.len() {
            Some(items[at])
        } else {
            None
        }
    }
}

impl<T: Drop> Queue<T> {
    /// Adds an element behind the others. It takes no memory.
    pub fn push(&mut self, item: T)
        requires { length self.old.items < self.old.room }
        ensures { self.new ≡ record self.old { items = self.old.items ++ item ∷ [] } }
    {
        if self.items.len() / 2 >= self.room {
            pack(&mut self.items, self.head);
            self.head = 0;
        }
        match self.items.push(item) {
            Ok(()) => {}
            Err(_) => unreachable!(),
        }
    }

    /// Removes the first element, if there is one.
    pub fn drop_first(&mut self)
        ensures { self.new ≡ record self.old { items = behind_of self.old.items } }
    {
        if self.head < self.items.len() {
            self.head += 1;
        }
    }

    pub fn clear(&mut self)
        ensures { self.new ≡ record self.old { items = [] } }
    {
        self.items.clear();
        self.head = 0;
    }
}

// Lets go of the elements before a place.
fn pack<T: Drop>(items: &mut Vec<T>, head: usize)
    requires { head ≤ length items.old.items }
    ensures items { items.new.items ≡ drop head items.old.items }
    ensures capacity { vec_capacity items.new ≡ vec_capacity items.old }
{
    let left = items.len() - head;
    items.rotate_left(head);
    items.truncate(left);
}

//! Where names stood when they were put into a table. What is remembered is only a guess.

use crate::names::Name;
use std::alloc::{AllocError, Global};

/// A place for each ticket: with the index of a name added, it is where the last name of the ticket was put. Tickets that
/// are far apart share one. A guess may be wrong, so the name at the place has to be looked at.
#[derive(Drop)]
pub(crate) struct Hints {
    places: Vec<u32>,
    // How many places there are once a name has been put.
    len: usize,
}

impl Hints {
    /// Hints for a table of so many names.
    pub(crate) fn new(alloc: Global, names: usize) -> Result<Hints, AllocError> {
        let Some(len) = names.checked_next_power_of_two() else {
            return Err(AllocError);
        };
        Ok(Hints {
            places: Vec::with_capacity(alloc, len)?,
            len,
        })
    }

    /// A place at which the name may stand.
    #[inline(always)]
    pub(crate) fn guess(&self, name: Name) -> usize {
        match self.places.get(slot(&self.places, name)) {
            Some(place) => place.wrapping_add(name.index) as usize,
            None => 0,
        }
    }

    /// Remembers that the name was put at this place.
    pub(crate) fn note(&mut self, name: Name, at: usize) {
        if self.places.is_empty() && self.places.resize(self.len, 0).is_err() {
            return;
        }
        let slot = slot(&self.places, name);
        if let Some(place) = self.places.get_mut(slot)
            && let Ok(at) = u32::try_from(at)
        {
            *place = at.wrapping_sub(name.index);
        }
    }
}

// Which of the places is that of the name's ticket.
#[inline(always)]
fn slot(places: &[u32], name: Name) -> usize {
    name.ticket as usize & places.len().wrapping_sub(1)
}

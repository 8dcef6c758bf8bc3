//! The history of a run.

ghost use Rattle.std.specs.Prelude.{◌≡◌, ◌≤◌, [], length};
ghost use Rattle.std.specs.List.{slice_range};
ghost use Rattle.dl_history.specs.Histories.{Seen, ArePlacesOf, caller_at, index_at};
ghost use Rattle.dl_history.specs.Orders.{IsOrder};

use dl_ir::{Entry, Move};
use sqlite_items::Items;
use std::alloc::Global;
use std::marker::Model;

/// The one order of the operations of a run: its entries in rising order of tickets, and the moves of the pool that
/// they made, in rising order of versions.
#[derive(Debug, Drop)]
pub struct History {
    entries: Items<Entry>,
    moves: Vec<Move>,
    // The places of the entries, by caller and index.
    order: Vec<u32>,
}

impl Model for History {
    ghost Value = { Seen };

    ghost view = { λ h. record { entries = h.entries; moves = h.moves.items } };

    ghost invariant = { λ h. IsOrder h.entries h.order.items };
}

impl History {
    /// The history of no operation.
    pub fn empty(alloc: Global) -> History
        ensures entries { result.entries ≡ [] }
        ensures moves { result.moves ≡ [] }
    {
        History {
            entries: Items::new(alloc),
            moves: Vec::new(alloc),
            order: Vec::new(alloc),
        }
    }

    /// The history of entries whose places are in this order.
    pub(crate) fn of_parts(entries: Items<Entry>, moves: Vec<Move>, order: Vec<u32>) -> History
        requires { IsOrder entries order.items }
        ensures entries { result.entries ≡ entries }
        ensures moves { result.moves ≡ moves.items }
    {
        History {
            entries,
            moves,
            order,
        }
    }

    /// The entries in rising order of tickets.
    pub fn entries(&self) -> &[Entry]
        ensures { result.now ≡ self.now.entries }
    {
        self.entries.as_slice()
    }

    /// The moves in rising order of versions.
    pub fn moves(&self) -> &[Move]
        ensures { result.now ≡ self.now.moves }
    {
        self.moves.as_slice()
    }

    /// The places of a caller's entries, counted from 0, in order of index. There is none for a caller without entries.
    pub fn places_of(&self, caller: u32) -> &[u32]
        ensures { ArePlacesOf self.now.entries caller result.now }
    {
        let entries = self.entries.as_slice();
        let order = self.order.as_slice();
        let (from, to) = part_of(entries, order, caller);
        &order[from..to]
    }
}

// Where the places of a caller's entries begin and end among the places of all.
fn part_of(entries: &[Entry], order: &[u32], caller: u32) -> (usize, usize)
    requires { IsOrder entries.now order.now }
    ensures begins { result.0 ≤ result.1 }
    ensures ends { result.1 ≤ length order.now }
    ensures part { ArePlacesOf entries.now caller (slice_range order.now result.0 result.1) }
{
    let from = order.partition_point(|place| caller_at(entries, *place) < caller);
    let to = order.partition_point(|place| caller_at(entries, *place) <= caller);
    (from, to)
}

/// The caller of the entry at a place, or 0.
pub fn caller_at(entries: &[Entry], place: u32) -> u32
    ensures { result ≡ caller_at entries.now place }
{
    match entries.get(place as usize) {
        Some(entry) => entry.caller,
        None => 0,
    }
}

/// The index of the entry at a place, or 0.
pub fn index_at(entries: &[Entry], place: u32) -> u32
    ensures { result ≡ index_at entries.now place }
{
    match entries.get(place as usize) {
        Some(entry) => entry.index,
        None => 0,
    }
}

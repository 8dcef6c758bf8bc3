//! The merging of what callers did into one history.

ghost use Rattle.std.specs.Prelude.{◌≡◌, ◌+◌, ◌*◌, ◌≤◌, ◌<◌, ◌^◌, ◌++◌, [], IfOk, length, slice_get, vec_capacity, vec_len};
ghost use Rattle.std.specs.Option.{option_map_or};
ghost use Rattle.std.specs.List.{range_with_len};
ghost use Rattle.dl_ir.specs.declared.modules.OpDecl.{OpDecl};
ghost use Rattle.dl_shape.specs.Pool.{allocs_at, moves_of, moves_of_entry, reservation_of, return_of, in_rising_versions};
ghost use Rattle.dl_shape.specs.Rising.{in_rising, AreApart};
ghost use Rattle.dl_ir.specs.declared.answers.Entry.{Entry as OneEntry};
ghost use Rattle.dl_ir.specs.declared.moves.Move.{Move as OneMove};
ghost use Rattle.dl_history.specs.Histories.{joined};
ghost use Rattle.dl_history.specs.Orders.{IsOrder, IsRoom};

use crate::histories::{History, caller_at, index_at};
use crate::operations::call_of;
use dl_ir::{Calls, Closed, Entry, Module, Move};
use sqlite_items::Items;
use std::alloc::{AllocError, Global};
use std::marker::Model;

/// Memory for the history of a number of entries. It is taken before a run, so that merging takes none.
#[derive(Drop)]
pub struct MergeRoom {
    entries: Vec<Entry>,
    moves: Vec<Move>,
    order: Vec<u32>,
    total: u32,
}

impl Model for MergeRoom {
    ghost use Rattle.std.specs.Prelude.{ℕ, vec_capacity};
    ghost use Rattle.dl_history.specs.Orders.{IsRoom};

    ghost Value = { ℕ };

    ghost view = { λ room. room.total };

    ghost invariant = { λ room. IsRoom room.total room.entries.items (vec_capacity room.entries) room.moves.items (vec_capacity room.moves) room.order.items (vec_capacity room.order) };
}

impl MergeRoom {
    /// Room for so many entries, and for twice as many moves.
    pub fn new(alloc: Global, total: u32) -> Result<MergeRoom, AllocError>
        ensures { IfOk result (λ room. room ≡ total) }
    {
        Ok(MergeRoom {
            entries: Vec::with_capacity(alloc, total as usize)?,
            moves: Vec::with_capacity(alloc, 2 * total as usize)?,
            order: Vec::with_capacity(alloc, total as usize)?,
            total,
        })
    }
}

/// The history of what a run left: the entries of all callers in rising order of tickets, and their moves in rising
/// order of versions. It takes no memory.
pub fn merge(source: &Module, files: &[Calls], closed: &Closed, room: MergeRoom) -> History
    requires room { length (joined closed.now.entries) ≤ room }
    requires tickets { AreApart (λ (entry : OneEntry). entry.ticket) (joined closed.now.entries) }
    requires versions { AreApart (λ (move : OneMove). move.version) (moves_of source.now files.now (joined closed.now.entries)) }
    ensures entries { result.entries ≡ in_rising (λ (entry : OneEntry). entry.ticket) (joined closed.now.entries) }
    ensures moves { result.moves ≡ in_rising_versions (moves_of source.now files.now result.entries) }
{
    let MergeRoom {
        mut entries,
        moves,
        order,
        total: _,
    } = room;
    gather(closed.entries.as_slice(), &mut entries);
    entries.sort_unstable_by_key(|entry| entry.ticket);
    over_entries(source, files, Items::from_vec(entries), moves, order)
}

/// The history of one caller: its entries as they are, in rising order of tickets, and their moves in rising order of
/// versions. It copies no entry, and takes no memory.
pub fn history_of(
    source: &Module,
    files: &[Calls],
    entries: Items<Entry>,
    room: MergeRoom,
) -> History
    requires room { length entries ≤ room }
    requires tickets { in_rising (λ (entry : OneEntry). entry.ticket) entries ≡ entries }
    requires versions { AreApart (λ (move : OneMove). move.version) (moves_of source.now files.now entries) }
    ensures entries { result.entries ≡ entries }
    ensures moves { result.moves ≡ in_rising_versions (moves_of source.now files.now entries) }
{
    over_entries(source, files, entries, room.moves, room.order)
}

// The history of entries that stand in its order. Their moves and places go into these lists, which are empty.
fn over_entries(
    source: &Module,
    files: &[Calls],
    entries: Items<Entry>,
    moves: Vec<Move>,
    order: Vec<u32>,
) -> History
    requires few { length entries < 2 ^ 32 }
    requires no_moves { moves.items ≡ [] }
    requires no_places { order.items ≡ [] }
    requires for_moves { 2 * length entries ≤ vec_capacity moves }
    requires for_places { length entries ≤ vec_capacity order }
    requires versions { AreApart (λ (move : OneMove). move.version) (moves_of source.now files.now entries) }
    ensures entries { result.entries ≡ entries }
    ensures moves { result.moves ≡ in_rising_versions (moves_of source.now files.now entries) }
{
    let mut moves = moves;
    let mut order = order;
    gather_moves(source, files, entries.as_slice(), &mut moves);
    moves.sort_unstable_by_key(|change| change.version);
    put_in_order(entries.as_slice(), &mut order);
    History::of_parts(entries, moves, order)
}

/// Puts the elements of each list behind those that are there. It takes no memory.
pub fn gather<T: Copy>(lists: &[Items<T>], all: &mut Vec<T>)
    requires { vec_len all.old + length (joined lists.now) ≤ vec_capacity all.old }
    ensures { all.new.items ≡ all.old.items ++ joined lists.now }
{
    'lists: for list in lists {
        gather_list(list.as_slice(), all);
    }
}

// Puts the elements of a list behind those that are there.
fn gather_list<T: Copy>(list: &[T], all: &mut Vec<T>)
    requires { vec_len all.old + length list.now ≤ vec_capacity all.old }
    ensures added { all.new.items ≡ all.old.items ++ list.now }
    ensures len { vec_len all.new ≡ vec_len all.old + length list.now }
    ensures capacity { vec_capacity all.new ≡ vec_capacity all.old }
{
    'items: for item in list {
        all.push_reserved(*item);
    }
}

// Puts the moves of each entry behind those that are there.
fn gather_moves(source: &Module, files: &[Calls], entries: &[Entry], moves: &mut Vec<Move>)
    requires { vec_len moves.old + 2 * length entries.now ≤ vec_capacity moves.old }
    ensures { moves.new.items ≡ moves.old.items ++ moves_of source.now files.now entries.now }
{
    'entries: for entry in entries {
        push_moves(moves, entry, allocs_of(source, files, entry));
    }
}

// The number of objects that the operation with this number may make.
fn allocs_of_op(source: &Module, op: u32) -> u32
    ensures { result ≡ option_map_or (λ (decl : OpDecl). decl.allocs) (slice_get source.now.ops op) 0 }
{
    match source.ops.get(op as usize) {
        Some(decl) => decl.allocs,
        None => 0,
    }
}

// The number of objects that the operation of an entry may make.
fn allocs_of(source: &Module, files: &[Calls], entry: &Entry) -> u32
    ensures { result ≡ allocs_at source.now files.now entry.now.caller entry.now.index }
{
    match call_of(files, entry.caller, entry.index) {
        Some(call) => allocs_of_op(source, call.op),
        None => 0,
    }
}

fn push_reservation(moves: &mut Vec<Move>, entry: &Entry, allocs: u32)
    requires { vec_len moves.old + 1 ≤ vec_capacity moves.old }
    ensures pushed { moves.new.items ≡ moves.old.items ++ reservation_of entry.now allocs }
    ensures len { vec_len moves.new ≤ vec_len moves.old + 1 }
    ensures capacity { vec_capacity moves.new ≡ vec_capacity moves.old }
{
    if allocs > 0 {
        moves.push_reserved(Move {
            version: entry.reserved_at,
            change: 0 - allocs as i64,
            ticket: entry.ticket,
        });
    }
}

fn push_return(moves: &mut Vec<Move>, entry: &Entry)
    requires { vec_len moves.old + 1 ≤ vec_capacity moves.old }
    ensures pushed { moves.new.items ≡ moves.old.items ++ return_of entry.now }
    ensures len { vec_len moves.new ≤ vec_len moves.old + 1 }
    ensures capacity { vec_capacity moves.new ≡ vec_capacity moves.old }
{
    if entry.returned > 0 {
        moves.push_reserved(Move {
            version: entry.returned_at,
            change: entry.returned as i64,
            ticket: entry.ticket,
        });
    }
}

// Pushes the moves of an entry whose operation may make so many objects.
fn push_moves(moves: &mut Vec<Move>, entry: &Entry, allocs: u32)
    requires { vec_len moves.old + 2 ≤ vec_capacity moves.old }
    ensures pushed { moves.new.items ≡ moves.old.items ++ (reservation_of entry.now allocs ++ return_of entry.now) }
    ensures len { vec_len moves.new ≤ vec_len moves.old + 2 }
    ensures capacity { vec_capacity moves.new ≡ vec_capacity moves.old }
{
    push_reservation(moves, entry, allocs);
    push_return(moves, entry);
}

// Puts the places of the entries into an empty list, by caller and index.
fn put_in_order(entries: &[Entry], order: &mut Vec<u32>)
    requires empty { order.old.items ≡ [] }
    requires room { length entries.now ≤ vec_capacity order.old }
    requires few { length entries.now < 2 ^ 32 }
    ensures { IsOrder entries.now order.new.items }
{
    put_places(entries.len() as u32, order);
    order.sort_unstable_by_key(|place| (caller_at(entries, *place), index_at(entries, *place)));
}

// Puts the numbers from 0 on into an empty list.
fn put_places(count: u32, order: &mut Vec<u32>)
    requires empty { order.old.items ≡ [] }
    requires room { count ≤ vec_capacity order.old }
    ensures { order.new.items ≡ range_with_len 0 count }
{
    'places: for place in 0..count {
        order.push_reserved(place);
    }
}

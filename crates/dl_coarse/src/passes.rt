// The table with one turn, its passes and its notes.
ghost use Rattle.std.specs.Prelude.{◌≡◌};

use crate::machines::Machine;
use crate::rule::{Hold, Turn};
use atomic_table::{Seat, Table};
use std::alloc::Global;

/// A machine for all callers, and one turn for them.
#[derive(Drop)]
pub struct Coarse<M: Machine> {
    pub(crate) table: Table<Option<M>, Hold, M, Turn<M>, Global>,
    pub ghost counts: { (table.shared.table_id.words ≡ 3) × (table.shared.table_id.slots ≡ 1) },
}

/// One caller's way in, with the call in hand.
#[derive(Drop)]
pub struct Pass<M: Machine> {
    pub(crate) seat: Seat<Option<M>, Hold>,
    pub(crate) number: u32,
    pub(crate) busy: bool,
    pub(crate) op: u32,
    pub(crate) args: Vec<i64>,
    pub(crate) front: u64,
}

/// What a pass tells another.
#[derive(Drop)]
pub struct Note<M: Machine> {
    pub(crate) seat: Seat<Option<M>, Hold>,
    pub(crate) front: u64,
}

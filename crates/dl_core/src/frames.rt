// What the program keeps of a caller: its frame, with its memory and what the pool keeps of it.
ghost use Rattle.std.specs.Prelude.{◌≡◌, ◌==◌, ◌&&◌, ◌<◌, None, true, false, count_by, take};
ghost use Rattle.std.specs.List.{list_any};
ghost use Rattle.dl_ir.specs.References.{refers_to as refers_in, target_in as target_of_value, name_eq};

use crate::lists::Row;
use crate::queues::Queue;
use crate::stages::{Booked, Stage};
use dl_ir::{Emits, Entry, Name, Refusal, Table, Value};

/// What each caller has of its own, and what the pool keeps of it.
#[derive(Drop)]
pub struct Frame {
    /// How far it has come with the call in hand.
    pub stage: Stage,
    /// The operation of the call in hand, and its arguments.
    pub op: u32,
    pub args: Row<i64>,
    /// The distinct roots that the call takes, in rising order.
    pub roots: Row<u32>,
    /// How many calls it has begun.
    pub index: u32,
    /// How many of the call's roots it has taken.
    pub taken: usize,
    /// The operation's ticket; 0 until it enters.
    pub ticket: u64,
    /// The place in the code.
    pub place: usize,
    pub locals: Row<Value>,
    /// What was read, evaluated or made and is used by the step that follows.
    pub hand: Option<Value>,
    /// The turns left.
    pub turns: u32,
    /// How many objects the operation has made.
    pub made: u32,
    /// The numbers that the operation has given out.
    pub emitted: Emits,
    /// Places that are reserved and not used.
    pub spares: u32,
    pub book: Table<Booked>,
    /// The held objects that are to be let go or given up, in the order in which this is done.
    pub loose: Queue<Name>,
    /// The first field, of the object that is being given up, that may not be null yet.
    pub cursor: u32,
    /// The target of that field is sealed, and the caller has seen this.
    pub seen: bool,
    /// The first object that the operation sealed.
    pub breach: Option<Name>,
    /// The version that the reservation of the call in hand made; 0 where there was none.
    pub reserved_at: u64,
    /// The operations that the caller has finished, and its refusals, in order.
    pub entries: Row<Entry>,
    pub refusals: Row<Refusal>,
}

/// Whether two names are the same.
pub fn same_name(a: Name, b: Name) -> bool
    ensures { result ≡ name_eq a b }
{
    a.ticket == b.ticket && a.index == b.index
}

/// Whether a value refers to the object of this name.
pub fn refers_to(name: Name, value: Value) -> bool
    ensures { result ≡ refers_in name value }
{
    match value {
        Value::Ref(Some(target)) => same_name(name, target),
        _ => false,
    }
}

/// What a value refers to, if it does.
pub fn target_in(value: Value) -> Option<Name>
    ensures { result ≡ target_of_value value }
{
    match value {
        Value::Ref(target) => target,
        Value::Int(_) => None,
    }
}

/// Whether none of these values refers to the object of this name.
pub fn none_refers(values: &[Value], name: Name) -> bool
    ensures { result ≡ (count_by (refers_in name) values.now == 0) }
{
    let mut count = 0usize;
    for value in values {
        if refers_to(name, *value) {
            count += 1;
        }
    }
    count == 0
}

/// Whether the name is one of these.
pub fn is_among(name: Name, names: &[Name]) -> bool
    ensures { result ≡ list_any (name_eq name) names.now }
{
    let mut found = false;
    for other in names {
        found = found || same_name(name, *other);
    }
    found
}

//! Tables of values under names.

ghost use Rattle.std.specs.Prelude.{◌≡◌, ◌↔◌, true, [], ◌+◌, ◌-◌, ◌^◌, ◌<◌, ◌≤◌, ℕ, IsTrue, IfOk, IfErr, None, Some, Option, List, option_and_then, length, take, slice_get, slice_set, vec_capacity};
ghost use Rattle.std.specs.Option.{option_copied, option_map, option_map_or};
ghost use Rattle.std.specs.FinMap as map;
ghost use Rattle.dl_ir.specs.Heap.{name_cmp};
ghost use Rattle.dl_ir.specs.Joined.{near_with, far_with, sealed_head, recounted_head};
ghost use Rattle.dl_ir.specs.Places.{IsAt, IsGap, present};
ghost use Rattle.dl_ir.specs.Rows.{changed};
ghost use Rattle.dl_ir.specs.declared.names.Name.{Name};
ghost use Rattle.dl_ir.specs.declared.names.Value.{Value as Held};
ghost use Rattle.dl_ir.specs.declared.rows.Head.{Head};

use crate::hints::Hints;
use crate::iterators::TableIter;
use crate::names::{Name, Value};
use crate::parts::Far;
use crate::rows::Head;
use std::alloc::{AllocError, Global};
use std::marker::Model;

// Half of how many names without a value there may be beyond as many as have one.
const SPARE: usize = 64;

/// Values under names, in the order of names, with memory for a number of them that is chosen when it is made. Time grows
/// with the logarithm of that number, over many calls together, as long as names are put in rising order.
#[derive(Drop)]
pub struct Table<V> {
    // In the order of names. A name stays when its value is removed, until there are too many of them.
    entries: Vec<(Name, Option<V>)>,
    // How many names have a value.
    len: usize,
    // No name before this place has a value.
    first: usize,
    room: usize,
    // Where a name is looked for first.
    hints: Hints,
}

impl<V> Model for Table<V> {
    ghost use Rattle.std.specs.FinMap as map;
    ghost use Rattle.std.specs.Prelude.{vec_capacity};
    ghost use Rattle.dl_ir.specs.Rows.{Rows, coded_rows};
    ghost use Rattle.dl_ir.specs.Places.{IsTable, present};

    ghost Value = { Rows V };

    ghost coded = { coded_rows V.code };

    ghost view = { λ t. record { rows = map.from_sorted (present t.entries.items); room = t.room } };

    ghost invariant = { λ t. IsTable t.entries.items t.len t.first t.room (vec_capacity t.entries) };
}

impl<V> Table<V> {
    /// An empty table with memory for so many values.
    pub fn new(alloc: Global, room: usize) -> Result<Table<V>, AllocError>
        ensures { IfOk result (λ t. t ≡ record { rows = map.empty; room = room }) }
    {
        let hints = Hints::new(alloc, room.saturating_mul(2))?;
        let Some(memory) = room.checked_mul(2) else {
            return Err(AllocError);
        };
        Ok(Table {
            entries: Vec::with_capacity(alloc, memory)?,
            len: 0,
            first: 0,
            room,
            hints,
        })
    }

    /// The value under this name, if there is one.
    #[inline(always)]
    pub fn get(&self, name: Name) -> Option<&V>
        ensures { option_copied result ≡ map.get self.now.rows name }
    {
        match place_near(&self.entries, self.hints.guess(name), name) {
            Ok(at) => self.entries[at].1.as_ref(),
            Err(_) => None,
        }
    }

    /// The least name, if there is one.
    pub fn first_name(&self) -> Option<Name>
        ensures { result ≡ option_map (λ (e : Name × V). e.0) (slice_get (map.entries self.now.rows) 0) }
    {
        let at = first_from(&self.entries, self.first);
        match self.entries.get(at) {
            Some(entry) => Some(entry.0),
            None => None,
        }
    }

    /// The names and the values under them, in the order of names.
    pub fn iter(&self) -> TableIter<'_, V>
        ensures { result ≡ map.entries self.now.rows }
    {
        TableIter {
            left: &self.entries,
        }
    }

    /// The number of values.
    pub fn len(&self) -> usize
        ensures { result ≡ map.len self.now.rows }
    {
        self.len
    }

    /// Whether there is memory for so many more values.
    pub fn has_room_for(&self, more: usize) -> bool
        ensures { IsTrue result ↔ (map.len self.now.rows + more ≤ self.now.room) }
    {
        more <= self.room - self.len
    }

    /// Whether there is no memory for another value.
    pub fn is_full(&self) -> bool
        ensures { IsTrue result ↔ (self.now.room ≤ map.len self.now.rows) }
    {
        self.room <= self.len
    }
}

impl<V: Drop> Table<V> {
    /// Puts a value under a name, in the place of any other. It takes no memory.
    pub fn put(&mut self, name: Name, value: V)
        requires { map.get self.old.rows name ≡ None → map.len self.old.rows < self.old.room }
        ensures { self.new ≡ record self.old { rows = map.insert self.old.rows name value } }
    {
        self.first = make_room(
            &mut self.entries,
            &mut self.hints,
            self.first,
            self.len,
            self.room,
        );
        match place_near(&self.entries, self.hints.guess(name), name) {
            Ok(at) => {
                self.len += fill(&mut self.entries, at, value);
                self.first = self.first.min(at);
            }
            Err(at) => match self.entries.insert(at, (name, Some(value))) {
                Ok(()) => {
                    self.len += 1;
                    self.first = self.first.min(at);
                    self.hints.note(name, at);
                }
                Err(_) => unreachable!(),
            },
        }
    }

    /// Removes the value under this name, if there is one, and answers it.
    pub fn remove(&mut self, name: Name) -> Option<V>
        ensures value { result ≡ map.get self.old.rows name }
        ensures left { self.new ≡ record self.old { rows = map.remove self.old.rows name } }
    {
        match place_near(&self.entries, self.hints.guess(name), name) {
            Ok(at) => {
                let value = take_at(&mut self.entries, at);
                self.len -= count(&value);
                self.first = trim(&mut self.entries, self.len, self.first);
                value
            }
            Err(_) => None,
        }
    }
}

impl Table<Head> {
    /// Writes one of the first fields of an object, and answers the value that it had. Nothing changes where there is no
    /// such object or field.
    #[inline(always)]
    pub(crate) fn replace_near(&mut self, name: Name, field: usize, value: Value) -> Option<Value>
        ensures before { result ≡ option_and_then (λ (head : Head). slice_get head.near field) (map.get self.old.rows name) }
        ensures written { self.new ≡ record self.old { rows = changed self.old.rows name (near_with field value) } }
    {
        match place_near(&self.entries, self.hints.guess(name), name) {
            Ok(at) => set_at(&mut self.entries, at, field, value),
            Err(_) => None,
        }
    }

    /// Seals an object. Nothing changes where there is no such object.
    pub(crate) fn seal(&mut self, name: Name)
        ensures { self.new ≡ record self.old { rows = changed self.old.rows name sealed_head } }
    {
        if let Ok(at) = place_near(&self.entries, self.hints.guess(name), name) {
            seal_at(&mut self.entries, at);
        }
    }

    /// Adds to the number of an object and then takes away from it, down to 0, and answers what it was and whether the
    /// object is sealed. Nothing changes where there is no such object.
    #[inline(always)]
    pub(crate) fn recount(&mut self, name: Name, more: u64, fewer: u64) -> Option<(u64, bool)>
        requires { (head : Head) → map.get self.old.rows name ≡ Some head → 0 < more → head.refs + more < 2 ^ 64 }
        ensures before { result ≡ option_map (λ (head : Head). (head.refs, head.sealed)) (map.get self.old.rows name) }
        ensures recounted { self.new ≡ record self.old { rows = changed self.old.rows name (recounted_head more fewer) } }
    {
        match place_near(&self.entries, self.hints.guess(name), name) {
            Ok(at) => recount_at(&mut self.entries, at, more, fewer),
            Err(_) => None,
        }
    }
}

impl Table<Far> {
    /// Writes one of the values that stand aside, and answers the value that it was. Nothing changes where there is none.
    pub(crate) fn replace_far(&mut self, name: Name, at: usize, value: Value) -> Option<Value>
        ensures before { result ≡ option_and_then (λ (far : List Held). slice_get far at) (map.get self.old.rows name) }
        ensures written { self.new ≡ record self.old { rows = changed self.old.rows name (far_with at value) } }
    {
        match place_near(&self.entries, self.hints.guess(name), name) {
            Ok(place) => set_far_at(&mut self.entries, place, at, value),
            Err(_) => None,
        }
    }
}

// Where the name is among sorted entries, or where it would stand.
fn place<V>(entries: &[(Name, V)], name: Name) -> Result<usize, usize>
    requires { map.is_sorted name_cmp entries.now ≡ true }
    ensures found { IfOk result (IsAt name entries.now) }
    ensures absent { IfErr result (IsGap name entries.now) }
{
    entries.binary_search_by_key(&name, |(held, _)| *held)
}

// Where the name is among sorted entries, or where it would stand. Where it is at the guessed place, or above all others,
// nothing is searched.
#[inline(always)]
fn place_near<V>(entries: &[(Name, V)], guess: usize, name: Name) -> Result<usize, usize>
    requires { map.is_sorted name_cmp entries.now ≡ true }
    ensures found { IfOk result (IsAt name entries.now) }
    ensures absent { IfErr result (IsGap name entries.now) }
{
    if guess < entries.len() && entries[guess].0.cmp(&name).is_eq() {
        return Ok(guess);
    }
    if is_above(entries, name) {
        return Err(entries.len());
    }
    place(entries, name)
}

// Whether there are names and this one is above them.
#[inline(always)]
fn is_above<V>(entries: &[(Name, V)], name: Name) -> bool
    requires { map.is_sorted name_cmp entries.now ≡ true }
    ensures { result ≡ true → IsGap name entries.now (length entries.now) }
{
    let len = entries.len();
    len > 0 && entries[len - 1].0.cmp(&name).is_lt()
}

// The first place from this one on at which a name has a value, where none has one before.
fn first_from<V>(entries: &[(Name, Option<V>)], from: usize) -> usize
    requires { present (take from entries.now) ≡ [] }
    ensures passed { present (take result entries.now) ≡ [] }
    ensures first { option_map (λ (e : Name × V). e.0) (slice_get (present entries.now) 0) ≡ option_map (λ (e : Name × Option V). e.0) (slice_get entries.now result) }
{
    let mut at = from;
    while at < entries.len() && entries[at].1.is_none() {
        at += 1;
    }
    at
}

// Lets go of the names that have no value, where there are too many of them or memory for another name may be wanting.
// Answers a place before which no name has a value.
fn make_room<V: Drop>(
    entries: &mut Vec<(Name, Option<V>)>,
    hints: &mut Hints,
    first: usize,
    len: usize,
    room: usize,
) -> usize
    requires passed { present (take first entries.old.items) ≡ [] }
    requires reserved { room + room ≤ vec_capacity entries.old }
    ensures same { present entries.new.items ≡ present entries.old.items }
    ensures sorted { map.is_sorted name_cmp entries.old.items ≡ true → map.is_sorted name_cmp entries.new.items ≡ true }
    ensures passed { present (take result entries.new.items) ≡ [] }
    ensures capacity { vec_capacity entries.new ≡ vec_capacity entries.old }
    ensures room { length (present entries.old.items) < room → length entries.new.items < vec_capacity entries.new }
{
    if entries.len() / 2 < room.min(len.saturating_add(SPARE)) {
        return first;
    }
    pack(entries);
    note_all(entries, hints);
    0
}

// Remembers where each name stands.
fn note_all<V>(entries: &[(Name, Option<V>)], hints: &mut Hints) {
    'entries: for (at, entry) in entries.iter().enumerate() {
        hints.note(entry.0, at);
    }
}

// Lets go of the names that have no value.
fn pack<V: Drop>(entries: &mut Vec<(Name, Option<V>)>)
    ensures same { present entries.new.items ≡ present entries.old.items }
    ensures short { length entries.new.items ≡ length (present entries.old.items) }
    ensures sorted { map.is_sorted name_cmp entries.old.items ≡ true → map.is_sorted name_cmp entries.new.items ≡ true }
    ensures capacity { vec_capacity entries.new ≡ vec_capacity entries.old }
{
    entries.retain(|entry| entry.1.is_some());
}

// Lets go of all names, where none has a value. Answers the first place from this one on at which a name has one.
fn trim<V: Drop>(entries: &mut Vec<(Name, Option<V>)>, len: usize, from: usize) -> usize
    requires counted { len ≡ length (present entries.old.items) }
    requires passed { present (take from entries.old.items) ≡ [] }
    ensures same { present entries.new.items ≡ present entries.old.items }
    ensures sorted { map.is_sorted name_cmp entries.old.items ≡ true → map.is_sorted name_cmp entries.new.items ≡ true }
    ensures passed { present (take result entries.new.items) ≡ [] }
    ensures capacity { vec_capacity entries.new ≡ vec_capacity entries.old }
{
    if len == 0 {
        entries.clear();
        return 0;
    }
    first_from(entries, from)
}

// How many values there are: one or none.
fn count<V>(value: &Option<V>) -> usize
    ensures { result ≡ option_map_or (λ _. 1) value.now 0 }
{
    match value {
        Some(_) => 1,
        None => 0,
    }
}

// Puts a value under the name at a place, and answers 1 where there was none.
fn fill<V: Drop>(entries: &mut Vec<(Name, Option<V>)>, at: usize, value: V) -> usize
    requires { at < length entries.old.items }
    ensures filled { (e : Name × Option V) → slice_get entries.old.items at ≡ Some e → entries.new.items ≡ slice_set entries.old.items at (e.0, Some value) }
    ensures more { (e : Name × Option V) → slice_get entries.old.items at ≡ Some e → result ≡ option_map_or (λ _. 0) e.1 1 }
    ensures capacity { vec_capacity entries.new ≡ vec_capacity entries.old }
{
    match entries[at].1.replace(value) {
        Some(_) => 0,
        None => 1,
    }
}

// Takes the value under the name at a place.
fn take_at<V>(entries: &mut Vec<(Name, Option<V>)>, at: usize) -> Option<V>
    requires { at < length entries.old.items }
    ensures taken { (e : Name × Option V) → slice_get entries.old.items at ≡ Some e → (result ≡ e.1) × (entries.new.items ≡ slice_set entries.old.items at (e.0, None)) }
    ensures capacity { vec_capacity entries.new ≡ vec_capacity entries.old }
{
    entries[at].1.take()
}

// Writes one of the first fields of the object at a place, if there is one, and answers the value that it had.
#[inline(always)]
fn set_at(
    entries: &mut Vec<(Name, Option<Head>)>,
    at: usize,
    field: usize,
    value: Value,
) -> Option<Value>
    requires { at < length entries.old.items }
    ensures before { (e : Name × Option Head) → slice_get entries.old.items at ≡ Some e → result ≡ option_and_then (λ (head : Head). slice_get head.near field) e.1 }
    ensures field { (e : Name × Option Head) → slice_get entries.old.items at ≡ Some e → entries.new.items ≡ slice_set entries.old.items at (e.0, option_map (near_with field value) e.1) }
    ensures capacity { vec_capacity entries.new ≡ vec_capacity entries.old }
{
    match &mut entries[at].1 {
        Some(head) => head.near.replace(field, value),
        None => None,
    }
}

// Adds to the number at a place and then takes away from it, and answers what it was and whether the object is sealed, if
// there is one.
#[inline(always)]
fn recount_at(
    entries: &mut Vec<(Name, Option<Head>)>,
    at: usize,
    more: u64,
    fewer: u64,
) -> Option<(u64, bool)>
    requires within { at < length entries.old.items }
    requires fits { (e : Name × Option Head) (head : Head) → slice_get entries.old.items at ≡ Some e → e.1 ≡ Some head → 0 < more → head.refs + more < 2 ^ 64 }
    ensures before { (e : Name × Option Head) → slice_get entries.old.items at ≡ Some e → result ≡ option_map (λ (head : Head). (head.refs, head.sealed)) e.1 }
    ensures recounted { (e : Name × Option Head) → slice_get entries.old.items at ≡ Some e → entries.new.items ≡ slice_set entries.old.items at (e.0, option_map (recounted_head more fewer) e.1) }
    ensures capacity { vec_capacity entries.new ≡ vec_capacity entries.old }
{
    match &mut entries[at].1 {
        Some(head) => {
            let before = head.refs;
            head.refs = (before + more).saturating_sub(fewer);
            Some((before, head.sealed))
        }
        None => None,
    }
}

// Seals the object at a place, if there is one.
fn seal_at(entries: &mut Vec<(Name, Option<Head>)>, at: usize)
    requires { at < length entries.old.items }
    ensures sealed { (e : Name × Option Head) → slice_get entries.old.items at ≡ Some e → entries.new.items ≡ slice_set entries.old.items at (e.0, option_map sealed_head e.1) }
    ensures capacity { vec_capacity entries.new ≡ vec_capacity entries.old }
{
    if let Some(head) = &mut entries[at].1 {
        head.sealed = true;
    }
}

// Writes one of the values that stand aside at a place, if any do, and answers the value that it was.
fn set_far_at(
    entries: &mut Vec<(Name, Option<Far>)>,
    place: usize,
    at: usize,
    value: Value,
) -> Option<Value>
    requires { place < length entries.old.items }
    ensures before { (e : Name × Option (List Held)) → slice_get entries.old.items place ≡ Some e → result ≡ option_and_then (λ (far : List Held). slice_get far at) e.1 }
    ensures value { (e : Name × Option (List Held)) → slice_get entries.old.items place ≡ Some e → entries.new.items ≡ slice_set entries.old.items place (e.0, option_map (far_with at value) e.1) }
    ensures capacity { vec_capacity entries.new ≡ vec_capacity entries.old }
{
    match &mut entries[place].1 {
        Some(far) => far.replace(at, value),
        None => None,
    }
}

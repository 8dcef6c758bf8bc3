//! Splitting and joining seats: notes, the seats of callers, and joined views that keep each caller's list.
ghost use Rattle.std.specs.Prelude.{◌≡◌, ℕ, ◌<◌, []};
ghost use Rattle.atomic_table.specs.Table.{Splits, Joins};
ghost use Rattle.dl_pool.specs.Steps.{IsNote, noting, dealing_view, dealt_view, learning, joining, spent_view};

use crate::rules::{Joining, Parting, Pooled};
use crate::views::Member;
use atomic_table::{Join, Seat, Shared, Split};
use std::marker::PhantomData;

/// The split of a note from a seat.
struct Notes<O> {
    marker: PhantomData<O>,
}

impl<X, O: Parting<X>> Split<Member<X>> for Notes<O> {
    ghost left = { λ v. v };

    ghost right = { noting O.noted };
}

/// The split that deals a number out.
struct Deals<O> {
    marker: PhantomData<O>,
}

impl<X, O: Parting<X>> Split<Member<X>> for Deals<O> {
    ghost left = { dealing_view O.keeps };

    ghost right = { dealt_view O.dealt };
}

/// The join of a note to a seat.
struct Learns<O> {
    marker: PhantomData<O>,
}

impl<X, O: Joining<X>> Join<Member<X>> for Learns<O> {
    ghost both = { learning O.learnt };

    ghost spent = { spent_view O.spent };
}

/// The join of two callers' seats.
struct Unites<O> {
    marker: PhantomData<O>,
}

impl<X, O: Joining<X>> Join<Member<X>> for Unites<O> {
    ghost both = { joining O.joined };

    ghost spent = { spent_view O.spent };
}

/// A seat that carries what this one knows of the pool.
pub fn note<S, X, K, P: Pooled<S, X, K>, O: Parting<X>>(
    table: &Shared<S, Member<X>, K, P>,
    seat: &mut Seat<S, Member<X>>,
) -> Seat<S, Member<X>>
    requires table { (seat.old.table_id ≡ table.now.table_id) × (0 < table.now.table_id.words) }
    requires rule { Splits (P.holds table.now.key) seat.old.id seat.old.me.0 seat.old.me.0 (noting O.noted seat.old.me.0) }
    ensures seat { (seat.new.table_id ≡ seat.old.table_id) × (seat.new.id ≡ seat.old.id) × (seat.new.me ≡ seat.old.me) }
    ensures note { (result.table_id ≡ seat.old.table_id) × (result.me ≡ (noting O.noted seat.old.me.0, [])) }
{
    table.split_seat::<Notes<O>>(seat)
}

/// The seat of a new caller, with the least number that this seat may still deal out.
pub fn deal<S, X, K, P: Pooled<S, X, K>, O: Parting<X>>(
    table: &Shared<S, Member<X>, K, P>,
    seat: &mut Seat<S, Member<X>>,
) -> Seat<S, Member<X>>
    requires table { (seat.old.table_id ≡ table.now.table_id) × (0 < table.now.table_id.words) }
    requires dealing { 0 < seat.old.me.0.pool.dealing }
    requires rule { Splits (P.holds table.now.key) seat.old.id seat.old.me.0 (dealing_view O.keeps seat.old.me.0) (dealt_view O.dealt seat.old.me.0) }
    ensures seat { (seat.new.table_id ≡ seat.old.table_id) × (seat.new.id ≡ seat.old.id) × (seat.new.me ≡ (dealing_view O.keeps seat.old.me.0, seat.old.me.1)) }
    ensures dealt { (result.table_id ≡ seat.old.table_id) × (result.me ≡ (dealt_view O.dealt seat.old.me.0, [])) }
{
    table.split_seat::<Deals<O>>(seat)
}

/// Takes a note in: the seat then knows the greater of the two versions.
pub fn learn<S, X, K, P: Pooled<S, X, K>, O: Joining<X>>(
    table: &Shared<S, Member<X>, K, P>,
    seat: &mut Seat<S, Member<X>>,
    note: Seat<S, Member<X>>,
)
    requires table { (seat.old.table_id ≡ table.now.table_id) × (note.table_id ≡ table.now.table_id) × (0 < table.now.table_id.words) }
    requires note { IsNote note.me.0.pool × (note.me.1 ≡ []) }
    requires rule { Joins (P.holds table.now.key) seat.old.id seat.old.me.0 note.id note.me.0 (learning O.learnt seat.old.me.0 note.me.0) (spent_view O.spent) }
    ensures seat { (seat.new.table_id ≡ seat.old.table_id) × (seat.new.id ≡ seat.old.id) × (seat.new.me ≡ (learning O.learnt seat.old.me.0 note.me.0, seat.old.me.1)) }
{
    table.join_seat::<Learns<O>>(seat, note)
}

/// Takes the seat of another caller in. The joined view keeps the list of each caller.
pub fn join<S, X, K, P: Pooled<S, X, K>, O: Joining<X>>(
    table: &Shared<S, Member<X>, K, P>,
    seat: &mut Seat<S, Member<X>>,
    other: Seat<S, Member<X>>,
)
    requires table { (seat.old.table_id ≡ table.now.table_id) × (other.table_id ≡ table.now.table_id) × (0 < table.now.table_id.words) }
    requires empty { other.me.1 ≡ [] }
    requires rule { Joins (P.holds table.now.key) seat.old.id seat.old.me.0 other.id other.me.0 (joining O.joined seat.old.me.0 other.me.0) (spent_view O.spent) }
    ensures seat { (seat.new.table_id ≡ seat.old.table_id) × (seat.new.id ≡ seat.old.id) × (seat.new.me ≡ (joining O.joined seat.old.me.0 other.me.0, seat.old.me.1)) }
{
    table.join_seat::<Unites<O>>(seat, other)
}

//! The calls on the states of places: claims and vacations.
ghost use Rattle.std.specs.Prelude.{◌≡◌, ℕ, ◌+◌, ◌*◌, ◌<◌, ◌≤◌, ◌^◌};
ghost use Rattle.dl_pool.specs.Rule.{word_of};
ghost use Rattle.dl_pool.specs.Steps.{MayClaim, ClaimTells, claim_tells, ClaimAnswers, MayVacate, VacateTells, vacate_tells};

use crate::answers::Claim;
use crate::rules::{Onward, Pooled};
use crate::views::{Layout, Member};
use atomic_table::{Play, Seat, Shared};
use std::marker::{Brand, PhantomData};

/// The place that a step is of, and the word that has its state, where a step's outcome names it.
trait At {
    ghost word: { ℕ };

    ghost place: { ℕ };
}

impl At for Brand {
    ghost word = { 0 };

    ghost place = { 0 };
}

/// The exchange of a claim.
struct Claims<N, O> {
    marker: PhantomData<(N, O)>,
}

impl<S, X, N: At, O: Onward<X>> Play<S, Member<X>> for Claims<N, O> {
    ghost then = { claim_tells N.word N.place O.claimed };
}

fn claim_at<N: At, S, X, K, P: Pooled<S, X, K>, O: Onward<X>>(
    table: &Shared<S, Member<X>, K, P>,
    seat: &mut Seat<S, Member<X>>,
    word: usize,
    place: u32,
    mark: u64,
) -> u64
    requires table { (seat.old.table_id ≡ table.now.table_id) × (word < table.now.table_id.words) }
    requires named { (word ≡ N.word) × (place ≡ N.place) }
    requires rule { MayClaim (P.holds table.now.key) seat.old.id word place mark O.claimed seat.old.me.0 }
    ensures seat { (seat.new.table_id ≡ seat.old.table_id) × (seat.new.id ≡ seat.old.id) }
    ensures tells { ClaimTells N.word N.place O.claimed seat.old.me result seat.new.me }
{
    table.compare_exchange::<Claims<N, O>>(seat, word, 0, mark)
}

/// Claims a vacant place for the caller with this number by one compare and exchange. Answers Looked exactly where
/// the place was not vacant.
pub fn claim<S, X, K, P: Pooled<S, X, K>, O: Onward<X>>(
    table: &Shared<S, Member<X>, K, P>,
    seat: &mut Seat<S, Member<X>>,
    layout: &Layout,
    number: u32,
    place: u32,
) -> Claim
    requires table { (seat.old.table_id ≡ table.now.table_id) × (word_of layout.now place < table.now.table_id.words) }
    requires layout { (layout.now ≡ P.layout table.now.key) × (place < layout.now.places) }
    requires number { number ≡ seat.old.me.0.pool.number }
    requires spare { 0 < seat.old.me.0.pool.spares }
    requires rule { MayClaim (P.holds table.now.key) seat.old.id (word_of layout.now place) place (1 + number) O.claimed seat.old.me.0 }
    ensures seat { (seat.new.table_id ≡ seat.old.table_id) × (seat.new.id ≡ seat.old.id) }
    ensures answer { ClaimAnswers (word_of layout.now place) place O.claimed seat.old.me result seat.new.me }
{
    let word = layout.first as usize + place as usize * layout.step as usize;
    let found = claim_at::<Brand, S, X, K, P, O>(table, seat, word, place, 1 + number as u64);
    if found == 0 {
        Claim::Got
    } else {
        Claim::Looked
    }
}

/// The store of a vacation.
struct Vacates<N, O> {
    marker: PhantomData<(N, O)>,
}

impl<S, X, N: At, O: Onward<X>> Play<S, Member<X>> for Vacates<N, O> {
    ghost then = { vacate_tells N.word N.place O.vacated };
}

fn vacate_at<N: At, S, X, K, P: Pooled<S, X, K>, O: Onward<X>>(
    table: &Shared<S, Member<X>, K, P>,
    seat: &mut Seat<S, Member<X>>,
    word: usize,
    place: u32,
)
    requires table { (seat.old.table_id ≡ table.now.table_id) × (word < table.now.table_id.words) }
    requires named { (word ≡ N.word) × (place ≡ N.place) }
    requires rule { MayVacate (P.holds table.now.key) seat.old.id word place O.vacated seat.old.me.0 }
    ensures seat { (seat.new.table_id ≡ seat.old.table_id) × (seat.new.id ≡ seat.old.id) }
    ensures tells { VacateTells N.word N.place O.vacated seat.old.me seat.new.me }
{
    table.store::<Vacates<N, O>>(seat, word, 0)
}

/// Vacates a place that the caller holds by one store. The place is a spare of the caller again.
pub fn vacate<S, X, K, P: Pooled<S, X, K>, O: Onward<X>>(
    table: &Shared<S, Member<X>, K, P>,
    seat: &mut Seat<S, Member<X>>,
    layout: &Layout,
    place: u32,
)
    requires table { (seat.old.table_id ≡ table.now.table_id) × (word_of layout.now place < table.now.table_id.words) }
    requires layout { (layout.now ≡ P.layout table.now.key) × (place < layout.now.places) }
    requires rule { MayVacate (P.holds table.now.key) seat.old.id (word_of layout.now place) place O.vacated seat.old.me.0 }
    ensures seat { (seat.new.table_id ≡ seat.old.table_id) × (seat.new.id ≡ seat.old.id) }
    ensures after { VacateTells (word_of layout.now place) place O.vacated seat.old.me seat.new.me }
{
    let word = layout.first as usize + place as usize * layout.step as usize;
    vacate_at::<Brand, S, X, K, P, O>(table, seat, word, place)
}

//! The calls on the pool word: reservations and returns.
ghost use Rattle.std.specs.Prelude.{◌≡◌, ℕ, ◌<◌, ◌≤◌, ◌^◌};
ghost use Rattle.dl_pool.specs.Rule.{free_of, version_of};
ghost use Rattle.dl_pool.specs.Steps.{MayReserve, CanLook, CanTake, LookTells, TakeTells, look_tells, take_tells, ReserveAnswers, MayGive, GiveTells, give_tells, GiveAnswers};
ghost use Rattle.dl_pool.specs.declared.views.Seen.TheVariants.{Load};

use crate::answers::Reserve;
use crate::rules::{Onward, Pooled};
use crate::views::Member;
use atomic_table::{Play, Seat, Shared};
use std::marker::{Brand, PhantomData};

// One version, in the pool word.
const UNIT: u64 = 16777216;

/// The number that a call of `reserve` asks for, where a step's outcome names it.
trait Amount {
    ghost amount: { ℕ };
}

impl Amount for Brand {
    ghost amount = { 0 };
}

/// The same for the exchange of a reservation, and the number of callers.
trait Bid {
    ghost amount: { ℕ };

    ghost callers: { ℕ };
}

impl Bid for Brand {
    ghost amount = { 0 };

    ghost callers = { 0 };
}

/// The load of a reservation.
struct Looks<N, O> {
    marker: PhantomData<(N, O)>,
}

impl<S, X, N: Amount, O: Onward<X>> Play<S, Member<X>> for Looks<N, O> {
    ghost then = { look_tells N.amount O.refused };
}

/// The exchange of a reservation.
struct Takes<N, O> {
    marker: PhantomData<(N, O)>,
}

impl<S, X, N: Bid, O: Onward<X>> Play<S, Member<X>> for Takes<N, O> {
    ghost then = { take_tells N.callers N.amount O.got };
}

fn look<N: Amount, S, X, K, P: Pooled<S, X, K>, O: Onward<X>>(
    table: &Shared<S, Member<X>, K, P>,
    seat: &mut Seat<S, Member<X>>,
    need: u32,
) -> u64
    requires table { (seat.old.table_id ≡ table.now.table_id) × (0 < table.now.table_id.words) }
    requires amount { need ≡ N.amount }
    requires rule { CanLook (P.holds table.now.key) seat.old.id N.amount O.refused seat.old.me.0 }
    ensures seat { (seat.new.table_id ≡ seat.old.table_id) × (seat.new.id ≡ seat.old.id) }
    ensures tells { LookTells N.amount O.refused seat.old.me result seat.new.me }
{
    table.load::<Looks<N, O>>(seat, 0)
}

fn take<N: Bid, S, X, K, P: Pooled<S, X, K>, O: Onward<X>>(
    table: &Shared<S, Member<X>, K, P>,
    seat: &mut Seat<S, Member<X>>,
    found: u64,
    need: u32,
) -> u64
    requires table { (seat.old.table_id ≡ table.now.table_id) × (0 < table.now.table_id.words) }
    requires named { (need ≡ N.amount) × (P.callers table.now.key ≡ N.callers) }
    requires room { (need ≤ free_of found) × (version_of found ≤ 8388608) }
    requires looked { (seat.old.me.0.pool.look.last ≡ Load 0 found) × (seat.old.me.0.pool.known ≤ version_of found) }
    requires rule { CanTake (P.holds table.now.key) seat.old.id N.amount O.got found seat.old.me.0 }
    ensures seat { (seat.new.table_id ≡ seat.old.table_id) × (seat.new.id ≡ seat.old.id) }
    ensures tells { TakeTells N.callers N.amount O.got found seat.old.me result seat.new.me }
{
    table.compare_exchange::<Takes<N, O>>(seat, 0, found, found + UNIT - need as u64)
}

/// The addition of a return.
struct Gives<N, O> {
    marker: PhantomData<(N, O)>,
}

impl<S, X, N: Amount, O: Onward<X>> Play<S, Member<X>> for Gives<N, O> {
    ghost then = { give_tells N.amount O.back };
}

fn give<N: Amount, S, X, K, P: Pooled<S, X, K>, O: Onward<X>>(
    table: &Shared<S, Member<X>, K, P>,
    seat: &mut Seat<S, Member<X>>,
    count: u32,
) -> u64
    requires table { (seat.old.table_id ≡ table.now.table_id) × (0 < table.now.table_id.words) }
    requires amount { count ≡ N.amount }
    requires spares { count ≤ seat.old.me.0.pool.spares }
    requires rule { MayGive (P.holds table.now.key) seat.old.id N.amount O.back seat.old.me.0 }
    ensures seat { (seat.new.table_id ≡ seat.old.table_id) × (seat.new.id ≡ seat.old.id) }
    ensures tells { GiveTells N.amount O.back seat.old.me result seat.new.me }
{
    table.fetch_add::<Gives<N, O>>(seat, 0, UNIT + count as u64)
}

/// Gives `count` spare places back by one addition, and answers the version that this made.
pub fn give_back<S, X, K, P: Pooled<S, X, K>, O: Onward<X>>(
    table: &Shared<S, Member<X>, K, P>,
    seat: &mut Seat<S, Member<X>>,
    count: u32,
) -> u64
    requires table { (seat.old.table_id ≡ table.now.table_id) × (0 < table.now.table_id.words) }
    requires spares { (1 ≤ count) × (count ≤ seat.old.me.0.pool.spares) }
    requires rule { MayGive (P.holds table.now.key) seat.old.id count O.back seat.old.me.0 }
    ensures seat { (seat.new.table_id ≡ seat.old.table_id) × (seat.new.id ≡ seat.old.id) }
    ensures answer { GiveAnswers count O.back seat.old.me result seat.new.me }
{
    let found = give::<Brand, S, X, K, P, O>(table, seat, count);
    found / UNIT + 1
}

/// Reserves `need` places: one load of the pool word, and at most one compare and exchange. Answers NoRoom exactly
/// where the load found fewer free places, and Raced where another seat moved between the two steps.
pub fn reserve<S, X, K, P: Pooled<S, X, K>, O: Onward<X>>(
    table: &Shared<S, Member<X>, K, P>,
    seat: &mut Seat<S, Member<X>>,
    need: u32,
) -> Reserve
    requires table { (seat.old.table_id ≡ table.now.table_id) × (0 < table.now.table_id.words) }
    requires rule { MayReserve (P.holds table.now.key) seat.old.id need O.got O.refused seat.old.me.0 }
    ensures seat { (seat.new.table_id ≡ seat.old.table_id) × (seat.new.id ≡ seat.old.id) }
    ensures answer { ReserveAnswers (P.callers table.now.key) need O.got O.refused seat.old.me result seat.new.me }
{
    let found = look::<Brand, S, X, K, P, O>(table, seat, need);
    let free = found % UNIT;
    let version = found / UNIT;
    if free < need as u64 {
        return Reserve::NoRoom {
            need,
            found: free as u32,
            version,
        };
    }
    let now = take::<Brand, S, X, K, P, O>(table, seat, found, need);
    if now == found {
        Reserve::Got {
            version: version + 1,
        }
    } else {
        Reserve::Raced {
            seen: version,
            now: now / UNIT,
        }
    }
}

//! The calls of the pool, on a table of this rule.
ghost use Rattle.std.specs.Prelude.{◌≡◌, ℕ, ◌<◌, ◌≤◌, ◌+◌, ◌*◌, IfOk, IfSome, [], length};
ghost use Rattle.dl_pool.specs.Rule.{word_of};
ghost use Rattle.dl_pool.specs.Log.{HasAllCallers, IsWholeLog};
ghost use Rattle.dl_pool.specs.Steps.{ReserveAnswers, GiveAnswers, ClaimAnswers, VacateTells, IsNote, noting, dealing_view, dealt_view, learning, joining};
ghost use Rattle.dl_pool_trial.specs.Trials.{Among, one_less, with_place, without_place, no_rest, share, rest_less, both_rests, newcomer};

use crate::rule::{Rest, Setting, Shares, Spends, Trial};
use atomic_table::{Seat, Shared, Table};
use dl_pool::{
    Claim, Layout, Member, Reserve, claim, deal, give_back, join, learn, note, reserve, vacate,
};
use std::alloc::{AllocError, Global};

pub type Words = Shared<(), Member<Rest>, Setting, Trial>;

pub type Place = Seat<(), Member<Rest>>;

pub type Places = Table<(), Member<Rest>, Setting, Trial, Global>;

/// A table of three vacant places.
pub fn open(alloc: Global, setting: &Setting) -> Result<(Places, Place), AllocError>
    requires { (setting.now.layout.first ≡ 1) × (setting.now.layout.step ≡ 1) × (setting.now.layout.places ≡ 3) }
    ensures { IfOk result (λ t. (t.1.table_id ≡ t.0.shared.table_id) × (t.0.shared.table_id.words ≡ 4) × (t.0.shared.table_id.slots ≡ 0) × (t.0.shared.key ≡ setting.now) × (t.1.me ≡ (newcomer, []))) }
{
    Table::of_words(alloc, &[3, 0, 0, 0], setting)
}

/// Closes a table once the seats of all its callers are joined to this one, and answers the pool word.
pub fn close_own(table: Places, seat: Place) -> u64
    requires table { (seat.table_id ≡ table.shared.table_id) × (0 < table.shared.table_id.words) × (table.shared.table_id.slots ≡ 0) }
    requires all { HasAllCallers table.shared.key.callers seat.me.0.pool }
    ensures { IsWholeLog table.shared.key.layout.places result seat.me.0.pool }
{
    let closed = table.close_with(seat);
    let word = closed.word(0);
    closed.free();
    word
}

pub fn reserve_own(table: &Words, seat: &mut Place, need: u32) -> Reserve
    requires table { (seat.old.table_id ≡ table.now.table_id) × (0 < table.now.table_id.words) }
    requires left { (0 < seat.old.me.0.rest.left) × (0 < seat.old.me.0.pool.number) }
    ensures seat { (seat.new.table_id ≡ seat.old.table_id) × (seat.new.id ≡ seat.old.id) }
    ensures answer { ReserveAnswers table.now.key.callers need (λ n version x. one_less x) (λ n found version x. x) seat.old.me result seat.new.me }
{
    reserve::<(), Rest, Setting, Trial, Spends>(table, seat, need)
}

/// A reservation on a table of one caller, which never races. Answers the version made, or nothing where too few places
/// were free.
pub fn reserve_alone(table: &Words, seat: &mut Place, need: u32) -> Option<u64>
    requires table { (seat.old.table_id ≡ table.now.table_id) × (0 < table.now.table_id.words) }
    requires left { (0 < seat.old.me.0.rest.left) × (0 < seat.old.me.0.pool.number) }
    requires alone { table.now.key.callers ≡ 1 }
    ensures seat { (seat.new.table_id ≡ seat.old.table_id) × (seat.new.id ≡ seat.old.id) }
    ensures made { IfSome result (λ version. ReserveAnswers 1 need (λ n v x. one_less x) (λ n found v x. x) seat.old.me (Reserve.Got version) seat.new.me) }
    ensures refused { result ≡ None → (found : ℕ) × (version : ℕ) × ReserveAnswers 1 need (λ n v x. one_less x) (λ n f v x. x) seat.old.me (Reserve.NoRoom need found version) seat.new.me }
{
    match reserve_own(table, seat, need) {
        Reserve::Got { version } => Some(version),
        Reserve::NoRoom { .. } => None,
        Reserve::Raced { .. } => unreachable!(),
    }
}

pub fn give_own(table: &Words, seat: &mut Place, count: u32) -> u64
    requires table { (seat.old.table_id ≡ table.now.table_id) × (0 < table.now.table_id.words) }
    requires left { (0 < seat.old.me.0.rest.left) × (0 < seat.old.me.0.pool.number) }
    requires spares { (1 ≤ count) × (count ≤ seat.old.me.0.pool.spares) }
    ensures seat { (seat.new.table_id ≡ seat.old.table_id) × (seat.new.id ≡ seat.old.id) }
    ensures answer { GiveAnswers count (λ n version x. one_less x) seat.old.me result seat.new.me }
{
    give_back::<(), Rest, Setting, Trial, Spends>(table, seat, count)
}

pub fn claim_own(table: &Words, seat: &mut Place, layout: &Layout, number: u32, place: u32) -> Claim
    requires table { (seat.old.table_id ≡ table.now.table_id) × (word_of layout.now place < table.now.table_id.words) }
    requires layout { (layout.now ≡ table.now.key.layout) × (place < layout.now.places) }
    requires number { (number ≡ seat.old.me.0.pool.number) × (0 < number) }
    requires spare { 0 < seat.old.me.0.pool.spares }
    ensures seat { (seat.new.table_id ≡ seat.old.table_id) × (seat.new.id ≡ seat.old.id) }
    ensures answer { ClaimAnswers (word_of layout.now place) place with_place seat.old.me result seat.new.me }
{
    claim::<(), Rest, Setting, Trial, Spends>(table, seat, layout, number, place)
}

pub fn vacate_own(table: &Words, seat: &mut Place, layout: &Layout, place: u32)
    requires table { (seat.old.table_id ≡ table.now.table_id) × (word_of layout.now place < table.now.table_id.words) }
    requires layout { (layout.now ≡ table.now.key.layout) × (place < layout.now.places) }
    requires claimed { Among seat.old.me.0.rest.number place seat.old.me.0.rest.claimed }
    ensures seat { (seat.new.table_id ≡ seat.old.table_id) × (seat.new.id ≡ seat.old.id) }
    ensures after { VacateTells (word_of layout.now place) place without_place seat.old.me seat.new.me }
{
    vacate::<(), Rest, Setting, Trial, Spends>(table, seat, layout, place)
}

pub fn note_own(table: &Words, seat: &mut Place) -> Place
    requires table { (seat.old.table_id ≡ table.now.table_id) × (0 < table.now.table_id.words) }
    ensures seat { (seat.new.table_id ≡ seat.old.table_id) × (seat.new.id ≡ seat.old.id) × (seat.new.me ≡ seat.old.me) }
    ensures note { (result.table_id ≡ seat.old.table_id) × (result.me ≡ (noting (λ x. no_rest) seat.old.me.0, [])) }
{
    note::<(), Rest, Setting, Trial, Shares>(table, seat)
}

/// The seat of the next caller.
pub fn deal_own(table: &Words, seat: &mut Place) -> Place
    requires table { (seat.old.table_id ≡ table.now.table_id) × (0 < table.now.table_id.words) }
    requires dealing { (0 < seat.old.me.0.pool.dealing) × (seat.old.me.0.pool.dealing ≤ table.now.key.callers) × (4096 ≤ seat.old.me.0.rest.left) }
    ensures seat { (seat.new.table_id ≡ seat.old.table_id) × (seat.new.id ≡ seat.old.id) × (seat.new.me ≡ (dealing_view (λ c x. rest_less x) seat.old.me.0, seat.old.me.1)) }
    ensures dealt { (result.table_id ≡ seat.old.table_id) × (result.me ≡ (dealt_view (λ c x. share c) seat.old.me.0, [])) }
{
    deal::<(), Rest, Setting, Trial, Shares>(table, seat)
}

pub fn learn_own(table: &Words, seat: &mut Place, note: Place)
    requires table { (seat.old.table_id ≡ table.now.table_id) × (note.table_id ≡ table.now.table_id) × (0 < table.now.table_id.words) }
    requires note { IsNote note.me.0.pool × (note.me.1 ≡ []) × (note.me.0.rest ≡ no_rest) }
    ensures seat { (seat.new.table_id ≡ seat.old.table_id) × (seat.new.id ≡ seat.old.id) × (seat.new.me ≡ (learning (λ x y. x) seat.old.me.0 note.me.0, seat.old.me.1)) }
{
    learn::<(), Rest, Setting, Trial, Shares>(table, seat, note)
}

/// Takes in the seat of another caller.
pub fn join_own(table: &Words, seat: &mut Place, other: Place)
    requires table { (seat.old.table_id ≡ table.now.table_id) × (other.table_id ≡ table.now.table_id) × (0 < table.now.table_id.words) }
    requires other { other.me.1 ≡ [] }
    ensures seat { (seat.new.table_id ≡ seat.old.table_id) × (seat.new.id ≡ seat.old.id) × (seat.new.me ≡ (joining both_rests seat.old.me.0 other.me.0, seat.old.me.1)) }
{
    join::<(), Rest, Setting, Trial, Shares>(table, seat, other)
}

//! Rounds of reserving, claiming, vacating and giving back, as a thread of its own makes them.
ghost use Rattle.std.specs.Prelude.{◌≡◌, ℕ, ◌<◌, ◌≤◌, ◌+◌, ◌*◌, [], cond, IfOk};
ghost use Rattle.dl_pool.specs.Rule.{word_of};
ghost use Rattle.dl_pool_trial.specs.Trials.{Adds, MakesRounds};

use crate::calls::{
    Place, Words, claim_own, close_own, deal_own, give_own, join_own, open, reserve_own, vacate_own,
};
use crate::rule::Setting;
use dl_pool::{Claim, Layout, Reserve};
use std::alloc::{AllocError, Global};
use std::thread::{Threads, join_mut};

/// Claims the first place, and vacates it again where it was vacant.
fn visit(table: &Words, seat: &mut Place, layout: &Layout, number: u32)
    requires table { (seat.old.table_id ≡ table.now.table_id) × (table.now.table_id.words ≡ 4) }
    requires layout { (layout.now ≡ table.now.key.layout) × (layout.now.first ≡ 1) × (layout.now.places ≡ 3) }
    requires number { (number ≡ seat.old.me.0.pool.number) × (0 < number) }
    requires rest { (seat.old.me.0.rest.claimed ≡ []) × (0 < seat.old.me.0.pool.spares) }
    ensures seat { (seat.new.table_id ≡ seat.old.table_id) × (seat.new.me.1 ≡ seat.old.me.1) }
    ensures lists { Adds 0 0 0 seat.old.me.0.pool seat.new.me.0.pool × (seat.new.me.0.pool.spares ≡ seat.old.me.0.pool.spares) }
    ensures rest { (seat.new.me.0.rest.claimed ≡ []) × (seat.new.me.0.rest.left ≡ seat.old.me.0.rest.left) }
    ensures looks { seat.old.me.0.pool.look.count < seat.new.me.0.pool.look.count }
{
    if let Claim::Got = claim_own(table, seat, layout, number, 0) {
        vacate_own(table, seat, layout, 0);
    }
}

/// One round. Answers whether the reservation came about.
fn round(table: &Words, seat: &mut Place, layout: &Layout, number: u32) -> bool
    requires table { (seat.old.table_id ≡ table.now.table_id) × (table.now.table_id.words ≡ 4) }
    requires layout { (layout.now ≡ table.now.key.layout) × (layout.now.first ≡ 1) × (layout.now.places ≡ 3) }
    requires number { (number ≡ seat.old.me.0.pool.number) × (0 < number) }
    requires rest { (seat.old.me.0.rest.claimed ≡ []) × (2 ≤ seat.old.me.0.rest.left) }
    ensures seat { (seat.new.table_id ≡ seat.old.table_id) × (seat.new.me.1 ≡ seat.old.me.1) }
    ensures made { MakesRounds (cond result 1 0) seat.old.me.0.pool seat.new.me.0.pool × (seat.new.me.0.rest.claimed ≡ []) }
    ensures left { seat.old.me.0.rest.left ≤ seat.new.me.0.rest.left + 2 }
    ensures looks { seat.old.me.0.pool.look.count < seat.new.me.0.pool.look.count }
{
    let Reserve::Got { .. } = reserve_own(table, seat, 1) else {
        return false;
    };
    visit(table, seat, layout, number);
    let _ = give_own(table, seat, 1);
    true
}

/// So many rounds. Answers in how many of them the reservation came about.
pub fn rounds(table: &Words, seat: &mut Place, layout: &Layout, number: u32, count: u32) -> u32
    requires table { (seat.old.table_id ≡ table.now.table_id) × (table.now.table_id.words ≡ 4) }
    requires layout { (layout.now ≡ table.now.key.layout) × (layout.now.first ≡ 1) × (layout.now.places ≡ 3) }
    requires number { (number ≡ seat.old.me.0.pool.number) × (0 < number) }
    requires rest { (seat.old.me.0.rest.claimed ≡ []) × (2 * count ≤ seat.old.me.0.rest.left) }
    ensures seat { (seat.new.table_id ≡ seat.old.table_id) × (seat.new.me.1 ≡ seat.old.me.1) }
    ensures made { MakesRounds result seat.old.me.0.pool seat.new.me.0.pool × (seat.new.me.0.rest.claimed ≡ []) }
    ensures count { result ≤ count }
    ensures looks { seat.old.me.0.pool.look.count + count ≤ seat.new.me.0.pool.look.count }
{
    let mut made = 0;
    for _ in 0..count {
        if round(table, seat, layout, number) {
            made += 1;
        }
    }
    made
}

/// What two threads made of one table.
#[derive(Drop)]
pub struct Totals {
    /// How many reservations came about, in both threads.
    pub made: u32,
    /// The pool word at the end.
    pub word: u64,
}

/// So many rounds of the callers 1 and 2, in threads of their own.
fn run_both<R: Threads + Sync>(
    rt: &R,
    table: &Words,
    one: &mut Place,
    two: &mut Place,
    layout: &Layout,
    count: u32,
) -> (u32, u32)
    requires table { (one.old.table_id ≡ table.now.table_id) × (two.old.table_id ≡ table.now.table_id) × (table.now.table_id.words ≡ 4) }
    requires layout { (layout.now ≡ table.now.key.layout) × (layout.now.first ≡ 1) × (layout.now.places ≡ 3) }
    requires numbers { (one.old.me.0.pool.number ≡ 1) × (two.old.me.0.pool.number ≡ 2) }
    requires rest { (one.old.me.0.rest.claimed ≡ []) × (two.old.me.0.rest.claimed ≡ []) }
    requires left { (2 * count ≤ one.old.me.0.rest.left) × (2 * count ≤ two.old.me.0.rest.left) }
    ensures one { (one.new.table_id ≡ one.old.table_id) × (one.new.me.1 ≡ one.old.me.1) × MakesRounds result.0 one.old.me.0.pool one.new.me.0.pool }
    ensures two { (two.new.table_id ≡ two.old.table_id) × (two.new.me.1 ≡ two.old.me.1) × MakesRounds result.1 two.old.me.0.pool two.new.me.0.pool }
    ensures count { (result.0 ≤ count) × (result.1 ≤ count) }
    ensures looks { (one.old.me.0.pool.look.count + count ≤ one.new.me.0.pool.look.count) × (two.old.me.0.pool.look.count + count ≤ two.new.me.0.pool.look.count) }
{
    join_mut(
        rt,
        &mut || rounds(table, one, layout, 1, count),
        &mut || rounds(table, two, layout, 2, count),
    )
}

/// Two callers with so many rounds each, in threads of their own. The two seats are joined at the end.
pub fn two_threads<R: Threads + Sync>(
    rt: &R,
    alloc: Global,
    setting: &Setting,
    count: u32,
) -> Result<Totals, AllocError>
    requires layout { (setting.now.layout.first ≡ 1) × (setting.now.layout.step ≡ 1) × (setting.now.layout.places ≡ 3) }
    requires callers { setting.now.callers ≡ 2 }
    requires count { count ≤ 2048 }
    ensures totals { IfOk result (λ t. t.word ≡ 2 * t.made * 16777216 + 3) }
    ensures made { IfOk result (λ t. t.made ≤ 2 * count) }
{
    let (table, mut dealer) = open(alloc, setting)?;
    let words = &table.shared;
    let layout = &setting.layout;
    let mut one = deal_own(words, &mut dealer);
    let mut two = deal_own(words, &mut dealer);
    let (first, second) = run_both(rt, words, &mut one, &mut two, layout, count);
    join_own(words, &mut one, two);
    let word = close_own(table, one);
    Ok(Totals {
        made: first + second,
        word,
    })
}

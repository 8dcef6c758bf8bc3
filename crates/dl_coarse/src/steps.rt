// The steps on the words, one function each.
ghost use Rattle.std.specs.Prelude.{◌≡◌, ◌≢◌, ◌<◌, ◌≤◌, ℕ, IfOk, IfErr, Some, None, [], ◌∷◌};
ghost use Rattle.dl_core.specs.Passes.{Compared, Loaded, Stored};
ghost use Rattle.dl_core.specs.Turns.{call_of};
ghost use Rattle.dl_core.specs.Plans.{Plan};
ghost use Rattle.dl_coarse.specs.Sights.{Sight, own_of, glanced, with_clock, with_version, sight_after};
ghost use Rattle.dl_coarse.specs.Sights.{TurnTaken};
ghost use Rattle.dl_coarse.specs.Turn.{Got, Missed, MayGive, after_got};

use crate::machines::Machine;
use crate::rule::{Hold, Turn};
use atomic_table::{Play, Seat, Shared};
use dl_core::Progress;
use std::marker::{Brand, PhantomData};

pub type Words<M> = Shared<Option<M>, Hold, M, Turn<M>>;

/// The plan of the run, where what a step tells speaks of it.
trait Planned {
    ghost use Rattle.std.specs.Prelude.{Option};
    ghost use Rattle.dl_core.specs.Plans.{Plan};

    ghost plan: { Option Plan };
}

impl Planned for Brand {
    ghost use Rattle.std.specs.Prelude.{None};

    ghost plan = { None };
}

struct Grabs<M, N> {
    marker: PhantomData<(M, N)>,
}

impl<M: Machine, N: Planned> Play<Option<M>, Hold> for Grabs<M, N> {
    ghost use Rattle.dl_coarse.specs.Turn.{grabs};

    ghost then = { grabs M.runs M.state N.plan };
}

struct Clocks;

impl<M> Play<Option<M>, Hold> for Clocks {
    ghost use Rattle.dl_coarse.specs.Turn.{clocks};

    ghost then = { clocks };
}

struct Versions;

impl<M> Play<Option<M>, Hold> for Versions {
    ghost use Rattle.dl_coarse.specs.Turn.{versions};

    ghost then = { versions };
}

struct Sees;

impl<M> Play<Option<M>, Hold> for Sees {
    ghost use Rattle.dl_coarse.specs.Turn.{sees};

    ghost then = { sees };
}

/// What the seat knows when it has given the turn back.
trait Settled {
    ghost use Rattle.dl_coarse.specs.Sights.{Sight};

    ghost sight: { Sight };
}

impl Settled for Brand {
    ghost use Rattle.dl_coarse.specs.Sights.{blank};

    ghost sight = { blank };
}

struct Gives<N> {
    marker: PhantomData<N>,
}

impl<M, N: Settled> Play<Option<M>, Hold> for Gives<N> {
    ghost use Rattle.dl_coarse.specs.Turn.{gives};

    ghost then = { gives N.sight };
}

fn grab_at<M: Machine, N: Planned>(
    table: &Words<M>,
    seat: &mut Seat<Option<M>, Hold>,
    number: u64,
) -> Result<M, u64>
    requires table { (seat.old.table_id ≡ table.now.table_id) × (table.now.table_id.words ≡ 3) }
    requires plan { N.plan ≡ Some (M.opening table.now.key) }
    requires one { (seat.old.me.0.owns ≡ own_of seat.old.me.0 ∷ []) × ((own_of seat.old.me.0).number ≡ number) × (0 < number) }
    requires out { (seat.old.me.0.turn ≡ None) × (seat.old.me.1 ≡ []) }
    ensures seat { (seat.new.table_id ≡ seat.old.table_id) × (seat.new.id ≡ seat.old.id) }
    ensures ok { IfOk result (λ machine. Got M.runs M.state (M.opening table.now.key) seat.old.me.0 machine × (seat.new.me ≡ after_got M.runs M.state machine None seat.old.me)) }
    ensures err { IfErr result (λ found. Missed M.runs M.state (M.opening table.now.key) seat.old.me.0 found × (seat.new.me ≡ (glanced (Compared 0 found) seat.old.me.0, []))) }
{
    let found = table.compare_exchange::<Grabs<M, N>>(seat, 0, 0, number);
    if found != 0 {
        return Err(found);
    }
    let Some(machine) = table.exchange(seat, 0, None) else {
        unreachable!()
    };
    Ok(machine)
}

/// Tries once to take the turn, and the machine with it; or answers who has it.
pub(crate) fn grab<M: Machine>(
    table: &Words<M>,
    seat: &mut Seat<Option<M>, Hold>,
    number: u64,
) -> Result<M, u64>
    requires table { (seat.old.table_id ≡ table.now.table_id) × (table.now.table_id.words ≡ 3) }
    requires one { (seat.old.me.0.owns ≡ own_of seat.old.me.0 ∷ []) × ((own_of seat.old.me.0).number ≡ number) × (0 < number) }
    requires out { (seat.old.me.0.turn ≡ None) × (seat.old.me.1 ≡ []) }
    ensures seat { (seat.new.table_id ≡ seat.old.table_id) × (seat.new.id ≡ seat.old.id) }
    ensures ok { IfOk result (λ machine. Got M.runs M.state (M.opening table.now.key) seat.old.me.0 machine × (seat.new.me ≡ after_got M.runs M.state machine None seat.old.me)) }
    ensures err { IfErr result (λ found. Missed M.runs M.state (M.opening table.now.key) seat.old.me.0 found × (seat.new.me ≡ (glanced (Compared 0 found) seat.old.me.0, []))) }
{
    grab_at::<M, Brand>(table, seat, number)
}

/// Writes the last ticket.
pub(crate) fn write_clock<M: Machine>(
    table: &Words<M>,
    seat: &mut Seat<Option<M>, Hold>,
    clock: u64,
)
    requires table { (seat.old.table_id ≡ table.now.table_id) × (table.now.table_id.words ≡ 3) }
    requires turn { (turn : TurnTaken) × (seat.old.me.0.turn ≡ Some turn) × (turn.clock ≤ clock) }
    ensures seat { (seat.new.table_id ≡ seat.old.table_id) × (seat.new.id ≡ seat.old.id) }
    ensures written { (turn : TurnTaken) → seat.old.me.0.turn ≡ Some turn → seat.new.me ≡ (with_clock clock turn (glanced (Stored 1) seat.old.me.0), seat.old.me.1) }
{
    table.store::<Clocks>(seat, 1, clock);
}

/// Writes the version of the pool.
pub(crate) fn write_version<M: Machine>(
    table: &Words<M>,
    seat: &mut Seat<Option<M>, Hold>,
    version: u64,
)
    requires table { (seat.old.table_id ≡ table.now.table_id) × (table.now.table_id.words ≡ 3) }
    requires turn { (turn : TurnTaken) × (seat.old.me.0.turn ≡ Some turn) × (turn.version ≤ version) }
    ensures seat { (seat.new.table_id ≡ seat.old.table_id) × (seat.new.id ≡ seat.old.id) }
    ensures written { (turn : TurnTaken) → seat.old.me.0.turn ≡ Some turn → seat.new.me ≡ (with_version version turn (glanced (Stored 2) seat.old.me.0), seat.old.me.1) }
{
    table.store::<Versions>(seat, 2, version);
}

/// Reads the version of the pool.
pub(crate) fn see_version<M: Machine>(table: &Words<M>, seat: &mut Seat<Option<M>, Hold>) -> u64
    requires table { (seat.old.table_id ≡ table.now.table_id) × (table.now.table_id.words ≡ 3) }
    requires turn { (turn : TurnTaken) × (seat.old.me.0.turn ≡ Some turn) }
    ensures seat { (seat.new.table_id ≡ seat.old.table_id) × (seat.new.id ≡ seat.old.id) }
    ensures read { (turn : TurnTaken) → seat.old.me.0.turn ≡ Some turn → seat.new.me ≡ (glanced (Loaded 2 turn.version) seat.old.me.0, seat.old.me.1) }
{
    table.load::<Sees>(seat, 2)
}

fn give_at<M: Machine, N: Settled>(
    table: &Words<M>,
    seat: &mut Seat<Option<M>, Hold>,
    machine: M,
    op: u32,
    args: &[i64],
    answer: &Progress,
)
    requires table { (seat.old.table_id ≡ table.now.table_id) × (table.now.table_id.words ≡ 3) × (table.now.table_id.slots ≡ 1) }
    requires may { MayGive M.runs M.state (M.opening table.now.key) seat.old.me.0 machine (call_of op args.now) answer.now }
    requires slot { seat.old.me.1 ≡ (0, None) ∷ [] }
    requires named { N.sight ≡ sight_after (M.state machine) (call_of op args.now) answer.now seat.old.me.0 }
    ensures seat { (seat.new.table_id ≡ seat.old.table_id) × (seat.new.id ≡ seat.old.id) }
    ensures sight_after { seat.new.me ≡ (N.sight, []) }
{
    let _ = op;
    let _ = args;
    let _ = answer;
    let _ = table.exchange(seat, 0, Some(machine));
    table.store::<Gives<N>>(seat, 0, 0);
}

/// Gives the machine back, on which an operation has run, and the turn with it.
pub(crate) fn give<M: Machine>(
    table: &Words<M>,
    seat: &mut Seat<Option<M>, Hold>,
    machine: M,
    op: u32,
    args: &[i64],
    answer: &Progress,
)
    requires table { (seat.old.table_id ≡ table.now.table_id) × (table.now.table_id.words ≡ 3) × (table.now.table_id.slots ≡ 1) }
    requires may { MayGive M.runs M.state (M.opening table.now.key) seat.old.me.0 machine (call_of op args.now) answer.now }
    requires slot { seat.old.me.1 ≡ (0, None) ∷ [] }
    ensures seat { (seat.new.table_id ≡ seat.old.table_id) × (seat.new.id ≡ seat.old.id) }
    ensures sight_after { seat.new.me ≡ (sight_after (M.state machine) (call_of op args.now) answer.now seat.old.me.0, []) }
{
    give_at::<M, Brand>(table, seat, machine, op, args, answer)
}

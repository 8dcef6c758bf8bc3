// One turn: the operation of one caller, from its begin to its end.
ghost use Rattle.std.specs.Prelude.{◌≡◌, ◌≢◌, ◌<◌, ◌≤◌, ℕ, IfOk, IfErr, Some, None, [], ◌∷◌, length};
ghost use Rattle.dl_ir.specs.CallForms.{IsCallOf};
ghost use Rattle.dl_core.specs.Advances.{Progresses, WaitsStill};
ghost use Rattle.dl_core.specs.Passes.{OneTurn};
ghost use Rattle.dl_core.specs.Turns.{call_of};
ghost use Rattle.dl_core.specs.Plans.{source_of, size_of};
ghost use Rattle.dl_core.specs.declared.answers.Lock.TheVariants as locks;
ghost use Rattle.dl_coarse.specs.Marks.{IsMarked, MayMark, LookBy};
ghost use Rattle.dl_coarse.specs.Sights.{IsResting, own_of, view_with};
ghost use Rattle.dl_coarse.specs.Sights.{TurnTaken};

use crate::machines::Machine;
use crate::rule::Hold;
use crate::steps::{Words, give, grab, see_version, write_clock, write_version};
use atomic_table::Seat;
use dl_core::Progress;

// Writes the last ticket, and the version where a move has changed it.
fn write_both<M: Machine>(
    table: &Words<M>,
    seat: &mut Seat<Option<M>, Hold>,
    clock: u64,
    old: u64,
    version: u64,
)
    requires table { (seat.old.table_id ≡ table.now.table_id) × (table.now.table_id.words ≡ 3) }
    requires turn { (turn : TurnTaken) × (seat.old.me.0.turn ≡ Some turn) × (turn.clock ≤ clock) × (old ≡ turn.version) × (turn.version ≤ version) }
    ensures seat { (seat.new.table_id ≡ seat.old.table_id) × (seat.new.id ≡ seat.old.id) }
    ensures marked { IsMarked clock version seat.old.me seat.new.me }
{
    write_clock(table, seat, clock);
    if version != old {
        write_version(table, seat, version);
    }
}

// Writes what the operation changed; after a refusal reads the version.
fn mark<M: Machine>(
    table: &Words<M>,
    seat: &mut Seat<Option<M>, Hold>,
    machine: &M,
    old: u64,
    answer: &Progress,
)
    requires table { (seat.old.table_id ≡ table.now.table_id) × (table.now.table_id.words ≡ 3) }
    requires may { MayMark seat.old.me.0 old answer.now (M.state machine.now) }
    ensures seat { (seat.new.table_id ≡ seat.old.table_id) × (seat.new.id ≡ seat.old.id) }
    ensures marked { IsMarked (M.state machine.now).clock (M.state machine.now).pool.version seat.old.me seat.new.me }
    ensures look { LookBy answer.now old seat.old.me.0.look seat.new.me.0.look }
{
    match answer {
        Progress::Done { .. } => {
            write_both(table, seat, machine.clock(), old, machine.version())
        }
        _ => {
            see_version(table, seat);
        }
    }
}

/// Tries once to take the turn, and runs the caller's operation; or answers who has the turn.
pub(crate) fn take_turn<M: Machine>(
    table: &Words<M>,
    seat: &mut Seat<Option<M>, Hold>,
    number: u32,
    op: u32,
    args: &[i64],
) -> Result<Progress, u64>
    requires table { (seat.old.table_id ≡ table.now.table_id) × (table.now.table_id.words ≡ 3) × (table.now.table_id.slots ≡ 1) }
    requires resting { IsResting seat.old.me.0 × (seat.old.me.1 ≡ []) }
    requires number { ((own_of seat.old.me.0).number ≡ number) × (0 < number) }
    requires room { length (own_of seat.old.me.0).calls < size_of (M.opening table.now.key) number }
    requires fits { IsCallOf (source_of (M.opening table.now.key)) (call_of op args.now) }
    ensures seat { (seat.new.table_id ≡ seat.old.table_id) × (seat.new.id ≡ seat.old.id) }
    ensures resting { IsResting seat.new.me.0 × (seat.new.me.1 ≡ []) × ((own_of seat.new.me.0).number ≡ number) }
    ensures ok { IfOk result (λ answer. Progresses OneTurn (M.opening table.now.key) (view_with (Some (call_of op args.now)) seat.old.me.0) answer (view_with None seat.new.me.0)) }
    ensures err { IfErr result (λ by. WaitsStill OneTurn (M.opening table.now.key) (view_with (Some (call_of op args.now)) seat.old.me.0) locks.Turn by (view_with (Some (call_of op args.now)) seat.new.me.0)) }
{
    let machine = grab(table, seat, u64::from(number))?;
    let old = machine.version();
    let (left, answer) = machine.run(number, op, args);
    mark(table, seat, &left, old, &answer);
    give(table, seat, left, op, args, &answer);
    Ok(answer)
}

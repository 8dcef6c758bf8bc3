// How a run starts: the machine is put into the slot, and each caller gets a pass.
ghost use Rattle.std.specs.Prelude.{◌≡◌, ◌+◌, ◌-◌, ◌≤◌, IfOk, Some, None, [], ◌∷◌, length};
ghost use Rattle.dl_core.specs.Closing.{AreFresh};
ghost use Rattle.dl_core.specs.Core.{fresh};
ghost use Rattle.dl_core.specs.Plans.{IsPlan};
ghost use Rattle.dl_core.specs.Sound.{callers_of};
ghost use Rattle.dl_coarse.specs.Openings.{IsOpened, HasSlot, HasYet, first_sight};
ghost use Rattle.dl_coarse.specs.Passes.{IsOf, plan_in, view_of};

use crate::machines::Machine;
use crate::passes::{Coarse, Pass};
use crate::rule::Hold;
use crate::steps::Words;
use atomic_table::{Play, Seat, Split, Table};
use std::alloc::{AllocError, Global};

pub(crate) struct Fills;

impl<M> Play<Option<M>, Hold> for Fills {
    ghost use Rattle.dl_coarse.specs.Turn.{takes_slot};

    ghost then = { takes_slot };
}

pub(crate) struct Returns;

impl<M> Play<Option<M>, Hold> for Returns {
    ghost use Rattle.dl_coarse.specs.Turn.{returns_turn};

    ghost then = { returns_turn };
}

pub(crate) struct Deals;

impl Split<Hold> for Deals {
    ghost use Rattle.dl_coarse.specs.Sights.{without_first, first_alone};

    ghost left = { without_first };

    ghost right = { first_alone };
}

// Takes the slot, in which nothing is.
fn take_slot<M: Machine>(table: &Words<M>, seat: &mut Seat<Option<M>, Hold>)
    requires table { (seat.old.table_id ≡ table.now.table_id) × (table.now.table_id.words ≡ 3) }
    requires first { seat.old.me ≡ (first_sight (M.opening table.now.key) (M.state table.now.key), []) }
    ensures seat { (seat.new.table_id ≡ seat.old.table_id) × (seat.new.id ≡ seat.old.id) }
    ensures taken { HasSlot (M.opening table.now.key) (M.state table.now.key) seat.new.me }
{
    table.load::<Fills>(seat, 0);
}

// Puts the machine into the slot, and gives the turn back.
fn put_in<M: Machine>(table: &Words<M>, seat: &mut Seat<Option<M>, Hold>, machine: M)
    requires table { (seat.old.table_id ≡ table.now.table_id) × (table.now.table_id.words ≡ 3) × (table.now.table_id.slots ≡ 1) }
    requires taken { HasSlot (M.opening table.now.key) (M.state table.now.key) seat.old.me }
    requires machine { M.runs (M.opening table.now.key) machine × (M.state machine ≡ M.state table.now.key) }
    requires fresh { M.state table.now.key ≡ fresh (M.opening table.now.key) }
    ensures seat { (seat.new.table_id ≡ seat.old.table_id) × (seat.new.id ≡ seat.old.id) }
    ensures yet { HasYet (M.opening table.now.key) (callers_of (M.opening table.now.key)) seat.new.me }
{
    let _ = table.exchange(seat, 0, Some(machine));
    table.store::<Returns>(seat, 0, 0);
}

// Splits off the own of one caller after the other, each for a pass.
fn deal<M: Machine>(
    alloc: Global,
    coarse: &Coarse<M>,
    mut seat: Seat<Option<M>, Hold>,
    front: u64,
    callers: usize,
) -> Result<Vec<Pass<M>>, AllocError>
    requires table { (seat.table_id ≡ coarse.now.table.shared.table_id) × (coarse.now.table.shared.table_id.words ≡ 3) × (coarse.now.table.shared.table_id.slots ≡ 1) }
    requires plan { IsPlan (plan_in M.opening coarse.now) }
    requires callers { callers ≡ length (plan_in M.opening coarse.now).sizes }
    requires front { front ≡ seat.me.0.front }
    requires yet { HasYet (plan_in M.opening coarse.now) (callers_of (plan_in M.opening coarse.now)) seat.me }
    ensures fresh { IfOk result (λ passes. AreFresh (plan_in M.opening coarse.now) (IsOf M.opening coarse.now) view_of passes.items) }
{
    let mut passes = Vec::with_capacity(alloc, callers)?;
    for at in 0..callers {
        let args = Vec::with_capacity(alloc, 32)?;
        let own = coarse.table.shared.split_seat::<Deals>(&mut seat);
        passes.push_reserved(Pass {
            seat: own,
            number: at as u32 + 1,
            busy: false,
            op: 0,
            args,
            front,
        });
    }
    Ok(passes)
}

/// The table with a machine that is at the start of a run, and a pass for each caller.
pub(crate) fn open<M: Machine>(
    alloc: Global,
    machine: M,
    callers: usize,
) -> Result<(Coarse<M>, Vec<Pass<M>>), AllocError>
    requires opened { IsOpened M.opening M.runs M.state (M.opening machine) machine }
    requires plan { IsPlan (M.opening machine) }
    requires callers { callers ≡ length (M.opening machine).sizes }
    ensures plan { IfOk result (λ started. plan_in M.opening started.0 ≡ M.opening machine) }
    ensures fresh { IfOk result (λ started. AreFresh (plan_in M.opening started.0) (IsOf M.opening started.0) view_of started.1.items) }
{
    let front = machine.clock();
    let (table, mut seat) = Table::vacant(alloc, &[1, front, machine.version()], 1, &machine)?;
    take_slot(&table.shared, &mut seat);
    put_in(&table.shared, &mut seat, machine);
    let coarse = Coarse { table };
    let passes = deal(alloc, &coarse, seat, front, callers)?;
    Ok((coarse, passes))
}

// How a run ends: the seats of all passes are joined, and the machine is taken out of the slot.
ghost use Rattle.std.specs.Prelude.{◌≡◌, [], map};
ghost use Rattle.dl_core.specs.Closing.{AreIdle, EndsOn};
ghost use Rattle.dl_coarse.specs.Sights.{blank};
ghost use Rattle.dl_coarse.specs.Passes.{IsOf, CanJoinAll, HasGathered, plan_in, view_of};

use crate::machines::Machine;
use crate::passes::{Coarse, Pass};
use crate::rule::Hold;
use crate::steps::Words;
use atomic_table::{Join, Play, Seat};
use dl_ir::Closed;

pub(crate) struct Comes;

impl<M> Play<Option<M>, Hold> for Comes {
    ghost use Rattle.dl_coarse.specs.Turn.{comes_in};

    ghost then = { comes_in };
}

pub(crate) struct Gathers;

impl Join<Hold> for Gathers {
    ghost use Rattle.dl_coarse.specs.Sights.{together, blank};

    ghost both = { λ sight other. together other sight };

    ghost spent = { blank };
}

// A seat that nobody has.
fn another<M: Machine>(table: &Words<M>) -> Seat<Option<M>, Hold>
    requires words { table.now.table_id.words ≡ 3 }
    ensures { (result.table_id ≡ table.now.table_id) × (result.me ≡ (blank, [])) }
{
    let (_, seat) = table.load_new_seat::<Comes>(0);
    seat
}

// A seat with which those of all passes are joined, from the last one on.
fn gather<M: Machine>(table: &Words<M>, mut passes: Vec<Pass<M>>) -> Seat<Option<M>, Hold>
    requires words { table.now.table_id.words ≡ 3 }
    requires all { CanJoinAll table.now.table_id passes.items }
    ensures table { result.table_id ≡ table.now.table_id }
    ensures gathered { HasGathered passes.items result.me }
{
    let mut seat = another(table);
    while let Some(pass) = passes.pop() {
        let Pass { seat: other, .. } = pass;
        table.join_seat::<Gathers>(&mut seat, other);
    }
    seat
}

/// What is left when each pass is idle.
pub(crate) fn close_all<M: Machine>(coarse: Coarse<M>, passes: Vec<Pass<M>>) -> Closed
    requires idle { AreIdle (plan_in M.opening coarse) (IsOf M.opening coarse) view_of passes.items }
    ensures { EndsOn (plan_in M.opening coarse) (map view_of passes.items) result }
{
    let Coarse { table } = coarse;
    let seat = gather(&table.shared, passes);
    let mut closed = table.close_with(seat);
    let machine = closed.take(0);
    closed.free();
    let Some(machine) = machine else {
        unreachable!()
    };
    machine.close()
}

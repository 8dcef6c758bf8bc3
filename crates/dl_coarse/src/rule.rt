// The rule of the table.
use crate::machines::Machine;
use atomic_table::TableRule;
use std::marker::{Model, PhantomData};

/// What a seat knows. No value of it is made.
pub struct Hold {
    nothing: u8,
}

impl Model for Hold {
    ghost use Rattle.dl_coarse.specs.Sights.{Sight, coded_sight, blank};

    ghost Value = { Sight };

    ghost coded = { coded_sight };

    ghost view = { λ hold. blank };

    ghost invariant = { λ hold. Unit {0} };
}

/// The key is the machine with which the run begins.
pub struct Turn<M> {
    marker: PhantomData<M>,
}

impl<M: Machine> TableRule<Option<M>, Hold, M> for Turn<M> {
    ghost use Rattle.dl_coarse.specs.Turn.{IsTurn};
    ghost use Rattle.dl_coarse.specs.Openings.{first_sight};

    ghost holds = { λ key. IsTurn M.runs M.state (M.opening key) };

    ghost first = { λ key. first_sight (M.opening key) (M.state key) };
}

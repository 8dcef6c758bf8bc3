//! The rule of the table, and what the rest of a view becomes by each step.
use atomic_table::TableRule;
use dl_pool::{Joining, Layout, Member, Onward, Parting, Pooled};
use std::collections::LinkedList;

/// A claimed place, and the caller that claimed it.
pub struct Hold {
    pub caller: u64,
    pub place: u64,
}

/// What a seat knows beside the pool's part of its view.
pub struct Rest {
    /// The caller whose seat this is, or 0.
    pub number: u64,
    /// The places that the callers of the seat have claimed and not vacated.
    pub claimed: LinkedList<Hold>,
    /// How many moves the seat may still make.
    pub left: u64,
}

/// What a table is made for: where its places stand, and how many callers there are.
#[derive(Clone, Copy)]
pub struct Setting {
    pub layout: Layout,
    pub callers: u32,
}

/// The rule of a table of one pool and its places, with its setting as the key.
pub struct Trial;

impl TableRule<(), Member<Rest>, Setting> for Trial {
    ghost use Rattle.dl_pool_trial.specs.Trials.{TrialKept, newcomer};

    ghost holds = { TrialKept };

    ghost first = { λ k. newcomer };
}

impl Pooled<(), Rest, Setting> for Trial {
    ghost opening = { λ k. k.layout.places };

    ghost callers = { λ k. k.callers };

    ghost layout = { λ k. k.layout };

    ghost contains = { λ k s h. h.pool };
}

/// Each move takes one from the moves that are left.
pub struct Spends;

impl Onward<Rest> for Spends {
    ghost use Rattle.dl_pool_trial.specs.Trials.{one_less, with_place, without_place};

    ghost got = { λ need version x. one_less x };

    ghost refused = { λ need found version x. x };

    ghost back = { λ count version x. one_less x };

    ghost claimed = { with_place };

    ghost vacated = { without_place };
}

/// A seat that is dealt out gets 4,096 moves.
pub struct Shares;

impl Parting<Rest> for Shares {
    ghost use Rattle.dl_pool_trial.specs.Trials.{no_rest, rest_less, share};

    ghost noted = { λ x. no_rest };

    ghost keeps = { λ c x. rest_less x };

    ghost dealt = { λ c x. share c };
}

impl Joining<Rest> for Shares {
    ghost use Rattle.dl_pool_trial.specs.Trials.{no_rest, both_rests};

    ghost learnt = { λ x y. x };

    ghost joined = { both_rests };

    ghost spent = { no_rest };
}

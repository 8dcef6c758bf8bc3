//! A table whose rule is hardly more than the pool rule: each seat has a list of the places that it has claimed, and
//! a number of moves that it may still make. The calls of `dl_pool` are tried out on it.
#![tactic(auto)]

mod calls;
mod rule;
mod threads;

pub use calls::{
    Place, Places, Words, claim_own, close_own, deal_own, give_own, join_own, learn_own, note_own,
    open, reserve_alone, reserve_own, vacate_own,
};
pub use rule::{Hold, Rest, Setting, Trial};
pub use threads::{Totals, rounds, two_threads};

#[cfg(test)]
mod tests;

//! What a table's rule has to be, and what the rest of a view becomes by a step of the pool.
ghost use Rattle.std.specs.Prelude.{ℕ};

use crate::views::{Layout, Member};
use atomic_table::TableRule;

/// A table rule that contains the pool rule.
pub trait Pooled<S, X, K>: TableRule<S, Member<X>, K> {
    ghost use Rattle.atomic_table.specs.Table.{State};
    ghost use Rattle.dl_pool.specs.Rule.{PoolKept};
    ghost use Rattle.dl_pool.specs.declared.views.Member.{Member};
    ghost use Rattle.dl_pool.specs.declared.views.Layout.{Layout};

    // The number of free places at the start.
    ghost opening: { K → ℕ };

    // How many callers there are; their numbers are 1 to this one.
    ghost callers: { K → ℕ };

    ghost layout: { K → Layout };

    ghost contains: { (k : K) (s : State S (Member X)) → Self.holds k s → PoolKept (opening k) (callers k) (layout k) s };
}

/// What the rest of a view becomes at the deciding step. Each member is given what the step told.
pub trait Onward<X> {
    // The number asked for and the version made.
    ghost got: { ℕ → ℕ → X → X };

    // The number asked for, the number found and its version.
    ghost refused: { ℕ → ℕ → ℕ → X → X };

    // The number given back and the version made.
    ghost back: { ℕ → ℕ → X → X };

    // The place.
    ghost claimed: { ℕ → X → X };

    // The place.
    ghost vacated: { ℕ → X → X };
}

/// What the rests of the two views are when a seat is split.
pub trait Parting<X> {
    // What a note has of the rest.
    ghost noted: { X → X };

    // What the dealing seat keeps when it deals this number out.
    ghost keeps: { ℕ → X → X };

    // What the seat of this number is given.
    ghost dealt: { ℕ → X → X };
}

/// What the rests of two views become when their seats are joined.
pub trait Joining<X> {
    // A note is taken in.
    ghost learnt: { X → X → X };

    // The seat of another caller is taken in.
    ghost joined: { X → X → X };

    // What a view that was taken in leaves behind.
    ghost spent: { X };
}

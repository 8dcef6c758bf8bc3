//! Laws of the meaning of statements: that a statement has at most one outcome, that it has one where it is typed, and
//! that the relation by cases and the function that `dl_ir` defines say the same; and of calls of a checked module: that
//! each has exactly one outcome, and leaves a heap of the module. Expressions and conditions are evaluated here too.
#![tactic(auto)]

mod evaluation;

ghost use Rattle.dl_meaning.specs.FirstStates.{FirstStatesFit, RootsAreHeld};
ghost use Rattle.dl_meaning.specs.OneOutcome.{TypedHasOneOutcome, BodiesHaveOneOutcome, FunctionIsRelation};
ghost use Rattle.dl_meaning.specs.Operations.{OperationsHaveOneOutcome, CallsGiveTheOutcome, CallsLeaveHeaps, ReplaysLeaveHeaps, LegalReplaysLeaveHeaps};
ghost use Rattle.dl_meaning.specs.Single.{StatementsHaveAtMostOne, BlocksHaveAtMostOne, DoesIsTheOutcome, BlockDoesIsTheOutcome, LoopsIsTheOutcome};
ghost use Rattle.dl_meaning.specs.Values.{TypedHasOneValue, TypedHasOneTruth};

pub use evaluation::{evaluate, number_at, target_at, test};

/// That a statement or a block has at most one outcome from a state, and that it is the one that the function gives.
pub fn at_most_one()
    ensures statements { StatementsHaveAtMostOne }
    ensures blocks { BlocksHaveAtMostOne }
    ensures does { DoesIsTheOutcome }
    ensures block_does { BlockDoesIsTheOutcome }
    ensures loops { LoopsIsTheOutcome }
{}

/// That a typed block has exactly one outcome from each state that fits, and so the body of each operation of a checked module.
pub fn one_outcome()
    ensures blocks { TypedHasOneOutcome }
    ensures bodies { BodiesHaveOneOutcome }
{}

/// That the relation and the function say the same of a typed block at a state that fits.
pub fn function_is_relation()
    ensures { FunctionIsRelation }
{}

/// That an operation begins in a state that fits, so that the laws above speak of it, and that an argument's root may be given for a
/// parameter of its kind.
pub fn first_states_fit()
    ensures states { FirstStatesFit }
    ensures roots { RootsAreHeld }
{}

/// That a typed expression or condition has exactly one value at a state that fits, and meets no local that is missing or of another
/// type.
pub fn one_value()
    ensures expressions { TypedHasOneValue }
    ensures conditions { TypedHasOneTruth }
{}

/// That an operation of a checked module has exactly one outcome on each heap of the module, whatever its turns, and that a call gives
/// the answer and the heap of that outcome.
pub fn operations_have_one_outcome()
    ensures operations { OperationsHaveOneOutcome }
    ensures calls { CallsGiveTheOutcome }
{}

/// That a call of a checked module leaves a heap of the module, and so does a replay of calls.
pub fn heaps_are_left()
    ensures calls { CallsLeaveHeaps }
    ensures replays { ReplaysLeaveHeaps }
    ensures legal { LegalReplaysLeaveHeaps }
{}

//! A law of the modules whose serial runs end each operation in a forest: no answer of a legal history tells of a sealed
//! object.
#![tactic(auto)]

ghost use Rattle.dl_closed.specs.Unsealed.{ForestClosedNeverSeals};

/// That no operation seals an object or ends at a sealed one, where each serial run from the heap ends each operation in
/// a forest.
pub fn forest_closed_never_seals()
    ensures { ForestClosedNeverSeals }
{}

//! Laws of code with early drops.

ghost use Rattle.dl_live.specs.DroppedLaws.{DroppedIsCode, DroppedIsOne};

/// That a code of a module with early drops is a code of the module, and that there is one such code at most.
pub fn drops_are_code()
    ensures code { DroppedIsCode }
    ensures one { DroppedIsOne }
{}

//! From which heaps a run may start.

ghost use Rattle.dl_shape.specs.Startable.{StartsAreStartable};

/// That a run may start from the start heap of a checked module.
pub fn starts_are_startable()
    ensures { StartsAreStartable }
{}

//! Laws of the pool rule, for the crates above.
ghost use Rattle.dl_pool.specs.Log.{WholeLogs};

/// Once the seats of all callers are joined, the joined view has the whole log of the pool.
pub fn whole_log()
    ensures { WholeLogs }
{}

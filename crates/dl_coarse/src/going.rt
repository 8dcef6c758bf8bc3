// An operation that runs alone, and is not over.
ghost use Rattle.std.specs.Prelude.{ℕ};
ghost use Rattle.dl_core.specs.Core.{step};
ghost use Rattle.dl_core.specs.Shown.{with_code};
ghost use Rattle.dl_coarse.specs.Going.{EndsAfter, EndsAfter-prop};

use dl_core::{Core, Progress};

/// A machine in which one caller goes on alone. Its operation ends after so many events more.
#[derive(Drop)]
pub(crate) struct Going {
    pub(crate) core: Core,
    pub(crate) caller: u32,
    pub ghost more: { (more : ℕ) × EndsAfter (with_code core.code) caller more (step (with_code core.code) core.state caller) } by { EndsAfter-prop (with_code core.code) caller (step (with_code core.code) core.state caller) },
}

/// What one event makes of it.
#[derive(Drop)]
pub(crate) enum Went {
    On(Going),
    Over(Core, Progress),
}

// Rounds, until all callers are done.
ghost use Rattle.std.specs.Prelude.{◌≡◌};
ghost use Rattle.dl_trace.specs.Going.{IsUnderWay, GoesOn, Works, bare};
ghost use Rattle.dl_trace.specs.Left.{RoundsLeft, left_prop};
ghost use Rattle.dl_trace.specs.Runs.{all_done, round};

use crate::steps::{are_done, give_round};
use crate::tally::Tally;
use dl_core::Core;
use dl_ir::Calls;
use dl_text::{Out, Sink};

/// A machine in whose run rounds come to an end.
#[derive(Drop)]
pub struct Rounds<'a> {
    core: &'a mut Core,
    files: &'a [Calls],
    // So many rounds are left.
    ghost left: { RoundsLeft (bare core.now) files.now core.now.state } by { left_prop (bare core.now) files.now core.now.state },
}

impl<'a> Rounds<'a> {
    pub fn new(core: &'a mut Core, files: &'a [Calls]) -> Rounds<'a>
        requires way { IsUnderWay core.old files.now }
        ensures same_reference { result.core.ghost_name ≡ core.entry.ghost_name }
        ensures core { result.core.now ≡ core.old }
        ensures files { result.files.now ≡ files.now }
    {
        Rounds { core, files }
    }

    /// Whether all callers are done.
    pub fn are_over(&self) -> bool
        requires way { IsUnderWay self.now.core.now self.now.files.now }
        ensures { result ≡ all_done (bare self.now.core.now) self.now.files.now self.now.core.now.state }
    {
        are_done(self.core, self.files)
    }

    /// Gives each caller that is not done one step.
    pub fn go_on<K: Sink>(&mut self, tally: &mut Tally, out: &mut Out, sink: &mut K)
        requires way { IsUnderWay self.old.core.now self.old.files.now }
        requires works { Works tally.old out.old }
        ensures same_reference { self.new.core.ghost_name ≡ self.old.core.ghost_name }
        ensures files { self.new.files.now ≡ self.old.files.now }
        ensures goes { GoesOn self.old.files.now (λ plan run. round plan self.old.files.now run) self.old.core.now self.new.core.now tally.old tally.new (K.taken sink.old) (K.taken sink.new) out.old out.new }
    {
        give_round(self.core, self.files, tally, out, sink);
    }
}

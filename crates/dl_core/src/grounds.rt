// What runs operations for several callers.
ghost use Rattle.std.specs.Prelude.{◌≡◌, IfOk, map};
ghost use Rattle.dl_core.specs.Advances.{Progresses};
ghost use Rattle.dl_core.specs.Closing.{AreFresh, AreIdle, EndsOn};
ghost use Rattle.dl_core.specs.Passes.{Manner, PassView, Told, MayTake, begun_by, told_by, learnt_by, first_plan, plan_over};
ghost use Rattle.dl_core.specs.Plans.{Plan, IsPlan};

use crate::answers::Progress;
use dl_instr::Code;
use dl_ir::{Call, Closed, Heap};
use std::alloc::{AllocError, Global};

/// What runs operations for several callers, each by a pass of its own. Only `start` takes memory.
pub trait Ground: Sync {
    /// One caller's way in.
    type Pass: Send + Drop;

    /// What one pass tells another of the tickets and versions that it knows.
    type Note: Send + Drop;

    // How callers are kept apart.
    ghost manner: { Manner };

    // What a run over it never changes.
    ghost plan: { Self → Plan };

    // The pass is one of this run, and what contracts see of it.
    ghost is_of: { Self → Self.Pass → Type 0 };

    ghost view: { Self.Pass → PassView };

    // The note is one of this run, and what it tells.
    ghost is_note: { Self → Self.Note → Type 0 };

    ghost told: { Self.Note → Told };

    /// A fresh pass for each size, the number of operations that its caller may begin, over the start heap.
    fn start(
        alloc: Global,
        code: Code,
        places: u32,
        sizes: &[u32],
    ) -> Result<(Self, Vec<Self::Pass>), AllocError>
        requires plan { IsPlan (first_plan code places sizes.now) }
        ensures plan { IfOk result (λ started. plan started.0 ≡ first_plan code places sizes.now) }
        ensures fresh { IfOk result (λ started. AreFresh (plan started.0) (is_of started.0) view started.1.items) };

    /// The same over a given heap.
    fn over(
        alloc: Global,
        code: Code,
        heap: &Heap,
        places: u32,
        sizes: &[u32],
    ) -> Result<(Self, Vec<Self::Pass>), AllocError>
        requires plan { IsPlan (plan_over code heap.now.objects places sizes.now) }
        ensures plan { IfOk result (λ started. plan started.0 ≡ plan_over code heap.now.objects places sizes.now) }
        ensures fresh { IfOk result (λ started. AreFresh (plan started.0) (is_of started.0) view started.1.items) };

    /// Puts a call into the hand of an idle pass.
    fn begin(&self, pass: &mut Self::Pass, call: &Call)
        requires of { is_of self.now pass.old }
        requires may { MayTake (plan self.now) (view pass.old) call.now }
        ensures of { is_of self.now pass.new }
        ensures view { view pass.new ≡ begun_by call.now (view pass.old) };

    /// Tries the next event of the pass once, or under one turn for all its whole operation.
    fn advance(&self, pass: &mut Self::Pass) -> Progress
        requires of { is_of self.now pass.old }
        ensures of { is_of self.now pass.new }
        ensures view { Progresses manner (plan self.now) (view pass.old) result (view pass.new) };

    /// The number of the pass's caller.
    fn caller(&self, pass: &Self::Pass) -> u32
        requires of { is_of self.now pass.now }
        ensures { result ≡ (view pass.now).caller };

    /// The greatest ticket that the pass has drawn or learnt.
    fn front(&self, pass: &Self::Pass) -> u64
        requires of { is_of self.now pass.now }
        ensures { result ≡ (view pass.now).front };

    fn note(&self, pass: &mut Self::Pass) -> Self::Note
        requires of { is_of self.now pass.old }
        ensures of { is_of self.now pass.new }
        ensures view { view pass.new ≡ view pass.old }
        ensures note { is_note self.now result }
        ensures told { told result ≡ told_by (view pass.old) };

    fn learn(&self, pass: &mut Self::Pass, note: Self::Note)
        requires of { is_of self.now pass.old }
        requires note { is_note self.now note }
        ensures of { is_of self.now pass.new }
        ensures view { view pass.new ≡ learnt_by (told note) (view pass.old) };

    /// What is left when the run is over.
    fn close(self, passes: Vec<Self::Pass>) -> Closed
        requires idle { AreIdle (plan self) (is_of self) view passes.items }
        ensures { EndsOn (plan self) (map view passes.items) result };
}

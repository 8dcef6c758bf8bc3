// The machine of all callers, as the ground needs it.
ghost use Rattle.std.specs.Prelude.{◌≡◌, ℕ, IfOk};
ghost use Rattle.dl_core.specs.declared.stages.Stage.TheVariants as stages;
ghost use Rattle.dl_core.specs.Core.{Core, frame_of};
ghost use Rattle.dl_core.specs.Passes.{first_plan, plan_over};
ghost use Rattle.dl_core.specs.Plans.{Plan, IsPlan};
ghost use Rattle.dl_core.specs.Turns.{MayRun, Leaves, call_of};
ghost use Rattle.dl_coarse.specs.Openings.{IsOpened};
ghost use Rattle.dl_coarse.specs.Ends.{IsLeft};

use dl_core::Progress;
use dl_instr::Code;
use dl_ir::{Closed, Heap};
use std::alloc::{AllocError, Global};

/// The state of all callers, on which one operation at a time runs. Only `start` and `over` take memory.
pub trait Machine: Drop {
    // The plan of a run that starts where the machine stands.
    ghost opening: { Self → Plan };

    // The machine is one of a run of this plan.
    ghost runs: { Plan → Self → Type 0 };

    ghost state: { Self → Core };

    /// The machine at the start of a run over the start heap. `sizes` says for each caller how many operations it may begin.
    fn start(alloc: Global, code: Code, places: u32, sizes: &[u32]) -> Result<Self, AllocError>
        requires plan { IsPlan (first_plan code places sizes.now) }
        ensures { IfOk result (λ machine. IsOpened opening runs state (first_plan code places sizes.now) machine) };

    /// The same over a given heap.
    fn over(
        alloc: Global,
        code: Code,
        heap: &Heap,
        places: u32,
        sizes: &[u32],
    ) -> Result<Self, AllocError>
        requires plan { IsPlan (plan_over code heap.now.objects places sizes.now) }
        ensures { IfOk result (λ machine. IsOpened opening runs state (plan_over code heap.now.objects places sizes.now) machine) };

    /// The last ticket drawn.
    fn clock(&self) -> u64
        ensures { result ≡ (state self.now).clock };

    /// The version of the pool.
    fn version(&self) -> u64
        ensures { result ≡ (state self.now).pool.version };

    /// Begins a call and runs its operation to the end.
    fn run(self, caller: u32, op: u32, args: &[i64]) -> (Self, Progress)
        requires may { (plan : Plan) × runs plan self × MayRun plan (state self) caller (call_of op args.now) }
        ensures runs { (plan : Plan) → runs plan self → MayRun plan (state self) caller (call_of op args.now) → runs plan result.0 }
        ensures leaves { (plan : Plan) → runs plan self → MayRun plan (state self) caller (call_of op args.now) → Leaves plan (state self) caller (call_of op args.now) result.1 (state result.0) };

    /// What the run leaves.
    fn close(self) -> Closed
        requires idle { (caller : ℕ) → (frame_of (state self).world caller).stage ≡ stages.Idle }
        ensures { (plan : Plan) → runs plan self → IsLeft plan (state self) result };
}

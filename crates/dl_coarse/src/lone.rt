// The machine in Rust runs one operation at a time.
ghost use Rattle.std.specs.Prelude.{◌≡◌};
ghost use Rattle.dl_core.specs.Machines.{HasCaller};
ghost use Rattle.dl_core.specs.Plans.{Plan};
ghost use Rattle.dl_core.specs.Turns.{MayRun, Leaves, call_of};
ghost use Rattle.dl_coarse.specs.declared.going.Going.{Going as Goes};
ghost use Rattle.dl_coarse.specs.declared.going.Went.TheVariants as went;
ghost use Rattle.dl_core.specs.Machines.{Machine as Machinery};
ghost use Rattle.dl_core.specs.declared.answers.Progress.{Progress as Answer};
ghost use Rattle.dl_coarse.specs.Lone.{IsRun, IsOnward, IsLast, HasRun};

use crate::going::{Going, Went};
use crate::machines::Machine;
use dl_core::{Core, Progress};
use dl_instr::Code;
use dl_ir::{Closed, Heap};
use std::alloc::{AllocError, Global};

// One event of the caller that goes on alone.
fn one_event(going: Going) -> Went
    requires caller { HasCaller going.core going.caller }
    ensures onward { (next : Goes) → result ≡ went.On next → IsOnward going next }
    ensures last { (machine : Machinery) (answer : Answer) → result ≡ went.Over machine answer → IsLast going machine answer }
{
    let Going { mut core, caller } = going;
    match core.advance(caller) {
        Progress::Moved(_) => Went::On(Going { core, caller }),
        answer => Went::Over(core, answer),
    }
}

// All its events.
fn finish(mut going: Going) -> (Core, Progress)
    requires caller { HasCaller going.core going.caller }
    ensures { HasRun going result.0 result.1 }
{
    loop {
        match one_event(going) {
            Went::On(next) => going = next,
            Went::Over(core, answer) => return (core, answer),
        }
    }
}

// An operation, from its begin to its end.
fn run_alone(mut core: Core, caller: u32, op: u32, args: &[i64]) -> (Core, Progress)
    requires may { (plan : Plan) × IsRun plan core × MayRun plan core.state caller (call_of op args.now) }
    ensures runs { (plan : Plan) → IsRun plan core → MayRun plan core.state caller (call_of op args.now) → IsRun plan result.0 }
    ensures leaves { (plan : Plan) → IsRun plan core → MayRun plan core.state caller (call_of op args.now) → Leaves plan core.state caller (call_of op args.now) result.1 result.0.state }
{
    core.begin_with(caller, op, args);
    finish(Going { core, caller })
}

impl Machine for Core {
    ghost use Rattle.dl_core.specs.Machines.{plan_at};
    ghost use Rattle.dl_coarse.specs.Lone.{IsRun, state_of};

    ghost opening = { plan_at };

    ghost runs = { IsRun };

    ghost state = { state_of };

    fn start(alloc: Global, code: Code, places: u32, sizes: &[u32]) -> Result<Self, AllocError> {
        Core::start(alloc, code, places, sizes)
    }

    fn over(
        alloc: Global,
        code: Code,
        heap: &Heap,
        places: u32,
        sizes: &[u32],
    ) -> Result<Self, AllocError> {
        Core::over(alloc, code, heap, places, sizes)
    }

    fn clock(&self) -> u64 {
        Core::clock(self)
    }

    fn version(&self) -> u64 {
        Core::version(self)
    }

    fn run(self, caller: u32, op: u32, args: &[i64]) -> (Self, Progress) {
        run_alone(self, caller, op, args)
    }

    fn close(self) -> Closed {
        Core::close(self)
    }
}

// The machine of all callers as one value.
ghost use Rattle.std.specs.Prelude.{◌≡◌, ◌↔◌, ◌<◌, IsTrue, IfOk, Some, length, map, slice_get};
ghost use Rattle.dl_core.specs.declared.frames.Frame.{Frame as Kept};
ghost use Rattle.dl_core.specs.declared.stages.Stage.TheVariants as stages;
ghost use Rattle.dl_core.specs.Causes.{HasCauses};
ghost use Rattle.dl_core.specs.Core.{frame_of, stepped, with_call, entries_of, refusals_of};
ghost use Rattle.dl_core.specs.Heaps.{plain};
ghost use Rattle.dl_core.specs.Machines.{Machine, AreAllIdle, HasCaller, IsRunning, callers_in, field_named, opened, plan_at, with_state};
ghost use Rattle.dl_core.specs.Passes.{first_plan, plan_over};
ghost use Rattle.dl_core.specs.Plans.{Plan, IsPlan};
ghost use Rattle.dl_core.specs.Turns.{call_of};
ghost use Rattle.dl_core.specs.Reached.{Calls, MayBegin, no_calls, with_begun};

use crate::answers::Progress;
use crate::closes::{Leavings, close_heap, close_lists};
use crate::counters::Counters;
use crate::frames::Frame;
use crate::objects::Object;
use crate::openings::{first_counters, idle_frames, shared_heap};
use crate::showing::{begun_at, field_at};
use crate::stages::Stage;
use crate::steps::{advance, begin};
use dl_instr::Code;
use dl_ir::{Call, Closed, Heap, Name, Table};
use sqlite_items::Items;
use std::alloc::{AllocError, Global};
use std::marker::Model;

/// The machine of all callers. Callers are numbered from 1. Only `start` and `over` take memory, for all that the run can
/// need.
#[derive(Drop)]
pub struct Core {
    code: Code,
    places: u32,
    // How many operations each caller may begin.
    sizes: Items<u32>,
    heap: Table<Object>,
    // The frame of caller c stands at place c; nobody has number 0.
    frames: Vec<Frame>,
    counters: Counters,
    // Memory for what `close` gives.
    leavings: Leavings,
}

impl Model for Core {
    ghost use Rattle.std.specs.Prelude.{length};
    ghost use Rattle.dl_instr.specs.contracts.code.Code as whole_code;
    ghost use Rattle.dl_core.specs.Machines.{Machine};
    ghost use Rattle.dl_core.specs.Machinery.{coded_machine, machine_of, IsOfRun, HasRoomToClose};

    ghost Value = { Machine };

    ghost coded = { coded_machine whole_code.the_row.coded };

    ghost view = { λ c. machine_of c.code c.places c.sizes c.heap c.frames.items c.counters };

    ghost invariant = { λ c. IsOfRun c.code c.places c.sizes c.heap c.frames.items c.counters × HasRoomToClose c.heap (length c.sizes) c.leavings.heap c.leavings.entries c.leavings.refusals };
}

impl Core {
    /// The machine at the start of a run over the start heap of the code's module. `sizes` says for each caller how many
    /// operations it may begin; `places` is the number of places for hidden objects.
    pub fn start(alloc: Global, code: Code, places: u32, sizes: &[u32]) -> Result<Core, AllocError>
        requires plan { IsPlan (first_plan code places sizes.now) }
        ensures opened { IfOk result (λ core. core ≡ opened (first_plan code places sizes.now)) }
        ensures running { IfOk result (λ core. IsRunning (first_plan code places sizes.now) core (no_calls (first_plan code places sizes.now))) }
        ensures plan { IfOk result (λ core. plan_at core ≡ first_plan code places sizes.now) }
    {
        let heap = Heap::start(alloc, code.source(), 0)?;
        Core::over(alloc, code, &heap, places, sizes)
    }

    /// The same over a given heap. What is sealed in it stays sealed, and new tickets are above those of its names.
    pub fn over(
        alloc: Global,
        code: Code,
        heap: &Heap,
        places: u32,
        sizes: &[u32],
    ) -> Result<Core, AllocError>
        requires plan { IsPlan (plan_over code heap.now.objects places sizes.now) }
        ensures opened { IfOk result (λ core. core ≡ opened (plan_over code heap.now.objects places sizes.now)) }
        ensures running { IfOk result (λ core. IsRunning (plan_over code heap.now.objects places sizes.now) core (no_calls (plan_over code heap.now.objects places sizes.now))) }
        ensures plan { IfOk result (λ core. plan_at core ≡ plan_over code heap.now.objects places sizes.now) }
    {
        let room = places as usize + 1024;
        let counters = first_counters(heap, places);
        Ok(Core {
            heap: shared_heap(alloc, heap, room)?,
            frames: idle_frames(alloc, sizes, room)?,
            leavings: Leavings::new(alloc, room, sizes.len())?,
            sizes: Items::from_slice(alloc, sizes)?,
            code,
            places,
            counters,
        })
    }

    /// Puts a call into a caller's hand. The caller has none, and room for one operation more.
    pub fn begin(&mut self, caller: u32, call: &Call)
        requires may { (plan : Plan) × (calls : Calls) × IsRunning plan self.old calls × MayBegin plan self.old.state calls caller call.now }
        ensures begun { self.new ≡ with_state self.old (with_call self.old.state caller call.now) }
        ensures running { (plan : Plan) (calls : Calls) → IsRunning plan self.old calls → MayBegin plan self.old.state calls caller call.now → IsRunning plan self.new (with_begun calls caller call.now) }
    {
        self.begin_with(caller, call.op, call.args.as_slice());
    }

    /// The same, where the call is given by the number of its operation and its arguments.
    pub fn begin_with(&mut self, caller: u32, op: u32, args: &[i64])
        requires may { (plan : Plan) × (calls : Calls) × IsRunning plan self.old calls × MayBegin plan self.old.state calls caller (call_of op args.now) }
        ensures begun { self.new ≡ with_state self.old (with_call self.old.state caller (call_of op args.now)) }
        ensures running { (plan : Plan) (calls : Calls) → IsRunning plan self.old calls → MayBegin plan self.old.state calls caller (call_of op args.now) → IsRunning plan self.new (with_begun calls caller (call_of op args.now)) }
    {
        begin(&self.code, caller, op, args, &mut self.frames);
    }

    /// Gives a caller a step: its next event takes place, unless it waits for another caller or has no call in hand.
    pub fn advance(&mut self, caller: u32) -> Progress
        requires caller { HasCaller self.old caller }
        ensures stepped { (plan : Plan) → plan.code ≡ self.old.code → stepped plan self.old.state caller ≡ (self.new.state, result) }
        ensures same { self.new ≡ with_state self.old self.new.state }
        ensures running { (plan : Plan) (calls : Calls) → IsRunning plan self.old calls → IsRunning plan self.new calls }
        ensures causes { (plan : Plan) (calls : Calls) → IsRunning plan self.old calls → HasCauses plan self.old.state caller result self.new.state }
    {
        advance(
            &self.code,
            caller,
            &mut self.heap,
            &mut self.counters,
            &mut self.frames,
        )
    }

    /// The last ticket drawn.
    pub fn clock(&self) -> u64
        ensures { result ≡ self.now.state.clock }
    {
        self.counters.clock
    }

    /// The version of the pool: how many moves it has made.
    pub fn version(&self) -> u64
        ensures { result ≡ self.now.state.pool.version }
    {
        self.counters.version
    }

    /// The number of callers.
    pub fn callers(&self) -> usize
        ensures { result ≡ length self.now.sizes }
    {
        self.sizes.len()
    }

    /// Whether a caller has no call in hand.
    pub fn is_idle(&self, caller: u32) -> bool
        requires caller { HasCaller self.now caller }
        ensures { IsTrue result ↔ ((frame_of self.now.state.world caller).stage ≡ stages.Idle) }
    {
        is_idle_at(caller, self.frames.as_slice())
    }

    /// How many operations a caller has begun.
    pub fn begun(&self, caller: u32) -> u32
        requires caller { HasCaller self.now caller }
        ensures { result ≡ (frame_of self.now.state.world caller).index }
    {
        begun_at(caller, self.frames.as_slice())
    }

    /// The name of an object's field, by the object's kind. There is none where the object is not there.
    pub fn field_name(&self, name: Name, field: u32) -> &[u8]
        ensures { result.now ≡ field_named self.now.code.source self.now.state.world.heap name field }
    {
        field_at(self.code.source(), &self.heap, name, field)
    }

    /// What the run leaves: its heap, the entries and the refusals of each caller, and how many places are free.
    pub fn close(self) -> Closed
        requires idle { AreAllIdle self.state }
        ensures heap { result.heap.objects ≡ plain self.state.world.heap }
        ensures entries { result.entries ≡ map (entries_of self.state) (callers_in self) }
        ensures refusals { result.refusals ≡ map (refusals_of self.state) (callers_in self) }
        ensures free { result.free ≡ self.state.pool.free }
    {
        let Core {
            heap,
            frames,
            counters,
            leavings,
            ..
        } = self;
        let Leavings {
            heap: left,
            entries,
            refusals,
        } = leavings;
        let (entries, refusals) = close_lists(frames, entries, refusals);
        Closed {
            heap: close_heap(&heap, left),
            entries: entries.into_items(),
            refusals: refusals.into_items(),
            free: counters.free,
        }
    }
}

// Whether the caller with this frame has no call in hand.
fn is_idle_at(caller: u32, frames: &[Frame]) -> bool
    requires { caller < length frames.now }
    ensures { (frame : Kept) → slice_get frames.now caller ≡ Some frame → IsTrue result ↔ (frame.stage ≡ stages.Idle) }
{
    matches!(frames[caller as usize].stage, Stage::Idle)
}

// Steps are given to callers, one at a time.
ghost use Rattle.std.specs.Prelude.{◌≡◌, All};
ghost use Rattle.std.specs.Option.{option_copied};
ghost use Rattle.std.specs.List.{list_all};
ghost use Rattle.dl_core.specs.Core.{frame_of};
ghost use Rattle.dl_core.specs.Machines.{HasCaller, callers_in, with_state};
ghost use Rattle.dl_core.specs.Plans.{Plan};
ghost use Rattle.dl_schedule.specs.declared.give.Give.{Give as GiveOf};
ghost use Rattle.dl_trace.specs.Going.{IsUnderWay, GoesOn, IsLike, Works};
ghost use Rattle.dl_trace.specs.Runs.{next_call, readied, given, is_done, give_to, give_times, scheduled, take_turn, round};

use crate::tally::{Tally, tell};
use dl_core::{Core, Progress};
use dl_ir::{Call, Calls};
use dl_schedule::Give;
use dl_text::{Out, Sink};

// The operation of its file that a caller begins next, if one is left.
fn next_call<'a>(core: &Core, files: &'a [Calls], caller: u32) -> Option<&'a Call>
    requires way { IsUnderWay core.now files.now }
    requires caller { HasCaller core.now caller }
    ensures { option_copied result ≡ next_call files.now core.now.state caller }
{
    files[caller as usize - 1].get(core.begun(caller) as usize)
}

fn begin_next(core: &mut Core, files: &[Calls], caller: u32)
    requires way { IsUnderWay core.old files.now }
    requires caller { HasCaller core.old caller }
    ensures begun { core.new ≡ with_state core.old (readied files.now core.old.state caller) }
    ensures way { IsUnderWay core.new files.now }
{
    if !core.is_idle(caller) {
        return;
    }
    match next_call(core, files, caller) {
        Some(call) => core.begin(caller, call),
        None => (),
    }
}

/// Gives a caller a step: it begins its next operation, if it has none in hand and one is left; then it advances once.
fn give(core: &mut Core, files: &[Calls], caller: u32) -> Progress
    requires way { IsUnderWay core.old files.now }
    requires caller { HasCaller core.old caller }
    ensures given { (plan : Plan) → plan.code ≡ core.old.code → given plan files.now core.old.state caller ≡ (core.new.state, result) }
    ensures same { core.new ≡ with_state core.old core.new.state }
    ensures way { IsUnderWay core.new files.now }
{
    begin_next(core, files, caller);
    core.advance(caller)
}

/// Gives a caller a step, and tells of it.
pub fn give_step<K: Sink>(
    core: &mut Core,
    files: &[Calls],
    caller: u32,
    tally: &mut Tally,
    out: &mut Out,
    sink: &mut K,
)
    requires way { IsUnderWay core.old files.now }
    requires caller { HasCaller core.old caller }
    requires works { Works tally.old out.old }
    ensures { GoesOn files.now (λ plan run. give_to plan files.now run caller) core.old core.new tally.old tally.new (K.taken sink.old) (K.taken sink.new) out.old out.new }
{
    let progress = give(core, files, caller);
    tell(tally, out, sink, core, caller, progress);
}

fn give_many<K: Sink>(
    core: &mut Core,
    files: &[Calls],
    give: Give,
    tally: &mut Tally,
    out: &mut Out,
    sink: &mut K,
)
    requires way { IsUnderWay core.old files.now }
    requires caller { HasCaller core.old give.caller }
    requires works { Works tally.old out.old }
    ensures { GoesOn files.now (λ plan run. give_times plan files.now run give) core.old core.new tally.old tally.new (K.taken sink.old) (K.taken sink.new) out.old out.new }
{
    'times: for _time in 0..give.times {
        give_step(core, files, give.caller, tally, out, sink);
    }
}

/// Gives callers the steps of a schedule.
pub fn give_schedule<K: Sink>(
    core: &mut Core,
    files: &[Calls],
    schedule: &[Give],
    tally: &mut Tally,
    out: &mut Out,
    sink: &mut K,
)
    requires way { IsUnderWay core.old files.now }
    requires callers { All (λ (give : GiveOf). HasCaller core.old give.caller) schedule.now }
    requires works { Works tally.old out.old }
    ensures { GoesOn files.now (λ plan run. scheduled plan files.now schedule.now run) core.old core.new tally.old tally.new (K.taken sink.old) (K.taken sink.new) out.old out.new }
{
    'gives: for give in schedule {
        give_many(core, files, *give, tally, out, sink);
    }
}

/// Whether a caller has no call in hand, and none left.
fn is_done(core: &Core, files: &[Calls], caller: u32) -> bool
    requires way { IsUnderWay core.now files.now }
    requires caller { HasCaller core.now caller }
    ensures { result ≡ is_done files.now core.now.state caller }
{
    if !core.is_idle(caller) {
        return false;
    }
    next_call(core, files, caller).is_none()
}

/// Whether all callers are done.
pub fn are_done(core: &Core, files: &[Calls]) -> bool
    requires way { IsUnderWay core.now files.now }
    ensures { result ≡ list_all (is_done files.now core.now.state) (callers_in core.now) }
{
    'callers: for place in 0..files.len() {
        if !is_done(core, files, place as u32 + 1) {
            return false;
        }
    }
    true
}

fn give_turn<K: Sink>(
    core: &mut Core,
    files: &[Calls],
    caller: u32,
    tally: &mut Tally,
    out: &mut Out,
    sink: &mut K,
)
    requires way { IsUnderWay core.old files.now }
    requires caller { HasCaller core.old caller }
    requires works { Works tally.old out.old }
    ensures { GoesOn files.now (λ plan run. take_turn plan files.now run caller) core.old core.new tally.old tally.new (K.taken sink.old) (K.taken sink.new) out.old out.new }
{
    if is_done(core, files, caller) {
        return;
    }
    give_step(core, files, caller, tally, out, sink);
}

/// Gives each caller that is not done one step.
pub fn give_round<K: Sink>(
    core: &mut Core,
    files: &[Calls],
    tally: &mut Tally,
    out: &mut Out,
    sink: &mut K,
)
    requires way { IsUnderWay core.old files.now }
    requires works { Works tally.old out.old }
    ensures { GoesOn files.now (λ plan run. round plan files.now run) core.old core.new tally.old tally.new (K.taken sink.old) (K.taken sink.new) out.old out.new }
{
    'callers: for place in 0..files.len() {
        give_turn(core, files, place as u32 + 1, tally, out, sink);
    }
}

// A scheduled run from its start to its end.
ghost use Rattle.std.specs.Prelude.{◌≡◌, true, false, OnOk, OnErr, IfOk};
ghost use Rattle.dl_text.specs.Writing.{Passes, Breaks, broken};
ghost use Rattle.dl_core.specs.Machines.{plan_at, with_state};
ghost use Rattle.dl_trace.specs.Going.{IsUnderWay, MadeRounds, Works};
ghost use Rattle.dl_trace.specs.Ran.{MayRun, HasRun};
ghost use Rattle.dl_trace.specs.Runs.{all_done};

use crate::rounds::Rounds;
use crate::steps::give_schedule;
use crate::tally::{Counts, Tally};
use dl_core::Core;
use dl_ir::Calls;
use dl_schedule::Schedule;
use dl_text::{Failed, Out, Sink};

fn make_rounds<K: Sink>(
    core: &mut Core,
    files: &[Calls],
    tally: &mut Tally,
    out: &mut Out,
    sink: &mut K,
)
    requires way { IsUnderWay core.old files.now }
    requires works { Works tally.old out.old }
    ensures made { MadeRounds files.now core.old core.new tally.old tally.new (K.taken sink.old) (K.taken sink.new) out.old out.new }
    ensures over { all_done (plan_at core.new) files.now core.new.state ≡ true }
{
    let mut rounds = Rounds::new(core, files);
    'rounds: while !rounds.are_over() {
        rounds.go_on(tally, out, sink);
    }
}

/// Runs the operations of files on a machine at the start of its run: callers are given steps by the schedule, and then in
/// rounds until all are done. Each step has a line of the trace, as docs/FORMATS.md has it. Where the sink fails nothing more
/// is put, and the run still goes to its end. It takes no memory.
pub fn run_schedule<K: Sink>(
    core: &mut Core,
    files: &[Calls],
    schedule: &Schedule,
    out: &mut Out,
    sink: &mut K,
) -> Result<Counts, Failed>
    requires may { MayRun core.old files.now schedule.now }
    requires works { out.old.failed ≡ false }
    ensures { HasRun core.old core.new files.now schedule.now result (K.taken sink.old) (K.taken sink.new) out.old out.new }
{
    let mut tally = Tally {
        gives: 0,
        waits: 0,
        shown: out.put(sink, b"domlock trace 1\n"),
    };
    give_schedule(core, files, schedule.as_slice(), &mut tally, out, sink);
    make_rounds(core, files, &mut tally, out, sink);
    match tally.shown {
        Ok(()) => Ok(Counts {
            gives: tally.gives,
            waits: tally.waits,
        }),
        Err(failed) => Err(failed),
    }
}

// What is told of a run: the counts, and whether its trace could be put.
ghost use Rattle.std.specs.Prelude.{◌≡◌, ◌+◌, ◌-◌, ◌^◌, false, List, ℕ, ◌++◌, OnOk};
ghost use Rattle.dl_io.specs.Taken.{Taken};
ghost use Rattle.dl_text.specs.Writing.{Puts, Buffered};
ghost use Rattle.dl_trace.specs.Lines.{step_line};
ghost use Rattle.dl_trace.specs.Runs.{one_more, waits_after};

use crate::lines::put_step_line;
use dl_core::{Core, Progress};
use dl_text::{Failed, Out, Sink};

/// How many steps were given in a run, and at how many of them the caller waited. A count stands still at its type's end.
#[derive(Clone, Copy, Debug, PartialEq, Eq)]
pub struct Counts {
    pub gives: u64,
    pub waits: u64,
}

/// What is told of a run so far.
#[derive(Drop)]
pub struct Tally {
    pub gives: u64,
    pub waits: u64,
    /// Whether its trace could be put.
    pub shown: Result<(), Failed>,
}

fn one_more(count: u64) -> u64
    ensures { result ≡ one_more count }
{
    count.saturating_add(1)
}

fn waits_after(progress: &Progress, waits: u64) -> u64
    ensures { result ≡ waits_after progress.now waits }
{
    match progress {
        Progress::Waiting { .. } => one_more(waits),
        _ => waits,
    }
}

// Puts the line of a step, unless the sink has failed before.
fn show<K: Sink>(
    out: &mut Out,
    sink: &mut K,
    core: &Core,
    caller: u32,
    progress: Progress,
    shown: Result<(), Failed>,
) -> Result<(), Failed>
    requires works { OnOk shown (out.old.failed ≡ false) }
    ensures puts { (start : Taken) (first : Buffered) (text : List ℕ) → Puts start first text shown (K.taken sink.old) out.old → Puts start first (text ++ step_line core.now.code.source core.now.state.world.heap caller progress) result (K.taken sink.new) out.new }
    ensures works { OnOk result (out.new.failed ≡ false) }
{
    match shown {
        Ok(()) => put_step_line(out, sink, core, caller, progress),
        Err(failed) => Err(failed),
    }
}

/// Tells of a step of a caller, behind which the machine is in this state.
pub fn tell<K: Sink>(
    tally: &mut Tally,
    out: &mut Out,
    sink: &mut K,
    core: &Core,
    caller: u32,
    progress: Progress,
)
    requires works { OnOk tally.old.shown (out.old.failed ≡ false) }
    ensures gives { tally.new.gives ≡ one_more tally.old.gives }
    ensures waits { tally.new.waits ≡ waits_after progress tally.old.waits }
    ensures puts { (start : Taken) (first : Buffered) (text : List ℕ) → Puts start first text tally.old.shown (K.taken sink.old) out.old → Puts start first (text ++ step_line core.now.code.source core.now.state.world.heap caller progress) tally.new.shown (K.taken sink.new) out.new }
    ensures works { OnOk tally.new.shown (out.new.failed ≡ false) }
{
    let gives = one_more(tally.gives);
    let waits = waits_after(&progress, tally.waits);
    let shown = show(out, sink, core, caller, progress, tally.shown);
    *tally = Tally {
        gives,
        waits,
        shown,
    };
}

// A scheduled run of which nothing is put.
ghost use Rattle.dl_trace.specs.Ran.{MayRun, HasRunQuietly};

use crate::running::run_schedule;
use crate::tally::Counts;
use dl_core::Core;
use dl_ir::Calls;
use dl_schedule::Schedule;
use dl_text::{Failed, Out, Sink};

// A sink that takes all and keeps nothing.
#[derive(Drop)]
struct Nowhere;

impl Sink for Nowhere {
    ghost use Rattle.std.specs.Prelude.{None};

    ghost taken = { λ _. record { written = None; faults = 0 } };

    fn write(&mut self, bytes: &[u8]) -> Result<usize, Failed> {
        Ok(bytes.len())
    }
}

/// Runs the operations of files as `run_schedule` does, without a trace.
pub fn run_quiet(core: &mut Core, files: &[Calls], schedule: &Schedule) -> Counts
    requires { MayRun core.old files.now schedule.now }
    ensures { HasRunQuietly core.old core.new files.now schedule.now result }
{
    let mut out = Out::new();
    match run_schedule(core, files, schedule, &mut out, &mut Nowhere) {
        Ok(counts) => counts,
        Err(_) => unreachable!(),
    }
}

// Files of operations that run side by side.
ghost use Rattle.std.specs.Prelude.{◌≡◌, ◌+◌, ◌≤◌, All, length, map};
ghost use Rattle.dl_ir.specs.CallForms.{IsCallOf};
ghost use Rattle.dl_core.specs.Closing.{AreFresh};
ghost use Rattle.dl_core.specs.Plans.{IsPlan, source_of};
ghost use Rattle.dl_machine.specs.Files.{AreReady, HaveServed, RunsFiles, calls_on, callers_on};
ghost use denote.Param.Send.{IsSync, IsSend};

use crate::calls::run_file;
use crate::replies::Gate;
use dl_core::Ground;
use dl_ir::{Calls, Closed};
use dl_order::runs_close;
use std::sync::Wait;
use std::thread::{Threads, join_mut};

// Runs each file by its pass, in a thread of its own where threads can be made.
#[cycle(files)]
fn run_all<R: Threads + Wait + Sync, G: Ground, T: Gate>(
    rt: &R,
    ground: &G,
    passes: &mut [G::Pass],
    files: &[Calls],
    gate: &T,
)
    requires count { length passes.old ≡ length files.now }
    requires ready { AreReady (G.plan ground.now) (G.is_of ground.now) G.view files.now passes.old }
    ensures served { HaveServed (G.is_of ground.now) G.view passes.new }
    ensures calls { calls_on G.view passes.new ≡ files.now }
    ensures callers { callers_on G.view passes.new ≡ callers_on G.view passes.old }
{
    if passes.is_empty() {
        return;
    }
    let (first, rest) = passes.split_at_mut(1);
    let (file, later) = files.split_at(1);
    one_beside(rt, ground, first, file, rest, later, gate);
}

// Runs the first file beside the others. What the closures require is what this function is given.
#[cycle(files)]
fn one_beside<'a, R: Threads + Wait + Sync, G: Ground, T: Gate>(
    rt: &'a R,
    ground: &'a G,
    first: &mut [G::Pass],
    file: &[Calls],
    rest: &mut [G::Pass],
    later: &[Calls],
    gate: &'a T,
)
    requires one { (length first.old ≡ 1) × (length file.now ≡ 1) }
    requires count { length rest.old ≡ length later.now }
    requires first { AreReady (G.plan ground.now) (G.is_of ground.now) G.view file.now first.old }
    requires rest { AreReady (G.plan ground.now) (G.is_of ground.now) G.view later.now rest.old }
    ensures first_served { HaveServed (G.is_of ground.now) G.view first.new }
    ensures first_calls { calls_on G.view first.new ≡ file.now }
    ensures first_callers { callers_on G.view first.new ≡ callers_on G.view first.old }
    ensures rest_served { HaveServed (G.is_of ground.now) G.view rest.new }
    ensures rest_calls { calls_on G.view rest.new ≡ later.now }
    ensures rest_callers { callers_on G.view rest.new ≡ callers_on G.view rest.old }
{
    let mut mine = ||
        requires { IsSync R.row × IsSync G.row × IsSync T.row × IsSend G.Pass.row × (length first.now ≡ 1) × (length file.now ≡ 1) × AreReady (G.plan ground.now) (G.is_of ground.now) G.view file.now first.now }
        ensures { HaveServed (G.is_of ground.entry.now) G.view first.exit.now × (calls_on G.view first.exit.now ≡ file.entry.now) × (callers_on G.view first.exit.now ≡ callers_on G.view first.entry.now) }
    { run_first(rt, ground, first, file, gate) };
    let mut others = ||
        requires { IsSync R.row × IsSync G.row × IsSync T.row × IsSend G.Pass.row × (length rest.now ≡ length later.now) × AreReady (G.plan ground.now) (G.is_of ground.now) G.view later.now rest.now }
        ensures { HaveServed (G.is_of ground.entry.now) G.view rest.exit.now × (calls_on G.view rest.exit.now ≡ later.entry.now) × (callers_on G.view rest.exit.now ≡ callers_on G.view rest.entry.now) }
    { run_all(rt, ground, rest, later, gate) };
    join_mut(rt, &mut mine, &mut others);
}

fn run_first<R: Wait, G: Ground, T: Gate>(
    rt: &R,
    ground: &G,
    first: &mut [G::Pass],
    file: &[Calls],
    gate: &T,
)
    requires one { (length first.old ≡ 1) × (length file.now ≡ 1) }
    requires ready { AreReady (G.plan ground.now) (G.is_of ground.now) G.view file.now first.old }
    ensures served { HaveServed (G.is_of ground.now) G.view first.new }
    ensures calls { calls_on G.view first.new ≡ file.now }
    ensures callers { callers_on G.view first.new ≡ callers_on G.view first.old }
{
    let calls = file[0].as_slice();
    run_file(rt, ground, &mut first[0], calls, gate);
}

/// Runs each file by its pass, side by side where threads can be made, and closes the ground. It waits while callers wait for one
/// another.
pub fn run_files<R: Threads + Wait + Sync, G: Ground, T: Gate>(
    rt: &R,
    ground: G,
    passes: Vec<G::Pass>,
    files: &[Calls],
    gate: &T,
) -> Closed
    requires plan { IsPlan (G.plan ground) }
    requires fresh { AreFresh (G.plan ground) (G.is_of ground) G.view passes.items }
    requires sizes { (G.plan ground).sizes ≡ map length files.now }
    requires fits { All (λ file. All (IsCallOf (source_of (G.plan ground))) file) files.now }
    ensures { RunsFiles (G.plan ground) files.now result }
{
    let mut passes = passes;
    run_all(rt, &ground, passes.as_mut_slice(), files, gate);
    runs_close();
    ground.close(passes)
}

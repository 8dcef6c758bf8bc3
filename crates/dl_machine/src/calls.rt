// One call, and the calls of one file.
ghost use Rattle.std.specs.Prelude.{◌≡◌, ◌+◌, ◌≤◌, ◌++◌, All, length};
ghost use Rattle.dl_ir.specs.CallForms.{IsCallOf};
ghost use Rattle.dl_core.specs.Passes.{MayTake};
ghost use Rattle.dl_core.specs.Plans.{source_of, size_of};
ghost use Rattle.dl_machine.specs.Files.{HasServed};
ghost use Rattle.dl_machine.specs.Replies.{Replies};

use crate::replies::{Gate, Reply};
use crossbeam_utils::Backoff;
use dl_core::{Ground, Progress};
use dl_ir::Call;
use std::sync::Wait;

/// Runs one operation to its end. It waits while others hold what the operation takes.
pub fn call<R: Wait, G: Ground, T: Gate>(
    rt: &R,
    ground: &G,
    pass: &mut G::Pass,
    call: &Call,
    gate: &T,
) -> Reply
    requires of { G.is_of ground.now pass.old }
    requires may { MayTake (G.plan ground.now) (G.view pass.old) call.now }
    ensures of { G.is_of ground.now pass.new }
    ensures reply { Replies call.now (G.view pass.old) result (G.view pass.new) }
{
    let caller = ground.caller(pass);
    let backoff = Backoff::new();
    ground.begin(pass, call);
    for _ in rt.forever() {
        let last = ground.advance(pass);
        match &last {
            Progress::Moved(_) => {
                gate.pass(caller, &last);
                backoff.reset();
            }
            Progress::Done { entry } => {
                gate.pass(caller, &last);
                return Reply::Answered { entry: *entry };
            }
            Progress::Refused {
                need,
                found,
                version,
            } => {
                gate.pass(caller, &last);
                return Reply::NoRoom {
                    need: *need,
                    found: *found,
                    version: *version,
                };
            }
            Progress::Waiting { .. } | Progress::Looked { .. } | Progress::Raced { .. } => {
                backoff.snooze()
            }
            Progress::Idle => unreachable!(),
        }
    }
    unreachable!()
}

/// Runs the operations of one file, in order.
pub fn run_file<R: Wait, G: Ground, T: Gate>(
    rt: &R,
    ground: &G,
    pass: &mut G::Pass,
    file: &[Call],
    gate: &T,
)
    requires of { G.is_of ground.now pass.old }
    requires served { HasServed (G.view pass.old) }
    requires room { length (G.view pass.old).calls + length file.now ≤ size_of (G.plan ground.now) (G.view pass.old).caller }
    requires fits { All (IsCallOf (source_of (G.plan ground.now))) file.now }
    ensures of { G.is_of ground.now pass.new }
    ensures served { HasServed (G.view pass.new) }
    ensures calls { (G.view pass.new).calls ≡ (G.view pass.old).calls ++ file.now }
    ensures caller { (G.view pass.new).caller ≡ (G.view pass.old).caller }
{
    for one in file {
        call(rt, ground, pass, one, gate);
    }
}

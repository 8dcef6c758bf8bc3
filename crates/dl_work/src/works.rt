//! Operation files and schedules that a seed gives.

ghost use Rattle.std.specs.Prelude.{◌≡◌, ◌≤◌, ◌+◌, ◌*◌, ◌%◌, pos, map, All, IfOk, [], ◌∷◌};
ghost use Rattle.std.specs.List.{range_with_len};
ghost use Rattle.dl_ir.specs.declared.modules.Module.{Module as OneModule};
ghost use Rattle.dl_ir.specs.CallForms.{AreCallsOf};
ghost use Rattle.dl_schedule.specs.Rules.{AreGivesOf};
ghost use Rattle.dl_work.specs.Draws.{state_after, drawn};
ghost use Rattle.dl_work.specs.Works.{call_from, call_of, files_of, give_of, schedule_of, work_of, TakesWork};

use crate::draws::Draws;
use dl_ir::{Call, Calls};
use dl_schedule::{Give, Schedule};
use sqlite_items::Items;
use std::alloc::{AllocError, Global};

const INSERT: u32 = 0;

const POP: u32 = 1;

const MELD: u32 = 2;

/// The operation files of some callers, and the order in which they are given steps.
#[derive(Debug, Drop)]
pub struct Work {
    pub files: Items<Calls>,
    pub schedule: Schedule,
}

/// The work that a seed gives for so many operations and callers, of a module whose first operations are to insert a number
/// into one of its roots, to pop the least of one, and to meld one with another.
pub fn make_work(alloc: Global, seed: u64, count: u32, callers: u32) -> Result<Work, AllocError>
    requires some { 1 ≤ count }
    requires few { count ≤ 65536 }
    requires some_callers { 1 ≤ callers }
    requires few_callers { callers ≤ 64 }
    ensures work { IfOk result (λ work. work ≡ work_of seed count callers) }
    ensures of_module { (source : OneModule) → TakesWork source → IfOk result (λ work. All (AreCallsOf source) work.files) }
    ensures schedule { IfOk result (λ work. AreGivesOf callers work.schedule) }
{
    let mut draws = Draws { state: seed };
    let files = make_files(alloc, &mut draws, count, callers)?;
    let schedule = make_schedule(alloc, &mut draws, 4 * count, callers)?;
    Ok(Work { files, schedule })
}

// Draws so many operations, and deals them to the callers in turn.
fn make_files(
    alloc: Global,
    draws: &mut Draws,
    count: u32,
    callers: u32,
) -> Result<Items<Calls>, AllocError>
    requires { 1 ≤ callers }
    ensures files { IfOk result (λ files. files ≡ files_of draws.old.state count callers) }
    ensures state { IfOk result (λ _. draws.new.state ≡ state_after draws.old.state (3 * count)) }
{
    let mut files = empty_files(alloc, callers)?;
    for i in 0..count {
        let call = make_call(alloc, draws)?;
        let file = &mut files[(i % callers) as usize];
        file.push(call)?;
    }
    Ok(Items::from_vec(files))
}

// So many files without operations.
fn empty_files(alloc: Global, callers: u32) -> Result<Vec<Calls>, AllocError>
    ensures { IfOk result (λ files. files.items ≡ map (λ _. []) (range_with_len 1 callers)) }
{
    let mut files = Vec::new(alloc);
    for _caller in 0..callers {
        files.push(Items::new(alloc))?;
    }
    Ok(files)
}

// Draws an operation.
fn make_call(alloc: Global, draws: &mut Draws) -> Result<Call, AllocError>
    ensures call { IfOk result (λ call. call ≡ call_of draws.old.state 0) }
    ensures state { IfOk result (λ _. draws.new.state ≡ state_after draws.old.state 3) }
{
    let which = draws.draw() % 8;
    let root = (draws.draw() % 4) as i64;
    let number = draws.draw();
    if which < 4 {
        call_with(alloc, INSERT, &[root, (number % 1_000_000) as i64])
    } else if which < 7 {
        call_with(alloc, POP, &[root])
    } else {
        call_with(alloc, MELD, &[root, (number % 4) as i64])
    }
}

fn call_with(alloc: Global, op: u32, args: &[i64]) -> Result<Call, AllocError>
    ensures { IfOk result (λ call. call ≡ record { op = op; args = args.now }) }
{
    let args = Items::from_slice(alloc, args)?;
    Ok(Call { op, args })
}

// Draws so many gives of one step.
fn make_schedule(
    alloc: Global,
    draws: &mut Draws,
    count: u32,
    callers: u32,
) -> Result<Schedule, AllocError>
    requires { 1 ≤ callers }
    ensures { IfOk result (λ schedule. schedule ≡ map (λ at. give_of callers (drawn draws.old.state at)) (range_with_len 0 count)) }
{
    let mut schedule = Items::new(alloc);
    for _i in 0..count {
        schedule.push(Give {
            caller: draws.draw() % callers + 1,
            times: 1,
        })?;
    }
    Ok(schedule)
}

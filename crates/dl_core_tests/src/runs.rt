//! Runs of the machine that go on step by step, for the tests.

ghost use Rattle.std.specs.Prelude.{◌≡◌, ◌≤◌, All, IfOk, IsTrue, length, map, slice_get};
ghost use Rattle.std.specs.Option.{option_copied};
ghost use Rattle.dl_instr.specs.Drops.{IsCodeOf};
ghost use Rattle.dl_ir.specs.CallForms.{AreCallsOf};
ghost use Rattle.dl_ir.specs.Checked.{IsChecked};
ghost use Rattle.dl_ir.specs.declared.modules.Module.{Module as ModuleOf};
ghost use Rattle.dl_core.specs.Core.{frame_of};
ghost use Rattle.dl_core.specs.Machines.{AreAllIdle, HasCaller};
ghost use Rattle.dl_core.specs.Reached.{calls_of};
ghost use Rattle.dl_core_tests.specs.Runs.{IsUnderWay};

use dl_core::{Core, Progress};
use dl_instr::Code;
use dl_ir::{Call, Calls, Closed, Name};
use std::alloc::{AllocError, Global};
use std::marker::Model;
use std::test::Fail;

/// A machine on the way through operation files, one for each caller.
#[derive(Drop)]
pub struct Run<'a> {
    core: Core,
    files: &'a [Calls],
}

impl<'a> Model for Run<'a> {
    ghost use Rattle.std.specs.Prelude.{ℕ, length};
    ghost use Rattle.dl_core_tests.specs.Runs.{IsUnderWay};

    // the number of callers
    ghost Value = { ℕ };

    ghost view = { λ run. length run.files.now };

    ghost invariant = { λ run. IsUnderWay run.core run.files.now };
}

impl<'a> Run<'a> {
    /// A machine at the start of its run, for at most 64 files of the code's module.
    pub fn start(
        alloc: Global,
        code: Code,
        files: &'a [Calls],
        places: u32,
    ) -> Result<Run<'a>, Fail>
        requires code { (source : ModuleOf) × IsChecked source × IsCodeOf source code × All (AreCallsOf source) files.now }
        requires places { places ≤ 65536 }
    {
        let count = files.len();
        if count == 0 || count > 64 {
            return Err(Fail::from("a run has 1 to 64 callers"));
        }
        let core = open(alloc, code, files, places)?;
        Ok(Run { core, files })
    }

    /// Gives a caller a step: it begins its next operation, if it has none in hand and one is left; then it advances once.
    /// There is no answer where there is no such caller.
    pub fn give(&mut self, caller: u32) -> Option<Progress> {
        if caller == 0 || caller as usize > self.core.callers() {
            return None;
        }
        begin_next(&mut self.core, self.files, caller);
        Some(self.core.advance(caller))
    }

    /// The last ticket drawn.
    pub fn clock(&self) -> u64 {
        self.core.clock()
    }

    /// How many moves the pool has made.
    pub fn version(&self) -> u64 {
        self.core.version()
    }

    /// The name of an object's field.
    pub fn field_name(&self, name: Name, field: u32) -> &[u8] {
        self.core.field_name(name, field)
    }

    /// What the run leaves, once no caller has a call in hand. There is nothing where one has.
    pub fn close(self) -> Option<Closed> {
        let Run { core, files } = self;
        if are_idle(&core, files) {
            Some(core.close())
        } else {
            None
        }
    }
}

// A machine at the start of its run.
fn open(alloc: Global, code: Code, files: &[Calls], places: u32) -> Result<Core, AllocError>
    requires code { (source : ModuleOf) × IsChecked source × IsCodeOf source code × All (AreCallsOf source) files.now }
    requires some { 1 ≤ length files.now }
    requires few { length files.now ≤ 64 }
    requires places { places ≤ 65536 }
    ensures { IfOk result (λ core. IsUnderWay core files.now) }
{
    let sizes = sizes_of(alloc, files)?;
    let core = Core::start(alloc, code, places, &sizes)?;
    Ok(core)
}

// The number of operations of each file.
fn sizes_of(alloc: Global, files: &[Calls]) -> Result<Vec<u32>, AllocError>
    requires { All (λ calls. length calls ≤ 65536) files.now }
    ensures { IfOk result (λ sizes. sizes.items ≡ map length files.now) }
{
    let mut sizes = Vec::new(alloc);
    'files: for calls in files {
        sizes.push(calls.len() as u32)?;
    }
    Ok(sizes)
}

// The operation of its file that a caller begins next, if one is left.
fn next_call<'a>(core: &Core, files: &'a [Calls], caller: u32) -> Option<&'a Call>
    requires way { IsUnderWay core.now files.now }
    requires caller { HasCaller core.now caller }
    ensures { option_copied result ≡ slice_get (calls_of files.now caller) (frame_of core.now.state.world caller).index }
{
    files[caller as usize - 1].get(core.begun(caller) as usize)
}

// A caller with no call in hand begins the next one of its file, if one is left.
fn begin_next(core: &mut Core, files: &[Calls], caller: u32)
    requires way { IsUnderWay core.old files.now }
    requires caller { HasCaller core.old caller }
    ensures way { IsUnderWay core.new files.now }
    ensures caller { HasCaller core.new caller }
{
    if !core.is_idle(caller) {
        return;
    }
    match next_call(core, files, caller) {
        Some(call) => core.begin(caller, call),
        None => (),
    }
}

// Whether no caller has a call in hand.
fn are_idle(core: &Core, files: &[Calls]) -> bool
    requires { IsUnderWay core.now files.now }
    ensures { IsTrue result → AreAllIdle core.now.state }
{
    'callers: for place in 0..files.len() {
        if !core.is_idle(place as u32 + 1) {
            return false;
        }
    }
    true
}

//! What the tests run: modules and calls, read from their texts, and the codes of modules.

ghost use Rattle.std.specs.Prelude.{All, IfOk};
ghost use Rattle.dl_instr.specs.Drops.{IsCodeOf};
ghost use Rattle.dl_ir.specs.CallForms.{AreCallsOf};
ghost use Rattle.dl_ir.specs.Checked.{IsChecked};

use dl_grammar::read_module;
use dl_instr::{Code, codes_of_modules, instrument};
use dl_ir::{Calls, Module};
use dl_live::{drops_are_code, early_drops};
use dl_syntax::read_calls;
use dl_types::check;
use std::alloc::Global;
use std::test::Fail;

// The texts of the tests are short.
const LONGEST: usize = 100_000;

pub fn module_of(alloc: Global, text: &[u8]) -> Result<Module, Fail>
    ensures { IfOk result IsChecked }
{
    if text.len() > LONGEST {
        return Err(Fail::from("the module is too long"));
    }
    let tree = read_module(alloc, text)?;
    let source = check(alloc, &tree)?;
    Ok(source)
}

pub fn calls_of(alloc: Global, source: &Module, text: &[u8]) -> Result<Calls, Fail>
    requires { IsChecked source.now }
    ensures { IfOk result (AreCallsOf source.now) }
{
    if text.len() > LONGEST {
        return Err(Fail::from("the operation file is too long"));
    }
    let calls = read_calls(alloc, text, source)?;
    Ok(calls)
}

/// The calls of operation files, one file for each caller.
pub fn files_of(alloc: Global, source: &Module, texts: &[&[u8]]) -> Result<Vec<Calls>, Fail>
    requires { IsChecked source.now }
    ensures { IfOk result (λ files. All (AreCallsOf source.now) files.items) }
{
    let mut files = Vec::new(alloc);
    'texts: for text in texts {
        files.push(calls_of(alloc, source, text)?)?;
    }
    Ok(files)
}

/// The plain code of a module.
pub fn plain(alloc: Global, source: &Module) -> Result<Code, Fail>
    ensures { IfOk result (IsCodeOf source.now) }
{
    codes_of_modules();
    let code = instrument(alloc, source)?;
    Ok(code)
}

/// The code of a module with early drops.
pub fn dropped(alloc: Global, source: &Module) -> Result<Code, Fail>
    ensures { IfOk result (IsCodeOf source.now) }
{
    drops_are_code();
    match early_drops(alloc, source, plain(alloc, source)?) {
        Ok(made) => Ok(made),
        Err((_, error)) => Err(Fail::from(error)),
    }
}

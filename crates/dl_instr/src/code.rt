//! The type of a code: a module with the steps of each of its operations.

ghost use Rattle.std.specs.Prelude.{◌≡◌, slice_get};
ghost use Rattle.std.specs.Option.{option_copied};

use crate::steps::Steps;
use dl_ir::Module;
use sqlite_items::Items;

/// The instrumented code of a module, with the module that it came from.
#[derive(Debug, Drop)]
pub struct Code {
    pub(crate) source: Module,
    pub(crate) ops: Items<Steps>,
}

impl Code {
    /// The module that the code came from.
    pub fn source(&self) -> &Module
        ensures { result.now ≡ self.now.source }
    {
        &self.source
    }

    /// The steps of the operation with this number, if there is one.
    pub fn steps(&self, op: usize) -> Option<&Steps>
        ensures { option_copied result ≡ slice_get self.now.ops op }
    {
        self.ops.get(op)
    }

    /// The code with other steps, of the same module. Whether they are a code of that module is for the caller to know.
    pub fn with_ops(self, ops: Items<Steps>) -> Code
        ensures { result ≡ record { source = self.source; ops = ops } }
    {
        Code {
            source: self.source,
            ops,
        }
    }
}

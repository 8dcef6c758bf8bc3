// What a call answers, and who is told of its steps.
use dl_core::Progress;
use dl_ir::Entry;

/// What came of a call.
#[derive(Clone, Copy, Debug, PartialEq, Eq)]
pub enum Reply {
    /// The operation was carried out.
    Answered { entry: Entry },
    /// It was refused, since the pool had `found` places at `version`, fewer than its `need`.
    NoRoom { need: u32, found: u32, version: u64 },
}

/// Is told of each step that moved a caller, and may hold the caller up.
pub trait Gate: Sync {
    fn pass(&self, caller: u32, last: &Progress);
}

/// The gate that lets everyone pass.
#[derive(Clone, Copy, Debug)]
pub struct Open;

impl Gate for Open {
    fn pass(&self, caller: u32, last: &Progress) {
        let _ = caller;
        let _ = last;
    }
}

//! What a schedule is, and the faults of schedule files.

use sqlite_items::Items;
use std::alloc::AllocError;
use thiserror::Error;

/// So many steps given to one caller, one after another. Callers are counted from 1.
#[derive(Clone, Copy, Debug, PartialEq, Eq)]
pub struct Give {
    pub caller: u32,
    pub times: u32,
}

/// The order in which callers are given steps.
pub type Schedule = Items<Give>;

/// Why a text is no schedule of so many callers, with the line at fault, counted from 1.
#[derive(Clone, Copy, Debug, PartialEq, Eq, Error)]
pub enum ScheduleFault {
    #[error("line {line}: a byte above 127")]
    NotAscii { line: u32 },
    #[error("line {line}: a control byte")]
    BadByte { line: u32 },
    #[error("line {line}: not a caller and a number of steps from 1 to 1,000,000")]
    BadStep { line: u32 },
    #[error("line {line}: no caller of this number")]
    NoCaller { line: u32 },
    #[error("line {line}: more than 1,000,000 steps")]
    TooMany { line: u32 },
    #[error("out of memory")]
    Memory,
}

impl From<AllocError> for ScheduleFault {
    ghost use Rattle.std.specs.Prelude.{◌≡◌};
    ghost use Rattle.dl_schedule.specs.declared.give.ScheduleFault.TheVariants.{Memory};

    ghost from_gives = { λ _ fault. fault ≡ Memory };

    fn from(_fault: AllocError) -> ScheduleFault {
        ScheduleFault::Memory
    }
}

//! The faults of operation files.

use std::alloc::AllocError;
use thiserror::Error;

/// Why a text is no operation file of a module, with the line at fault, counted from 1.
#[derive(Clone, Copy, Debug, PartialEq, Eq, Error)]
pub enum CallsFault {
    #[error("line {line}: a byte above 127")]
    NotAscii { line: u32 },
    #[error("line {line}: a control byte")]
    BadByte { line: u32 },
    #[error("line {line}: more than 65,536 operations")]
    TooMany { line: u32 },
    #[error("line {line}: no operation of this name")]
    NoOp { line: u32 },
    #[error("line {line}: too few or too many arguments")]
    ArgCount { line: u32 },
    #[error("line {line}: an argument that is no number in signed 64 bits")]
    NotNumber { line: u32 },
    #[error("line {line}: an argument that is no root of the parameter's kind")]
    NoRoot { line: u32 },
    #[error("out of memory")]
    Memory,
}

impl From<AllocError> for CallsFault {
    ghost use Rattle.std.specs.Prelude.{◌≡◌};
    ghost use Rattle.dl_syntax.specs.declared.calls.CallsFault.TheVariants.{Memory};

    ghost from_gives = { λ _ fault. fault ≡ Memory };

    fn from(_fault: AllocError) -> CallsFault {
        CallsFault::Memory
    }
}

//! The faults of heap files.

use std::alloc::AllocError;
use thiserror::Error;

/// Why a text is no heap file of a module, with the line at fault, counted from 1.
#[derive(Clone, Copy, Debug, PartialEq, Eq, Error)]
pub enum HeapFault {
    #[error("line {line}: no line begins with the word heap")]
    NoHeap { line: u32 },
    #[error("line {line}: not of the form of the heap part at this place")]
    BadLine { line: u32 },
    #[error("line {line}: not the number of objects or of hidden objects")]
    Count { line: u32 },
    #[error("line {line}: a reference that is no name of a hidden object of the field's kind")]
    Dangling { line: u32 },
    #[error("line {line}: an unsealed hidden object to which not exactly one field refers")]
    Shape { line: u32 },
    #[error("line {line}: more hidden objects than places")]
    NoPlaces { line: u32 },
    #[error("out of memory")]
    Memory,
}

impl From<AllocError> for HeapFault {
    ghost use Rattle.std.specs.Prelude.{◌≡◌};
    ghost use Rattle.dl_heapfile.specs.declared.fault.HeapFault.TheVariants.{Memory};

    ghost from_gives = { λ _ fault. fault ≡ Memory };

    fn from(_fault: AllocError) -> HeapFault {
        HeapFault::Memory
    }
}

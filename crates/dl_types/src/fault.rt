//! The faults of names and types.

use std::alloc::AllocError;
use thiserror::Error;

/// Why a tree is no module: the first fault in the order of the text, with its line.
#[derive(Clone, Copy, Debug, PartialEq, Eq, Error)]
pub enum TypeFault {
    /// A name is declared a second time in its name space.
    #[error("line {line}: this name is declared already")]
    Twice { line: u32 },
    /// A kind, a field or a local of this name is not declared.
    #[error("line {line}: this name is not declared")]
    Unknown { line: u32 },
    /// Types do not fit, a parameter is of a node kind, a var is of a root kind, or an operation has no root parameter.
    #[error("line {line}: the types do not fit")]
    KindClash { line: u32 },
    /// The type of a field is a root kind.
    #[error("line {line}: no field refers to a root")]
    RootInField { line: u32 },
    /// An object of a root kind was to be made.
    #[error("line {line}: no operation makes a root")]
    NewRoot { line: u32 },
    /// A root parameter is set to something else than null.
    #[error("line {line}: a root parameter is set to null alone")]
    AssignRoot { line: u32 },
    /// No root kind is declared.
    #[error("line {line}: there is no root kind")]
    NoRoots { line: u32 },
    #[error("out of memory")]
    Memory,
}

impl From<AllocError> for TypeFault {
    ghost use Rattle.std.specs.Prelude.{◌≡◌};
    ghost use Rattle.dl_types.specs.declared.fault.TypeFault.TheVariants.{Memory};

    ghost from_gives = { λ _ fault. fault ≡ Memory };

    fn from(_fault: AllocError) -> TypeFault {
        TypeFault::Memory
    }
}

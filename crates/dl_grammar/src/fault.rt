//! The limits of module texts, and the faults of texts that are none.
ghost use Rattle.std.specs.Prelude.{◌≡◌};
ghost use Rattle.dl_grammar.specs.declared.fault.Fault.TheVariants.{Memory};

use std::alloc::AllocError;
use thiserror::Error;

/// A limit of module texts that is counted.
#[derive(Clone, Copy, Debug, PartialEq, Eq)]
pub enum Which {
    Kinds,
    Fields,
    Ops,
    Locals,
    Roots,
    Allocs,
    Fuel,
    Literal,
    Operators,
}

/// A limit of module texts.
#[derive(Clone, Copy, Debug, PartialEq, Eq)]
pub enum Bound {
    /// The levels of blocks, brackets and minus signs.
    Levels,
    Limit(Which),
}

/// Why reading stops, at the token where it stands.
#[derive(Clone, Copy, Debug, PartialEq, Eq)]
pub enum Fault {
    Expected,
    Passed(Bound),
    Memory,
}

impl From<AllocError> for Fault {
    ghost from_gives = { λ _ e. e ≡ Memory };

    fn from(_fault: AllocError) -> Fault {
        Fault::Memory
    }
}

/// Why a text is no module, at the first place that is wrong. Faults of tokens come before all others.
#[derive(Clone, Copy, Debug, PartialEq, Eq, Error)]
pub enum SyntaxFault {
    #[error("line {line}: a byte above 127")]
    NotAscii { at: usize, line: u32 },
    #[error("line {line}: a byte that begins nothing")]
    BadByte { at: usize, line: u32 },
    #[error("line {line}: a number above 9223372036854775808")]
    BigNumber { at: usize, line: u32 },
    /// No module text goes on so.
    #[error("line {line}: something else is expected")]
    Expected { line: u32 },
    /// A 33rd level is opened.
    #[error("line {line}: nested too deep")]
    TooDeep { line: u32 },
    #[error("line {line}: the limit {which:?} is passed")]
    Limit { line: u32, which: Which },
    #[error("out of memory")]
    Memory,
}

//! Tokens, with their places and lines, and the faults of texts.
use sqlite_items::Items;
use thiserror::Error;

/// What a token is. A word's text and a symbol's are the slice of the source at its place.
#[derive(Clone, Copy, Debug, PartialEq, Eq)]
pub enum TokenKind {
    Word,
    /// A run of digits, and what it says in decimal: at most 9223372036854775808.
    Number(u64),
    Symbol,
}

/// A token of a text, with its bytes `at..end` and its line, counted from 1.
#[derive(Clone, Copy, Debug, PartialEq, Eq)]
pub struct Token {
    pub kind: TokenKind,
    pub at: usize,
    pub end: usize,
    pub line: u32,
}

/// The tokens of a text, in order.
pub type Tokens = Items<Token>;

/// Why a text has no tokens, at the first place that is wrong.
#[derive(Clone, Copy, Debug, PartialEq, Eq, Error)]
pub enum TextFault {
    #[error("line {line}: a byte above 127")]
    NotAscii { at: usize, line: u32 },
    #[error("line {line}: a byte that begins nothing")]
    BadByte { at: usize, line: u32 },
    #[error("line {line}: a number above 9223372036854775808")]
    BigNumber { at: usize, line: u32 },
    #[error("out of memory")]
    Memory,
}

//! The lexemes of a text: what its tokens say to the grammar.
use sqlite_items::Items;

/// A reserved word or a symbol.
#[derive(Clone, Copy, Debug, PartialEq, Eq)]
pub enum Fixed {
    Domlock,
    Root,
    Node,
    Op,
    Allocs,
    Fuel,
    Var,
    Int,
    New,
    Null,
    If,
    Else,
    While,
    Return,
    /// Reserved in version 2 alone.
    Emit,
    LBrace,
    RBrace,
    LParen,
    RParen,
    Comma,
    Colon,
    Semicolon,
    Assign,
    Dot,
    Plus,
    Minus,
    Star,
    Slash,
    Percent,
    Less,
    LessEq,
    Equal,
    NotEqual,
}

/// What a token says to the grammar.
#[derive(Debug, Drop)]
pub enum Lexis {
    Fixed(Fixed),
    /// A word that is not reserved.
    Name(Items<u8>),
    /// The number whose text is `1`.
    One,
    /// The number whose text is `2`.
    Two,
    /// Any other number.
    Number(u64),
}

/// A token as the grammar sees it, with its line.
#[derive(Debug, Drop)]
pub struct Lexeme {
    pub lexis: Lexis,
    pub line: u32,
}

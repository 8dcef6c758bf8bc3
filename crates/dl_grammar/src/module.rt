//! From the bytes of a text to its tree or its first fault.
ghost use Rattle.std.specs.Prelude.{◌≡◌, ◌≢◌, ℕ, ◌≤◌, length, IfOk, IfErr, MatchResult, List, slice_range};
ghost use Rattle.dl_text.specs.Text.{InOrder};
ghost use Rattle.dl_grammar.specs.Grammar.{finish};
ghost use Rattle.dl_grammar.specs.Limits.{IsInLimits};
ghost use Rattle.dl_grammar.specs.Readers as read;
ghost use Rattle.dl_grammar.specs.Texts.{is_text, reserved, symbol, digits_lexis, lexis_of, version_of, lexemes_in, last_line, line_at, fault_in, text_fault, Answers, Spells, IsSyntaxFault};
ghost use Rattle.dl_grammar.specs.declared.tree.Tree.{Tree as TreeOf};
ghost use Rattle.dl_grammar.specs.declared.fault.SyntaxFault.{SyntaxFault as FaultOf};

use crate::cursor::Cursor;
use crate::declarations::Declared;
use crate::fault::{Bound, Fault, SyntaxFault};
use crate::lexeme::{Fixed, Lexeme, Lexis};
use crate::tree::Tree;
use dl_text::{TextFault, Token, TokenKind, tokens};
use sqlite_items::Items;
use std::alloc::{AllocError, Global};

#[tactic(auto, unfolding(crate::specs::Texts::is_text))]
fn is_text(bytes: &[u8], text: &[u8]) -> bool
    ensures { result ≡ is_text bytes.now text.now }
{
    bytes == text
}

fn last_line(all: &[Lexeme]) -> u32
    ensures { result ≡ last_line 1 all.now }
{
    let mut line = 1;
    for lexeme in all {
        line = lexeme.line;
    }
    line
}

fn line_at(all: &[Lexeme], rest: &[Lexeme]) -> u32
    ensures { result ≡ line_at all.now rest.now }
{
    match rest {
        [] => last_line(all),
        [lexeme, ..] => lexeme.line,
    }
}

fn fault_in(fault: Fault, line: u32) -> SyntaxFault
    ensures { result ≡ fault_in fault line }
{
    match fault {
        Fault::Expected => SyntaxFault::Expected { line },
        Fault::Passed(Bound::Levels) => SyntaxFault::TooDeep { line },
        Fault::Passed(Bound::Limit(which)) => SyntaxFault::Limit { line, which },
        Fault::Memory => SyntaxFault::Memory,
    }
}

/// Reads the lexemes of a whole text.
fn read_lexemes(alloc: Global, all: &[Lexeme]) -> Result<Tree, SyntaxFault>
    ensures { Answers (finish (read.module_text all.now)) all.now result }
{
    let mut cursor = Cursor { rest: all };
    let declared = match cursor.module_text(alloc) {
        Ok(declared) => declared,
        Err(fault) => return Err(fault_in(fault, line_at(all, cursor.rest))),
    };
    if let [lexeme, ..] = cursor.rest {
        return Err(SyntaxFault::Expected { line: lexeme.line });
    }
    let Declared {
        version,
        kinds,
        ops,
    } = declared;
    Ok(Tree {
        version,
        kinds,
        ops,
        last: last_line(all),
    })
}

/// The reserved word that a word is in a text of the version.
fn reserved(version: u32, word: &[u8]) -> Option<Fixed>
    ensures { result ≡ reserved version word.now }
{
    if is_text(word, b"domlock") {
        Some(Fixed::Domlock)
    } else if is_text(word, b"root") {
        Some(Fixed::Root)
    } else if is_text(word, b"node") {
        Some(Fixed::Node)
    } else if is_text(word, b"op") {
        Some(Fixed::Op)
    } else if is_text(word, b"allocs") {
        Some(Fixed::Allocs)
    } else if is_text(word, b"fuel") {
        Some(Fixed::Fuel)
    } else if is_text(word, b"var") {
        Some(Fixed::Var)
    } else if is_text(word, b"int") {
        Some(Fixed::Int)
    } else if is_text(word, b"new") {
        Some(Fixed::New)
    } else if is_text(word, b"null") {
        Some(Fixed::Null)
    } else if is_text(word, b"if") {
        Some(Fixed::If)
    } else if is_text(word, b"else") {
        Some(Fixed::Else)
    } else if is_text(word, b"while") {
        Some(Fixed::While)
    } else if is_text(word, b"return") {
        Some(Fixed::Return)
    } else if version == 2 && is_text(word, b"emit") {
        Some(Fixed::Emit)
    } else {
        None
    }
}

/// The symbol that a symbol's text is.
fn symbol(bytes: &[u8]) -> Fixed
    ensures { result ≡ symbol bytes.now }
{
    if is_text(bytes, b"{") {
        Fixed::LBrace
    } else if is_text(bytes, b"}") {
        Fixed::RBrace
    } else if is_text(bytes, b"(") {
        Fixed::LParen
    } else if is_text(bytes, b")") {
        Fixed::RParen
    } else if is_text(bytes, b",") {
        Fixed::Comma
    } else if is_text(bytes, b":") {
        Fixed::Colon
    } else if is_text(bytes, b";") {
        Fixed::Semicolon
    } else if is_text(bytes, b"=") {
        Fixed::Assign
    } else if is_text(bytes, b".") {
        Fixed::Dot
    } else if is_text(bytes, b"+") {
        Fixed::Plus
    } else if is_text(bytes, b"-") {
        Fixed::Minus
    } else if is_text(bytes, b"*") {
        Fixed::Star
    } else if is_text(bytes, b"/") {
        Fixed::Slash
    } else if is_text(bytes, b"%") {
        Fixed::Percent
    } else if is_text(bytes, b"<") {
        Fixed::Less
    } else if is_text(bytes, b"<=") {
        Fixed::LessEq
    } else if is_text(bytes, b"==") {
        Fixed::Equal
    } else {
        Fixed::NotEqual
    }
}

fn word_lexis(alloc: Global, version: u32, bytes: &[u8]) -> Result<Lexis, AllocError>
    ensures { IfOk result (λ found. found ≡ lexis_of version TokenKind.Word bytes.now) }
{
    match reserved(version, bytes) {
        Some(fixed) => Ok(Lexis::Fixed(fixed)),
        None => Ok(Lexis::Name(Items::from_slice(alloc, bytes)?)),
    }
}

/// A number, apart from the two that name a version.
fn digits_lexis(bytes: &[u8], number: u64) -> Lexis
    ensures { result ≡ digits_lexis bytes.now number }
{
    if is_text(bytes, b"1") {
        Lexis::One
    } else if is_text(bytes, b"2") {
        Lexis::Two
    } else {
        Lexis::Number(number)
    }
}

/// What a token of these bytes says to the grammar in a text of the version.
fn lexis_of(alloc: Global, version: u32, kind: TokenKind, bytes: &[u8]) -> Result<Lexis, AllocError>
    ensures { IfOk result (λ found. found ≡ lexis_of version kind bytes.now) }
{
    match kind {
        TokenKind::Word => word_lexis(alloc, version, bytes),
        TokenKind::Symbol => Ok(Lexis::Fixed(symbol(bytes))),
        TokenKind::Number(number) => Ok(digits_lexis(bytes, number)),
    }
}

/// The bytes of a token.
fn text_of<'a>(bytes: &'a [u8], token: &Token) -> &'a [u8]
    requires ordered { token.now.at ≤ token.now.end }
    requires within { token.now.end ≤ length bytes.now }
    ensures { result.now ≡ slice_range bytes.now token.now.at token.now.end }
{
    &bytes[token.at..token.end]
}

/// The version of a text: 2 where its second token is `2`, and else 1.
fn version_of(bytes: &[u8], tokens: &[Token]) -> u32
    requires { InOrder 0 (length bytes.now) tokens.now }
    ensures { result ≡ version_of bytes.now tokens.now }
{
    if let [_first, second, ..] = tokens
        && is_text(text_of(bytes, second), b"2")
    {
        return 2;
    }
    1
}

/// The tokens of a text of the version as the grammar sees them.
fn lexemes(
    alloc: Global,
    version: u32,
    bytes: &[u8],
    tokens: &[Token],
) -> Result<Items<Lexeme>, AllocError>
    requires { InOrder 0 (length bytes.now) tokens.now }
    ensures { IfOk result (λ found. found ≡ lexemes_in version bytes.now tokens.now) }
{
    let mut found: Items<Lexeme> = Items::new(alloc);
    let mut rest = tokens;
    'tokens: while let [token, more @ ..] = rest {
        let lexis = lexis_of(alloc, version, token.kind, text_of(bytes, token))?;
        found.push(Lexeme {
            lexis,
            line: token.line,
        })?;
        rest = more;
    }
    Ok(found)
}

fn text_fault(fault: TextFault) -> SyntaxFault
    ensures { result ≡ text_fault fault }
{
    match fault {
        TextFault::NotAscii { at, line } => SyntaxFault::NotAscii { at, line },
        TextFault::BadByte { at, line } => SyntaxFault::BadByte { at, line },
        TextFault::BigNumber { at, line } => SyntaxFault::BigNumber { at, line },
        TextFault::Memory => SyntaxFault::Memory,
    }
}

/// Reads a module text. The first place that is wrong decides on the fault, the faults of tokens before all others.
pub fn read_module(alloc: Global, bytes: &[u8]) -> Result<Tree, SyntaxFault>
    requires { length bytes.now ≤ 4294967294 }

    // What is read is spelled so, and what is spelled so is read, unless memory runs out.
    ensures found { IfOk result (Spells bytes.now) }
    ensures only { (tree : TreeOf) → Spells bytes.now tree → MatchResult result (λ found. found ≡ tree) (λ fault. fault ≡ SyntaxFault.Memory) }

    ensures limits { IfOk result IsInLimits }

    // A fault is the first one, and where there is one it is answered.
    ensures fault { IfErr result (λ fault. fault ≢ SyntaxFault.Memory → IsSyntaxFault bytes.now fault) }
    ensures only_fault { (fault : FaultOf) → IsSyntaxFault bytes.now fault → MatchResult result (λ _. ⊥) (λ found. found ≢ SyntaxFault.Memory → found ≡ fault) }
{
    let found = match tokens(alloc, bytes) {
        Ok(found) => found,
        Err(fault) => return Err(text_fault(fault)),
    };
    let scanned = found.as_slice();
    let version = version_of(bytes, scanned);
    let Ok(all) = lexemes(alloc, version, bytes, scanned) else {
        return Err(SyntaxFault::Memory);
    };
    read_lexemes(alloc, all.as_slice())
}

/// A text spells one tree at most, or else it has one fault at most.
pub fn one_module()
    ensures tree { (bytes : List ℕ) (a b : TreeOf) → Spells bytes a → Spells bytes b → a ≡ b }
    ensures fault { (bytes : List ℕ) (e f : FaultOf) → IsSyntaxFault bytes e → IsSyntaxFault bytes f → e ≡ f }
    ensures either { (bytes : List ℕ) (tree : TreeOf) (f : FaultOf) → Spells bytes tree → ¬ IsSyntaxFault bytes f }
{}

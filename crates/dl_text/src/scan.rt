//! The tokens of a text, found byte by byte.
ghost use Rattle.std.specs.Prelude.{◌≡◌, ◌≢◌, ℕ, ◌+◌, ◌≤◌, ◌<◌, length, List, IfOk, IfErr, MatchResult, IfSome, Option, if◌then◌else◌, nat_le, Bool};
ghost use Rattle.std.specs.List.{prefix_len, take_while};
ghost use Rattle.dl_text.specs.Bytes.{is_digit, is_word, is_comment, value, AllAre};
ghost use Rattle.dl_text.specs.Text.{AreTokens, IsTextFault, InOrder, greatest};
ghost use Rattle.dl_text.specs.Scan as spec;
ghost use Rattle.dl_text.specs.declared.token.Token.{Token as TokenOf};
ghost use Rattle.dl_text.specs.declared.token.TextFault.{TextFault as FaultOf};

use crate::class::{Class, class_of};
use crate::token::{TextFault, Token, TokenKind, Tokens};
use sqlite_items::Items;
use std::alloc::Global;

/// The greatest number that a text may have: one more than the greatest `i64`.
const GREATEST: u64 = 9223372036854775808;

/// What comes first in some bytes, with its length.
#[derive(Clone, Copy, Debug)]
enum Piece {
    End,
    Feed,
    Skip(usize),
    Take(TokenKind, usize),
    Foreign,
    Stray,
    Big,
}

fn word_len(bytes: &[u8]) -> usize
    ensures run { result ≡ prefix_len is_word bytes.now }
    ensures within { result ≤ length bytes.now }
{
    bytes
        .iter()
        .take_while(|b| b.is_ascii_alphanumeric() || **b == b'_')
        .count()
}

fn comment_len(bytes: &[u8]) -> usize
    ensures run { result ≡ prefix_len is_comment bytes.now }
    ensures within { result ≤ length bytes.now }
{
    bytes
        .iter()
        .take_while(|b| **b <= 127 && **b != b'\n')
        .count()
}

fn digits_len(bytes: &[u8]) -> usize
    ensures run { result ≡ prefix_len is_digit bytes.now }
    ensures within { result ≤ length bytes.now }
{
    bytes.iter().take_while(|b| b.is_ascii_digit()).count()
}

/// What a run of digits says, where it is no more than the greatest number.
fn decimal(digits: &[u8]) -> Option<u64>
    requires { AllAre is_digit digits.now }
    ensures { result ≡ (if nat_le (value digits.now) greatest then Some (value digits.now) else None) }
{
    let mut n: u64 = 0;
    for digit in digits {
        let units = (*digit - b'0') as u64;
        if n > (GREATEST - units) / 10 {
            return None;
        }
        n = 10 * n + units;
    }
    Some(n)
}

fn number(bytes: &[u8]) -> Piece
    ensures { result ≡ spec.number (prefix_len is_digit bytes.now) (value (take_while is_digit bytes.now)) }
{
    let len = digits_len(bytes);
    match decimal(&bytes[..len]) {
        Some(n) => Piece::Take(TokenKind::Number(n), len),
        None => Piece::Big,
    }
}

fn symbol(alone: Piece, first: u8, rest: &[u8]) -> Piece
    ensures { result ≡ spec.symbol alone first rest.now }
{
    match (first, rest) {
        (b'<' | b'=' | b'!', [b'=', ..]) => Piece::Take(TokenKind::Symbol, 2),
        _ => alone,
    }
}

/// What comes first in the bytes.
fn first(bytes: &[u8]) -> Piece
    ensures { result ≡ spec.first bytes.now }
{
    let [b, rest @ ..] = bytes else {
        return Piece::End;
    };
    match class_of(*b) {
        Class::Foreign => Piece::Foreign,
        Class::LineFeed => Piece::Feed,
        Class::Blank => Piece::Skip(1),
        Class::Hash => Piece::Skip(1 + comment_len(rest)),
        Class::Letter => Piece::Take(TokenKind::Word, 1 + word_len(rest)),
        Class::Digit => number(bytes),
        Class::Mark => symbol(Piece::Take(TokenKind::Symbol, 1), *b, rest),
        Class::Stray => symbol(Piece::Stray, *b, rest),
    }
}

/// The tokens of a text, in order. The first place that is wrong decides on the fault.
pub fn tokens(alloc: Global, bytes: &[u8]) -> Result<Tokens, TextFault>
    requires { length bytes.now ≤ 4294967294 }

    // What is found are the tokens, and the tokens are found, unless memory runs out.
    ensures found { IfOk result (AreTokens bytes.now) }
    ensures only { (ts : List TokenOf) → AreTokens bytes.now ts → MatchResult result (λ found. found ≡ ts) (λ fault. fault ≡ TextFault.Memory) }

    // A fault is the first one, and where there is one it is answered.
    ensures fault { IfErr result (λ fault. fault ≢ TextFault.Memory → IsTextFault bytes.now fault) }
    ensures only_fault { (fault : FaultOf) → IsTextFault bytes.now fault → MatchResult result (λ _. ⊥) (λ found. found ≢ TextFault.Memory → found ≡ fault) }

    // The places lie in the bytes, one behind the other.
    ensures in_order { IfOk result (InOrder 0 (length bytes.now)) }
{
    let mut found: Tokens = Items::new(alloc);
    let mut rest = bytes;
    let mut at: usize = 0;
    let mut line: u32 = 1;
    'pieces: loop {
        let len = match first(rest) {
            Piece::End => return Ok(found),
            Piece::Feed => {
                line += 1;
                1
            }
            Piece::Skip(len) => len,
            Piece::Take(kind, len) => {
                let end = at + len;
                let Ok(()) = found.push(Token {
                    kind,
                    at,
                    end,
                    line,
                }) else {
                    return Err(TextFault::Memory);
                };
                len
            }
            Piece::Foreign => return Err(TextFault::NotAscii { at, line }),
            Piece::Stray => return Err(TextFault::BadByte { at, line }),
            Piece::Big => return Err(TextFault::BigNumber { at, line }),
        };
        rest = rest.split_at(len).1;
        at += len;
    }
}

/// A text has one list of tokens at most, or else one fault at most.
pub fn one_reading()
    ensures tokens { (bytes : List ℕ) (ts us : List TokenOf) → AreTokens bytes ts → AreTokens bytes us → ts ≡ us }
    ensures fault { (bytes : List ℕ) (e f : FaultOf) → IsTextFault bytes e → IsTextFault bytes f → e ≡ f }
    ensures either { (bytes : List ℕ) (ts : List TokenOf) (f : FaultOf) → AreTokens bytes ts → ¬ IsTextFault bytes f }
{}

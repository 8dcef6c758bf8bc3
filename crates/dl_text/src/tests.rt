//! Texts with their tokens, and texts with their first fault.
use crate::scan::tokens;
use crate::token::{TextFault, Token, TokenKind, Tokens};
use std::alloc::Global;
use std::test::Fail;

/// The tokens of a short text.
fn read(alloc: Global, text: &[u8]) -> Result<Tokens, TextFault> {
    if text.len() > 1000 {
        return Err(TextFault::Memory);
    }
    tokens(alloc, text)
}

#[test]
fn each_kind_of_token(rt: HostRuntime) -> Result<(), Fail> {
    let found = read(rt.alloc(), b"r3 \t# 1\r\n_x<=9223372036854775808")?;
    let word = TokenKind::Word;
    let number = TokenKind::Number(9223372036854775808);
    let want = [
        Token {
            kind: word,
            at: 0,
            end: 2,
            line: 1,
        },
        Token {
            kind: word,
            at: 9,
            end: 11,
            line: 2,
        },
        Token {
            kind: TokenKind::Symbol,
            at: 11,
            end: 13,
            line: 2,
        },
        Token {
            kind: number,
            at: 13,
            end: 32,
            line: 2,
        },
    ];
    assert_eq!(rt; found.as_slice(), want.as_slice());
    Ok(())
}

#[test]
fn each_symbol(rt: HostRuntime) -> Result<(), Fail> {
    let found = read(rt.alloc(), b"{}(),:;=.+-*/%<<===!=")?;
    assert_eq!(rt; found.len(), 18);
    for (i, token) in found.as_slice().iter().enumerate() {
        let width = if i < 15 { 1 } else { 2 };
        assert_eq!(rt; token.kind, TokenKind::Symbol);
        assert!(rt; token.at <= token.end);
        assert_eq!(rt; token.end - token.at, width, "symbol {i}");
    }
    Ok(())
}

#[test]
fn first_faults(rt: HostRuntime) {
    let table: [(&[u8], TextFault); 7] = [
        (b"a\n# \xc3\xa9\n", TextFault::NotAscii { at: 4, line: 2 }),
        (b"a\r\n\xff", TextFault::NotAscii { at: 3, line: 2 }),
        (b"a = !b", TextFault::BadByte { at: 4, line: 1 }),
        (b"\n\n\t\x00", TextFault::BadByte { at: 3, line: 3 }),
        (b"#\n$", TextFault::BadByte { at: 2, line: 2 }),
        (
            b"x 9223372036854775809",
            TextFault::BigNumber { at: 2, line: 1 },
        ),
        (
            b"1\n99999999999999999999999 $",
            TextFault::BigNumber { at: 2, line: 2 },
        ),
    ];
    for (text, want) in table {
        assert_eq!(rt; read(rt.alloc(), text).err(), Some(want));
    }
}

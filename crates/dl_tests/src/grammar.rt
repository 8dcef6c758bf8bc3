// Tests of the reader of modules. With tests of its own `dl_grammar` would be proved twice over.
use dl_grammar::{SyntaxFault, Which, read_module};
use std::alloc::{AllocError, Global};
use std::test::Fail;

const HEAD: &[u8] = b"domlock 1 root R 1 {} op a(r: R) allocs 0 fuel 0 { return ";

/// The fault of a text, if it has one.
fn fault(alloc: Global, text: &[u8]) -> Option<SyntaxFault> {
    if text.len() > 10_000 {
        return Some(SyntaxFault::Memory);
    }
    read_module(alloc, text).err()
}

/// A module that returns an expression: `open` so many times, the middle, and `close` as often.
fn returning(
    alloc: Global,
    open: &[u8],
    times: usize,
    middle: &[u8],
    close: &[u8],
) -> Result<Vec<u8>, AllocError> {
    let mut text = Vec::new(alloc);
    text.extend_from_slice(HEAD)?;
    for _ in 0..times {
        text.extend_from_slice(open)?;
    }
    text.extend_from_slice(middle)?;
    for _ in 0..times {
        text.extend_from_slice(close)?;
    }
    text.extend_from_slice(b"; }")?;
    Ok(text)
}

#[test]
fn first_faults(rt: HostRuntime) {
    let cut = b"domlock 1\nroot R 1 { n: int }\nop a(r: R) allocs 0 fuel 5 {\n  r.n = 1;";
    let whole = b"domlock 1\nroot R 1 { n: int }\nop a(r: R) allocs 0 fuel 5 {\n  r.n = 1;\n}";
    let more = b"domlock 1\nroot R 1 { n: int }\nop a(r: R) allocs 0 fuel 5 {\n  r.n = 1;\n}\n12";
    let roots = SyntaxFault::Limit {
        line: 2,
        which: Which::Roots,
    };
    let table: [(&[u8], Option<SyntaxFault>); 11] = [
        (cut, Some(SyntaxFault::Expected { line: 4 })),
        (whole, None),
        (more, Some(SyntaxFault::Expected { line: 6 })),
        (b"", Some(SyntaxFault::Expected { line: 1 })),
        (b"domlock 01", Some(SyntaxFault::Expected { line: 1 })),
        (b"domlock 1\nroot R 0 {}", Some(roots)),
        (b"domlock 1\nroot R 1024 {}", None),
        (b"domlock 1\nroot R 1025 {}", Some(roots)),
        (
            b"domlock 1 node\nwhile {}",
            Some(SyntaxFault::Expected { line: 2 }),
        ),
        (
            b"domlock 1\nop a(r: R) allocs\n65",
            Some(SyntaxFault::Limit {
                line: 3,
                which: Which::Allocs,
            }),
        ),
        (
            b"domlock 2 $",
            Some(SyntaxFault::BadByte { at: 10, line: 1 }),
        ),
    ];
    for (text, want) in table {
        assert_eq!(rt; fault(rt.alloc(), text), want);
    }
}

#[test]
fn limits_of_expressions(rt: HostRuntime) -> Result<(), Fail> {
    let deep = SyntaxFault::TooDeep { line: 1 };
    let operators = SyntaxFault::Limit {
        line: 1,
        which: Which::Operators,
    };
    let literal = SyntaxFault::Limit {
        line: 1,
        which: Which::Literal,
    };
    let big = SyntaxFault::BigNumber {
        at: HEAD.len(),
        line: 1,
    };
    let one: &[u8] = b"1";
    let table: [(&[u8], usize, &[u8], &[u8], Option<SyntaxFault>); 9] = [
        (b"(", 32, one, b")", None),
        (b"(", 33, one, b")", Some(deep)),
        (b"-", 32, one, b"", None),
        (b"-", 33, one, b"", Some(deep)),
        (b"1+", 256, one, b"", None),
        (b"1*", 257, one, b"", Some(operators)),
        (b"", 0, b"9223372036854775807", b"", None),
        (b"", 0, b"9223372036854775808", b"", Some(literal)),
        (b"", 0, b"9223372036854775809", b"", Some(big)),
    ];
    for (open, times, middle, close, want) in table {
        let text = returning(rt.alloc(), open, times, middle, close)?;
        assert_eq!(rt; fault(rt.alloc(), text.as_slice()), want);
    }
    Ok(())
}

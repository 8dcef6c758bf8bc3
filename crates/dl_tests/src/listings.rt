//! Tests of the listing.

use crate::built_modules::{bump, counter, is_less, is_there, lists, sum};
use dl_instr::{instrument, print_code};
use dl_io::MemSink;
use dl_ir::{Block, Expr, Module, Op, Stmt};
use dl_text::Out;
use sqlite_items::{Boxed, Items};
use std::alloc::{AllocError, Global};
use std::str;
use std::test::Fail;

// What is printed of the code of a module.
fn printed(alloc: Global, source: &Module) -> Result<MemSink, Fail> {
    let code = instrument(alloc, source)?;
    let mut sink = MemSink::new(alloc, 100, &[], 4_000)?;
    let mut out = Out::new();
    print_code(&code, &mut out, &mut sink)?;
    out.flush(&mut sink)?;
    Ok(sink)
}

#[test]
fn lists_the_code_of_the_counter(rt: HostRuntime) -> Result<(), Fail> {
    let sink = printed(rt.alloc(), &counter(rt.alloc())?)?;
    assert_eq!(rt;
        str::from_utf8(sink.bytes())?,
        "code\nop add\n0 read r.val\n1 set v\n2 eval v + n\n3 set v\n4 eval v\n5 write r.val\n6 give v\n7 give 0\nop get\n0 read r.val\n1 set v\n2 give v\n3 give 0\nend\n"
    );
    Ok(())
}

#[test]
fn bumps_each_cell(rt: HostRuntime) -> Result<(), Fail> {
    let alloc = rt.alloc();
    let source = lists(alloc, b"bump", bump(alloc)?)?;
    let sink = printed(alloc, &source)?;
    assert_eq!(rt;
        str::from_utf8(sink.bytes())?,
        "code\nop bump\n0 read r.head\n1 want\n2 set c\n3 drop r\n4 turn c != null else 15\n5 read c.val\n6 set x\n7 eval x + n\n8 set x\n9 eval x\n10 write c.val\n11 read c.next\n12 want\n13 set c\n14 jump 4\n15 give 0\n16 give 0\nend\n"
    );
    let code = instrument(alloc, &source)?;
    assert_eq!(rt; code.steps(0).map(|steps| steps.len()), Some(17));
    assert!(rt; code.steps(1).is_none());
    assert_eq!(rt; code.source().ops.len(), 1);
    Ok(())
}

// `while (c != null) { if (x < n) { if (x < n) { c = new CELL; } c.next = c; } else { while (x < n) { c = c; } c.next = null; } }`
fn nested(alloc: Global) -> Result<Block, AllocError> {
    let make = vec![in alloc; Stmt::New { p: 2, kind: 1 }]?;
    let inner = Stmt::If {
        c: is_less(),
        yes: Items::from_vec(make),
        no: Items::new(alloc),
    };
    let first = vec![in alloc; inner, Stmt::Link { q: 2, f: 1, p: 2 }]?;
    let walk = vec![in alloc; Stmt::Copy { p: 2, q: 2 }]?;
    let around = Stmt::While {
        c: is_less(),
        body: Items::from_vec(walk),
    };
    let second = vec![in alloc; around, Stmt::Cut { q: 2, f: 1 }]?;
    let choice = Stmt::If {
        c: is_less(),
        yes: Items::from_vec(first),
        no: Items::from_vec(second),
    };
    let body = vec![in alloc; choice]?;
    let outer = Stmt::While {
        c: is_there(),
        body: Items::from_vec(body),
    };
    Ok(Items::from_vec(vec![in alloc; outer]?))
}

#[test]
fn places_in_nested_blocks(rt: HostRuntime) -> Result<(), Fail> {
    let alloc = rt.alloc();
    let sink = printed(alloc, &lists(alloc, b"nest", nested(alloc)?)?)?;
    assert_eq!(rt;
        str::from_utf8(sink.bytes())?,
        "code\nop nest\n0 turn c != null else 16\n1 test x < n else 9\n2 test x < n else 5\n3 make CELL\n4 set c\n5 read c.next\n6 want\n7 write c.next = c\n8 jump 15\n9 turn x < n else 12\n10 copy c c\n11 jump 9\n12 read c.next\n13 want\n14 write c.next = null\n15 jump 0\n16 give 0\nend\n"
    );
    Ok(())
}

// `return -(x + 1) * (x % 2) - (3 - -x);`
fn bracketed(alloc: Global) -> Result<Block, AllocError> {
    let inner = sum(alloc, Op::Add, Expr::Local(3), Expr::Num(1))?;
    let left = Expr::Neg(Boxed::new(alloc, inner)?);
    let right = sum(alloc, Op::Rem, Expr::Local(3), Expr::Num(2))?;
    let product = sum(alloc, Op::Mul, left, right)?;
    let negated = Expr::Neg(Boxed::new(alloc, Expr::Local(3))?);
    let difference = sum(alloc, Op::Sub, Expr::Num(3), negated)?;
    let e = sum(alloc, Op::Sub, product, difference)?;
    Ok(Items::from_vec(vec![in alloc; Stmt::Return { e }]?))
}

// `return (x - 1) / 2 + x - 1;`
fn unbracketed(alloc: Global) -> Result<Block, AllocError> {
    let top = sum(alloc, Op::Sub, Expr::Local(3), Expr::Num(1))?;
    let quotient = sum(alloc, Op::Div, top, Expr::Num(2))?;
    let both = sum(alloc, Op::Add, quotient, Expr::Local(3))?;
    let e = sum(alloc, Op::Sub, both, Expr::Num(1))?;
    Ok(Items::from_vec(vec![in alloc; Stmt::Return { e }]?))
}

#[test]
fn brackets_stand_where_they_are_needed(rt: HostRuntime) -> Result<(), Fail> {
    let alloc = rt.alloc();
    let sink = printed(alloc, &lists(alloc, b"f", bracketed(alloc)?)?)?;
    assert_eq!(rt;
        str::from_utf8(sink.bytes())?,
        "code\nop f\n0 give -(x + 1) * (x % 2) - (3 - -x)\n1 give 0\nend\n"
    );
    let sink = printed(alloc, &lists(alloc, b"g", unbracketed(alloc)?)?)?;
    assert_eq!(rt;
        str::from_utf8(sink.bytes())?,
        "code\nop g\n0 give (x - 1) / 2 + x - 1\n1 give 0\nend\n"
    );
    Ok(())
}

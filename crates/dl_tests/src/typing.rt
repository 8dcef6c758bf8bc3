//! Tests of the faults of names and types.

use dl_grammar::read_module;
use dl_ir::{Module, Stmt, Ty};
use dl_modules::{COUNTER, LISTS, SKEW, TREAP};
use dl_types::{TypeFault, check};
use std::alloc::Global;
use std::test::Fail;

// What is checked of a text.
fn checked(alloc: Global, text: &[u8]) -> Result<Result<Module, TypeFault>, Fail> {
    if text.len() > 4_294_967_294 {
        return Err(Fail::from("a long text"));
    }
    let tree = read_module(alloc, text)?;
    Ok(check(alloc, &tree))
}

// The first fault of a text.
fn fault(alloc: Global, text: &[u8]) -> Result<Option<TypeFault>, Fail> {
    Ok(checked(alloc, text)?.err())
}

#[test]
fn faults_of_declarations(rt: HostRuntime) -> Result<(), Fail> {
    let alloc = rt.alloc();
    let twice = Some(TypeFault::Twice { line: 2 });
    let clash = Some(TypeFault::KindClash { line: 3 });
    assert_eq!(rt;
        fault(alloc, b"domlock 1\n")?,
        Some(TypeFault::NoRoots { line: 1 })
    );
    assert_eq!(rt;
        fault(alloc, b"domlock 1\nnode N { }\n")?,
        Some(TypeFault::NoRoots { line: 2 })
    );
    assert_eq!(rt;
        fault(alloc, b"domlock 1\nroot R 1 { r: R }\n")?,
        Some(TypeFault::RootInField { line: 2 })
    );
    assert_eq!(rt;
        fault(alloc, b"domlock 1\nroot R 1 { a: int, a: int }\n")?,
        twice
    );
    assert_eq!(rt;
        fault(alloc, b"domlock 1\nroot R 1 { a: N }\n")?,
        Some(TypeFault::Unknown { line: 2 })
    );
    assert_eq!(rt;
        fault(
            alloc,
            b"domlock 1\nroot R 1 { }\nop f(x: int) allocs 0 fuel 0 { }\n"
        )?,
        clash
    );
    assert_eq!(rt;
        fault(
            alloc,
            b"domlock 1\nroot R 1 { } node N { }\nop f(x: N, r: R) allocs 0 fuel 0 { }\n"
        )?,
        clash
    );
    assert_eq!(rt;
        fault(
            alloc,
            b"domlock 1\nroot R 1 { }\nop f(r: R) allocs 0 fuel 0 { var s: R; }\n"
        )?,
        clash
    );
    assert_eq!(rt;
        fault(
            alloc,
            b"domlock 1\nroot R 1 { n: N } node N { } node N { x: Q }\n"
        )?,
        twice
    );
    Ok(())
}

// The first fault of a body, which stands in line 5.
fn body_fault(alloc: Global, body: &[u8]) -> Result<Option<TypeFault>, Fail> {
    let mut text =
        b"domlock 1\nroot R 2 { n: N, a: int }\nnode N { n: N, a: int }\nop f(r: R, s: R, x: int) allocs 1 fuel 1 { var p: N, y: int;\n".to_vec(
            alloc,
        )?;
    text.extend_from_slice(body)?;
    text.extend_from_slice(b"\n}\n")?;
    fault(alloc, &text)
}

#[test]
fn faults_of_statements(rt: HostRuntime) -> Result<(), Fail> {
    let alloc = rt.alloc();
    let clash = Some(TypeFault::KindClash { line: 5 });
    let unknown = Some(TypeFault::Unknown { line: 5 });
    assert_eq!(rt;
        body_fault(alloc, b"r = s;")?,
        Some(TypeFault::AssignRoot { line: 5 })
    );
    assert_eq!(rt; body_fault(alloc, b"r = null;")?, None);
    assert_eq!(rt;
        body_fault(alloc, b"p = new R;")?,
        Some(TypeFault::NewRoot { line: 5 })
    );
    assert_eq!(rt;
        body_fault(alloc, b"x = new R;")?,
        Some(TypeFault::NewRoot { line: 5 })
    );
    assert_eq!(rt;
        body_fault(alloc, b"r = new R;")?,
        Some(TypeFault::AssignRoot { line: 5 })
    );
    assert_eq!(rt; body_fault(alloc, b"if (null == null) { }")?, clash);
    assert_eq!(rt; body_fault(alloc, b"if (p < p) { }")?, clash);
    assert_eq!(rt; body_fault(alloc, b"if (r == p) { }")?, clash);
    assert_eq!(rt;
        body_fault(alloc, b"if (r == s) { } while (null != p) { }")?,
        None
    );
    assert_eq!(rt; body_fault(alloc, b"x = 1 + p;")?, clash);
    assert_eq!(rt; body_fault(alloc, b"x = y.a;")?, clash);
    assert_eq!(rt; body_fault(alloc, b"y.b = z;")?, unknown);
    assert_eq!(rt; body_fault(alloc, b"r.b = 1;")?, unknown);
    assert_eq!(rt; body_fault(alloc, b"r = z;")?, unknown);
    assert_eq!(rt; body_fault(alloc, b"return p;")?, clash);
    assert_eq!(rt;
        body_fault(alloc, b"while (x < 1) {\n\n p = 1; } z = 1;")?,
        Some(TypeFault::KindClash { line: 7 })
    );
    Ok(())
}

#[test]
fn modules_are_checked(rt: HostRuntime) -> Result<(), Fail> {
    let alloc = rt.alloc();
    for text in [COUNTER, SKEW, TREAP, LISTS] {
        assert!(rt; checked(alloc, text)?.is_ok());
    }
    Ok(())
}

#[test]
fn numbers_go_in_the_order_of_declaration(rt: HostRuntime) -> Result<(), Fail> {
    let alloc = rt.alloc();
    let source = checked(alloc, SKEW)??;
    let Some(root) = source.kinds.get(0) else {
        return Err(Fail::from("no kind"));
    };
    assert_eq!(rt; (root.first, root.count), (0, 4));
    assert_eq!(rt; root.fields.get(0).map(|field| field.ty), Some(Ty::Of(1)));
    let Some(insert) = source.ops.get(0) else {
        return Err(Fail::from("no operation"));
    };
    assert!(rt; matches!(insert.body.get(0), Some(Stmt::New { p: 3, kind: 1 })));
    assert!(rt; matches!(insert.body.get(1), Some(Stmt::Store { p: 3, f: 0, .. })));
    assert!(rt; matches!(insert.body.get(2), Some(Stmt::Follow { p: 2, q: 0, f: 0 })));
    Ok(())
}

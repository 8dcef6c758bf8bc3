//! Tests of operation files and their faults.

ghost use Rattle.std.specs.Prelude.{◌*◌, ◌≤◌, length, IfOk};

use dl_ir::{FieldDecl, KindDecl, LocalDecl, Module, OpDecl, Text, Ty};
use dl_syntax::{CallsFault, read_calls};
use sqlite_items::Items;
use std::alloc::{AllocError, Global};
use std::test::Fail;

fn text(alloc: Global, bytes: &[u8]) -> Result<Text, AllocError> {
    Items::from_slice(alloc, bytes)
}

fn local(alloc: Global, name: &[u8], ty: Ty) -> Result<LocalDecl, AllocError> {
    Ok(LocalDecl {
        name: text(alloc, name)?,
        ty,
    })
}

fn kind(alloc: Global, name: &[u8], first: u32, count: u32) -> Result<KindDecl, AllocError> {
    let fields: Items<FieldDecl> = Items::new(alloc);
    Ok(KindDecl {
        name: text(alloc, name)?,
        is_root: count > 0,
        first,
        count,
        fields,
    })
}

/// An operation with a root parameter of the kind of this number, and as many numbers as said.
fn operation(alloc: Global, name: &[u8], kind: u32, numbers: u32) -> Result<OpDecl, AllocError> {
    let mut params = Items::new(alloc);
    params.push(local(alloc, b"r", Ty::Of(kind))?)?;
    for _turn in 0..numbers {
        params.push(local(alloc, b"k", Ty::Int)?)?;
    }
    Ok(OpDecl {
        name: text(alloc, name)?,
        params,
        vars: Items::new(alloc),
        allocs: 0,
        fuel: 0,
        body: Items::new(alloc),
    })
}

/// Two roots of one kind and four of another, with `peek` on the one and `insert` and `get` on the other.
fn heaps(alloc: Global) -> Result<Module, AllocError>
    ensures { IfOk result (λ source. length source.ops ≤ 64) }
{
    let mut kinds = Items::new(alloc);
    kinds.push(kind(alloc, b"CELL", 0, 2)?)?;
    kinds.push(kind(alloc, b"HEAP", 2, 4)?)?;
    let mut ops = Items::new(alloc);
    ops.push(operation(alloc, b"peek", 0, 0)?)?;
    ops.push(operation(alloc, b"insert", 1, 1)?)?;
    ops.push(operation(alloc, b"get", 1, 0)?)?;
    Ok(Module {
        version: 1,
        kinds,
        ops,
    })
}

/// What an operation file of `heaps` is refused for, if it is.
fn fault(alloc: Global, file: &[u8]) -> Result<Option<CallsFault>, AllocError>
    requires { length file.now ≤ 1000000 }
{
    let source = heaps(alloc)?;
    Ok(read_calls(alloc, file, &source).err())
}

#[test]
fn operation_files_at_fault(rt: HostRuntime) -> Result<(), Fail> {
    let alloc = rt.alloc();
    assert_eq!(rt;
        fault(alloc, b"insert 9 1")?,
        Some(CallsFault::NoRoot { line: 1 })
    );
    assert_eq!(rt;
        fault(alloc, b"insert 1 1")?,
        Some(CallsFault::NoRoot { line: 1 })
    );
    assert_eq!(rt;
        fault(alloc, b"\npush 0 1\n")?,
        Some(CallsFault::NoOp { line: 2 })
    );
    assert_eq!(rt;
        fault(alloc, b"insert 2")?,
        Some(CallsFault::ArgCount { line: 1 })
    );
    assert_eq!(rt;
        fault(alloc, b"insert 2 x")?,
        Some(CallsFault::NotNumber { line: 1 })
    );
    assert_eq!(rt;
        fault(alloc, b"insert 9 -")?,
        Some(CallsFault::NotNumber { line: 1 })
    );
    assert_eq!(rt;
        fault(alloc, b"insert 2 9223372036854775808")?,
        Some(CallsFault::NotNumber { line: 1 })
    );
    assert_eq!(rt;
        fault(alloc, b"get 2\r\n# a comment \x01\nget 9")?,
        Some(CallsFault::BadByte { line: 2 })
    );
    assert_eq!(rt;
        fault(alloc, b"get 2 # \xc3\xa9")?,
        Some(CallsFault::NotAscii { line: 1 })
    );
    assert_eq!(rt;
        fault(alloc, b"\n\ninsert 02 -9223372036854775808# x\n\t get 5\n")?,
        None
    );
    Ok(())
}

#[test]
fn numbers_are_read(rt: HostRuntime) -> Result<(), Fail> {
    let alloc = rt.alloc();
    let source = heaps(alloc)?;
    let calls = read_calls(alloc, b"insert 2 -9223372036854775808\nget 005", &source)?;
    let [insert, get] = calls.as_slice() else {
        return Err(Fail::from("two calls"));
    };
    assert_eq!(rt; insert.op, 1);
    assert_eq!(rt; insert.args.as_slice(), [2, i64::MIN].as_slice());
    assert_eq!(rt; get.op, 2);
    assert_eq!(rt; get.args.as_slice(), [5].as_slice());
    Ok(())
}

/// A file of this many lines `peek 0`.
fn many(alloc: Global, lines: usize) -> Result<Items<u8>, AllocError>
    requires { lines ≤ 100000 }
    ensures { IfOk result (λ file. length file ≤ 1000000) }
{
    let mut file = Vec::new(alloc);
    for _turn in 0..lines {
        file.extend_from_slice(b"peek 0\n".as_slice())?;
    }
    Ok(Items::from_vec(file))
}

#[test]
fn as_many_as_a_file_may_have(rt: HostRuntime) -> Result<(), Fail> {
    let alloc = rt.alloc();
    assert_eq!(rt; fault(alloc, many(alloc, 65536)?.as_slice())?, None);
    assert_eq!(rt;
        fault(alloc, many(alloc, 65537)?.as_slice())?,
        Some(CallsFault::TooMany { line: 65537 })
    );
    Ok(())
}

#[test]
fn every_cut_of_a_line(rt: HostRuntime) -> Result<(), Fail> {
    let alloc = rt.alloc();
    assert_eq!(rt; fault(alloc, b"")?, None);
    assert_eq!(rt;
        fault(alloc, b"get")?,
        Some(CallsFault::ArgCount { line: 1 })
    );
    assert_eq!(rt; fault(alloc, b"ge")?, Some(CallsFault::NoOp { line: 1 }));
    assert_eq!(rt;
        fault(alloc, b"get ")?,
        Some(CallsFault::ArgCount { line: 1 })
    );
    assert_eq!(rt; fault(alloc, b"get 2")?, None);
    assert_eq!(rt; fault(alloc, b"get 2\n")?, None);
    Ok(())
}

/// The number of calls in an operation file of one operation, `add` on a root with a number, or why it is refused.
fn adds(alloc: Global, file: &[u8]) -> Result<Result<usize, CallsFault>, AllocError>
    requires { length file.now ≤ 1000000 }
{
    let mut kinds = Items::new(alloc);
    kinds.push(kind(alloc, b"CELL", 0, 1)?)?;
    let mut ops = Items::new(alloc);
    ops.push(operation(alloc, b"add", 0, 1)?)?;
    let source = Module {
        version: 1,
        kinds,
        ops,
    };
    Ok(read_calls(alloc, file, &source).map(|calls| calls.len()))
}

#[test]
fn every_cut_of_a_call(rt: HostRuntime) -> Result<(), Fail> {
    let alloc = rt.alloc();
    let no_op = Err(CallsFault::NoOp { line: 1 });
    let arguments = Err(CallsFault::ArgCount { line: 1 });
    let table: [(&[u8], Result<usize, CallsFault>); 10] = [
        (b"", Ok(0)),
        (b"a", no_op),
        (b"ad", no_op),
        (b"add", arguments),
        (b"add ", arguments),
        (b"add 0", arguments),
        (b"add 0 ", arguments),
        (b"add 0 5", Ok(1)),
        (b"add 0 5\n", Ok(1)),
        (b"add 0 5 ", Ok(1)),
    ];
    for (file, want) in table {
        assert_eq!(rt; adds(alloc, file)?, want);
    }
    Ok(())
}

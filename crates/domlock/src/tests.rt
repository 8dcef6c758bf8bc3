//! Tests of words, refusals and small reports.

ghost use Rattle.std.specs.Prelude.{◌≤◌};

use dl_command::{Ending, OpsWhy, Status, Words, domlock_still, exit_code, status_line};
use dl_io::{MemFiles, MemSink};
use dl_modules::{COUNTER, SKEW};
use dl_text::Out;
use std::alloc::Global;
use std::test::Fail;

const TWICE: &[u8] =
    b"domlock report 1\nanswers 2\n1.1 ok 5\n1.2 ok 12\nhistory 2\n1 1.1 add 0 5\n2 1.2 add 0 7\npool 0\nheap 2 kept 0\n0.0 CELL val=12\n0.1 CELL val=0\nend\n";

// The words, each one behind a space.
pub fn words_of(alloc: Global, line: &str) -> Result<Words, Fail> {
    let mut items = Vec::new(alloc);
    for word in line.split(' ') {
        items.push(String::from_str(alloc, word)?)?;
    }
    Ok(Words::new(items))
}

// What a call with these words answers and writes, where the module lies at `m` and the operations at `o`.
pub fn call(
    alloc: Global,
    line: &str,
    module: &[u8],
    ops: &[u8],
    sink: &mut MemSink,
) -> Result<Ending, Fail> {
    let words = words_of(alloc, line)?;
    let mut files = MemFiles::new(alloc, 100, &[])?;
    files.add("m", module)?;
    files.add("o", ops)?;
    Ok(domlock_still(alloc, &words, &mut files, sink))
}

// The listing of the code of the counter module.
const COUNTER_CODE: &[u8] =
    b"code\nop add\n0 read r.val\n1 set v\n2 eval v + n\n3 set v\n4 eval v\n5 write r.val\n6 give v\n7 give 0\nop get\n0 read r.val\n1 set v\n2 give v\n3 give 0\nend\n";

// The line that the program prints of a status.
pub fn line_of(alloc: Global, status: &Status) -> Result<MemSink, Fail> {
    let mut sink = MemSink::new(alloc, 100, &[], 200)?;
    let mut out = Out::new();
    status_line(status, &mut out, &mut sink).map_err(|_| "no status line")?;
    Ok(sink)
}

#[test]
fn serial_adds_twice(rt: HostRuntime) -> Result<(), Fail> {
    let mut sink = MemSink::new(rt.alloc(), 1000, &[], 1000)?;
    let outcome = call(
        rt.alloc(),
        "serial m o",
        COUNTER,
        b"add 0 5\nadd 0 7\n",
        &mut sink,
    )?;
    assert_eq!(rt; outcome.status, Status::Done);
    assert_eq!(rt; sink.bytes(), TWICE);
    assert_eq!(rt; outcome.history.entries().len(), 2);
    assert_eq!(rt; outcome.refusals.len(), 0);
    Ok(())
}

#[test]
fn a_sink_of_one_byte_a_call_takes_the_same(rt: HostRuntime) -> Result<(), Fail> {
    let mut sink = MemSink::new(rt.alloc(), 1, &[], 1000)?;
    let outcome = call(
        rt.alloc(),
        "serial m o",
        COUNTER,
        b"add 0 5\nadd 0 7\n",
        &mut sink,
    )?;
    assert_eq!(rt; outcome.status, Status::Done);
    assert_eq!(rt; sink.bytes(), TWICE);
    Ok(())
}

#[test]
fn serial_of_no_operation(rt: HostRuntime) -> Result<(), Fail> {
    let want: &[u8] =
        b"domlock report 1\nanswers 0\nhistory 0\npool 0\nheap 2 kept 0\n0.0 CELL val=0\n0.1 CELL val=0\nend\n";
    let mut sink = MemSink::new(rt.alloc(), 1000, &[], 1000)?;
    let outcome = call(rt.alloc(), "serial m o", COUNTER, b"", &mut sink)?;
    assert_eq!(rt; outcome.status, Status::Done);
    assert_eq!(rt; sink.bytes(), want);
    Ok(())
}

#[test]
fn serial_overflows(rt: HostRuntime) -> Result<(), Fail> {
    let want: &[u8] =
        b"domlock report 1\nanswers 2\n1.1 ok 9223372036854775807\n1.2 overflow\nhistory 2\n1 1.1 add 0 9223372036854775807\n2 1.2 add 0 1\npool 0\nheap 2 kept 0\n0.0 CELL val=9223372036854775807\n0.1 CELL val=0\nend\n";
    let mut sink = MemSink::new(rt.alloc(), 1000, &[], 1000)?;
    let ops = b"add 0 9223372036854775807\nadd 0 1\n";
    let outcome = call(rt.alloc(), "serial m o", COUNTER, ops, &mut sink)?;
    assert_eq!(rt; outcome.status, Status::Done);
    assert_eq!(rt; sink.bytes(), want);
    Ok(())
}

#[test]
fn each_refusal_has_its_line_and_code(rt: HostRuntime) -> Result<(), Fail> {
    let table: [(&str, &[u8], &[u8], &[u8], u8); 18] = [
        (
            "serial m",
            COUNTER,
            b"",
            b"domlock: usage: domlock COMMAND FIRST [REST..] [--places N]\n",
            1,
        ),
        (
            "walk m o",
            COUNTER,
            b"",
            b"domlock: usage: domlock COMMAND FIRST [REST..] [--places N]\n",
            1,
        ),
        (
            "show m o",
            COUNTER,
            b"",
            b"domlock: usage: domlock COMMAND FIRST [REST..] [--places N]\n",
            1,
        ),
        (
            "serial x o",
            COUNTER,
            b"",
            b"domlock: read fault in file 0\n",
            2,
        ),
        (
            "show x",
            COUNTER,
            b"",
            b"domlock: read fault in file 0\n",
            2,
        ),
        (
            "serial m x",
            COUNTER,
            b"",
            b"domlock: read fault in file 1\n",
            2,
        ),
        (
            "serial m o",
            b"domlock 1\n",
            b"",
            b"domlock: module line 1: NoRoots\n",
            4,
        ),
        (
            "serial m x",
            b"domlock 1\nroot R 1 { a: int,\n",
            b"",
            b"domlock: module line 2: Expected\n",
            4,
        ),
        (
            "serial m o",
            b"domlock 1\nroot R 1025 { }\n",
            b"",
            b"domlock: module line 2: Limit Roots\n",
            4,
        ),
        (
            "serial m o",
            b"domlock 1\nroot R 1 {\n  a: int, a: int }\n",
            b"",
            b"domlock: module line 3: Twice\n",
            4,
        ),
        (
            "show m",
            b"domlock 1\n",
            b"",
            b"domlock: module line 1: NoRoots\n",
            4,
        ),
        (
            "show m",
            b"domlock 1\nroot R 1 { a: int,\n",
            b"",
            b"domlock: module line 2: Expected\n",
            4,
        ),
        (
            "show m",
            b"domlock 1\nroot R 1025 { }\n",
            b"",
            b"domlock: module line 2: Limit Roots\n",
            4,
        ),
        (
            "show m --places 7",
            b"domlock 1\nroot R 1 {\n  a: int, a: int }\n",
            b"",
            b"domlock: module line 3: Twice\n",
            4,
        ),
        (
            "serial m o",
            COUNTER,
            b"# no\npush 0 1\n",
            b"domlock: file 1 line 2: NoOp\n",
            5,
        ),
        (
            "serial m o",
            COUNTER,
            b"add 0\n",
            b"domlock: file 1 line 1: ArgCount\n",
            5,
        ),
        (
            "serial m o",
            COUNTER,
            b"add 0 x\n",
            b"domlock: file 1 line 1: NotNumber\n",
            5,
        ),
        (
            "serial m o",
            COUNTER,
            b"add 9 1\n",
            b"domlock: file 1 line 1: NoRoot\n",
            5,
        ),
    ];
    for (line, module, ops, want, code) in table {
        let mut sink = MemSink::new(rt.alloc(), 1000, &[], 1000)?;
        let outcome = call(rt.alloc(), line, module, ops, &mut sink)?;
        assert_eq!(rt; exit_code(&outcome.status), code);
        assert_eq!(rt; line_of(rt.alloc(), &outcome.status)?.bytes(), want);
        assert_eq!(rt; sink.bytes(), b"".as_slice());
    }
    Ok(())
}

#[test]
fn one_place_leaves_no_room(rt: HostRuntime) -> Result<(), Fail> {
    let want: &[u8] =
        b"domlock report 1\nanswers 4\n1.1 ok 0\n1.2 noroom need 1 found 0 version 1\n1.3 ok 5\n1.4 ok 0\nhistory 3\n1 1.1 insert 0 5\n2 1.3 pop 0\n3 1.4 insert 0 4\npool 3\n1 -1 1\n2 +1 2\n3 -1 3\nheap 5 kept 1\n0.0 HEAP top=3.1\n0.1 HEAP top=-\n0.2 HEAP top=-\n0.3 HEAP top=-\n3.1 NODE key=4 left=- right=-\nend\n";
    let ops = b"insert 0 5\ninsert 0 3\npop 0\ninsert 0 4\n";
    let mut sink = MemSink::new(rt.alloc(), 1000, &[], 1000)?;
    let outcome = call(rt.alloc(), "serial m o --places 1", SKEW, ops, &mut sink)?;
    assert_eq!(rt; outcome.status, Status::Done);
    assert_eq!(rt; sink.bytes(), want);
    assert_eq!(rt; outcome.history.entries().len(), 3);
    assert_eq!(rt; outcome.refusals.len(), 1);
    Ok(())
}

#[test]
fn each_fault_of_a_module_has_its_line(rt: HostRuntime) -> Result<(), Fail> {
    let table: [(&[u8], &[u8]); 18] = [
        (
            b"domlock 1\nroot R 1 { \xc3\xa4: int }\n",
            b"domlock: module line 2: NotAscii\n",
        ),
        (
            b"domlock 1\nroot R 1 { a$: int }\n",
            b"domlock: module line 2: BadByte\n",
        ),
        (
            b"domlock 1\nroot R 9223372036854775809 { }\n",
            b"domlock: module line 2: BigNumber\n",
        ),
        (
            b"domlock 1\nroot R 1 { }\n12\n",
            b"domlock: module line 3: Expected\n",
        ),
        (
            b"domlock 1\nroot R 1 { a: int }\nop f(r: R) allocs 0 fuel 0 { return ---------------------------------1; }\n",
            b"domlock: module line 3: TooDeep\n",
        ),
        (
            b"domlock 1\nroot R 1 { }\nnode A { } node B { } node C { } node D { } node E { } node F { } node G { } node H { }\nnode I { } node J { } node K { } node L { } node M { } node N { } node O { }\nnode P { }\n",
            b"domlock: module line 5: Limit Kinds\n",
        ),
        (
            b"domlock 1\nroot R 1 { a: int, b: int, c: int, d: int, e: int, f: int, g: int, h: int,\n  i: int, j: int, k: int, l: int, m: int, n: int, o: int, p: int,\n  q: int }\n",
            b"domlock: module line 4: Limit Fields\n",
        ),
        (
            b"domlock 1\nroot R 0 { }\n",
            b"domlock: module line 2: Limit Roots\n",
        ),
        (
            b"domlock 1\nroot R 1 { }\nop f(r: R) allocs 65 fuel 0 { }\n",
            b"domlock: module line 3: Limit Allocs\n",
        ),
        (
            b"domlock 1\nroot R 1 { }\nop f(r: R) allocs 0 fuel 1000001 { }\n",
            b"domlock: module line 3: Limit Fuel\n",
        ),
        (
            b"domlock 1\nroot R 1 { }\nop f(r: R) allocs 0 fuel 0 {\n  return 9223372036854775808; }\n",
            b"domlock: module line 4: Limit Literal\n",
        ),
        (
            b"domlock 1\nroot R 1 { a: N }\n",
            b"domlock: module line 2: Unknown\n",
        ),
        (
            b"domlock 1\nroot R 1 { }\nop f(x: int) allocs 0 fuel 0 { }\n",
            b"domlock: module line 3: KindClash\n",
        ),
        (
            b"domlock 1\nroot R 1 { r: R }\n",
            b"domlock: module line 2: RootInField\n",
        ),
        (
            b"domlock 1\nroot R 1 { n: N }\nnode N { }\nop f(r: R) allocs 1 fuel 0 {\n  var p: N;\n  p = new R;\n}\n",
            b"domlock: module line 6: NewRoot\n",
        ),
        (
            b"domlock 1\nroot R 2 { }\nop f(r: R, s: R) allocs 0 fuel 0 { r = s; }\n",
            b"domlock: module line 3: AssignRoot\n",
        ),
        (
            b"domlock 1\nroot R 1 { a: int, a: int }\n",
            b"domlock: module line 2: Twice\n",
        ),
        (
            b"domlock 1\nnode N { }\n\n",
            b"domlock: module line 2: NoRoots\n",
        ),
    ];
    for (module, want) in table {
        let mut sink = MemSink::new(rt.alloc(), 1000, &[], 1000)?;
        let outcome = call(rt.alloc(), "serial m o", module, b"", &mut sink)?;
        assert_eq!(rt; exit_code(&outcome.status), 4);
        assert_eq!(rt; line_of(rt.alloc(), &outcome.status)?.bytes(), want);
        assert_eq!(rt; sink.bytes(), b"".as_slice());
    }
    Ok(())
}

#[test]
fn each_fault_of_an_operation_file_has_its_line(rt: HostRuntime) -> Result<(), Fail> {
    let table: [(&[u8], &[u8]); 7] = [
        (
            b"get 0\n# \xc3\xa4\n",
            b"domlock: file 1 line 2: NotAscii\n",
        ),
        (b"get 0\x00\n", b"domlock: file 1 line 1: BadByte\n"),
        (b"get 0\n\nput 0 1\n", b"domlock: file 1 line 3: NoOp\n"),
        (b"get 0 0\n", b"domlock: file 1 line 1: ArgCount\n"),
        (
            b"add 0 9223372036854775808\n",
            b"domlock: file 1 line 1: NotNumber\n",
        ),
        (b"get 2\n", b"domlock: file 1 line 1: NoRoot\n"),
        (b"get -1\n", b"domlock: file 1 line 1: NoRoot\n"),
    ];
    for (ops, want) in table {
        let mut sink = MemSink::new(rt.alloc(), 1000, &[], 1000)?;
        let outcome = call(rt.alloc(), "serial m o", COUNTER, ops, &mut sink)?;
        assert_eq!(rt; exit_code(&outcome.status), 5);
        assert_eq!(rt; line_of(rt.alloc(), &outcome.status)?.bytes(), want);
        assert_eq!(rt; sink.bytes(), b"".as_slice());
    }
    Ok(())
}

#[test]
fn one_operation_too_many(rt: HostRuntime) -> Result<(), Fail> {
    let mut ops = Vec::new(rt.alloc());
    for _ in 0..65_537 {
        ops.extend_from_slice(b"get 0\n")?;
    }
    let mut sink = MemSink::new(rt.alloc(), 1000, &[], 1000)?;
    let outcome = call(rt.alloc(), "serial m o", COUNTER, &ops, &mut sink)?;
    assert_eq!(rt;
        outcome.status,
        Status::OpsFault {
            file: 1,
            line: 65_537,
            why: OpsWhy::TooMany,
        }
    );
    Ok(())
}

#[test]
fn a_module_at_its_limit_and_one_byte_longer(rt: HostRuntime) -> Result<(), Fail> {
    let mut module = Vec::from_slice(rt.alloc(), COUNTER)?;
    for _ in COUNTER.len()..262_144 {
        module.push(b' ')?;
    }
    let mut sink = MemSink::new(rt.alloc(), 1000, &[], 1000)?;
    let outcome = call(rt.alloc(), "serial m o", &module, b"", &mut sink)?;
    assert_eq!(rt; outcome.status, Status::Done);
    module.push(b' ')?;
    for line in ["serial m o", "show m"] {
        let outcome = call(rt.alloc(), line, &module, b"", &mut sink)?;
        assert_eq!(rt; outcome.status, Status::TooLong { file: 0 });
        assert_eq!(rt; exit_code(&outcome.status), 3);
    }
    Ok(())
}

#[test]
fn an_operation_file_at_its_limit_and_one_byte_longer(rt: HostRuntime) -> Result<(), Fail> {
    let mut ops = vec![in rt.alloc(); b' '; 4_194_304]?;
    let mut sink = MemSink::new(rt.alloc(), 1000, &[], 1000)?;
    let outcome = call(rt.alloc(), "serial m o", COUNTER, &ops, &mut sink)?;
    assert_eq!(rt; outcome.status, Status::Done);
    ops.push(b' ')?;
    let outcome = call(rt.alloc(), "serial m o", COUNTER, &ops, &mut sink)?;
    assert_eq!(rt; outcome.status, Status::TooLong { file: 1 });
    Ok(())
}

#[test]
fn a_sink_that_fails_keeps_the_history(rt: HostRuntime) -> Result<(), Fail> {
    let mut sink = MemSink::new(rt.alloc(), 10, &[3], 1000)?;
    let outcome = call(
        rt.alloc(),
        "serial m o",
        COUNTER,
        b"add 0 5\nadd 0 7\n",
        &mut sink,
    )?;
    assert_eq!(rt; outcome.status, Status::WriteFault);
    assert_eq!(rt; exit_code(&outcome.status), 6);
    assert_eq!(rt; sink.bytes(), b"domlock report 1\nans".as_slice());
    assert_eq!(rt; outcome.history.entries().len(), 2);
    Ok(())
}

// What the call on a counter module and one operation answers where the call of files with this number fails.
fn status_at_fault(alloc: Global, piece: usize, fails: &[u64]) -> Result<Status, Fail>
    requires { 1 ≤ piece }
{
    let words = words_of(alloc, "serial m o")?;
    let mut files = MemFiles::new(alloc, piece, fails)?;
    files.add("m", COUNTER)?;
    files.add("o", b"add 0 5\n")?;
    let mut sink = MemSink::new(alloc, 1000, &[], 1000)?;
    Ok(domlock_still(alloc, &words, &mut files, &mut sink).status)
}

#[test]
fn a_call_that_fails_is_of_its_file(rt: HostRuntime) -> Result<(), Fail> {
    // Attaching, a piece and the end of file 0, and then of file 1.
    for (at, file) in [(1, 0), (2, 0), (3, 0), (4, 1), (5, 1), (6, 1)] {
        let status = status_at_fault(rt.alloc(), 1000, &[at])?;
        assert_eq!(rt; status, Status::ReadFault { file }, "at call {at}");
    }
    assert_eq!(rt; status_at_fault(rt.alloc(), 1000, &[7])?, Status::Done);
    assert_eq!(rt; status_at_fault(rt.alloc(), 1, &[])?, Status::Done);
    Ok(())
}

#[test]
fn shows_the_counter_and_its_code(rt: HostRuntime) -> Result<(), Fail> {
    let mut want = Vec::from_slice(rt.alloc(), COUNTER)?;
    want.extend_from_slice(COUNTER_CODE)?;
    for line in ["show m", "show m --places 7"] {
        let mut sink = MemSink::new(rt.alloc(), 1000, &[], 1000)?;
        let outcome = call(rt.alloc(), line, COUNTER, b"", &mut sink)?;
        assert_eq!(rt; outcome.status, Status::Done);
        assert_eq!(rt; sink.bytes(), want.as_slice());
        assert_eq!(rt; outcome.history.entries().len(), 0);
        assert_eq!(rt; outcome.refusals.len(), 0);
    }
    Ok(())
}

#[test]
fn shows_a_module_in_its_canonical_form(rt: HostRuntime) -> Result<(), Fail> {
    let module =
        b"domlock 1 root R 1{a:int}# a comment\n\nop f(r:R)\nallocs 00 fuel 0 { if(1<2){r.a=((1));}else{return 2;} }";
    let want: &[u8] =
        b"domlock 1\nroot R 1 { a: int }\nop f(r: R) allocs 0 fuel 0 {\n  if (1 < 2) {\n    r.a = 1;\n  } else {\n    return 2;\n  }\n}\ncode\nop f\n0 test 1 < 2 else 4\n1 eval 1\n2 write r.a\n3 jump 5\n4 give 2\n5 give 0\nend\n";
    let mut sink = MemSink::new(rt.alloc(), 1000, &[], 1000)?;
    let outcome = call(rt.alloc(), "show m", module, b"", &mut sink)?;
    assert_eq!(rt; outcome.status, Status::Done);
    assert_eq!(rt; sink.bytes(), want);
    Ok(())
}

#[test]
fn a_sink_that_fails_takes_a_part_of_what_is_shown(rt: HostRuntime) -> Result<(), Fail> {
    // In the module, and two bytes into the listing.
    let mut long = Vec::from_slice(rt.alloc(), COUNTER)?;
    long.extend_from_slice(b"co")?;
    let table: [(u64, &[u8]); 2] = [
        (21, b"domlock 1\nroot CELL "),
        (long.len() as u64 + 1, long.as_slice()),
    ];
    for (at, want) in table {
        let mut sink = MemSink::new(rt.alloc(), 1, &[at], 1000)?;
        let outcome = call(rt.alloc(), "show m", COUNTER, b"", &mut sink)?;
        assert_eq!(rt; outcome.status, Status::WriteFault);
        assert_eq!(rt; exit_code(&outcome.status), 6);
        assert_eq!(rt; sink.bytes(), want);
        assert_eq!(rt; outcome.history.entries().len(), 0);
    }
    Ok(())
}

//! Runs that go on from a heap file, and what is told of a heap file at fault. The folder examples/ has the same texts.

use crate::report_tests::{SEAL, SEAL_REPORT, SKEW_REPORT};
use crate::tests::{line_of, words_of};
use dl_command::{Ending, Status, domlock, domlock_still, exit_code};
use dl_io::{MemFiles, MemSink};
use dl_machine::Open;
use dl_modules::SKEW;
use std::alloc::Global;
use std::test::Fail;

// Files in memory: the module at `m`, the operations at `o`, a schedule that gives no step at `s`, and the heap file at `h`.
// The calls with these numbers fail.
fn files_of(
    alloc: Global,
    module: &[u8],
    ops: &[u8],
    heap: &[u8],
    fails: &[u64],
) -> Result<MemFiles, Fail> {
    let mut files = MemFiles::new(alloc, 100_000, fails)?;
    files.add("m", module)?;
    files.add("o", ops)?;
    files.add("s", b"")?;
    files.add("h", heap)?;
    Ok(files)
}

// What a call with these words answers and writes of such files.
fn call(
    alloc: Global,
    line: &str,
    module: &[u8],
    ops: &[u8],
    heap: &[u8],
    sink: &mut MemSink,
) -> Result<Ending, Fail> {
    let words = words_of(alloc, line)?;
    let mut files = files_of(alloc, module, ops, heap, &[])?;
    Ok(domlock_still(alloc, &words, &mut files, sink))
}

// One number is taken out of the heap of `SKEW_REPORT`, and its place comes back.
const POP_REPORT: &[u8] = b"domlock report 1
answers 1
1.1 ok 3
history 1
3 1.1 pop 0
pool 1
1 +1 3
heap 5 kept 1
0.0 HEAP top=1.1
0.1 HEAP top=-
0.2 HEAP top=-
0.3 HEAP top=-
1.1 NODE key=5 left=- right=-
end
";

// What was sealed before is sealed.
const LOOK_REPORT: &[u8] = b"domlock report 1
answers 1
1.1 sealed 1.1
history 1
2 1.1 look 0
pool 0
heap 2 kept 1
0.0 PAIR a=1.1 b=1.1
1.1 ITEM sealed v=0
end
";

#[test]
fn serial_goes_on_from_a_report(rt: HostRuntime) -> Result<(), Fail> {
    let table: [(&[u8], &[u8], &[u8], &[u8]); 2] = [
        (SKEW, b"pop 0\n", SKEW_REPORT, POP_REPORT),
        (SEAL, b"look 0\n", SEAL_REPORT, LOOK_REPORT),
    ];
    for (module, ops, heap, want) in table {
        let mut sink = MemSink::new(rt.alloc(), 1000, &[], 1000)?;
        let outcome = call(
            rt.alloc(),
            "serial m o --heap h",
            module,
            ops,
            heap,
            &mut sink,
        )?;
        assert_eq!(rt; outcome.status, Status::Done);
        assert_eq!(rt; sink.bytes(), want);
        assert_eq!(rt; outcome.history.entries().len(), 1);
    }
    Ok(())
}

#[test]
fn run_goes_on_from_a_report(rt: HostRuntime) -> Result<(), Fail> {
    let words = words_of(rt.alloc(), "run --heap=h m o")?;
    let mut files = files_of(rt.alloc(), SKEW, b"pop 0\n", SKEW_REPORT, &[])?;
    let mut sink = MemSink::new(rt.alloc(), 1000, &[], 1000)?;
    let outcome = domlock(&rt, rt.alloc(), &words, &mut files, &mut sink, &Open);
    assert_eq!(rt; outcome.status, Status::Done);
    assert_eq!(rt; sink.bytes(), POP_REPORT);
    Ok(())
}

// The steps of that operation, and the report behind them.
const POP_TRACE: &[u8] = b"domlock trace 1
1 root 0.0
1 enter 3
1 read 0.0 top
1 take 2.1
1 read 2.1 key
1 read 2.1 left
1 take 1.1
1 read 2.1 right
1 read 2.1 left
1 write 2.1 left
1 read 2.1 right
1 write 2.1 right
1 read 0.0 top
1 write 0.0 top
1 read 2.1 left
1 read 2.1 right
1 giveup 2.1
1 letgo 0.0
1 letgo 1.1
1 finish 3 ok 3
domlock report 1
answers 1
1.1 ok 3
history 1
3 1.1 pop 0
pool 1
1 +1 3
heap 5 kept 1
0.0 HEAP top=1.1
0.1 HEAP top=-
0.2 HEAP top=-
0.3 HEAP top=-
1.1 NODE key=5 left=- right=-
end
";

#[test]
fn step_goes_on_from_a_report(rt: HostRuntime) -> Result<(), Fail> {
    let mut sink = MemSink::new(rt.alloc(), 1000, &[], 1000)?;
    let outcome = call(
        rt.alloc(),
        "step m s o --heap h",
        SKEW,
        b"pop 0\n",
        SKEW_REPORT,
        &mut sink,
    )?;
    assert_eq!(rt; outcome.status, Status::Done);
    assert_eq!(rt; sink.bytes(), POP_TRACE);
    Ok(())
}

// A heap file of `SEAL` in a run with one place, and the line that is told of it.
#[test]
fn each_fault_of_a_heap_file_has_its_line(rt: HostRuntime) -> Result<(), Fail> {
    let table: [(&[u8], &[u8]); 16] = [
        // No heap line.
        (b"", b"domlock: heap line 1: NoHeap\n"),
        (
            b"domlock report 1\nanswers 0\n",
            b"domlock: heap line 2: NoHeap\n",
        ),
        // The heap line.
        (
            b"heap 1 kept\n0.0 PAIR a=- b=-\nend\n",
            b"domlock: heap line 1: BadLine\n",
        ),
        // A missing field.
        (
            b"heap 1 kept 0\n0.0 PAIR a=-\nend\n",
            b"domlock: heap line 2: BadLine\n",
        ),
        // A root of another kind, and one that is sealed.
        (
            b"heap 1 kept 0\n0.0 ITEM v=0\nend\n",
            b"domlock: heap line 2: BadLine\n",
        ),
        (
            b"heap 1 kept 0\n0.0 PAIR sealed a=- b=-\nend\n",
            b"domlock: heap line 2: BadLine\n",
        ),
        // Names that do not rise.
        (
            b"heap 3 kept 2\n0.0 PAIR a=1.1 b=2.1\n2.1 ITEM v=0\n1.1 ITEM v=0\nend\n",
            b"domlock: heap line 4: BadLine\n",
        ),
        // A text behind the end, a last line that does not end, and one that is missing.
        (
            b"heap 1 kept 0\n0.0 PAIR a=- b=-\nend\nend\n",
            b"domlock: heap line 4: BadLine\n",
        ),
        (
            b"heap 1 kept 0\n0.0 PAIR a=- b=-\nend",
            b"domlock: heap line 3: BadLine\n",
        ),
        (
            b"heap 1 kept 0\n0.0 PAIR a=- b=-\n",
            b"domlock: heap line 3: BadLine\n",
        ),
        // A count that is one off.
        (
            b"no\nheap 2 kept 1\n0.0 PAIR a=- b=-\nend\n",
            b"domlock: heap line 2: Count\n",
        ),
        // References to nothing, and to a root.
        (
            b"heap 1 kept 0\n0.0 PAIR a=1.1 b=-\nend\n",
            b"domlock: heap line 2: Dangling\n",
        ),
        (
            b"heap 1 kept 0\n0.0 PAIR a=0.0 b=-\nend\n",
            b"domlock: heap line 2: Dangling\n",
        ),
        // An unsealed object to which two fields refer, and one to which none does.
        (
            b"heap 2 kept 1\n0.0 PAIR a=1.1 b=1.1\n1.1 ITEM v=0\nend\n",
            b"domlock: heap line 3: Shape\n",
        ),
        (
            b"heap 2 kept 1\n0.0 PAIR a=- b=-\n1.1 ITEM v=0\nend\n",
            b"domlock: heap line 3: Shape\n",
        ),
        // Two objects, and one place.
        (
            b"heap 3 kept 2\n0.0 PAIR a=1.1 b=1.2\n1.1 ITEM v=0\n1.2 ITEM v=0\nend\n",
            b"domlock: heap line 1: NoPlaces\n",
        ),
    ];
    for (heap, want) in table {
        let mut sink = MemSink::new(rt.alloc(), 1000, &[], 1000)?;
        let outcome = call(
            rt.alloc(),
            "serial m o --heap h --places 1",
            SEAL,
            b"look 0\n",
            heap,
            &mut sink,
        )?;
        assert_eq!(rt; exit_code(&outcome.status), 8);
        assert_eq!(rt; line_of(rt.alloc(), &outcome.status)?.bytes(), want);
        assert_eq!(rt; sink.bytes(), b"".as_slice());
        assert_eq!(rt; outcome.history.entries().len(), 0);
    }
    Ok(())
}

// Words, a module, operations, a heap file and the line that is told.
#[test]
fn a_heap_file_is_told_behind_the_module_and_before_the_operations(
    rt: HostRuntime,
) -> Result<(), Fail> {
    let table: [(&str, &[u8], &[u8], &[u8], &[u8]); 9] = [
        (
            "serial m o --heap h --places 1",
            SKEW,
            b"pop 0\n",
            SKEW_REPORT,
            b"domlock: heap line 11: NoPlaces\n",
        ),
        (
            "serial m o --heap h",
            b"domlock 1\n",
            b"no\n",
            b"no\n",
            b"domlock: module line 1: NoRoots\n",
        ),
        (
            "serial m o --heap h",
            SKEW,
            b"no\n",
            b"no\n",
            b"domlock: heap line 1: NoHeap\n",
        ),
        (
            "step m o o --heap h",
            SKEW,
            b"no\n",
            b"no\n",
            b"domlock: heap line 1: NoHeap\n",
        ),
        (
            "serial m o --heap h",
            SKEW,
            b"no\n",
            SKEW_REPORT,
            b"domlock: file 1 line 1: NoOp\n",
        ),
        (
            "serial m x --heap x",
            SKEW,
            b"",
            b"",
            b"domlock: read fault in file 65535\n",
        ),
        (
            "serial m o --heap h --heap h",
            SKEW,
            b"",
            SKEW_REPORT,
            b"domlock: usage: domlock COMMAND FIRST [REST..] [--places N]\n",
        ),
        (
            "show m --heap h",
            SKEW,
            b"",
            SKEW_REPORT,
            b"domlock: usage: domlock COMMAND FIRST [REST..] [--places N]\n",
        ),
        (
            "work 0 1 1 --heap h",
            SKEW,
            b"",
            SKEW_REPORT,
            b"domlock: usage: domlock COMMAND FIRST [REST..] [--places N]\n",
        ),
    ];
    for (line, module, ops, heap, want) in table {
        let mut sink = MemSink::new(rt.alloc(), 1000, &[], 1000)?;
        let outcome = call(rt.alloc(), line, module, ops, heap, &mut sink)?;
        assert_eq!(rt; line_of(rt.alloc(), &outcome.status)?.bytes(), want);
        assert_eq!(rt; sink.bytes(), b"".as_slice());
    }
    Ok(())
}

#[test]
fn a_call_that_fails_in_the_heap_file_is_of_its_file(rt: HostRuntime) -> Result<(), Fail> {
    // Attaching, a piece and the end: of the module, of the heap file, and of the operations.
    for (fails, file) in [(3, 0), (4, 65_535), (5, 65_535), (6, 65_535), (7, 1)] {
        let words = words_of(rt.alloc(), "serial m o --heap h")?;
        let mut files = files_of(rt.alloc(), SKEW, b"pop 0\n", SKEW_REPORT, &[fails])?;
        let mut sink = MemSink::new(rt.alloc(), 1000, &[], 1000)?;
        let outcome = domlock_still(rt.alloc(), &words, &mut files, &mut sink);
        assert_eq!(rt; outcome.status, Status::ReadFault { file });
        assert_eq!(rt; sink.bytes(), b"".as_slice());
    }
    Ok(())
}

//! What operations that emit numbers answer, and what is refused. The folder examples/ has the same modules.

use crate::tests::{call, line_of};
use dl_command::{Status, exit_code};
use dl_io::MemSink;
use std::test::Fail;

// A list whose operation `all` emits what it holds.
const ALL: &[u8] = b"domlock 2
root LIST 1 { head: CELL }
node CELL { val: int, next: CELL }
op push(r: LIST, v: int) allocs 1 fuel 0 {
  var c: CELL, h: CELL;
  c = new CELL;
  c.val = v;
  h = r.head;
  c.next = h;
  r.head = c;
  return 0;
}
op all(r: LIST) allocs 0 fuel 100 {
  var c: CELL, x: int;
  c = r.head;
  while (c != null) {
    x = c.val;
    emit x;
    c = c.next;
  }
  return 0;
}
";

const ALL_REPORT: &[u8] = b"domlock report 2
answers 3
1.1 ok 0
1.2 ok 0
1.3 ok 0 emit 8 7
history 3
1 1.1 push 0 7
2 1.2 push 0 8
3 1.3 all 0
pool 2
1 -1 1
2 -1 2
heap 3 kept 2
0.0 LIST head=2.1
1.1 CELL val=7 next=-
2.1 CELL val=8 next=1.1
end
";

// Numbers beside a breach, and before an overflow.
const TIED: &[u8] = b"domlock 2
root PAIR 1 { a: ITEM, b: ITEM }
node ITEM { v: int }
op tie(r: PAIR, x: int) allocs 1 fuel 0 {
  var n: ITEM;
  n = new ITEM;
  n.v = x;
  emit x;
  r.a = n;
  r.b = n;
  emit -x;
  return 1;
}
op most(r: PAIR, x: int) allocs 0 fuel 0 {
  emit x;
  emit x + 1;
  return 0;
}
";

const TIED_REPORT: &[u8] = b"domlock report 2
answers 3
1.1 ok 1 breach 1.1 emit 5 -5
1.2 overflow emit 9223372036854775807
1.3 ok 0 emit -1 0
history 3
1 1.1 tie 0 5
2 1.2 most 0 9223372036854775807
3 1.3 most 0 -1
pool 1
1 -1 1
heap 2 kept 1
0.0 PAIR a=1.1 b=1.1
1.1 ITEM sealed v=5
end
";

// In version 1 `emit` is a name.
const FIELD: &[u8] = b"domlock 1
root R 1 { emit: int }
op emit(r: R, emit: int) allocs 0 fuel 0 {
  r.emit = emit;
  return emit;
}
";

const FIELD_REPORT: &[u8] = b"domlock report 1
answers 1
1.1 ok 4
history 1
1 1.1 emit 0 4
pool 0
heap 1 kept 0
0.0 R emit=4
end
";

// As many numbers as may be emitted, one, and one too many.
const FULL: &[u8] = b"domlock 2
root R 1 { n: int }
op times(r: R, x: int) allocs 0 fuel 100 {
  var i: int;
  while (i < x) {
    i = i + 1;
    r.n = i;
    emit i;
  }
  return i;
}
";

const FULL_REPORT: &[u8] = b"domlock report 2
answers 3
1.1 ok 16 emit 1 2 3 4 5 6 7 8 9 10 11 12 13 14 15 16
1.2 ok 1 emit 1
1.3 emits emit 1 2 3 4 5 6 7 8 9 10 11 12 13 14 15 16
history 3
1 1.1 times 0 16
2 1.2 times 0 1
3 1.3 times 0 20
pool 0
heap 1 kept 0
0.0 R n=17
end
";

#[test]
fn numbers_stand_in_the_answers(rt: HostRuntime) -> Result<(), Fail> {
    let table: [(&[u8], &[u8], &[u8]); 4] = [
        (ALL, b"push 0 7\npush 0 8\nall 0\n", ALL_REPORT),
        (
            TIED,
            b"tie 0 5\nmost 0 9223372036854775807\nmost 0 -1\n",
            TIED_REPORT,
        ),
        (FIELD, b"emit 0 4\n", FIELD_REPORT),
        (FULL, b"times 0 16\ntimes 0 1\ntimes 0 20\n", FULL_REPORT),
    ];
    for (module, ops, want) in table {
        let mut sink = MemSink::new(rt.alloc(), 1000, &[], 1000)?;
        let outcome = call(rt.alloc(), "serial m o", module, ops, &mut sink)?;
        assert_eq!(rt; outcome.status, Status::Done);
        assert_eq!(rt; sink.bytes(), want);
    }
    Ok(())
}

#[test]
fn emit_is_refused_in_its_line(rt: HostRuntime) -> Result<(), Fail> {
    let table: [(&[u8], &[u8]); 5] = [
        (
            b"domlock 1\nroot R 1 { n: int }\nop f(r: R, x: int) allocs 0 fuel 0 {\n  emit x;\n}\n",
            b"domlock: module line 4: Expected\n",
        ),
        (
            b"domlock 2\nroot R 1 { emit: int }\n",
            b"domlock: module line 2: Expected\n",
        ),
        (
            b"domlock 2\nroot R 1 { n: int }\nop f(r: R) allocs 0 fuel 0 {\n  emit 1;\n  emit\n  r;\n}\n",
            b"domlock: module line 5: KindClash\n",
        ),
        (
            b"domlock 2\nroot R 1 { n: int }\nop f(r: R) allocs 0 fuel 0 {\n  emit r + z;\n}\n",
            b"domlock: module line 4: Unknown\n",
        ),
        (
            b"domlock 3\nroot R 1 { n: int }\n",
            b"domlock: module line 1: Expected\n",
        ),
    ];
    for (module, want) in table {
        let mut sink = MemSink::new(rt.alloc(), 1000, &[], 1000)?;
        let outcome = call(rt.alloc(), "serial m o", module, b"", &mut sink)?;
        assert_eq!(rt; exit_code(&outcome.status), 4);
        assert_eq!(rt; line_of(rt.alloc(), &outcome.status)?.bytes(), want);
        assert_eq!(rt; sink.bytes(), b"".as_slice());
    }
    Ok(())
}

//! Whole runs: what `serial` prints of a module and its operations. The folder examples/ has the same texts.
use crate::tests::call;
use dl_command::Status;
use dl_io::MemSink;
use dl_modules::{LISTS, SKEW, TREAP};
use std::test::Fail;

/// Two fields that can refer to one object.
pub const SEAL: &[u8] = b"domlock 1
root PAIR 1 { a: ITEM, b: ITEM }
node ITEM { v: int }
op tie(r: PAIR) allocs 1 fuel 0 {
  var n: ITEM;
  n = new ITEM;
  r.a = n;
  r.b = n;
  return 1;
}
op look(r: PAIR) allocs 0 fuel 0 {
  var n: ITEM, x: int;
  n = r.a;
  x = n.v;
  return x;
}
op cut(r: PAIR) allocs 0 fuel 0 {
  r.b = null;
  return 2;
}
";

const ENDS: &[u8] = b"domlock 1
root CELL 1 { a: int, n: ITEM }
node ITEM { v: int }
op div(r: CELL, x: int, y: int) allocs 0 fuel 0 {
  x = x / y;
  return x;
}
op rem(r: CELL, x: int, y: int) allocs 0 fuel 0 {
  x = x % y;
  return x;
}
op two(r: CELL) allocs 1 fuel 0 {
  var p: ITEM;
  p = new ITEM;
  r.n = p;
  p = new ITEM;
  return 1;
}
op peek(r: CELL) allocs 0 fuel 0 {
  var p: ITEM, x: int;
  p = r.n;
  x = p.v;
  return x;
}
op fall(r: CELL) allocs 0 fuel 0 {
  r.a = 4;
}
";

const RING: &[u8] = b"domlock 1
root R 1 { a: N }
node N { n: N }
op ring(r: R) allocs 2 fuel 0 {
  var p: N, q: N;
  p = new N;
  q = new N;
  p.n = q;
  q.n = p;
  return 1;
}
op chain(r: R) allocs 3 fuel 0 {
  var p: N, q: N;
  p = new N;
  r.a = p;
  q = new N;
  p.n = q;
  p = new N;
  q.n = p;
  return 2;
}
op cut(r: R) allocs 0 fuel 0 {
  r.a = null;
  return 3;
}
";

// Names, and moves of the pool.
const SKEW_OPS: &[u8] = b"insert 0 5
insert 0 3
";

/// The report of two inserts.
pub const SKEW_REPORT: &[u8] = b"domlock report 1
answers 2
1.1 ok 0
1.2 ok 0
history 2
1 1.1 insert 0 5
2 1.2 insert 0 3
pool 2
1 -1 1
2 -1 2
heap 6 kept 2
0.0 HEAP top=2.1
0.1 HEAP top=-
0.2 HEAP top=-
0.3 HEAP top=-
1.1 NODE key=5 left=- right=-
2.1 NODE key=3 left=1.1 right=-
end
";

// Pops give the places back.
const SKEW_EMPTIED_OPS: &[u8] = b"insert 0 5
insert 0 3
pop 0
pop 0
pop 0
";

const SKEW_EMPTIED_REPORT: &[u8] = b"domlock report 1
answers 5
1.1 ok 0
1.2 ok 0
1.3 ok 3
1.4 ok 5
1.5 ok -1
history 5
1 1.1 insert 0 5
2 1.2 insert 0 3
3 1.3 pop 0
4 1.4 pop 0
5 1.5 pop 0
pool 4
1 -1 1
2 -1 2
3 +1 3
4 +1 4
heap 4 kept 0
0.0 HEAP top=-
0.1 HEAP top=-
0.2 HEAP top=-
0.3 HEAP top=-
end
";

// The same root twice.
const SKEW_SAME_ROOT_OPS: &[u8] = b"insert 1 8
meld 1 1
meld 0 1
";

const SKEW_SAME_ROOT_REPORT: &[u8] = b"domlock report 1
answers 3
1.1 ok 0
1.2 ok 0
1.3 ok 0
history 3
1 1.1 insert 1 8
2 1.2 meld 1 1
3 1.3 meld 0 1
pool 1
1 -1 1
heap 5 kept 1
0.0 HEAP top=1.1
0.1 HEAP top=-
0.2 HEAP top=-
0.3 HEAP top=-
1.1 NODE key=8 left=- right=-
end
";

// A session of twenty operations.
const TREAP_OPS: &[u8] = b"insert 0 50 40
insert 0 20 70
insert 0 80 60
insert 0 10 30
insert 0 30 90
insert 0 60 20
insert 0 90 80
insert 0 40 50
insert 0 70 10
insert 0 55 65
insert 0 25 35
insert 0 85 15
find 0 25
delete 0 30
delete 0 60
delete 0 15
delete 0 90
find 0 30
find 0 85
insert 0 50 99
";

const TREAP_REPORT: &[u8] = b"domlock report 1
answers 20
1.1 ok 1
1.2 ok 1
1.3 ok 1
1.4 ok 1
1.5 ok 1
1.6 ok 1
1.7 ok 1
1.8 ok 1
1.9 ok 1
1.10 ok 1
1.11 ok 1
1.12 ok 1
1.13 ok 1
1.14 ok 1
1.15 ok 1
1.16 ok 0
1.17 ok 1
1.18 ok 0
1.19 ok 1
1.20 ok 0
history 20
1 1.1 insert 0 50 40
2 1.2 insert 0 20 70
3 1.3 insert 0 80 60
4 1.4 insert 0 10 30
5 1.5 insert 0 30 90
6 1.6 insert 0 60 20
7 1.7 insert 0 90 80
8 1.8 insert 0 40 50
9 1.9 insert 0 70 10
10 1.10 insert 0 55 65
11 1.11 insert 0 25 35
12 1.12 insert 0 85 15
13 1.13 find 0 25
14 1.14 delete 0 30
15 1.15 delete 0 60
16 1.16 delete 0 15
17 1.17 delete 0 90
18 1.18 find 0 30
19 1.19 find 0 85
20 1.20 insert 0 50 99
pool 17
1 -1 1
2 -1 2
3 -1 3
4 -1 4
5 -1 5
6 -1 6
7 -1 7
8 -1 8
9 -1 9
10 -1 10
11 -1 11
12 -1 12
13 +1 14
14 +1 15
15 +1 17
16 -1 20
17 +1 20
heap 11 kept 9
0.0 TREE top=2.1
0.1 TREE top=-
1.1 NODE key=50 prio=40 left=- right=-
2.1 NODE key=20 prio=70 left=4.1 right=10.1
3.1 NODE key=80 prio=60 left=9.1 right=12.1
4.1 NODE key=10 prio=30 left=- right=-
8.1 NODE key=40 prio=50 left=11.1 right=1.1
9.1 NODE key=70 prio=10 left=- right=-
10.1 NODE key=55 prio=65 left=8.1 right=3.1
11.1 NODE key=25 prio=35 left=- right=-
12.1 NODE key=85 prio=15 left=- right=-
end
";

// Two fields that refer to an object seal it.
const SEAL_OPS: &[u8] = b"tie 0
look 0
cut 0
tie 0
";

/// The report of a run that seals an object.
pub const SEAL_REPORT: &[u8] = b"domlock report 1
answers 4
1.1 ok 1 breach 1.1
1.2 sealed 1.1
1.3 sealed 1.1
1.4 sealed 1.1
history 4
1 1.1 tie 0
2 1.2 look 0
3 1.3 cut 0
4 1.4 tie 0
pool 3
1 -1 1
2 -1 4
3 +1 4
heap 2 kept 1
0.0 PAIR a=1.1 b=1.1
1.1 ITEM sealed v=0
end
";

// A loop runs out of fuel, and another just does not.
const LISTS_FUEL_OPS: &[u8] = b"push 0 1
push 0 2
push 0 3
push 0 4
push 0 5
few 0 10
six 0 100
sum 0
";

const LISTS_FUEL_REPORT: &[u8] = b"domlock report 1
answers 8
1.1 ok 0
1.2 ok 0
1.3 ok 0
1.4 ok 0
1.5 ok 0
1.6 fuel
1.7 ok 0
1.8 ok 545
history 8
1 1.1 push 0 1
2 1.2 push 0 2
3 1.3 push 0 3
4 1.4 push 0 4
5 1.5 push 0 5
6 1.6 few 0 10
7 1.7 six 0 100
8 1.8 sum 0
pool 5
1 -1 1
2 -1 2
3 -1 3
4 -1 4
5 -1 5
heap 8 kept 5
0.0 LIST head=5.1
0.1 LIST head=-
0.2 LIST head=-
1.1 CELL val=101 next=-
2.1 CELL val=102 next=1.1
3.1 CELL val=113 next=2.1
4.1 CELL val=114 next=3.1
5.1 CELL val=115 next=4.1
end
";

// A node goes while its own field is set.
const LISTS_OPS: &[u8] = b"push 0 7
push 0 8
pop 0
";

const LISTS_REPORT: &[u8] = b"domlock report 1
answers 3
1.1 ok 0
1.2 ok 0
1.3 ok 8
history 3
1 1.1 push 0 7
2 1.2 push 0 8
3 1.3 pop 0
pool 3
1 -1 1
2 -1 2
3 +1 3
heap 4 kept 1
0.0 LIST head=1.1
0.1 LIST head=-
0.2 LIST head=-
1.1 CELL val=7 next=-
end
";

// All ends of operations.
const ENDS_OPS: &[u8] = b"div 0 -7 2
rem 0 -7 2
div 0 1 0
rem 0 1 0
div 0 -9223372036854775808 -1
rem 0 -9223372036854775808 -1
peek 0
two 0
peek 0
fall 0
";

const ENDS_REPORT: &[u8] = b"domlock report 1
answers 10
1.1 ok -3
1.2 ok -1
1.3 divzero
1.4 divzero
1.5 overflow
1.6 ok 0
1.7 null
1.8 quota
1.9 ok 0
1.10 ok 0
history 10
1 1.1 div 0 -7 2
2 1.2 rem 0 -7 2
3 1.3 div 0 1 0
4 1.4 rem 0 1 0
5 1.5 div 0 -9223372036854775808 -1
6 1.6 rem 0 -9223372036854775808 -1
7 1.7 peek 0
8 1.8 two 0
9 1.9 peek 0
10 1.10 fall 0
pool 1
1 -1 8
heap 2 kept 1
0.0 CELL a=4 n=8.1
8.1 ITEM v=0
end
";

// A ring stays that no root reaches.
const RING_OPS: &[u8] =
    b"# a ring that no root reaches stays, and a chain that is cut off goes as a whole
ring 0
chain 0
cut 0
";

const RING_REPORT: &[u8] = b"domlock report 1
answers 3
1.1 ok 1
1.2 ok 2
1.3 ok 3
history 3
1 1.1 ring 0
2 1.2 chain 0
3 1.3 cut 0
pool 3
1 -2 1
2 -3 2
3 +3 3
heap 3 kept 2
0.0 R a=-
1.1 N n=1.2
1.2 N n=1.1
end
";

#[test]
fn each_run_has_its_report(rt: HostRuntime) -> Result<(), Fail> {
    let table = [
        (SKEW, SKEW_OPS, SKEW_REPORT),
        (SKEW, SKEW_EMPTIED_OPS, SKEW_EMPTIED_REPORT),
        (SKEW, SKEW_SAME_ROOT_OPS, SKEW_SAME_ROOT_REPORT),
        (TREAP, TREAP_OPS, TREAP_REPORT),
        (SEAL, SEAL_OPS, SEAL_REPORT),
        (LISTS, LISTS_FUEL_OPS, LISTS_FUEL_REPORT),
        (LISTS, LISTS_OPS, LISTS_REPORT),
        (ENDS, ENDS_OPS, ENDS_REPORT),
        (RING, RING_OPS, RING_REPORT),
    ];
    for (module, ops, report) in table {
        let mut sink = MemSink::new(rt.alloc(), 1000, &[], 10_000)?;
        let outcome = call(rt.alloc(), "serial m o", module, ops, &mut sink)?;
        assert_eq!(rt; outcome.status, Status::Done);
        assert_eq!(rt; sink.bytes(), report);
    }
    Ok(())
}

//! Code with early drops.

ghost use Rattle.std.specs.Prelude.{◌≤◌, IfOk, length};
ghost use Rattle.dl_instr.specs.Drops.{IsCodeOf};

use dl_grammar::read_module;
use dl_instr::{Code, codes_of_modules, instrument, print_code};
use dl_io::MemSink;
use dl_ir::Module;
use dl_live::{drops_are_code, early_drops};
use dl_modules::LISTS;
use dl_text::Out;
use dl_types::check;
use std::alloc::Global;
use std::str;
use std::test::Fail;

fn module_of(alloc: Global, text: &[u8]) -> Result<Module, Fail>
    requires { length text.now ≤ 4294967294 }
{
    let tree = read_module(alloc, text)?;
    let source = check(alloc, &tree)?;
    Ok(source)
}

fn plain(alloc: Global, source: &Module) -> Result<Code, Fail>
    ensures { IfOk result (IsCodeOf source.now) }
{
    codes_of_modules();
    let code = instrument(alloc, source)?;
    Ok(code)
}

// The code with early drops, which is a code of the module again.
fn dropped(alloc: Global, source: &Module, code: Code) -> Result<Code, Fail>
    requires { IsCodeOf source.now code }
    ensures { IfOk result (IsCodeOf source.now) }
{
    drops_are_code();
    match early_drops(alloc, source, code) {
        Ok(made) => Ok(made),
        Err((_, error)) => Err(Fail::from(error)),
    }
}

fn printed(alloc: Global, code: &Code) -> Result<MemSink, Fail> {
    let mut sink = MemSink::new(alloc, 100, &[], 10_000)?;
    let mut out = Out::new();
    print_code(code, &mut out, &mut sink)?;
    out.flush(&mut sink)?;
    Ok(sink)
}

const WALK: &str =
    "op walk\n0 read r.head\n1 want\n2 set c\n3 drop r\n4 turn c != null else 15\n5 read c.val\n6 set x\n7 eval x + n\n8 set x\n9 eval x\n10 write c.val\n11 read c.next\n12 want\n13 set c\n14 jump 3\n15 drop c\n16 give 0\n17 give 0\n";

const BUMP: &str =
    "op bump\n0 read r.head\n1 want\n2 set c\n3 drop r\n4 drop r\n5 turn c != null else 16\n6 read c.val\n7 set x\n8 eval x + n\n9 set x\n10 eval x\n11 write c.val\n12 read c.next\n13 want\n14 set c\n15 jump 5\n16 drop c\n17 give 0\n18 give 0\n";

#[test]
fn lists_let_go_of_their_roots_and_cells(rt: HostRuntime) -> Result<(), Fail> {
    let alloc = rt.alloc();
    let source = module_of(alloc, LISTS)?;
    let code = dropped(alloc, &source, plain(alloc, &source)?)?;
    let sink = printed(alloc, &code)?;
    let listing = str::from_utf8(sink.bytes())?;
    assert!(rt; listing.contains(WALK));
    assert!(rt; listing.contains(BUMP));
    Ok(())
}

const SIDES: &[u8] = b"domlock 1
root LIST 3 { head: CELL }
node CELL { val: int, next: CELL }
op find(r: LIST, n: int) allocs 0 fuel 100000 {
  var c: CELL, x: int;
  c = r.head;
  while (c != null) {
    x = c.val;
    if (x < n) {
      c = c.next;
    } else {
      return x;
    }
  }
  return 0;
}
op unused(p: LIST, q: LIST, n: int) allocs 0 fuel 0 {
  return n;
}
op spin(p: LIST, n: int) allocs 0 fuel 9 {
  var x: int;
  while (x < n) {
    x = x + 1;
  }
  return x;
}
";

#[test]
fn drops_stand_on_each_side_and_before_targets(rt: HostRuntime) -> Result<(), Fail> {
    let alloc = rt.alloc();
    let source = module_of(alloc, SIDES)?;
    let once = dropped(alloc, &source, plain(alloc, &source)?)?;
    let sink = printed(alloc, &once)?;
    assert_eq!(rt;
        str::from_utf8(sink.bytes())?,
        "code\nop find\n0 read r.head\n1 want\n2 set c\n3 drop r\n4 turn c != null else 15\n5 read c.val\n6 set x\n7 test x < n else 12\n8 read c.next\n9 want\n10 set c\n11 jump 14\n12 drop c\n13 give x\n14 jump 3\n15 drop c\n16 give 0\n17 give 0\nop unused\n0 drop p\n1 drop q\n2 give n\n3 give 0\nop spin\n0 drop p\n1 turn x < n else 5\n2 eval x + 1\n3 set x\n4 jump 0\n5 give x\n6 give 0\nend\n"
    );
    // of a code that has drops already
    let twice = dropped(alloc, &source, once)?;
    let sink = printed(alloc, &twice)?;
    assert_eq!(rt;
        str::from_utf8(sink.bytes())?,
        "code\nop find\n0 read r.head\n1 want\n2 set c\n3 drop r\n4 drop r\n5 turn c != null else 17\n6 read c.val\n7 set x\n8 test x < n else 13\n9 read c.next\n10 want\n11 set c\n12 jump 16\n13 drop c\n14 drop c\n15 give x\n16 jump 3\n17 drop c\n18 drop c\n19 give 0\n20 give 0\nop unused\n0 drop p\n1 drop q\n2 drop p\n3 drop q\n4 give n\n5 give 0\nop spin\n0 drop p\n1 drop p\n2 turn x < n else 6\n3 eval x + 1\n4 set x\n5 jump 0\n6 give x\n7 give 0\nend\n"
    );
    Ok(())
}

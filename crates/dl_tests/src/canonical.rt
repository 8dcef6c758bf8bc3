//! Texts with their canonical texts.
use dl_grammar::read_module;
use dl_io::MemSink;
use dl_modules::{COUNTER, LISTS, SKEW, TREAP};
use dl_print::print_module;
use dl_text::Out;
use std::alloc::Global;
use std::str;
use std::test::Fail;

/// Every construct of the language, with comments and any white space.
const EVERYTHING: &[u8] = b"domlock 1 node BARE {} # nothing in it
root HEAP 0003 {top:NODE,count :int} node NODE{key:int,next:NODE}
op all(r:HEAP,s : HEAP,k:int)allocs 07 fuel 100000{var a:NODE,x:int,y : int ;
a=null;a = new NODE ; a=a.next; x=a.key;
r.top=null; r.top=a ;a.key=x+y;
if(a!=null){x=1;}else{}
if(x<y){}else{x=2;while(x<=7){x=x+1;if(x==k){return x;}}}
while(null==a){}
return((0));}
op bare(r:HEAP)allocs 0 fuel 0{}";

const CANONICAL: &[u8] = b"domlock 1
node BARE { }
root HEAP 3 { top: NODE, count: int }
node NODE { key: int, next: NODE }
op all(r: HEAP, s: HEAP, k: int) allocs 7 fuel 100000 {
  var a: NODE, x: int, y: int;
  a = null;
  a = new NODE;
  a = a.next;
  x = a.key;
  r.top = null;
  r.top = a;
  a.key = x + y;
  if (a != null) {
    x = 1;
  }
  if (x < y) {
  } else {
    x = 2;
    while (x <= 7) {
      x = x + 1;
      if (x == k) {
        return x;
      }
    }
  }
  while (null == a) {
  }
  return 0;
}
op bare(r: HEAP) allocs 0 fuel 0 {
}
";

const EMITTING: &[u8] = b"domlock 2 op a(r:R,x:int)allocs 0 fuel 0{if(x<1){emit-x ;}emit(x+1)*2;}";

const EMITTING_CANONICAL: &[u8] = b"domlock 2
op a(r: R, x: int) allocs 0 fuel 0 {
  if (x < 1) {
    emit -x;
  }
  emit (x + 1) * 2;
}
";

/// Prints into the sink what a text says.
fn print(alloc: Global, text: &[u8], sink: &mut MemSink) -> Result<(), Fail> {
    if text.len() > 10_000 {
        return Ok(());
    }
    let tree = read_module(alloc, text)?;
    let mut out = Out::new();
    print_module(&tree, &mut out, sink)?;
    out.flush(sink)?;
    Ok(())
}

#[test]
fn prints_modules(rt: HostRuntime) -> Result<(), Fail> {
    let table: [(&[u8], &[u8]); 9] = [
        (COUNTER, COUNTER),
        (SKEW, SKEW),
        (TREAP, TREAP),
        (LISTS, LISTS),
        (EVERYTHING, CANONICAL),
        (CANONICAL, CANONICAL),
        (b"domlock 1", b"domlock 1\n"),
        (EMITTING, EMITTING_CANONICAL),
        (
            b"domlock 1 node emit{emit:emit}",
            b"domlock 1\nnode emit { emit: emit }\n",
        ),
    ];
    for (text, want) in table {
        let mut sink = MemSink::new(rt.alloc(), 100, &[], 10_000)?;
        print(rt.alloc(), text, &mut sink)?;
        assert_eq!(rt; str::from_utf8(sink.bytes())?, str::from_utf8(want)?);
    }
    Ok(())
}

#[test]
fn prints_brackets_where_they_are_needed(rt: HostRuntime) -> Result<(), Fail> {
    let table: [(&str, &str); 16] = [
        ("((a+b))-c", "a + b - c"),
        ("a+(b-c)", "a + (b - c)"),
        ("a-(b*c)", "a - b * c"),
        ("(a*b)+(c/d)", "a * b + c / d"),
        ("(a+b)*c", "(a + b) * c"),
        ("a*(b+c)", "a * (b + c)"),
        ("(a*b)%c", "a * b % c"),
        ("a*(b%c)", "a * (b % c)"),
        ("a/(b/c)", "a / (b / c)"),
        ("-(a)*b", "-a * b"),
        ("-(a*b)", "-(a * b)"),
        ("-(a-b)", "-(a - b)"),
        ("a- -b", "a - -b"),
        ("a*(-b)", "a * -b"),
        ("-(-(a))", "--a"),
        ("-9223372036854775807-007", "-9223372036854775807 - 7"),
    ];
    for (text, want) in table {
        let mut sink = MemSink::new(rt.alloc(), 100, &[], 10_000)?;
        let module = format!(in rt.alloc();
            "domlock 1 op a(r: R) allocs 0 fuel 0 {{ return {text}; }}"
        )?;
        print(rt.alloc(), module.as_bytes(), &mut sink)?;
        let whole = format!(in rt.alloc();
            "domlock 1\nop a(r: R) allocs 0 fuel 0 {{\n  return {want};\n}}\n"
        )?;
        assert_eq!(rt; str::from_utf8(sink.bytes())?, whole.as_str());
    }
    Ok(())
}

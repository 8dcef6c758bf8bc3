//! What comes out of the buffer, whole and where the sink fails.
use crate::{Failed, Out};
use dl_io::MemSink;
use std::str;
use std::test::Fail;

#[test]
fn writes_more_than_the_buffer_holds(rt: HostRuntime) -> Result<(), Fail> {
    let mut sink = MemSink::new(rt.alloc(), 300, &[], 20_000)?;
    let mut out = Out::new();
    out.put(&mut sink, b"from ")?;
    out.put(&mut sink, &[b'x'; 4_090])?;
    out.put(&mut sink, b" and ")?;
    out.put(&mut sink, &[b'y'; 5_000])?;
    out.put(&mut sink, b" to the end")?;
    assert_eq!(rt; sink.bytes().len(), 9_100);
    out.flush(&mut sink)?;
    let bytes = sink.bytes();
    assert_eq!(rt; bytes.len(), 9_111);
    assert_eq!(rt; str::from_utf8(&bytes[..7])?, "from xx");
    assert_eq!(rt; str::from_utf8(&bytes[4_093..4_103])?, "xx and yyy");
    assert_eq!(rt; str::from_utf8(&bytes[9_098..])?, "yy to the end");
    assert!(rt; !out.failed());
    Ok(())
}

#[test]
fn fails_in_mid_stream(rt: HostRuntime) -> Result<(), Fail> {
    let mut sink = MemSink::new(rt.alloc(), 10, &[3], 20_000)?;
    let mut out = Out::new();
    out.put(&mut sink, b"twenty-two bytes and ten more")?;
    assert_eq!(rt; sink.bytes().len(), 0);
    assert_eq!(rt; out.flush(&mut sink), Err(Failed));
    assert!(rt; out.failed());
    assert_eq!(rt; str::from_utf8(sink.bytes())?, "twenty-two bytes and");
    Ok(())
}

#[test]
fn prints_numbers(rt: HostRuntime) -> Result<(), Fail> {
    let mut sink = MemSink::new(rt.alloc(), 100, &[], 100)?;
    let mut out = Out::new();
    out.put_number(&mut sink, 0u8)?;
    out.put(&mut sink, b" ")?;
    out.put_number(&mut sink, i64::MIN)?;
    out.put(&mut sink, b" ")?;
    out.put_number(&mut sink, u64::MAX)?;
    out.flush(&mut sink)?;
    assert_eq!(rt;
        str::from_utf8(sink.bytes())?,
        "0 -9223372036854775808 18446744073709551615"
    );
    Ok(())
}

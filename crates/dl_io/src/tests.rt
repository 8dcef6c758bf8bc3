//! What files and sinks in memory and of the host give and take, call by call.
use super::*;
use std::alloc::{AllocError, Global};
use std::test::Fail;
use std::{fs, str};

// What a file gives to a buffer of four bytes in so many reads: each piece, then a `/`, or a `!` for
// a fault.
fn pieces<F: Files>(
    alloc: Global,
    files: &mut F,
    file: u32,
    path: &str,
    reads: usize,
) -> Result<Vec<u8>, AllocError> {
    let mut seen = Vec::new(alloc);
    let Ok(()) = files.attach(file, path) else {
        seen.extend_from_slice(b"none")?;
        return Ok(seen);
    };
    let mut buffer = [0; 4];
    'reads: for _ in 0..reads {
        match files.read(file, &mut buffer) {
            Ok(n) => {
                seen.extend_from_slice(&buffer[..n])?;
                seen.push(b'/')?;
            }
            Err(Failed) => seen.push(b'!')?,
        }
    }
    Ok(seen)
}

// What a sink takes of a text in so many calls, each with all that is left.
fn counts<K: Sink>(
    alloc: Global,
    sink: &mut K,
    text: &[u8],
    calls: usize,
) -> Result<Vec<Option<usize>>, AllocError> {
    let mut counts = Vec::new(alloc);
    let mut rest = text;
    'calls: for _ in 0..calls {
        if rest.is_empty() {
            return Ok(counts);
        }
        match sink.write(rest) {
            Ok(n) => {
                rest = &rest[n..];
                counts.push(Some(n))?;
            }
            Err(Failed) => counts.push(None)?,
        }
    }
    Ok(counts)
}

#[test]
fn reads_memory_in_pieces(rt: HostRuntime) -> Result<(), Fail> {
    let alloc = rt.alloc();
    let mut files = MemFiles::new(alloc, 3, &[])?;
    files.add("a", b"hello you")?;
    let a = pieces(alloc, &mut files, 0, "a", 5)?;
    assert_eq!(rt; str::from_utf8(&a)?, "hel/lo /you///");
    let unknown = pieces(alloc, &mut files, 1, "c", 5)?;
    assert_eq!(rt; str::from_utf8(&unknown)?, "none");
    Ok(())
}

#[test]
fn fails_at_named_calls(rt: HostRuntime) -> Result<(), Fail> {
    let alloc = rt.alloc();
    let mut files = MemFiles::new(alloc, 10, &[3, 7])?;
    files.add("a", b"hello you")?;
    let first = pieces(alloc, &mut files, 0, "a", 5)?;
    assert_eq!(rt; str::from_utf8(&first)?, "hell/!o yo/u//");
    let second = pieces(alloc, &mut files, 1, "a", 1)?;
    assert_eq!(rt; str::from_utf8(&second)?, "none");
    Ok(())
}

#[test]
fn takes_in_memory(rt: HostRuntime) -> Result<(), Fail> {
    let alloc = rt.alloc();
    let mut sink = MemSink::new(alloc, 4, &[2], 10)?;
    let taken = counts(alloc, &mut sink, b"hello, you there", 6)?;
    let want = [Some(4), None, Some(4), Some(2), None, None];
    assert_eq!(rt; taken.as_slice(), want.as_slice());
    assert_eq!(rt; str::from_utf8(sink.bytes())?, "hello, you");
    Ok(())
}

#[test]
fn reads_and_writes_the_host(rt: HostRuntime) -> Result<(), Fail> {
    let alloc = rt.alloc();
    fs::write(&rt, "dl_io_test.txt", "real!")?;
    let mut files = RealFiles::new(&rt);
    let seen = pieces(alloc, &mut files, 0, "dl_io_test.txt", 3)?;
    assert_eq!(rt; str::from_utf8(&seen)?, "real/!//");
    let unknown = pieces(alloc, &mut files, 1, "dl_io_test.txt/none", 3)?;
    assert_eq!(rt; str::from_utf8(&unknown)?, "none");
    fs::remove_file(&rt, "dl_io_test.txt")?;
    let mut sink = RealSink::new(rt.stdout());
    let taken = counts(alloc, &mut sink, b"ok\n", 3)?;
    assert_eq!(rt; taken.as_slice(), [Some(3)].as_slice());
    Ok(())
}

//! The buffer through which a text is written to a sink.
ghost use Rattle.std.specs.Prelude.{◌≡◌, ℕ, ◌+◌, ◌-◌, ◌<◌, ◌≤◌, false, [], ◌∷◌, ◌++◌, length, is_ok, if◌then◌else◌};
ghost use Rattle.dl_text.specs.Writing.{nothing, broken, Buffered, Passes, Breaks, Puts};

use dl_io::{Failed, Sink};
use itoa::{Buffer, Integer};
use std::marker::Model;

const SIZE: usize = 4096;

/// A buffer through which a text is written to a sink. It takes no memory, and after a fault it is
/// not used again.
#[derive(Drop)]
pub struct Out {
    buffer: [u8; SIZE],
    used: usize,
    failed: bool,
}

impl Model for Out {
    ghost use Rattle.std.specs.Prelude.{◌≤◌, take};
    ghost use Rattle.dl_text.specs.Writing.{Buffered};

    ghost Value = { Buffered };

    ghost view = { λ o. record { bytes = take o.used o.buffer; failed = o.failed } };

    ghost invariant = { λ o. o.used ≤ 4096 };
}

impl Out {
    /// A buffer in which nothing is.
    pub fn new() -> Out
        ensures { result ≡ nothing }
    {
        Out {
            buffer: [0; SIZE],
            used: 0,
            failed: false,
        }
    }

    /// Whether a call failed.
    pub fn failed(&self) -> bool
        ensures { result ≡ self.now.failed }
    {
        self.failed
    }

    /// Puts bytes behind those that were put before.
    #[inline(always)]
    pub fn put<K: Sink>(&mut self, sink: &mut K, bytes: &[u8]) -> Result<(), Failed>
        requires { self.old.failed ≡ false }
        ensures { Puts (K.taken sink.old) self.old bytes.now result (K.taken sink.new) self.new }
    {
        match bytes {
            [] => Ok(()),
            [byte] if self.used < SIZE => {
                self.hold_byte(*byte);
                Ok(())
            }
            _ => self.put_some(sink, bytes),
        }
    }

    // Puts bytes, which may be many.
    fn put_some<K: Sink>(&mut self, sink: &mut K, bytes: &[u8]) -> Result<(), Failed>
        requires { self.old.failed ≡ false }
        ensures { Puts (K.taken sink.old) self.old bytes.now result (K.taken sink.new) self.new }
    {
        if bytes.len() <= SIZE - self.used {
            self.hold(bytes);
            return Ok(());
        }
        self.flush(sink)?;
        self.put_empty(sink, bytes)
    }

    // Puts bytes where nothing is buffered.
    fn put_empty<K: Sink>(&mut self, sink: &mut K, bytes: &[u8]) -> Result<(), Failed>
        requires works { self.old.failed ≡ false }
        requires empty { self.old.bytes ≡ [] }
        ensures { Puts (K.taken sink.old) self.old bytes.now result (K.taken sink.new) self.new }
    {
        if bytes.len() <= SIZE {
            self.hold(bytes);
            return Ok(());
        }
        let result = write_whole(sink, bytes);
        self.failed = result.is_err();
        result
    }

    // Puts bytes for which there is room.
    fn hold(&mut self, bytes: &[u8])
        requires { length self.old.bytes + length bytes.now ≤ 4096 }
        ensures { self.new ≡ record self.old { bytes = self.old.bytes ++ bytes.now } }
    {
        let end = self.used + bytes.len();
        self.buffer[self.used..end].copy_from_slice(bytes);
        self.used = end;
    }

    // Puts a byte for which there is room, without the call that copies a slice.
    fn hold_byte(&mut self, byte: u8)
        requires { length self.old.bytes < 4096 }
        ensures { self.new ≡ record self.old { bytes = self.old.bytes ++ byte ∷ [] } }
    {
        let at = self.used;
        self.buffer[at] = byte;
        self.used = at + 1;
    }

    /// Writes all that is buffered. After a fault nothing is buffered.
    pub fn flush<K: Sink>(&mut self, sink: &mut K) -> Result<(), Failed>
        requires { self.old.failed ≡ false }
        ensures puts { Puts (K.taken sink.old) self.old [] result (K.taken sink.new) self.new }
        ensures empty { self.new.bytes ≡ [] }
    {
        let result = write_whole(sink, &self.buffer[..self.used]);
        self.used = 0;
        self.failed = result.is_err();
        result
    }

    /// Puts a number in decimal.
    pub fn put_number<K: Sink, I: Integer>(&mut self, sink: &mut K, number: I) -> Result<(), Failed>
        requires { self.old.failed ≡ false }
        ensures { Puts (K.taken sink.old) self.old (I.text number) result (K.taken sink.new) self.new }
    {
        self.put(sink, Buffer::new().format(number).as_bytes())
    }
}

// Writes all of a text, in as many calls as the sink needs.
fn write_whole<K: Sink>(sink: &mut K, text: &[u8]) -> Result<(), Failed>
    ensures { Puts (K.taken sink.old) nothing text.now result (K.taken sink.new) (if is_ok result then nothing else broken) }
{
    let mut rest = text;
    'pieces: while !rest.is_empty() {
        let n = sink.write(rest)?;
        rest = &rest[n..];
    }
    Ok(())
}

//! A sink in memory, with calls that fail by their number.
ghost use Rattle.std.specs.Prelude.{◌≡◌, ◌≤◌, ◌<◌, [], Some, Contains, IfOk, OnErr, IfSome, IsErr, length, take};
ghost use Rattle.dl_io.specs.Faults.{HasCause};
ghost use Rattle.dl_io.specs.Taken.{Took};

use crate::traits::{Failed, Memory, Sink};
use std::alloc::Global;

/// A sink in memory that tells what it took. Calls that are named by their number fail, and so do
/// those on a full room.
#[derive(Drop)]
pub struct MemSink {
    bytes: Vec<u8>,
    room: usize,
    piece: usize,
    fails: Vec<u64>,
    calls: u64,
    faults: u64,
}

impl MemSink {
    ghost use Rattle.dl_io.specs.Memory.{taken_of, script_of, IsNamed};

    /// A sink with room for so many bytes, of which a call takes at most `piece`. `fails` has the
    /// numbers, counted from 1, of the calls that fail.
    pub fn new(alloc: Global, piece: usize, fails: &[u64], room: usize) -> Result<MemSink, Memory>
        requires { 1 ≤ piece }
        ensures empty { IfOk result (λ sink. taken_of sink ≡ record { written = Some []; faults = 0 }) }
        ensures script { IfOk result (λ sink. script_of sink ≡ record { piece = piece; fails = fails.now; calls = 0; room = room }) }
    {
        Ok(MemSink {
            bytes: Vec::with_capacity(alloc, room)?,
            room,
            piece,
            fails: Vec::from_slice(alloc, fails)?,
            calls: 0,
            faults: 0,
        })
    }

    /// The bytes written.
    pub fn bytes(&self) -> &[u8]
        ensures { (taken_of self.now).written ≡ Some result.now }
    {
        &self.bytes
    }

    // How many bytes of a piece of this length the next call takes.
    fn next_count(&self, len: usize) -> usize
        ensures fits { result ≤ len }
        ensures small { result ≤ self.now.piece }
        ensures named { IsNamed self.now.fails.items self.now.calls → result ≡ 0 }
        ensures full { self.now.room ≤ length self.now.bytes.items → result ≡ 0 }
    {
        if self.fails.contains(&self.calls) {
            return 0;
        }
        let room = self.room.saturating_sub(self.bytes.len());
        len.min(self.piece).min(room)
    }
}

impl Sink for MemSink {
    ghost use Rattle.dl_io.specs.Memory.{taken_of, script_of, next_call, IsNamed};

    ghost taken = { taken_of };

    /// As for all sinks; and it takes at most `piece` bytes, and fails at a call that is named and on a full room.
    fn write(&mut self, bytes: &[u8]) -> Result<usize, Failed>
        requires { 0 < length bytes.now }
        ensures script { script_of self.new ≡ record (script_of self.old) { calls = next_call (script_of self.old).calls } }
        ensures piece { IfOk result (λ n. n ≤ (script_of self.old).piece) }
        ensures named { IsNamed (script_of self.old).fails (script_of self.new).calls → IsErr result }
        ensures full { IfSome (taken_of self.old).written (λ written. (script_of self.old).room ≤ length written → IsErr result) }

        ensures takes { IfOk result (λ n. (0 < n) × (n ≤ length bytes.now) × Took (taken_of self.old).written (taken_of self.new).written (take n bytes.now)) }
        ensures err { OnErr result ((taken_of self.new).written ≡ (taken_of self.old).written) }
        ensures cause { HasCause (taken_of self.old).faults (taken_of self.new).faults result }
    {
        self.calls = self.calls.saturating_add(1);
        let n = self.next_count(bytes.len());
        if n > 0 && self.bytes.extend_from_slice(&bytes[..n]).is_ok() {
            return Ok(n);
        }
        self.faults = self.faults.saturating_add(1);
        Err(Failed)
    }
}

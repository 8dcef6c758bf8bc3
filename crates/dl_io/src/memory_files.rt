//! Files in memory, with calls that fail by their number.
ghost use Rattle.std.specs.Prelude.{◌≡◌, ◌≤◌, ◌<◌, ◌⊎◌, ◌↔◌, true, false, Some, None, Contains, IfOk, IfSome, OnOk, OnErr, IsOk, IsErr, List, ℕ, length};
ghost use Rattle.dl_io.specs.Faults.{HasCause};
ghost use Rattle.dl_io.specs.Source.{SameFiles, Gives, raised};

use crate::pieces::{MemFile, Reading, next_piece, reading_at};
use crate::traits::{Failed, Files, Memory};
use std::alloc::Global;

/// Files in memory. Calls that are named by their number fail, and so do those on a path at which
/// no file was added.
#[derive(Drop)]
pub struct MemFiles {
    alloc: Global,
    files: Vec<MemFile>,
    piece: usize,
    fails: Vec<u64>,
    calls: u64,
    reading: Option<Reading>,
    given: u64,
    failed_last: Option<u32>,
    faults: u64,
    ghost gives_bytes: { 1 ≤ piece },
}

impl MemFiles {
    ghost use Rattle.dl_io.specs.Memory.{source_of, no_files, plan_of, next_call, IsNamed, is_reliable, Adds};

    /// No file at first. A read gives at most `piece` bytes, and `fails` has the numbers of the
    /// calls that fail, attach and read counted together from 1.
    pub fn new(alloc: Global, piece: usize, fails: &[u64]) -> Result<MemFiles, Memory>
        requires { 1 ≤ piece }
        ensures empty { IfOk result (λ files. source_of files ≡ no_files) }
        ensures plan { IfOk result (λ files. plan_of files ≡ record { piece = piece; fails = fails.now; calls = 0 }) }

        // Said once more, path by path, for the first call of `add`.
        ensures none_there { IfOk result (λ files. (path : List ℕ) → (source_of files).bytes_at path ≡ None) }
        ensures unread { IfOk result (λ files. (source_of files).attached ≡ None) }
    {
        Ok(MemFiles {
            alloc,
            files: Vec::new(alloc),
            piece,
            fails: Vec::from_slice(alloc, fails)?,
            calls: 0,
            reading: None,
            given: 0,
            failed_last: None,
            faults: 0,
        })
    }

    /// Puts a copy of the bytes at a path.
    pub fn add(&mut self, path: &str, bytes: &[u8]) -> Result<(), Memory>
        requires is_new { (source_of self.old).bytes_at path.now ≡ None }
        requires unread { (source_of self.old).attached ≡ None }
        ensures ok { OnOk result (Adds (plan_of self.old).fails (source_of self.old) (source_of self.new) path.now bytes.now) }
        ensures plan { plan_of self.new ≡ plan_of self.old }
        ensures err { OnErr result (source_of self.new ≡ source_of self.old) }

        // Said once more for the next call of `add`.
        ensures unread { (source_of self.new).attached ≡ None }
    {
        let path = String::from_str(self.alloc, path)?;
        let bytes = Vec::from_slice(self.alloc, bytes)?;
        self.files.push(MemFile { path, bytes })?;
        Ok(())
    }

    // Counts a call, and says whether it is one of those that fail.
    fn fails_now(&mut self) -> bool
        ensures fails { (result ≡ true) ↔ IsNamed (plan_of self.old).fails (plan_of self.new).calls }
        ensures reliable { is_reliable self.old.fails.items ≡ true → result ≡ false }
        ensures plan { plan_of self.new ≡ record (plan_of self.old) { calls = next_call (plan_of self.old).calls } }
        ensures same { self.new ≡ record self.old { calls = self.new.calls } }
    {
        self.calls = self.calls.saturating_add(1);
        self.fails.contains(&self.calls)
    }
}

impl Files for MemFiles {
    ghost use Rattle.dl_io.specs.Memory.{source_of, plan_of, next_call, IsNamed};

    ghost source = { source_of };

    /// As for all files; and it fails exactly at a call that is named, and at an unknown path.
    fn attach(&mut self, file: u32, path: &str) -> Result<(), Failed>
        ensures plan { plan_of self.new ≡ record (plan_of self.old) { calls = next_call (plan_of self.old).calls } }
        ensures fails { IsErr result ↔ (IsNamed (plan_of self.old).fails (plan_of self.new).calls ⊎ ((source_of self.old).bytes_at path.now ≡ None)) }

        ensures same { SameFiles (source_of self.old) (source_of self.new) }
        ensures none_given { (source_of self.new).given ≡ 0 }
        ensures attached { OnOk result ((source_of self.new).attached ≡ Some file) }
        ensures all_left { OnOk result ((source_of self.new).left ≡ (source_of self.old).bytes_at path.now) }
        ensures sound { Contains (source_of self.old).sound_paths path.now → IsOk result × ((source_of self.new).is_sound ≡ true) }
        ensures cause { HasCause (source_of self.old).faults (source_of self.new).faults result }
        ensures names { OnErr result ((source_of self.new).failed_last ≡ Some file) }
    {
        let fails = self.fails_now();
        self.given = 0;
        self.reading = reading_at(&self.files, file, path, fails);
        if self.reading.is_some() {
            return Ok(());
        }
        self.failed_last = Some(file);
        self.faults = self.faults.saturating_add(1);
        Err(Failed)
    }

    /// As for all files; and it gives at most `piece` bytes, and fails exactly at a call that is named, and where
    /// nothing is known to be left.
    fn read(&mut self, file: u32, into: &mut [u8]) -> Result<usize, Failed>
        requires attached { (source_of self.old).attached ≡ Some file }
        requires room { 0 < length into.old }
        ensures plan { plan_of self.new ≡ record (plan_of self.old) { calls = next_call (plan_of self.old).calls } }
        ensures piece { IfOk result (λ n. n ≤ (plan_of self.old).piece) }
        ensures fails { IsErr result ↔ (IsNamed (plan_of self.old).fails (plan_of self.new).calls ⊎ ((source_of self.old).left ≡ None)) }

        ensures same { SameFiles (source_of self.old) (source_of self.new) }
        ensures same_attached { ((source_of self.new).attached ≡ (source_of self.old).attached) × ((source_of self.new).is_sound ≡ (source_of self.old).is_sound) }
        ensures count { IfOk result (λ n. n ≤ length into.old) }
        ensures gives { IfOk result (λ n. IfSome (source_of self.old).left (λ left. Gives left n into.new (source_of self.new).left)) }
        ensures given { IfOk result (λ n. (source_of self.new).given ≡ raised (source_of self.old).given n) }
        ensures given_err { OnErr result ((source_of self.new).given ≡ (source_of self.old).given) }
        ensures sound { (source_of self.old).is_sound ≡ true → IsOk result }
        ensures cause { HasCause (source_of self.old).faults (source_of self.new).faults result }
        ensures names { OnErr result ((source_of self.new).failed_last ≡ Some file) }
    {
        let fails = self.fails_now();
        if let Some((n, reading)) = next_piece(&self.files, self.reading, self.piece, into, fails) {
            self.reading = Some(reading);
            self.given = self.given.saturating_add(n as u64);
            return Ok(n);
        }
        self.failed_last = Some(file);
        self.faults = self.faults.saturating_add(1);
        Err(Failed)
    }
}

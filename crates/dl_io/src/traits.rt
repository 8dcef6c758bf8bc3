//! What files and a sink promise, whatever they are.
ghost use Rattle.std.specs.Prelude.{◌≡◌, ℕ, ◌<◌, ◌≤◌, true, Some, Contains, IsOk, IfOk, OnOk, OnErr, IfSome, length, take};
ghost use Rattle.dl_io.specs.Faults.{HasCause};
ghost use Rattle.dl_io.specs.Source.{Source, SameFiles, Gives, raised};
ghost use Rattle.dl_io.specs.Taken.{Taken, Took};

use std::alloc::{AllocError, AllocFailed};

/// The outside did not do what a call asked of it.
#[derive(Clone, Copy, Debug, PartialEq, Eq)]
pub struct Failed;

/// There was no memory for what a call had to keep.
#[derive(Clone, Copy, Debug, PartialEq, Eq)]
pub struct Memory;

impl From<AllocError> for Memory {
    fn from(_refused: AllocError) -> Memory {
        Memory
    }
}

impl<T: Drop> From<AllocFailed<T>> for Memory {
    fn from(_refused: AllocFailed<T>) -> Memory {
        Memory
    }
}

/// Files that are read one after another, each named by a number and found at a path.
pub trait Files {
    /// What the files tell, and what happened to them.
    ghost source: { Self → Source };

    /// Begins to read a file. After a fault the bytes left are unknown until a call that succeeds.
    fn attach(&mut self, file: u32, path: &str) -> Result<(), Failed>
        ensures same { SameFiles (source self.old) (source self.new) }
        ensures none_given { (source self.new).given ≡ 0 }
        ensures attached { OnOk result ((source self.new).attached ≡ Some file) }
        ensures all_left { OnOk result ((source self.new).left ≡ (source self.old).bytes_at path.now) }

        // A file at a sound path is attached, and then sound.
        ensures sound { Contains (source self.old).sound_paths path.now → IsOk result × ((source self.new).is_sound ≡ true) }
        ensures cause { HasCause (source self.old).faults (source self.new).faults result }
        ensures names { OnErr result ((source self.new).failed_last ≡ Some file) };

    /// Gives the next bytes of the file attached last, and 0 exactly at its end.
    fn read(&mut self, file: u32, into: &mut [u8]) -> Result<usize, Failed>
        requires attached { (source self.old).attached ≡ Some file }
        requires room { 0 < length into.old }
        ensures same { SameFiles (source self.old) (source self.new) }
        ensures same_attached { ((source self.new).attached ≡ (source self.old).attached) × ((source self.new).is_sound ≡ (source self.old).is_sound) }
        ensures count { IfOk result (λ n. n ≤ length into.old) }
        ensures gives { IfOk result (λ n. IfSome (source self.old).left (λ left. Gives left n into.new (source self.new).left)) }
        ensures given { IfOk result (λ n. (source self.new).given ≡ raised (source self.old).given n) }
        ensures given_err { OnErr result ((source self.new).given ≡ (source self.old).given) }

        // A sound file never fails.
        ensures sound { (source self.old).is_sound ≡ true → IsOk result }
        ensures cause { HasCause (source self.old).faults (source self.new).faults result }
        ensures names { OnErr result ((source self.new).failed_last ≡ Some file) };
}

/// What bytes are written to.
pub trait Sink {
    /// What was written, and the number of faults.
    ghost taken: { Self → Taken };

    /// Takes bytes of the front of a piece, at least one.
    fn write(&mut self, bytes: &[u8]) -> Result<usize, Failed>
        requires { 0 < length bytes.now }
        ensures takes { IfOk result (λ n. (0 < n) × (n ≤ length bytes.now) × Took (taken self.old).written (taken self.new).written (take n bytes.now)) }
        ensures err { OnErr result ((taken self.new).written ≡ (taken self.old).written) }
        ensures cause { HasCause (taken self.old).faults (taken self.new).faults result };
}

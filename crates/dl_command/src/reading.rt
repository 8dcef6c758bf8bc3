//! Reading a file to its end, within its limit.

ghost use Rattle.std.specs.Prelude.{◌≡◌, ◌<◌, ◌≤◌, ◌^◌, ◌+◌, true, Some, IfOk, IfErr, IfSome, IsErrOf, IsOk, OnOk, OnErr, length};
ghost use Rattle.dl_io.specs.Faults.{HasCause};
ghost use Rattle.dl_io.specs.Source.{SameFiles, Gives, Tells, raised};
ghost use Rattle.dl_command.specs.Reading.{StopCause, AfterReading, ReadCause, IsWithin};
ghost use Rattle.dl_command.specs.Words.{limit_of};

use crate::status::Status;
use crate::wanted::HEAP_FILE;
use dl_io::{Failed, Files};
use std::alloc::{AllocError, Global};

// How many bytes are read at a time.
const PIECE: usize = 4096;

/// Why reading a file stopped.
#[derive(Clone, Copy)]
pub enum Stop {
    Failed,
    TooLong,
    Memory,
}

impl From<Failed> for Stop {
    ghost use Rattle.std.specs.Prelude.{◌≡◌};
    ghost use Rattle.dl_command.specs.declared.reading.Stop.TheVariants as stops;

    ghost from_gives = { λ _ stop. stop ≡ stops.Failed };

    fn from(_fault: Failed) -> Stop {
        Stop::Failed
    }
}

impl From<AllocError> for Stop {
    ghost use Rattle.std.specs.Prelude.{◌≡◌};
    ghost use Rattle.dl_command.specs.declared.reading.Stop.TheVariants as stops;

    ghost from_gives = { λ _ stop. stop ≡ stops.Memory };

    fn from(_fault: AllocError) -> Stop {
        Stop::Memory
    }
}

// Gives the next bytes of a file to a buffer, so many at most.
fn read_piece<F: Files>(
    files: &mut F,
    file: u32,
    buffer: &mut [u8],
    most: u64,
) -> Result<usize, Failed>
    requires attached { (F.source files.old).attached ≡ Some file }
    requires room { 0 < length buffer.old }
    requires some { 0 < most }
    ensures same { SameFiles (F.source files.old) (F.source files.new) }
    ensures same_attached { ((F.source files.new).attached ≡ (F.source files.old).attached) × ((F.source files.new).is_sound ≡ (F.source files.old).is_sound) }
    ensures count { IfOk result (λ n. (n ≤ length buffer.old) × (n ≤ most)) }
    ensures gives { IfOk result (λ n. IfSome (F.source files.old).left (λ left. Gives left n buffer.new (F.source files.new).left)) }
    ensures given { IfOk result (λ n. (F.source files.new).given ≡ raised (F.source files.old).given n) }
    ensures given_err { OnErr result ((F.source files.new).given ≡ (F.source files.old).given) }
    ensures sound { (F.source files.old).is_sound ≡ true → IsOk result }
    ensures cause { HasCause (F.source files.old).faults (F.source files.new).faults result }
    ensures names { OnErr result ((F.source files.new).failed_last ≡ Some file) }
{
    let want = most.min(buffer.len() as u64) as usize;
    files.read(file, &mut buffer[..want])
}

/// Reads a file to its end, unless it is longer than the limit. At most one byte more than the limit is taken of it.
pub fn read_all<F: Files>(
    alloc: Global,
    files: &mut F,
    file: u32,
    path: &str,
    limit: u64,
) -> Result<Vec<u8>, Stop>
    requires { limit < 2 ^ 60 }
    ensures bytes { IfOk result (λ bytes. Tells ((F.source files.old).bytes_at path.now) bytes.items × (length bytes.items ≤ limit)) }
    ensures stops { IfErr result (λ stop. StopCause stop file path.now limit (F.source files.old) (F.source files.new)) }
    ensures given { limit < (F.source files.new).given → IsErrOf result Stop.TooLong }
    ensures at_most { (F.source files.new).given ≤ limit + 1 }
    ensures attached { 0 < (F.source files.new).given → (F.source files.new).attached ≡ Some file }
    ensures after { AfterReading (F.source files.old) (F.source files.new) }
{
    files.attach(file, path)?;
    let mut bytes = Vec::new(alloc);
    let mut taken = 0;
    let mut buffer = [0; PIECE];
    'pieces: loop {
        let n = read_piece(files, file, &mut buffer, limit + 1 - taken)?;
        if n == 0 {
            return Ok(bytes);
        }
        taken += n as u64;
        if taken > limit {
            return Err(Stop::TooLong);
        }
        bytes.extend_from_slice(&buffer[..n])?;
    }
}

// How many bytes a file may have.
fn limit(file: u32) -> u64
    ensures value { result ≡ limit_of file }
    ensures small { result < 2 ^ 60 }
{
    match file {
        0 => 262_144,
        HEAP_FILE => 67_108_864,
        _ => 4_194_304,
    }
}

/// Reads a file of a command to its end.
pub fn read_file<F: Files>(
    alloc: Global,
    files: &mut F,
    file: u32,
    path: &str,
) -> Result<Vec<u8>, Status>
    ensures bytes { IfOk result (λ bytes. Tells ((F.source files.old).bytes_at path.now) bytes.items × (length bytes.items ≤ limit_of file)) }
    ensures cause { IfErr result (λ status. ReadCause status file path.now (F.source files.old) (F.source files.new)) }
    ensures within { OnOk result (IsWithin (F.source files.new)) }
    ensures after { AfterReading (F.source files.old) (F.source files.new) }
{
    match read_all(alloc, files, file, path, limit(file)) {
        Ok(bytes) => Ok(bytes),
        Err(Stop::Failed) => Err(Status::ReadFault { file }),
        Err(Stop::TooLong) => Err(Status::TooLong { file }),
        Err(Stop::Memory) => Err(Status::Memory),
    }
}

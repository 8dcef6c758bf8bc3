//! How files in memory are found and given piece by piece.
ghost use Rattle.std.specs.Prelude.{◌≡◌, ◌≤◌, ◌<◌, ◌⊎◌, true, false, Some, None, IsSome, IfSome, IfNone, slice_get, [], MatchOption, length, take, min, option_map};
ghost use Rattle.std.specs.Option.{option_copied};
ghost use Rattle.dl_io.specs.Source.{Gives};
ghost use Rattle.dl_io.specs.Files.{bytes_in, rest_of, left_of, Continues};

/// A file in memory.
#[derive(Drop)]
pub struct MemFile {
    pub path: String,
    pub bytes: Vec<u8>,
}

/// The file attached last, unless that failed: its number, its place, and how many of its bytes
/// were given.
#[derive(Clone, Copy)]
pub struct Reading {
    pub file: u32,
    pub place: usize,
    pub taken: usize,
}

/// Begins to read the first file at a path, unless the call is one that fails.
pub fn reading_at(files: &[MemFile], file: u32, path: &str, fails: bool) -> Option<Reading>
    ensures begins { IfSome result (λ reading. (reading.file ≡ file) × (left_of files.now (Some reading) ≡ bytes_in files.now path.now)) }
    ensures found { fails ≡ false → IsSome (bytes_in files.now path.now) → IsSome result }
    ensures none { (fails ≡ true) ⊎ (bytes_in files.now path.now ≡ None) → result ≡ None }
{
    if fails {
        return None;
    }
    let place = place_of(files, path)?;
    Some(Reading {
        file,
        place,
        taken: 0,
    })
}

// The place of the first file at a path.
fn place_of(files: &[MemFile], path: &str) -> Option<usize>
    ensures none { IfNone result (bytes_in files.now path.now ≡ None) }
    ensures place { IfSome result (λ place. bytes_in files.now path.now ≡ option_map (λ file. file.bytes.items) (slice_get files.now place)) }
    ensures there { IfSome result (λ place. IsSome (bytes_in files.now path.now)) }
{
    for (i, file) in files.iter().enumerate() {
        if file.path.as_str() == path {
            return Some(i);
        }
    }
    None
}

// What is left of the file that is read.
fn left<'a>(files: &'a [MemFile], reading: Reading) -> Option<&'a [u8]>
    ensures { option_copied result ≡ left_of files.now (Some reading) }
{
    let file = files.get(reading.place)?;
    file.bytes.as_slice().get(reading.taken..)
}

// Copies at most `piece` bytes of the front, and says how many.
fn copy_piece(left: &[u8], piece: usize, into: &mut [u8]) -> usize
    requires piece { 1 ≤ piece }
    requires room { 0 < length into.old }
    ensures put { take result into.new ≡ take result left.now }
    ensures small { result ≤ piece }
    ensures fits { result ≤ length left.now }
    ensures count { result ≤ length into.old }
    ensures ends { result ≡ 0 → left.now ≡ [] }
{
    let n = left.len().min(piece).min(into.len());
    into[..n].copy_from_slice(&left[..n]);
    n
}

/// Gives the next bytes of the file that is read, unless the call is one that fails.
pub fn next_piece(
    files: &[MemFile],
    reading: Option<Reading>,
    piece: usize,
    into: &mut [u8],
    fails: bool,
) -> Option<(usize, Reading)>
    requires piece { 1 ≤ piece }
    requires room { 0 < length into.old }
    ensures some { IfSome result (λ next. Continues files.now reading next.0 into.new next.1) }
    ensures count { IfSome result (λ next. (next.0 ≤ length into.old) × (next.0 ≤ piece)) }
    ensures sound { fails ≡ false → IsSome (left_of files.now reading) → IsSome result }
    ensures none { (fails ≡ true) ⊎ (left_of files.now reading ≡ None) → result ≡ None }
{
    if fails {
        return None;
    }
    let reading = reading?;
    let left = left(files, reading)?;
    let n = copy_piece(left, piece, into);
    let taken = reading.taken + n;
    Some((n, Reading { taken, ..reading }))
}

//! The numbers that `work` is given.

ghost use Rattle.std.specs.Prelude.{◌≡◌, ◌==◌, ◌≤◌, map, slice_index, IfSome};
ghost use Rattle.dl_command.specs.Numbers as spec;

/// The numbers of generated work: its seed, and how many operations and callers there are.
#[derive(Clone, Copy, Debug, PartialEq, Eq)]
pub struct Asked {
    pub seed: u64,
    pub count: u32,
    pub callers: u32,
}

// Whether a word begins with a plus.
fn has_plus(word: &str) -> bool
    ensures { result ≡ (slice_index word.now 0 == 43) }
{
    matches!(word.as_bytes(), [b'+', ..])
}

// The number that a word of decimal digits says, where it is in a range. A sign is no digit.
fn number_within(word: &str, least: u64, most: u64) -> Option<u64>
    ensures { result ≡ spec.number_within least most word.now }
{
    if has_plus(word) {
        return None;
    }
    let Ok(number) = word.parse::<u64>() else {
        return None;
    };
    if number < least || most < number {
        return None;
    }
    Some(number)
}

/// The numbers that the words SEED, COUNT and CALLERS say: a seed below 2^64, 1 to 65,536 operations, and 1 to 64 callers.
pub fn asked_of(first: &str, rest: &[&str]) -> Option<Asked>
    ensures asked { result ≡ spec.asked_of first.now (map (λ word. word.now) rest.now) }
    ensures some { IfSome result (λ asked. (1 ≤ asked.count) × (1 ≤ asked.callers)) }
    ensures few { IfSome result (λ asked. (asked.count ≤ 65536) × (asked.callers ≤ 64)) }
{
    let [count, callers] = rest else {
        return None;
    };
    Some(Asked {
        seed: number_within(first, 0, u64::MAX)?,
        count: number_within(count, 1, 65_536)? as u32,
        callers: number_within(callers, 1, 64)? as u32,
    })
}

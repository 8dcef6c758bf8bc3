//! The numbers that words say.

ghost use Rattle.std.specs.Prelude.{◌≡◌, ◌≤◌, ◌^◌, ◌-◌, IfOk, pos, neg_ℤ};
ghost use Rattle.dl_text.specs.Bytes.{is_digit};
ghost use Rattle.dl_syntax.specs.Line.{digits_of, at_most, number_of, numbers_of, words_of};

use crate::words::next_word;
use sqlite_items::Items;
use std::alloc::{AllocError, Global};

/// Whether a byte is a decimal digit.
pub fn is_digit(byte: u8) -> bool
    ensures { result ≡ is_digit byte }
{
    matches!(byte, b'0'..=b'9')
}

/// The number that digits say, where each byte is one and the number is at most `most`.
pub fn digits_up_to(digits: &[u8], most: u64) -> Option<u64>
    requires { most ≤ 2 ^ 63 }
    ensures { result ≡ at_most most (digits_of digits.now) }
{
    if digits.is_empty() {
        return None;
    }
    let mut n: u64 = 0;
    for digit in digits {
        if !is_digit(*digit) {
            return None;
        }
        let unit = (*digit - b'0') as u64;
        if unit > most {
            return None;
        }
        if n > (most - unit) / 10 {
            return None;
        }
        n = 10 * n + unit;
    }
    Some(n)
}

fn negated(magnitude: u64) -> i64
    requires { magnitude ≤ 2 ^ 63 }
    ensures { result ≡ neg_ℤ (pos magnitude) }
{
    match i64::try_from(magnitude) {
        Ok(n) => -n,
        Err(_) => i64::MIN,
    }
}

/// The number that a word says: digits, with or without a minus before them, of a value in signed 64 bits.
fn number(word: &[u8]) -> Option<i64>
    ensures { result ≡ number_of word.now }
{
    match word {
        [b'-', digits @ ..] => Some(negated(digits_up_to(digits, 9223372036854775808)?)),
        _ => Some(digits_up_to(word, 9223372036854775807)? as i64),
    }
}

/// The numbers that the words say, where each of them says one. Memory is taken at once for `count` of them.
pub fn numbers(alloc: Global, count: usize, bytes: &[u8]) -> Result<Option<Items<i64>>, AllocError>
    ensures { IfOk result (λ found. found ≡ numbers_of (words_of bytes.now)) }
{
    let mut found = Items::from_vec(Vec::with_capacity(alloc, count)?);
    let mut rest = bytes;
    while let Some((word, more)) = next_word(rest) {
        match number(word) {
            Some(n) => found.push(n)?,
            None => return Ok(None),
        }
        rest = more;
    }
    Ok(Some(found))
}

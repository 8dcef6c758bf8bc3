//! Plain decimal numbers at the front of a text.

ghost use Rattle.std.specs.Prelude.{◌≡◌, ◌≤◌, ◌<◌, ◌^◌, ◌-◌, IsTrue, ◌↔◌, length, if◌then◌else◌, nat_le, decimal, option_and_then, MatchOption, Some, None, pos, neg_ℤ, drop};
ghost use Rattle.std.specs.List.{prefix_len, take_while};
ghost use Rattle.dl_text.specs.Bytes.{is_digit, is_word, value, AllAre};
ghost use Rattle.dl_heapfile.specs.Reading as spec;

/// How many bytes of a word come first.
pub fn word_len(bytes: &[u8]) -> usize
    ensures run { result ≡ prefix_len is_word bytes.now }
    ensures within { result ≤ length bytes.now }
{
    bytes
        .iter()
        .take_while(|b| b.is_ascii_alphanumeric() || **b == b'_')
        .count()
}

fn digits_len(bytes: &[u8]) -> usize
    ensures run { result ≡ prefix_len is_digit bytes.now }
    ensures within { result ≤ length bytes.now }
{
    bytes.iter().take_while(|b| b.is_ascii_digit()).count()
}

// Some digits, and no 0 before others.
fn is_plain(digits: &[u8]) -> bool
    ensures { result ≡ spec.is_plain digits.now }
{
    match digits {
        [] => false,
        [_] => true,
        [first, ..] => *first != b'0',
    }
}

// What a run of digits says, where it is not above the greatest.
fn decimal(digits: &[u8], most: u64) -> Option<u64>
    requires { AllAre is_digit digits.now }
    ensures { result ≡ (if nat_le (value digits.now) most then Some (value digits.now) else None) }
{
    let mut n: u64 = 0;
    for digit in digits {
        let units = (*digit - b'0') as u64;
        if units > most {
            return None;
        }
        if n > (most - units) / 10 {
            return None;
        }
        n = 10 * n + units;
    }
    Some(n)
}

/// A number that is not above the greatest, and what is behind it.
pub fn number(text: &[u8], most: u64) -> Option<(u64, &[u8])>
    ensures { MatchOption result (spec.number most text.now ≡ None) (λ found. spec.number most text.now ≡ Some (found.0, found.1.now)) }
{
    let (digits, rest) = text.split_at(digits_len(text));
    if !is_plain(digits) {
        return None;
    }
    let n = decimal(digits, most)?;
    Some((n, rest))
}

fn negated(magnitude: u64) -> i64
    requires { magnitude ≤ 2 ^ 63 }
    ensures { result ≡ neg_ℤ (pos magnitude) }
{
    match i64::try_from(magnitude) {
        Ok(n) => -n,
        Err(_) => i64::MIN,
    }
}

// A number behind a minus.
fn negative(text: &[u8]) -> Option<(i64, &[u8])>
    ensures { MatchOption result (option_and_then spec.negative (spec.number (2 ^ 63) text.now) ≡ None) (λ found. option_and_then spec.negative (spec.number (2 ^ 63) text.now) ≡ Some (found.0, found.1.now)) }
{
    let (n, rest) = number(text, 9223372036854775808)?;
    if n == 0 {
        return None;
    }
    Some((negated(n), rest))
}

/// A number of signed 64 bits, and what is behind it.
pub fn integer(text: &[u8]) -> Option<(i64, &[u8])>
    ensures { MatchOption result (spec.integer text.now ≡ None) (λ found. spec.integer text.now ≡ Some (found.0, found.1.now)) }
{
    match text {
        [b'-', digits @ ..] => negative(digits),
        _ => {
            let (n, rest) = number(text, 9223372036854775807)?;
            Some((n as i64, rest))
        }
    }
}

/// The digits of a number of any length, with no 0 before others, and what is behind them.
pub fn plain(text: &[u8]) -> Option<(&[u8], &[u8])>
    ensures { MatchOption result (spec.plain text.now ≡ None) (λ found. spec.plain text.now ≡ Some (found.0.now, found.1.now)) }
{
    let (digits, rest) = text.split_at(digits_len(text));
    if is_plain(digits) {
        Some((digits, rest))
    } else {
        None
    }
}

/// Whether these bytes are the digits of a number.
pub fn says(digits: &[u8], count: u64) -> bool
    ensures { IsTrue result ↔ (digits.now ≡ decimal count) }
{
    let Some((n, rest)) = number(digits, 18446744073709551615) else {
        return false;
    };
    if n != count {
        return false;
    }
    rest.is_empty()
}

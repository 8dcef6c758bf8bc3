//! Lines, and the words of a line.

ghost use Rattle.std.specs.Prelude.{◌≡◌, ◌<◌, ◌≤◌, ◌+◌, ◌∷◌, [], ℕ, length, not, drop, take, filter, MatchOption};
ghost use Rattle.std.specs.List.{prefix_len};
ghost use Rattle.dl_text.specs.Bytes.{is_blank};
ghost use Rattle.dl_syntax.specs.Line.{is_feed, is_hash, words_of, before_comment};

fn blanks_len(bytes: &[u8]) -> usize
    ensures { result ≡ prefix_len is_blank bytes.now }
{
    bytes
        .iter()
        .take_while(|b| matches!(**b, b' ' | b'\t' | b'\r'))
        .count()
}

fn word_len(bytes: &[u8]) -> usize
    ensures { result ≡ prefix_len (λ b. not (is_blank b)) bytes.now }
{
    bytes
        .iter()
        .take_while(|b| !matches!(**b, b' ' | b'\t' | b'\r'))
        .count()
}

fn line_len(bytes: &[u8]) -> usize
    ensures { result ≡ prefix_len (λ b. not (is_feed b)) bytes.now }
{
    bytes.iter().take_while(|b| **b != b'\n').count()
}

fn comment_start(line: &[u8]) -> usize
    ensures { result ≡ prefix_len (λ b. not (is_hash b)) line.now }
{
    line.iter().take_while(|b| **b != b'#').count()
}

/// A line without its comment.
pub fn before_comment(line: &[u8]) -> &[u8]
    ensures { result.now ≡ before_comment line.now }
{
    let len = comment_start(line);
    &line[..len]
}

/// The first line of a text, without the line feed behind it, and what follows that.
#[tactic(auto, using(crate::proofs::WordCuts::front_within))]
pub fn first_line(text: &[u8]) -> (&[u8], &[u8])
    requires { 0 < length text.now }
    ensures line { result.0.now ≡ take (prefix_len (λ b. not (is_feed b)) text.now) text.now }
    ensures rest { result.1.now ≡ drop 1 (drop (prefix_len (λ b. not (is_feed b)) text.now) text.now) }
    ensures shorter { length result.1.now < length text.now }
{
    let (line, rest) = text.split_at(line_len(text));
    match rest {
        [_, more @ ..] => (line, more),
        [] => (line, rest),
    }
}

/// The first word of some bytes, and the bytes behind it.
#[tactic(auto, using(crate::proofs::WordCuts::front_within))]
pub fn next_word(bytes: &[u8]) -> Option<(&[u8], &[u8])>
    ensures cut { MatchOption result (words_of bytes.now ≡ []) (λ found. words_of bytes.now ≡ found.0.now ∷ words_of found.1.now) }
    ensures shorter { MatchOption result (0 ≤ length bytes.now) (λ found. length found.1.now < length bytes.now) }
{
    let (_, rest) = bytes.split_at(blanks_len(bytes));
    let len = word_len(rest);
    if len == 0 {
        return None;
    }
    Some(rest.split_at(len))
}

/// How many words there are.
pub fn count_words(bytes: &[u8]) -> usize
    ensures { result ≡ length (words_of bytes.now) }
{
    let mut rest = bytes;
    let mut count: usize = 0;
    while let Some((_, more)) = next_word(rest) {
        rest = more;
        count += 1;
    }
    count
}

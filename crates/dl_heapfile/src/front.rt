//! Where the heap part of a text begins, and its heap line.

ghost use Rattle.std.specs.Prelude.{◌≡◌, ◌≤◌, ◌+◌, ◌-◌, ◌==◌, ◌↔◌, ℕ, max, if◌then◌else◌, List, MatchOption, MatchResult, Some, None, IfSome, IsTrue, IfOk, length, codes};
ghost use Rattle.std.specs.List.{prefix_len};
ghost use Rattle.dl_text.specs.Bytes.{is_blank};
ghost use Rattle.dl_heapfile.specs.Form.{goes_on, first_word, BeginsAt, IsHead};
ghost use Rattle.dl_heapfile.specs.Faults.{HasNoHeap};
ghost use Rattle.dl_heapfile.specs.Reading as spec;

use crate::fault::HeapFault;
use crate::lines::first_line;
use crate::numbers::plain;
use crate::values::behind;

fn blanks_len(text: &[u8]) -> usize
    ensures run { result ≡ prefix_len is_blank text.now }
    ensures within { result ≤ length text.now }
{
    text.iter()
        .take_while(|b| **b == b' ' || **b == b'\t' || **b == b'\r')
        .count()
}

fn word_end(text: &[u8]) -> usize
    ensures run { result ≡ prefix_len goes_on text.now }
    ensures within { result ≤ length text.now }
{
    text.iter()
        .take_while(|b| !(**b == b' ' || **b == b'\t' || **b == b'\r') && **b != b'\n')
        .count()
}

// The first word of the first line.
fn first_word(text: &[u8]) -> &[u8]
    ensures { result.now ≡ first_word text.now }
{
    let (_, rest) = text.split_at(blanks_len(text));
    let (word, _) = rest.split_at(word_end(rest));
    word
}

fn begins_heap(text: &[u8]) -> bool
    ensures { IsTrue result ↔ (first_word text.now ≡ codes "heap") }
{
    first_word(text) == b"heap".as_slice()
}

// The number of the last line, where this is left of a text from a line on.
fn last_line(line: u32, rest: &[u8]) -> u32
    requires { 1 ≤ line }
    ensures { result ≡ (if length rest.now == 0 then max (line - 1) 1 else line) }
{
    if rest.is_empty() {
        (line - 1).max(1)
    } else {
        line
    }
}

/// The number of the line with which the heap part begins, and the text from there on.
pub fn find_heap(bytes: &[u8]) -> Result<(u32, &[u8]), HeapFault>
    requires { length bytes.now ≤ 4294967294 }
    ensures found { MatchResult result (λ found. BeginsAt bytes.now found.0 found.1.now) (λ fault. (line : ℕ) × (fault ≡ HeapFault.NoHeap line) × HasNoHeap bytes.now line) }
    ensures within { IfOk result (λ found. found.0 + length found.1.now ≤ length bytes.now + 1) }
{
    let mut line: u32 = 1;
    let mut rest = bytes;
    'lines: while !begins_heap(rest) {
        let Some((_, more)) = first_line(rest) else {
            return Err(HeapFault::NoHeap {
                line: last_line(line, rest),
            });
        };
        line += 1;
        rest = more;
    }
    Ok((line, rest))
}

/// The heap line: the digits of its two numbers, and what is behind it.
#[derive(Drop)]
pub struct Head<'a> {
    pub objects: &'a [u8],
    pub hidden: &'a [u8],
    pub rest: &'a [u8],
}

// The pieces of a heap line.
fn head_pieces(text: &[u8]) -> Option<(&[u8], &[u8], &[u8])>
    ensures { MatchOption result (spec.head text.now ≡ None) (λ found. spec.head text.now ≡ Some (found.0.now, found.1.now, found.2.now)) }
{
    let rest = behind(b"heap ", text)?;
    let (objects, rest) = plain(rest)?;
    let rest = behind(b" kept ", rest)?;
    let (hidden, rest) = plain(rest)?;
    let rest = behind(b"\n", rest)?;
    Some((objects, hidden, rest))
}

/// The heap line that comes next in a text.
pub fn read_head(text: &[u8]) -> Option<Head<'_>>
    ensures found { MatchOption result ((objects hidden rest : List ℕ) → IsHead text.now objects hidden rest → ⊥) (λ found. IsHead text.now found.objects.now found.hidden.now found.rest.now) }
    ensures shorter { IfSome result (λ found. length found.rest.now + 2 ≤ length text.now) }
{
    let Some((objects, hidden, rest)) = head_pieces(text) else {
        return None;
    };
    Some(Head {
        objects,
        hidden,
        rest,
    })
}

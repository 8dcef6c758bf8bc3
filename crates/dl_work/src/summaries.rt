//! The summary of a run of generated work.

ghost use Rattle.std.specs.Prelude.{◌≡◌, ◌+◌, ◌++◌, codes, decimal, false, fold, length, pos, sum_by};
ghost use Rattle.dl_text.specs.Writing.{Puts};
ghost use Rattle.dl_history.specs.Histories.{joined};
ghost use Rattle.dl_work.specs.Summary.{number_of, sum_of, number_line, asked_line, refused_line, sum_line, history_part, rest_part, summary};

use dl_history::History;
use dl_ir::{Closed, End, Entry, Refusal};
use dl_text::{Failed, Out, Sink};
use itoa::Integer;
use sqlite_items::Items;

/// What a summary tells beside the history and what the run left: the seed, the number of operations and of callers, how
/// often a caller had to wait, and how many entries were replayed.
#[derive(Clone, Copy, Debug, PartialEq, Eq)]
pub struct Figures {
    pub seed: u64,
    pub count: u32,
    pub callers: u32,
    pub waits: u64,
    pub replayed: u32,
}

/// Puts the summary of a run: its history, what it left, and its figures. It takes no memory, and fails only where the
/// sink does.
pub fn write_summary<K: Sink>(
    figures: &Figures,
    history: &History,
    closed: &Closed,
    out: &mut Out,
    sink: &mut K,
) -> Result<(), Failed>
    requires { out.old.failed ≡ false }
    ensures { Puts (K.taken sink.old) out.old (summary figures.now history.now.entries (joined closed.now.refusals) closed.now.heap.objects) result (K.taken sink.new) out.new }
{
    put_asked(out, sink, figures)?;
    put_history(out, sink, history.entries(), closed.refusals.as_slice())?;
    put_rest(out, sink, figures, closed.heap.hidden_len())
}

// Puts the line `work SEED COUNT CALLERS`.
fn put_asked<K: Sink>(out: &mut Out, sink: &mut K, figures: &Figures) -> Result<(), Failed>
    requires { out.old.failed ≡ false }
    ensures { Puts (K.taken sink.old) out.old (asked_line figures.now) result (K.taken sink.new) out.new }
{
    out.put(sink, b"work ")?;
    out.put_number(sink, figures.seed)?;
    out.put(sink, b" ")?;
    out.put_number(sink, figures.count)?;
    put_line(out, sink, b" ", figures.callers)
}

// Puts the lines that tell of the entries and of the refusals.
fn put_history<K: Sink>(
    out: &mut Out,
    sink: &mut K,
    entries: &[Entry],
    refusals: &[Items<Refusal>],
) -> Result<(), Failed>
    requires { out.old.failed ≡ false }
    ensures { Puts (K.taken sink.old) out.old (history_part entries.now (joined refusals.now)) result (K.taken sink.new) out.new }
{
    put_line(out, sink, b"done ", entries.len())?;
    put_refused(out, sink, refusals)?;
    put_sum(out, sink, entries)
}

fn put_refused<K: Sink>(
    out: &mut Out,
    sink: &mut K,
    refusals: &[Items<Refusal>],
) -> Result<(), Failed>
    requires { out.old.failed ≡ false }
    ensures { Puts (K.taken sink.old) out.old (refused_line (joined refusals.now)) result (K.taken sink.new) out.new }
{
    put_line(out, sink, b"refused ", number_in(refusals))
}

fn put_sum<K: Sink>(out: &mut Out, sink: &mut K, entries: &[Entry]) -> Result<(), Failed>
    requires { out.old.failed ≡ false }
    ensures { Puts (K.taken sink.old) out.old (sum_line entries.now) result (K.taken sink.new) out.new }
{
    put_line(out, sink, b"sum ", sum_of(entries))
}

// Puts the lines that tell of the heap, of the waits and of the replay, and the last line.
fn put_rest<K: Sink>(
    out: &mut Out,
    sink: &mut K,
    figures: &Figures,
    kept: usize,
) -> Result<(), Failed>
    requires { out.old.failed ≡ false }
    ensures { Puts (K.taken sink.old) out.old (rest_part figures.now kept) result (K.taken sink.new) out.new }
{
    put_line(out, sink, b"kept ", kept)?;
    put_line(out, sink, b"waits ", figures.waits)?;
    put_line(out, sink, b"replayed ", figures.replayed)?;
    out.put(sink, b"end\n")
}

// Puts a word with a space behind it, a number and the end of the line.
fn put_line<K: Sink, I: Integer>(
    out: &mut Out,
    sink: &mut K,
    word: &[u8],
    number: I,
) -> Result<(), Failed>
    requires { out.old.failed ≡ false }
    ensures { Puts (K.taken sink.old) out.old (number_line word.now (I.text number)) result (K.taken sink.new) out.new }
{
    out.put(sink, word)?;
    out.put_number(sink, number)?;
    out.put(sink, b"\n")
}

// The number of refusals in all lists. However many there are, so many bits are enough.
fn number_in(refusals: &[Items<Refusal>]) -> u128
    ensures { result ≡ length (joined refusals.now) }
{
    let mut number = 0;
    for list in refusals {
        number += list.len() as u128;
    }
    number
}

// The sum of the numbers that were answered. However many there are, so many bits are enough.
fn sum_of(entries: &[Entry]) -> i128
    ensures { result ≡ sum_of entries.now }
{
    let mut sum = 0;
    for entry in entries {
        sum += number_of(entry.answer.end) as i128;
    }
    sum
}

// The number of an end, or 0.
fn number_of(end: End) -> i64
    ensures { result ≡ number_of end }
{
    match end {
        End::Ok(number) => number,
        _ => 0,
    }
}

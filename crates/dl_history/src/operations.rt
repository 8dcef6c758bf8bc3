//! The parts of a report that tell of the operations: the answers and the history.

ghost use Rattle.std.specs.Prelude.{◌≡◌, ◌≤◌, ◌<◌, ◌+◌, ℕ, [], ◌∷◌, false, length, sum_by, codes, slice_get};
ghost use Rattle.std.specs.Option.{option_copied, option_map_or};
ghost use Rattle.std.specs.List.{flat_map};
ghost use Rattle.dl_ir.specs.Cover.{call_at, runs_of, refusals_of, one_if_there, Covers};
ghost use Rattle.dl_text.specs.Writing.{Puts};
ghost use Rattle.dl_history.specs.Histories.{joined, AreByCaller};
ghost use Rattle.dl_history.specs.Orders.{AreRefusalsOf, answer_at, answer_with};
ghost use Rattle.dl_text.specs.Lists.{each_from};
ghost use Rattle.dl_history.specs.Report.{told_text, line_text, answer_lines, answers_part, op_text, call_text, place_text, history_line, history_part, argument_text, head_line, AreFew};

use crate::histories::History;
use crate::pieces::{put_answer, put_arguments, put_dotted, put_head, put_refusal, put_text};
use dl_ir::{Answer, Call, Calls, Entry, Module, Refusal};
use dl_text::{Failed, Out, Sink};
use sqlite_items::{Items, at};

// The answer of the entry at a place, where that entry has this index.
fn answer_in(entries: &[Entry], place: u32, index: u32) -> Option<&Answer>
    ensures { option_copied result ≡ answer_with index (slice_get entries.now place) }
{
    let entry = entries.get(place as usize)?;
    if entry.index == index {
        Some(&entry.answer)
    } else {
        None
    }
}

// The answer of the next of a caller's entries, where that entry has this index.
fn next_answer<'a>(
    entries: &'a [Entry],
    places: &[u32],
    told: usize,
    index: u32,
) -> Option<&'a Answer>
    ensures { option_copied result ≡ answer_at entries.now index (slice_get places.now told) }
{
    let place = places.get(told)?;
    answer_in(entries, *place, index)
}

// The next of a caller's refusals.
fn next_refusal(refusals: &[Refusal], passed: usize) -> Option<Refusal>
    ensures { result ≡ slice_get refusals.now passed }
{
    at(refusals, passed).copied()
}

// The refusals of a caller, in order of index.
fn refusals_of<'a>(refusals: &'a [Items<Refusal>], caller: u32) -> &'a [Refusal]
    requires caller { 0 < caller }
    requires by_caller { AreByCaller refusals.now }
    ensures { AreRefusalsOf (joined refusals.now) caller result.now }
{
    match at(refusals, caller as usize - 1) {
        Some(list) => list.as_slice(),
        None => &[],
    }
}

// Puts an answer, or a refusal where there is none.
fn put_told<K: Sink>(
    out: &mut Out,
    sink: &mut K,
    answer: Option<&Answer>,
    refusal: Option<Refusal>,
) -> Result<(), Failed>
    requires { out.old.failed ≡ false }
    ensures { Puts (K.taken sink.old) out.old (told_text (option_copied answer.entry) refusal) result (K.taken sink.new) out.new }
{
    match (answer, refusal) {
        (Some(answer), _) => put_answer(out, sink, answer),
        (None, Some(refusal)) => put_refusal(out, sink, refusal),
        (None, None) => out.put(sink, b""),
    }
}

fn put_answer_line<K: Sink>(
    out: &mut Out,
    sink: &mut K,
    caller: u32,
    index: u32,
    answer: Option<&Answer>,
    refusal: Option<Refusal>,
) -> Result<(), Failed>
    requires { out.old.failed ≡ false }
    ensures { Puts (K.taken sink.old) out.old (line_text caller index (told_text (option_copied answer.entry) refusal)) result (K.taken sink.new) out.new }
{
    put_dotted(out, sink, caller as u64, index)?;
    out.put(sink, b" ")?;
    put_told(out, sink, answer, refusal)?;
    out.put(sink, b"\n")
}

// Puts a line for each operation of a caller: its entries and its refusals are gone through side by side.
fn put_answer_lines<K: Sink>(
    out: &mut Out,
    sink: &mut K,
    history: &History,
    refusals: &[Items<Refusal>],
    caller: u32,
    calls: &Calls,
) -> Result<(), Failed>
    requires works { out.old.failed ≡ false }
    requires few { length calls.now ≤ 65536 }
    requires caller { 0 < caller }
    requires by_caller { AreByCaller refusals.now }
    requires covers { (index : ℕ) → runs_of caller index history.now.entries + refusals_of caller index (joined refusals.now) ≡ one_if_there (call_at (calls.now ∷ []) 1 index) }
    ensures { Puts (K.taken sink.old) out.old (answer_lines history.now.entries (joined refusals.now) caller calls.now) result (K.taken sink.new) out.new }
{
    let entries = history.entries();
    let places = history.places_of(caller);
    let refused = refusals_of(refusals, caller);
    let mut told = 0;
    let mut passed = 0;
    'operations: for i in 0..calls.len() {
        let index = i as u32 + 1;
        let answer = next_answer(entries, places, told, index);
        let refusal = next_refusal(refused, passed);
        put_answer_line(out, sink, caller, index, answer, refusal)?;
        if answer.is_some() {
            told += 1;
        } else {
            passed += 1;
        }
    }
    Ok(())
}

// Puts the name of the operation with this number.
fn put_op<K: Sink>(out: &mut Out, sink: &mut K, source: &Module, op: u32) -> Result<(), Failed>
    requires { out.old.failed ≡ false }
    ensures { Puts (K.taken sink.old) out.old (op_text source.now op) result (K.taken sink.new) out.new }
{
    match source.ops.get(op as usize) {
        Some(decl) => put_text(out, sink, &decl.name),
        None => out.put(sink, b""),
    }
}

fn put_call_arguments<K: Sink>(out: &mut Out, sink: &mut K, call: &Call) -> Result<(), Failed>
    requires { out.old.failed ≡ false }
    ensures { Puts (K.taken sink.old) out.old (flat_map argument_text call.now.args) result (K.taken sink.new) out.new }
{
    put_arguments(out, sink, call.args.as_slice())
}

fn put_call<K: Sink>(
    out: &mut Out,
    sink: &mut K,
    source: &Module,
    call: &Call,
) -> Result<(), Failed>
    requires { out.old.failed ≡ false }
    ensures { Puts (K.taken sink.old) out.old (call_text source.now call.now) result (K.taken sink.new) out.new }
{
    put_op(out, sink, source, call.op)?;
    put_call_arguments(out, sink, call)
}

/// The operation of a caller with this index, both counted from 1.
pub fn call_of<'a>(files: &'a [Calls], caller: u32, index: u32) -> Option<&'a Call>
    ensures { option_copied result ≡ call_at files.now caller index }
{
    if caller == 0 || index == 0 {
        return None;
    }
    match files.get(caller as usize - 1) {
        Some(calls) => calls.get(index as usize - 1),
        None => None,
    }
}

fn put_call_of<K: Sink>(
    out: &mut Out,
    sink: &mut K,
    source: &Module,
    files: &[Calls],
    entry: &Entry,
) -> Result<(), Failed>
    requires { out.old.failed ≡ false }
    ensures { Puts (K.taken sink.old) out.old (option_map_or (call_text source.now) (call_at files.now entry.now.caller entry.now.index) []) result (K.taken sink.new) out.new }
{
    match call_of(files, entry.caller, entry.index) {
        Some(call) => put_call(out, sink, source, call),
        None => out.put(sink, b""),
    }
}

// Puts the place of an entry, as `TICKET CALLER.INDEX`.
fn put_place<K: Sink>(out: &mut Out, sink: &mut K, entry: &Entry) -> Result<(), Failed>
    requires { out.old.failed ≡ false }
    ensures { Puts (K.taken sink.old) out.old (place_text entry.now) result (K.taken sink.new) out.new }
{
    out.put_number(sink, entry.ticket)?;
    out.put(sink, b" ")?;
    put_dotted(out, sink, entry.caller as u64, entry.index)
}

fn put_history_line<K: Sink>(
    out: &mut Out,
    sink: &mut K,
    source: &Module,
    files: &[Calls],
    entry: &Entry,
) -> Result<(), Failed>
    requires { out.old.failed ≡ false }
    ensures { Puts (K.taken sink.old) out.old (history_line source.now files.now entry.now) result (K.taken sink.new) out.new }
{
    put_place(out, sink, entry)?;
    out.put(sink, b" ")?;
    put_call_of(out, sink, source, files, entry)?;
    out.put(sink, b"\n")
}

fn put_history_lines<K: Sink>(
    out: &mut Out,
    sink: &mut K,
    source: &Module,
    files: &[Calls],
    entries: &[Entry],
) -> Result<(), Failed>
    requires { out.old.failed ≡ false }
    ensures { Puts (K.taken sink.old) out.old (flat_map (history_line source.now files.now) entries.now) result (K.taken sink.new) out.new }
{
    'entries: for i in 0..entries.len() {
        put_history_line(out, sink, source, files, &entries[i])?;
    }
    Ok(())
}

// Puts the lines of each caller's operations.
fn put_all_answer_lines<K: Sink>(
    out: &mut Out,
    sink: &mut K,
    files: &[Calls],
    history: &History,
    refusals: &[Items<Refusal>],
) -> Result<(), Failed>
    requires works { out.old.failed ≡ false }
    requires few { AreFew files.now }
    requires by_caller { AreByCaller refusals.now }
    requires covers { Covers files.now history.now.entries (joined refusals.now) }
    ensures { Puts (K.taken sink.old) out.old (each_from (answer_lines history.now.entries (joined refusals.now)) 1 files.now) result (K.taken sink.new) out.new }
{
    'callers: for i in 0..files.len() {
        put_answer_lines(out, sink, history, refusals, i as u32 + 1, &files[i])?;
    }
    Ok(())
}

// The number of operations in all files.
fn count_calls(files: &[Calls]) -> usize
    requires { AreFew files.now }
    ensures { result ≡ sum_by length files.now }
{
    let mut count = 0;
    'callers: for i in 0..files.len() {
        count += files[i].len();
    }
    count
}

/// Puts the number of operations, and a line for each.
pub fn put_answers<K: Sink>(
    out: &mut Out,
    sink: &mut K,
    files: &[Calls],
    history: &History,
    refusals: &[Items<Refusal>],
) -> Result<(), Failed>
    requires works { out.old.failed ≡ false }
    requires few { AreFew files.now }
    requires by_caller { AreByCaller refusals.now }
    requires covers { Covers files.now history.now.entries (joined refusals.now) }
    ensures { Puts (K.taken sink.old) out.old (answers_part files.now history.now.entries (joined refusals.now)) result (K.taken sink.new) out.new }
{
    put_head(out, sink, b"answers ", count_calls(files))?;
    put_all_answer_lines(out, sink, files, history, refusals)
}

/// Puts the number of entries, and a line for each.
pub fn put_history<K: Sink>(
    out: &mut Out,
    sink: &mut K,
    source: &Module,
    files: &[Calls],
    entries: &[Entry],
) -> Result<(), Failed>
    requires { out.old.failed ≡ false }
    ensures { Puts (K.taken sink.old) out.old (history_part source.now files.now entries.now) result (K.taken sink.new) out.new }
{
    put_head(out, sink, b"history ", entries.len())?;
    put_history_lines(out, sink, source, files, entries)
}

//! The schedule that a text says, or its first fault.

ghost use Rattle.std.specs.Prelude.{◌≡◌, ◌≢◌, ◌≤◌, ◌+◌, List, length, IfOk, IfErr, MatchResult, OnOk, []};
ghost use Rattle.dl_syntax.specs.Line.{digits_of, words_of, lines_of};
ghost use Rattle.dl_schedule.specs.declared.give.Give.{Give as GiveOf};
ghost use Rattle.dl_schedule.specs.declared.give.ScheduleFault.{ScheduleFault as FaultOf};
ghost use Rattle.dl_schedule.specs.Reading as spec;
ghost use Rattle.dl_schedule.specs.Reading.{Gives, times_of, is_number};
ghost use Rattle.dl_schedule.specs.Rules.{AreGivesOf, SpellsSchedule, IsScheduleFault, with_give, steps_in};

use crate::give::{Give, Schedule, ScheduleFault};
use dl_syntax::{before_comment, digits_up_to, first_line, is_digit, next_word, wrong_byte};
use sqlite_items::Items;
use std::alloc::{AllocError, Global};

/// How many steps a schedule may give in all.
const MAX_STEPS: u32 = 1_000_000;

fn byte_fault(line: u32, byte: u8) -> ScheduleFault
    ensures { result ≡ spec.byte_fault line byte }
{
    if byte >= 128 {
        ScheduleFault::NotAscii { line }
    } else {
        ScheduleFault::BadByte { line }
    }
}

/// Whether a word is a number: one digit or more, and nothing else.
fn is_number(word: &[u8]) -> bool
    ensures { result ≡ is_number (digits_of word.now) }
{
    for byte in word {
        if !is_digit(*byte) {
            return false;
        }
    }
    !word.is_empty()
}

/// What two words say behind so many steps: to which caller, and how many.
fn give_of_step(
    callers: u32,
    line: u32,
    before: u32,
    first: &[u8],
    second: &[u8],
) -> Result<Option<Give>, ScheduleFault>
    requires { before ≤ 1000000 }
    ensures { result ≡ spec.give_of_numbers callers line before (digits_of first.now) (digits_of second.now) }
{
    let times = digits_up_to(second, MAX_STEPS as u64).unwrap_or(0) as u32;
    if times == 0 || !is_number(first) {
        return Err(ScheduleFault::BadStep { line });
    }
    let caller = digits_up_to(first, callers as u64).unwrap_or(0) as u32;
    if caller == 0 {
        return Err(ScheduleFault::NoCaller { line });
    }
    if times > MAX_STEPS - before {
        return Err(ScheduleFault::TooMany { line });
    }
    Ok(Some(Give { caller, times }))
}

/// What the words of a line say behind so many steps.
fn give_of_words(
    callers: u32,
    line: u32,
    before: u32,
    words: &[u8],
) -> Result<Option<Give>, ScheduleFault>
    requires { before ≤ 1000000 }
    ensures { result ≡ spec.give_of_words callers line before (words_of words.now) }
{
    let Some((first, behind)) = next_word(words) else {
        return Ok(None);
    };
    let Some((second, rest)) = next_word(behind) else {
        return Err(ScheduleFault::BadStep { line });
    };
    match next_word(rest) {
        Some(_) => Err(ScheduleFault::BadStep { line }),
        None => give_of_step(callers, line, before, first, second),
    }
}

/// What a line says behind so many steps.
fn give_of_line(
    callers: u32,
    line: u32,
    before: u32,
    text: &[u8],
) -> Result<Option<Give>, ScheduleFault>
    requires { before ≤ 1000000 }
    ensures { result ≡ spec.give_of_line callers line before text.now }
{
    match wrong_byte(text) {
        Some(byte) => Err(byte_fault(line, byte)),
        None => give_of_words(callers, line, before, before_comment(text)),
    }
}

/// How many steps a line gives.
fn times_of(give: Option<Give>) -> u32
    ensures { result ≡ times_of give }
{
    match give {
        Some(give) => give.times,
        None => 0,
    }
}

/// Adds what a line gives, if it gives something.
fn add_give(gives: &mut Schedule, give: Option<Give>) -> Result<(), AllocError>
    ensures { OnOk result (gives.new ≡ with_give gives.old give) }
{
    match give {
        Some(give) => gives.push(give),
        None => Ok(()),
    }
}

/// What the lines of a text give.
fn gives_of(alloc: Global, bytes: &[u8], callers: u32) -> Result<Schedule, ScheduleFault>
    requires { length bytes.now ≤ 4294967294 }
    ensures { Gives (spec.gives_from callers 1 [] (lines_of bytes.now)) result }
{
    let mut gives = Items::new(alloc);
    let mut steps: u32 = 0;
    let mut line: u32 = 1;
    let mut rest = bytes;
    while !rest.is_empty() {
        let (text, more) = first_line(rest);
        let give = give_of_line(callers, line, steps, text)?;
        add_give(&mut gives, give)?;
        steps += times_of(give);
        rest = more;
        line += 1;
    }
    Ok(gives)
}

/// Reads the schedule of so many callers: a caller and a number of steps a line. The first line at fault decides; at a
/// fault nothing is answered of the lines before it.
pub fn read_schedule(alloc: Global, bytes: &[u8], callers: u32) -> Result<Schedule, ScheduleFault>
    requires { length bytes.now ≤ 4294967294 }

    // What is read is said so, and what is said so is read, unless memory runs out.
    ensures found { IfOk result (SpellsSchedule callers bytes.now) }
    ensures only { (gives : List GiveOf) → SpellsSchedule callers bytes.now gives → MatchResult result (λ found. found ≡ gives) (λ fault. fault ≡ ScheduleFault.Memory) }

    // A fault is the first one, and where there is one it is answered.
    ensures fault { IfErr result (λ fault. fault ≢ ScheduleFault.Memory → IsScheduleFault callers bytes.now fault) }
    ensures only_fault { (fault : FaultOf) → IsScheduleFault callers bytes.now fault → MatchResult result (λ _. ⊥) (λ found. found ≢ ScheduleFault.Memory → found ≡ fault) }

    ensures in_range { IfOk result (AreGivesOf callers) }
{
    gives_of(alloc, bytes, callers)
}

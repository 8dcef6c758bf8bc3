//! The pieces of which the lines of a report are made.

ghost use Rattle.std.specs.Prelude.{◌≡◌, ◌++◌, codes, decimal, false};
ghost use Rattle.std.specs.Fmt.{signed_decimal};
ghost use Rattle.std.specs.List.{flat_map};
ghost use Rattle.dl_text.specs.Writing.{Puts};
ghost use Rattle.dl_history.specs.Report.{dotted, name_text, end_text, breach_text, emitted_text, answer_text, shortage_text, refusal_text, head_line, argument_text, value_text};

use dl_ir::{Answer, Emits, End, Name, Refusal, Text, Value};
use dl_text::{Failed, Out, Sink};

/// Puts two numbers with a dot between them.
pub fn put_dotted<K: Sink>(
    out: &mut Out,
    sink: &mut K,
    first: u64,
    second: u32,
) -> Result<(), Failed>
    requires { out.old.failed ≡ false }
    ensures { Puts (K.taken sink.old) out.old (dotted first second) result (K.taken sink.new) out.new }
{
    out.put_number(sink, first)?;
    out.put(sink, b".")?;
    out.put_number(sink, second)
}

/// Puts a name as `TICKET.INDEX`.
pub fn put_name<K: Sink>(out: &mut Out, sink: &mut K, name: Name) -> Result<(), Failed>
    requires { out.old.failed ≡ false }
    ensures { Puts (K.taken sink.old) out.old (name_text name) result (K.taken sink.new) out.new }
{
    put_dotted(out, sink, name.ticket, name.index)
}

/// Puts a word with a space behind it, a number and the end of the line.
pub fn put_head<K: Sink>(
    out: &mut Out,
    sink: &mut K,
    word: &[u8],
    count: usize,
) -> Result<(), Failed>
    requires { out.old.failed ≡ false }
    ensures { Puts (K.taken sink.old) out.old (head_line word.now count) result (K.taken sink.new) out.new }
{
    out.put(sink, word)?;
    out.put_number(sink, count)?;
    out.put(sink, b"\n")
}

/// Puts a number that may be negative.
pub fn put_integer<K: Sink>(out: &mut Out, sink: &mut K, number: &i64) -> Result<(), Failed>
    requires { out.old.failed ≡ false }
    ensures { Puts (K.taken sink.old) out.old (signed_decimal number.now) result (K.taken sink.new) out.new }
{
    out.put_number(sink, *number)
}

/// Puts a name of a declaration.
pub fn put_text<K: Sink>(out: &mut Out, sink: &mut K, text: &Text) -> Result<(), Failed>
    requires { out.old.failed ≡ false }
    ensures { Puts (K.taken sink.old) out.old text.now result (K.taken sink.new) out.new }
{
    out.put(sink, text.as_slice())
}

/// Puts a number behind a space.
pub fn put_argument<K: Sink>(out: &mut Out, sink: &mut K, argument: &i64) -> Result<(), Failed>
    requires { out.old.failed ≡ false }
    ensures { Puts (K.taken sink.old) out.old (argument_text argument.now) result (K.taken sink.new) out.new }
{
    out.put(sink, b" ")?;
    put_integer(out, sink, argument)
}

/// Puts a value: a number, a name, or `-` for null.
pub fn put_value<K: Sink>(out: &mut Out, sink: &mut K, value: Value) -> Result<(), Failed>
    requires { out.old.failed ≡ false }
    ensures { Puts (K.taken sink.old) out.old (value_text value) result (K.taken sink.new) out.new }
{
    match value {
        Value::Int(number) => out.put_number(sink, number),
        Value::Ref(None) => out.put(sink, b"-"),
        Value::Ref(Some(name)) => put_name(out, sink, name),
    }
}

/// Puts numbers, each behind a space.
pub fn put_arguments<K: Sink>(out: &mut Out, sink: &mut K, arguments: &[i64]) -> Result<(), Failed>
    requires { out.old.failed ≡ false }
    ensures { Puts (K.taken sink.old) out.old (flat_map argument_text arguments.now) result (K.taken sink.new) out.new }
{
    'arguments: for i in 0..arguments.len() {
        put_argument(out, sink, &arguments[i])?;
    }
    Ok(())
}

/// Puts an answer: how the operation ended, its breach, where there is one, and the numbers that it emitted.
pub fn put_answer<K: Sink>(out: &mut Out, sink: &mut K, answer: &Answer) -> Result<(), Failed>
    requires { out.old.failed ≡ false }
    ensures { Puts (K.taken sink.old) out.old (answer_text answer.now) result (K.taken sink.new) out.new }
{
    put_end(out, sink, answer.end)?;
    put_breach(out, sink, answer.breach)?;
    put_emitted(out, sink, &answer.emitted)
}

fn put_end<K: Sink>(out: &mut Out, sink: &mut K, end: End) -> Result<(), Failed>
    requires { out.old.failed ≡ false }
    ensures { Puts (K.taken sink.old) out.old (end_text end) result (K.taken sink.new) out.new }
{
    match end {
        End::Ok(number) => put_ok(out, sink, &number),
        End::Null => out.put(sink, b"null"),
        End::Overflow => out.put(sink, b"overflow"),
        End::DivZero => out.put(sink, b"divzero"),
        End::Fuel => out.put(sink, b"fuel"),
        End::Quota => out.put(sink, b"quota"),
        End::Emits => out.put(sink, b"emits"),
        End::Sealed(name) => put_named(out, sink, b"sealed ", name),
    }
}

fn put_ok<K: Sink>(out: &mut Out, sink: &mut K, number: &i64) -> Result<(), Failed>
    requires { out.old.failed ≡ false }
    ensures { Puts (K.taken sink.old) out.old (codes "ok " ++ signed_decimal number.now) result (K.taken sink.new) out.new }
{
    out.put(sink, b"ok ")?;
    put_integer(out, sink, number)
}

// Puts a word and a name.
fn put_named<K: Sink>(out: &mut Out, sink: &mut K, word: &[u8], name: Name) -> Result<(), Failed>
    requires { out.old.failed ≡ false }
    ensures { Puts (K.taken sink.old) out.old (word.now ++ name_text name) result (K.taken sink.new) out.new }
{
    out.put(sink, word)?;
    put_name(out, sink, name)
}

fn put_breach<K: Sink>(out: &mut Out, sink: &mut K, breach: Option<Name>) -> Result<(), Failed>
    requires { out.old.failed ≡ false }
    ensures { Puts (K.taken sink.old) out.old (breach_text breach) result (K.taken sink.new) out.new }
{
    match breach {
        None => out.put(sink, b""),
        Some(name) => put_named(out, sink, b" breach ", name),
    }
}

fn put_emitted<K: Sink>(out: &mut Out, sink: &mut K, emitted: &Emits) -> Result<(), Failed>
    requires { out.old.failed ≡ false }
    ensures { Puts (K.taken sink.old) out.old (emitted_text emitted.now) result (K.taken sink.new) out.new }
{
    if emitted.is_empty() {
        return out.put(sink, b"");
    }
    put_some_emitted(out, sink, emitted.as_slice())
}

fn put_some_emitted<K: Sink>(out: &mut Out, sink: &mut K, numbers: &[i64]) -> Result<(), Failed>
    requires { out.old.failed ≡ false }
    ensures { Puts (K.taken sink.old) out.old (codes " emit" ++ flat_map argument_text numbers.now) result (K.taken sink.new) out.new }
{
    out.put(sink, b" emit")?;
    put_arguments(out, sink, numbers)
}

/// Puts what stands in place of an answer where an operation was refused.
pub fn put_refusal<K: Sink>(out: &mut Out, sink: &mut K, refusal: Refusal) -> Result<(), Failed>
    requires { out.old.failed ≡ false }
    ensures { Puts (K.taken sink.old) out.old (refusal_text refusal) result (K.taken sink.new) out.new }
{
    put_shortage(out, sink, refusal)?;
    out.put(sink, b" version ")?;
    out.put_number(sink, refusal.version)
}

fn put_shortage<K: Sink>(out: &mut Out, sink: &mut K, refusal: Refusal) -> Result<(), Failed>
    requires { out.old.failed ≡ false }
    ensures { Puts (K.taken sink.old) out.old (shortage_text refusal) result (K.taken sink.new) out.new }
{
    out.put(sink, b"noroom need ")?;
    out.put_number(sink, refusal.need)?;
    out.put(sink, b" found ")?;
    out.put_number(sink, refusal.found)
}

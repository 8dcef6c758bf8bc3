// The lines of a trace are put, piece by piece.
ghost use Rattle.std.specs.Prelude.{◌≡◌, ◌++◌, codes, decimal, false};
ghost use Rattle.dl_text.specs.Writing.{Puts};
ghost use Rattle.dl_trace.specs.Lines.{word_number, word_root, word_name, word_lock, word_field, field_text, two_numbers, event_text, spaced_answer, progress_text, step_line};

use dl_core::{Core, Event, Lock, Progress};
use dl_history::{put_answer, put_dotted, put_name};
use dl_ir::{Answer, Entry, Name};
use dl_text::{Failed, Out, Sink};

fn put_word_number<K: Sink>(
    out: &mut Out,
    sink: &mut K,
    word: &[u8],
    number: u64,
) -> Result<(), Failed>
    requires { out.old.failed ≡ false }
    ensures { Puts (K.taken sink.old) out.old (word_number word.now number) result (K.taken sink.new) out.new }
{
    out.put(sink, word)?;
    out.put_number(sink, number)
}

fn put_word_root<K: Sink>(out: &mut Out, sink: &mut K, word: &[u8], root: u32) -> Result<(), Failed>
    requires { out.old.failed ≡ false }
    ensures { Puts (K.taken sink.old) out.old (word_root word.now root) result (K.taken sink.new) out.new }
{
    out.put(sink, word)?;
    put_dotted(out, sink, 0, root)
}

fn put_word_name<K: Sink>(
    out: &mut Out,
    sink: &mut K,
    word: &[u8],
    name: Name,
) -> Result<(), Failed>
    requires { out.old.failed ≡ false }
    ensures { Puts (K.taken sink.old) out.old (word_name word.now name) result (K.taken sink.new) out.new }
{
    out.put(sink, word)?;
    put_name(out, sink, name)
}

fn put_field<K: Sink>(
    out: &mut Out,
    sink: &mut K,
    core: &Core,
    name: Name,
    field: u32,
) -> Result<(), Failed>
    requires { out.old.failed ≡ false }
    ensures { Puts (K.taken sink.old) out.old (field_text core.now.code.source core.now.state.world.heap name field) result (K.taken sink.new) out.new }
{
    out.put(sink, b" ")?;
    out.put(sink, core.field_name(name, field))
}

fn put_word_field<K: Sink>(
    out: &mut Out,
    sink: &mut K,
    core: &Core,
    word: &[u8],
    name: Name,
    field: u32,
) -> Result<(), Failed>
    requires { out.old.failed ≡ false }
    ensures { Puts (K.taken sink.old) out.old (word_field core.now.code.source core.now.state.world.heap word.now name field) result (K.taken sink.new) out.new }
{
    put_word_name(out, sink, word, name)?;
    put_field(out, sink, core, name, field)
}

fn put_two_numbers<K: Sink>(
    out: &mut Out,
    sink: &mut K,
    word: &[u8],
    number: u64,
    behind: &[u8],
    last: u64,
) -> Result<(), Failed>
    requires { out.old.failed ≡ false }
    ensures { Puts (K.taken sink.old) out.old (two_numbers word.now number behind.now last) result (K.taken sink.new) out.new }
{
    put_word_number(out, sink, word, number)?;
    put_word_number(out, sink, behind, last)
}

// Puts what is said of an event, behind which the machine is in this state.
fn put_event<K: Sink>(out: &mut Out, sink: &mut K, core: &Core, event: Event) -> Result<(), Failed>
    requires { out.old.failed ≡ false }
    ensures { Puts (K.taken sink.old) out.old (event_text core.now.code.source core.now.state.world.heap event) result (K.taken sink.new) out.new }
{
    match event {
        Event::Reserve { need, version } => {
            put_two_numbers(out, sink, b"reserve ", need as u64, b" version ", version)
        }
        Event::TakeRoot { root } => put_word_root(out, sink, b"root ", root),
        Event::Enter { ticket } => put_word_number(out, sink, b"enter ", ticket),
        Event::Read { name, field } => put_word_field(out, sink, core, b"read ", name, field),
        Event::Write { name, field } => put_word_field(out, sink, core, b"write ", name, field),
        Event::Take { name } => put_word_name(out, sink, b"take ", name),
        Event::SeeSealed { name } => put_word_name(out, sink, b"sealed ", name),
        Event::LetGo { name } => put_word_name(out, sink, b"letgo ", name),
        Event::GiveUp { name } => put_word_name(out, sink, b"giveup ", name),
        Event::Seal { name } => put_word_name(out, sink, b"seal ", name),
        Event::Make { name } => put_word_name(out, sink, b"make ", name),
    }
}

fn put_word_lock<K: Sink>(
    out: &mut Out,
    sink: &mut K,
    word: &[u8],
    lock: Lock,
) -> Result<(), Failed>
    requires { out.old.failed ≡ false }
    ensures { Puts (K.taken sink.old) out.old (word_lock word.now lock) result (K.taken sink.new) out.new }
{
    match lock {
        Lock::Turn | Lock::Place(_) => out.put(sink, word),
        Lock::Root(root) => put_word_root(out, sink, word, root),
        Lock::Object(name) => put_word_name(out, sink, word, name),
    }
}

fn put_wait<K: Sink>(out: &mut Out, sink: &mut K, lock: Lock, by: u32) -> Result<(), Failed>
    requires { out.old.failed ≡ false }
    ensures { Puts (K.taken sink.old) out.old (word_lock (codes "wait ") lock ++ word_number (codes " by ") by) result (K.taken sink.new) out.new }
{
    put_word_lock(out, sink, b"wait ", lock)?;
    put_word_number(out, sink, b" by ", by as u64)
}

fn put_noroom<K: Sink>(
    out: &mut Out,
    sink: &mut K,
    need: u32,
    found: u32,
    version: u64,
) -> Result<(), Failed>
    requires { out.old.failed ≡ false }
    ensures { Puts (K.taken sink.old) out.old (word_number (codes "noroom need ") need ++ two_numbers (codes " found ") found (codes " version ") version) result (K.taken sink.new) out.new }
{
    put_word_number(out, sink, b"noroom need ", need as u64)?;
    put_two_numbers(out, sink, b" found ", found as u64, b" version ", version)
}

fn put_spaced_answer<K: Sink>(out: &mut Out, sink: &mut K, answer: Answer) -> Result<(), Failed>
    requires { out.old.failed ≡ false }
    ensures { Puts (K.taken sink.old) out.old (spaced_answer answer) result (K.taken sink.new) out.new }
{
    out.put(sink, b" ")?;
    put_answer(out, sink, &answer)
}

fn put_finish<K: Sink>(out: &mut Out, sink: &mut K, entry: Entry) -> Result<(), Failed>
    requires { out.old.failed ≡ false }
    ensures { Puts (K.taken sink.old) out.old (word_number (codes "finish ") entry.ticket ++ spaced_answer entry.answer) result (K.taken sink.new) out.new }
{
    put_word_number(out, sink, b"finish ", entry.ticket)?;
    put_spaced_answer(out, sink, entry.answer)
}

fn put_progress<K: Sink>(
    out: &mut Out,
    sink: &mut K,
    core: &Core,
    progress: Progress,
) -> Result<(), Failed>
    requires { out.old.failed ≡ false }
    ensures { Puts (K.taken sink.old) out.old (progress_text core.now.code.source core.now.state.world.heap progress) result (K.taken sink.new) out.new }
{
    match progress {
        Progress::Moved(event) => put_event(out, sink, core, event),
        Progress::Waiting { lock, by } => put_wait(out, sink, lock, by),
        Progress::Refused {
            need,
            found,
            version,
        } => put_noroom(out, sink, need, found, version),
        Progress::Done { entry } => put_finish(out, sink, entry),
        Progress::Idle => out.put(sink, b"idle"),
        Progress::Looked { .. } => out.put(sink, b"looked"),
        Progress::Raced { .. } => out.put(sink, b"raced"),
    }
}

/// Puts the line of a step of a caller, behind which the machine is in this state.
pub fn put_step_line<K: Sink>(
    out: &mut Out,
    sink: &mut K,
    core: &Core,
    caller: u32,
    progress: Progress,
) -> Result<(), Failed>
    requires { out.old.failed ≡ false }
    ensures { Puts (K.taken sink.old) out.old (step_line core.now.code.source core.now.state.world.heap caller progress) result (K.taken sink.new) out.new }
{
    out.put_number(sink, caller)?;
    out.put(sink, b" ")?;
    put_progress(out, sink, core, progress)?;
    out.put(sink, b"\n")
}

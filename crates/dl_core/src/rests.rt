// How a call leaves a caller's hand.
ghost use Rattle.std.specs.Prelude.{◌≡◌, ◌<◌, ◌++◌, ◌∷◌, [], length};
ghost use Rattle.std.specs.FinMap as finite;
ghost use Rattle.dl_core.specs.Frames.{at_rest};
ghost use Rattle.dl_instr.specs.declared.code.Code.{Code};
ghost use Rattle.dl_core.specs.Accounts.{shown_account};
ghost use Rattle.dl_core.specs.Core.{entry_of as entry_with};
ghost use Rattle.dl_core.specs.Events.{refused as refuses, finished as finishes, finish_of};
ghost use Rattle.dl_core.specs.Shown.{shown, memory_of, CanGoOn, HasTurns};

use crate::frames::Frame;
use crate::stages::Stage;
use dl_ir::{Answer, Emits, End, Entry, Refusal};

// No call is in hand.
fn rest(frame: &mut Frame)
    requires { frame.old.book.rows ≡ finite.empty }
    ensures shown { shown frame.new ≡ at_rest frame.old.index (shown frame.old).finished }
    ensures account { shown_account frame.new ≡ shown_account frame.old }
    ensures entries { frame.new.entries ≡ frame.old.entries }
    ensures can { (code : Code) → HasTurns code → CanGoOn code frame.old → CanGoOn code frame.new }
    ensures memory { memory_of frame.new ≡ memory_of frame.old }
{
    frame.stage = Stage::Idle;
    frame.op = 0;
    frame.args.clear();
    frame.roots.clear();
    frame.taken = 0;
    frame.ticket = 0;
    frame.place = 0;
    frame.locals.clear();
    frame.hand = None;
    frame.turns = 0;
    frame.made = 0;
    frame.emitted = Emits::new();
    frame.spares = 0;
    frame.loose.clear();
    frame.cursor = 0;
    frame.seen = false;
    frame.breach = None;
}

/// The call was refused.
pub fn refused(refusal: Refusal, frame: &mut Frame)
    requires book { frame.old.book.rows ≡ finite.empty }
    requires room { length frame.old.refusals.items < frame.old.refusals.room }
    ensures shown { shown frame.new ≡ refuses (shown frame.old) }
    ensures account { shown_account frame.new ≡ record (shown_account frame.old) { refusals = (shown_account frame.old).refusals ++ refusal ∷ [] } }
    ensures entries { frame.new.entries ≡ frame.old.entries }
    ensures can { (code : Code) → HasTurns code → CanGoOn code frame.old → CanGoOn code frame.new }
    ensures memory { memory_of frame.new ≡ memory_of frame.old }
{
    frame.refusals.push(refusal);
    rest(frame);
}

/// The entry of an operation that ended so, and whose return made this version; 0 where it returned nothing.
pub fn entry_of(caller: u32, end: End, returned_at: u64, frame: &Frame) -> Entry
    ensures { result ≡ entry_with caller (finish_of end (shown frame.now), record { reserved_at = frame.now.reserved_at; returned_at = returned_at }) }
{
    Entry {
        ticket: frame.ticket,
        caller,
        index: frame.index,
        answer: Answer {
            end,
            breach: frame.breach,
            emitted: frame.emitted,
        },
        reserved_at: frame.reserved_at,
        returned: frame.spares,
        returned_at,
    }
}

/// The operation is finished, and the caller has no call in hand.
pub fn finished(caller: u32, end: End, returned_at: u64, frame: &mut Frame) -> Entry
    requires book { frame.old.book.rows ≡ finite.empty }
    requires room { length frame.old.entries.items < frame.old.entries.room }
    ensures entry { result ≡ entry_with caller (finish_of end (shown frame.old), record { reserved_at = frame.old.reserved_at; returned_at = returned_at }) }
    ensures shown { shown frame.new ≡ finishes end (shown frame.old) }
    ensures account { shown_account frame.new ≡ record (shown_account frame.old) { reserved_at = 0; versions = (shown_account frame.old).versions ++ record { reserved_at = frame.old.reserved_at; returned_at = returned_at } ∷ [] } }
    ensures entries { frame.new.entries.items ≡ frame.old.entries.items ++ result ∷ [] }
    ensures can { (code : Code) → HasTurns code → CanGoOn code frame.old → CanGoOn code frame.new }
    ensures memory { memory_of frame.new ≡ memory_of frame.old }
{
    let entry = entry_of(caller, end, returned_at, frame);
    let kept = entry;
    frame.entries.push(kept);
    frame.reserved_at = 0;
    rest(frame);
    entry
}

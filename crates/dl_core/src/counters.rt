// Events that change the numbers that all callers share.
ghost use Rattle.std.specs.Prelude.{◌≡◌, ℕ, List, ◌+◌, ◌<◌, ◌^◌, get_or, set, nat_lt, if◌then◌else◌};
ghost use Rattle.dl_instr.specs.declared.code.Code.{Code};
ghost use Rattle.dl_core.specs.Accounts.{shown_account};
ghost use Rattle.dl_core.specs.Core.{Account, asks, enters, finishes, no_account};
ghost use Rattle.dl_core.specs.Frames.{Frame as Pure};
ghost use Rattle.dl_core.specs.Heaps.{Heap};
ghost use Rattle.dl_core.specs.Parts.{CanAsk, CanEnter, CanFinish, CanMove, HasOwn, core_by, given_back};
ghost use Rattle.dl_core.specs.Plans.{Plan};
ghost use Rattle.dl_core.specs.Shown.{shown, memory_of, CanGoOn, HasTurns};

use crate::answers::{Event, Progress};
use crate::calls::entered;
use crate::effects::reserved;
use crate::frames::Frame;
use crate::rests::{finished, refused};
use dl_instr::Code;
use dl_ir::{End, Refusal};

/// The numbers that all callers share.
#[derive(Clone, Copy, Debug)]
pub struct Counters {
    /// The last ticket drawn.
    pub clock: u64,
    /// The version of the pool.
    pub version: u64,
    /// How many places are free.
    pub free: u32,
}

/// Places are reserved, or the call is refused where fewer are free.
pub fn reserve(need: u32, caller: u32, counters: &mut Counters, frame: &mut Frame) -> Progress
    requires { CanAsk frame.old counters.old }
    ensures core { (heap : Heap) (frames : List Pure) (accounts : List Account) → get_or accounts caller no_account ≡ shown_account frame.old → (core_by heap (set frames caller (shown frame.new)) (set accounts caller (shown_account frame.new)) counters.new, result) ≡ asks (core_by heap frames accounts counters.old) caller (shown frame.old) need }
    ensures entries { frame.new.entries ≡ frame.old.entries }
    ensures can { (code : Code) → HasTurns code → CanGoOn code frame.old → CanGoOn code frame.new }
    ensures memory { memory_of frame.new ≡ memory_of frame.old }
{
    if counters.free < need {
        let refusal = Refusal {
            caller,
            index: frame.index,
            need,
            found: counters.free,
            version: counters.version,
        };
        refused(refusal, frame);
        return Progress::Refused {
            need,
            found: counters.free,
            version: counters.version,
        };
    }
    counters.version += 1;
    counters.free -= need;
    frame.reserved_at = counters.version;
    reserved(need, frame);
    Progress::Moved(Event::Reserve {
        need,
        version: counters.version,
    })
}

/// A ticket is drawn.
pub fn enter(code: &Code, counters: &mut Counters, frame: &mut Frame) -> Progress
    requires can { CanGoOn code.now frame.old }
    requires needs { CanEnter code.now frame.old counters.old }
    ensures core { (plan : Plan) (heap : Heap) (frames : List Pure) (accounts : List Account) (caller : ℕ) → plan.code ≡ code.now → get_or accounts caller no_account ≡ shown_account frame.old → (core_by heap (set frames caller (shown frame.new)) (set accounts caller (shown_account frame.new)) counters.new, result) ≡ enters plan (core_by heap frames accounts counters.old) caller (shown frame.old) }
    ensures entries { frame.new.entries ≡ frame.old.entries }
    ensures can { CanGoOn code.now frame.new }
    ensures memory { memory_of frame.new ≡ memory_of frame.old }
{
    counters.clock += 1;
    let ticket = counters.clock;
    entered(code, ticket, frame);
    Progress::Moved(Event::Enter { ticket })
}

// Places are returned by one move, if there are any. Answers the version that it made, or 0.
fn give_back(count: u32, counters: &mut Counters) -> u64
    requires move_fits { CanMove counters.old }
    requires free { counters.old.free + count < 2 ^ 32 }
    ensures at { result ≡ (if nat_lt 0 count then counters.old.version + 1 else 0) }
    ensures counters { counters.new ≡ given_back count counters.old }
{
    counters.free += count;
    if 0 < count {
        counters.version += 1;
        counters.version
    } else {
        0
    }
}

/// The operation, which ended like this, is finished.
pub fn finish(caller: u32, end: End, counters: &mut Counters, frame: &mut Frame) -> Progress
    requires { CanFinish frame.old counters.old }
    ensures core { (heap : Heap) (frames : List Pure) (accounts : List Account) → get_or accounts caller no_account ≡ shown_account frame.old → (core_by heap (set frames caller (shown frame.new)) (set accounts caller (shown_account frame.new)) counters.new, result) ≡ finishes (core_by heap frames accounts counters.old) caller (shown frame.old) end }
    ensures own { HasOwn caller frame.old → HasOwn caller frame.new }
    ensures can { (code : Code) → HasTurns code → CanGoOn code frame.old → CanGoOn code frame.new }
    ensures memory { memory_of frame.new ≡ memory_of frame.old }
{
    let returned_at = give_back(frame.spares, counters);
    let entry = finished(caller, end, returned_at, frame);
    Progress::Done { entry }
}

// Small changes of a frame: locals, the hand, and what becomes loose.
ghost use Rattle.std.specs.Prelude.{◌≡◌, ◌+◌, ◌<◌, ◌^◌, None, Some, option_map};
ghost use Rattle.std.specs.Option.{option_copied};
ghost use Rattle.std.specs.FinMap as finite;
ghost use Rattle.dl_core.specs.Frames.{is_to_loosen as to_loosen, has_booked as booked_in, loosened, assigned, ended, advanced, gone_to, with_hand, value_in_hand, target_at, target_in_hand};
ghost use Rattle.dl_core.specs.Shown.{shown, rooms_of, HasSpace};

use crate::frames::{Frame, is_among, none_refers, target_in};
use crate::stages::Stage;
use dl_ir::{End, Name, Value};

/// The caller holds the object, no local and at most one field refers to it, and it is not loose yet.
fn is_to_loosen(frame: &Frame, name: Name) -> bool
    ensures { result ≡ to_loosen (shown frame.now) name }
{
    match frame.book.get(name) {
        Some(booked) => {
            booked.fields <= 1
                && none_refers(frame.locals.as_slice(), name)
                && !is_among(name, frame.loose.as_slice())
        }
        None => false,
    }
}

/// The caller holds the object.
pub fn has_booked(frame: &Frame, name: Name) -> bool
    ensures { result ≡ booked_in (shown frame.now) name }
{
    frame.book.get(name).is_some()
}

/// An object from which a local or a field has gone is loose now, where it is to be.
pub fn loosen(frame: &mut Frame, target: Option<Name>)
    requires { HasSpace frame.old }
    ensures shown { shown frame.new ≡ loosened target (shown frame.old) }
    ensures rooms { rooms_of frame.new ≡ rooms_of frame.old }
{
    if let Some(name) = target {
        if is_to_loosen(frame, name) {
            frame.loose.push(name);
        }
    }
}

/// What a local refers to.
pub fn target_of(frame: &Frame, local: u32) -> Option<Name>
    ensures { result ≡ target_at (shown frame.now) local }
{
    dl_meaning::target_at(frame.locals.as_slice(), local)
}

/// A local gets a value.
pub fn assign(frame: &mut Frame, local: u32, value: Value)
    requires { HasSpace frame.old }
    ensures shown { shown frame.new ≡ assigned local value (shown frame.old) }
    ensures rooms { rooms_of frame.new ≡ rooms_of frame.old }
{
    let before = target_of(frame, local);
    frame.locals.set(local as usize, value);
    loosen(frame, before);
}

/// The operation ends.
pub fn end(frame: &mut Frame, end: End)
    ensures shown { shown frame.new ≡ ended end (shown frame.old) }
    ensures rooms { rooms_of frame.new ≡ rooms_of frame.old }
{
    frame.stage = Stage::Ended(end);
    frame.hand = None;
}

/// What the hand holds; null where it is empty.
pub fn held(frame: &Frame) -> Value
    ensures { result ≡ value_in_hand frame.now.hand }
{
    match frame.hand {
        Some(value) => value,
        None => Value::Ref(None),
    }
}

/// What the hand refers to.
pub fn target_held(frame: &Frame) -> Option<Name>
    ensures { result ≡ target_in_hand (shown frame.now) }
{
    match frame.hand {
        Some(value) => target_in(value),
        None => None,
    }
}

// Local steps up to the next event.
ghost use Rattle.std.specs.Prelude.{◌≡◌};
ghost use Rattle.dl_core.specs.LocalSteps.{ready, due as due_in};
ghost use Rattle.dl_core.specs.Plans.{Plan};
ghost use Rattle.dl_core.specs.Shown.{shown, rooms_of, CanGoOn};

use crate::dues::Due;
use crate::frames::Frame;
use crate::going_on::go;
use dl_instr::Code;

/// Carries out local steps up to the next event, and answers that event.
pub fn make_ready(code: &Code, frame: &mut Frame) -> Due
    requires { CanGoOn code.now frame.old }
    ensures can { CanGoOn code.now frame.new }
    ensures ready { (plan : Plan) → plan.code ≡ code.now → shown frame.new ≡ ready plan (shown frame.old) }
    ensures due { (plan : Plan) → plan.code ≡ code.now → result ≡ due_in plan (shown frame.new) }
    ensures rooms { rooms_of frame.new ≡ rooms_of frame.old }
{
    loop {
        match go(code, frame) {
            Some(due) => return due,
            None => {}
        }
    }
}

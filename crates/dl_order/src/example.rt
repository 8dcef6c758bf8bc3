// A small plan, and a run of it by two callers: what the laws ask of plans and states is met.
ghost use Rattle.dl_order.specs.Example.{BothRun, IsExample, OneWaits};

use dl_instr::codes_of_modules;

/// That the small plan is one, that a run of it comes to a state in which a caller has just entered and another waits for it, and
/// that it comes to an end.
pub fn example_runs()
    ensures example { IsExample }
    ensures waits { OneWaits }
    ensures run { BothRun }
{
    codes_of_modules();
}

//! The law that jumps of plain code land.

ghost use Rattle.dl_instr.specs.Jumps.{JumpsOfCodeLand};

/// That every jump of the code of a module lands on a step of its operation.
pub fn jumps_land()
    ensures { JumpsOfCodeLand }
{}

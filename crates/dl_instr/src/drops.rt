//! Laws of the codes of a module.

ghost use Rattle.dl_instr.specs.DropsLaws.{PlainIsCode, JumpsOfCodesLand};

/// That the plain code of a module is a code of it, and that in each code of a module each jump lands on a step of its operation.
pub fn codes_of_modules()
    ensures plain { PlainIsCode }
    ensures jumps { JumpsOfCodesLand }
{}

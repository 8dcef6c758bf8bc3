// What is proved of the machine.
ghost use Rattle.dl_core.specs.Codes.{PlansHaveGoodCode};
ghost use Rattle.dl_core.specs.Laws.{BeginsKeep, EventsDominate, EventsMay, LawfulAlways, LoneRunsAreSerial, LoneRunsEnd, StartsKept, StepsKeep};

/// That every plan has code on which the machine can rest.
pub fn plans_have_good_code()
    ensures { PlansHaveGoodCode }
{}

/// That every event that touches an object does there what a caller may do.
pub fn events_may()
    ensures { EventsMay }
{}

/// That every event keeps to what its caller holds.
pub fn events_dominate()
    ensures { EventsDominate }
{}

/// That all that is to hold of the machine holds where a run starts.
pub fn starts_keep()
    ensures { StartsKept }
{}

/// That every step of a caller keeps all that holds of the machine.
pub fn steps_keep()
    ensures { StepsKeep }
{}

/// That every begin of a call keeps all that holds of the machine.
pub fn begins_keep()
    ensures { BeginsKeep }
{}

/// That all this holds in every state to which a run comes.
pub fn lawful_always()
    ensures { LawfulAlways }
{}

/// That the lone run of an operation that has just entered ends, without a wait, in what the call gives.
pub fn lone_runs_end()
    ensures { LoneRunsEnd }
{}

/// That wherever the lone run of an operation that has just entered ends, it ends in what the call gives.
pub fn lone_runs_are_serial()
    ensures { LoneRunsAreSerial }
{}

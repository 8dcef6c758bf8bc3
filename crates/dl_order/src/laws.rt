// What is proved of every order in which callers are given steps.
ghost use Rattle.dl_order.specs.Ends.{RunsClose, RunsEnd};
ghost use Rattle.dl_order.specs.Found.{AllIsThere, AnswersAreRight, EmptyObjectsComeAndGo, FramesAreReady, HoldersAreCallers, NamesAreGivenOnce, NumbersAreSmall, TakersWait};
ghost use Rattle.dl_order.specs.Measure.{BeginsFall, EachRunCanEnd, EachRunEnds, OldestMoves, OneStepLess, RestsAreOne, SomeoneMoves, StepsFall};
ghost use Rattle.dl_order.specs.OneCaller.{OneCallerIsSerial};
ghost use Rattle.dl_order.specs.Serial.{LoneStepsAreSteps, NoCycle, NoSeal, SerialAlways, WaitsForHigherRoots, WaitsForOlder};

/// That the running operations of each state end, alone and one after another, in the replay of all that entered, in rising
/// tickets.
pub fn serial_always()
    ensures { SerialAlways }
{}

/// That the steps of a caller that has entered are those of its lone run.
pub fn lone_steps_are_steps()
    ensures { LoneStepsAreSteps }
{}

/// That callers never wait for one another in a circle.
pub fn no_cycle()
    ensures { NoCycle }
{}

/// That a caller that has entered waits only for one that entered before it.
pub fn waits_for_older()
    ensures { WaitsForOlder }
{}

/// That a caller that has not entered waits only for a root, and one above all that it holds.
pub fn waits_for_higher_roots()
    ensures { WaitsForHigherRoots }
{}

/// That the running operations of a state, alone and one after another, come to one end, by one number of steps.
pub fn rests_are_one()
    ensures { RestsAreOne }
{}

/// That each step of a caller that has entered takes exactly one step off those that are left.
pub fn one_step_less()
    ensures { OneStepLess }
{}

/// That of the callers that have entered the first one does not wait.
pub fn oldest_moves()
    ensures { OldestMoves }
{}

/// That nothing is sealed, and nothing seen to be sealed, where every serial run ends each operation in a forest.
pub fn no_seal()
    ensures { NoSeal }
{}

/// That where no caller has a call in hand any more the calls begun were run: each stands once, in the history or among the
/// refusals; each answer is that of the serial meaning; the pool is lawful; and the heap is that of the replay.
pub fn runs_end()
    ensures { RunsEnd }
{}

/// That where one caller alone begins operations, each that ends has the answer, and leaves the heap, that its call gives from
/// the heap as it stood when the call began.
pub fn one_caller_is_serial()
    ensures { OneCallerIsSerial }
{}

/// That what is left of a run that is closed when each pass is idle is what the run leaves by the serial meaning.
pub fn runs_close()
    ensures { RunsClose }
{}

/// That where some caller has a call in hand, some caller does not wait.
pub fn someone_moves()
    ensures { SomeoneMoves }
{}

/// That each begin takes one off the calls that may be begun.
pub fn begins_fall()
    ensures { BeginsFall }
{}

/// That each step of a caller that has not entered lowers the number of steps before entries, and that no other step
/// changes it.
pub fn steps_fall()
    ensures { StepsFall }
{}

/// That every run ends, whichever callers are given steps.
pub fn each_run_ends()
    ensures { EachRunEnds }
{}

/// That steps can be given until no caller has a call in hand.
pub fn each_run_can_end()
    ensures { EachRunCanEnd }
{}

/// That what a caller's next event touches is there, unless it is made then, and so is what a frame names and a field refers to.
pub fn all_is_there()
    ensures { AllIsThere }
{}

/// That who holds an object is a caller, and that nobody takes what it holds.
pub fn holders_are_callers()
    ensures { HoldersAreCallers }
{}

/// That no two objects ever get one name.
pub fn names_are_given_once()
    ensures { NamesAreGivenOnce }
{}

/// That an object refers to nothing when it is made, and when it is given up.
pub fn empty_objects_come_and_go()
    ensures { EmptyObjectsComeAndGo }
{}

/// That clock, versions and numbers of places keep far below the ends of their types.
pub fn numbers_are_small()
    ensures { NumbersAreSmall }
{}

/// That what comes next of a caller is an event.
pub fn frames_are_ready()
    ensures { FramesAreReady }
{}

/// That a caller waits only where another holds what its next event takes, stands still only where it has no call in hand, and
/// is refused only where too few places are free.
pub fn answers_are_right()
    ensures { AnswersAreRight }
{}

/// That a caller waits wherever another holds what its next event takes.
pub fn takers_wait()
    ensures { TakersWait }
{}

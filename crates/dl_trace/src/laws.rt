// What is proved of every scheduled run.
ghost use Rattle.dl_trace.specs.Laws.{ScheduledRunsAreOver, ScheduledRunsEnd, ScheduledRunsReach};

/// That whichever callers are given steps, each state is one to which a run comes, with the calls begun so far.
pub fn scheduled_runs_reach()
    ensures { ScheduledRunsReach }
{}

/// That every scheduled run comes to one end.
pub fn scheduled_runs_end()
    ensures { ScheduledRunsEnd }
{}

/// That at its end the calls of all files were run: each stands once, in the history or among the refusals; each answer is
/// that of the serial meaning; the pool is lawful; and the heap is that of the replay.
pub fn scheduled_runs_are_over()
    ensures { ScheduledRunsAreOver }
{}

//! Laws of the machine of all callers: whatever the order in which callers are given steps, the operations leave what they leave
//! one after another.
#![tactic(auto)]

mod example;
mod laws;

pub use dl_core::{lawful_always, lone_runs_are_serial, lone_runs_end};
pub use example::example_runs;
pub use laws::{
    all_is_there, answers_are_right, begins_fall, each_run_can_end, each_run_ends,
    empty_objects_come_and_go, frames_are_ready, holders_are_callers, lone_steps_are_steps,
    names_are_given_once, no_cycle, no_seal, numbers_are_small, oldest_moves, one_caller_is_serial,
    one_step_less, rests_are_one, runs_close, runs_end, serial_always, someone_moves, steps_fall,
    takers_wait, waits_for_higher_roots, waits_for_older,
};

//! The machine of all callers, with one lock for each object: what each event of an operation does to the objects that the
//! callers share and to the caller that makes it. `docs/SEMANTICS.md` tells the rules.
#![tactic(auto)]

mod answers;
mod bits;
mod calls;
mod closes;
mod codes;
mod counters;
mod dues;
mod effects;
mod frames;
mod going;
mod going_on;
mod grounds;
mod laws;
mod lists;
mod machines;
mod objects;
mod openings;
mod queues;
mod ready;
mod recounts;
mod rests;
mod roots;
mod shared;
mod showing;
mod stages;
mod steps;
mod touches;

pub use answers::{Event, Lock, Progress};
pub use dues::Due;
pub use grounds::Ground;
pub use laws::{
    begins_keep, events_dominate, events_may, lawful_always, lone_runs_are_serial, lone_runs_end,
    plans_have_good_code, starts_keep, steps_keep,
};
pub use machines::Core;
pub use objects::{Mark, Object};
pub use stages::{Booked, Finished, Stage, Versions};

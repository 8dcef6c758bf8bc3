//! Early drops: code in which each reference is dropped as soon as no path reads it again. `docs/SEMANTICS.md` tells where the drops stand.
#![tactic(auto)]

mod brought;
mod drops;
mod early;
mod laws;
mod live;
mod marks;

pub use early::early_drops;
pub use laws::drops_are_code;

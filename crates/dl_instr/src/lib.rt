//! The instrumented code of a module: the flat lists of steps that its operations become, and the listing that is printed
//! of them. `docs/SEMANTICS.md` tells what the steps do, and `docs/FORMATS.md` has the form of the listing.
#![tactic(auto)]

mod code;
mod conditions;
mod copies;
mod drops;
mod expressions;
mod generator;
mod laws;
mod listing;
mod liveness;
mod matching;
mod names;
mod plain;
mod same;
mod steps;

pub use code::Code;
pub use copies::{copy_cond, copy_expr};
pub use drops::codes_of_modules;
pub use generator::instrument;
pub use laws::jumps_land;
pub use listing::print_code;
pub use liveness::{is_reference, is_use, reads, sets};
pub use matching::is_code_of;
pub use steps::{Content, Origin, Step, Steps};

//! Tests of the machine of all callers, apart from the crate whose calls they try, so that it is proved once.
#![tactic(auto)]

#[cfg(test)]
mod drops;
#[cfg(test)]
mod inputs;
#[cfg(test)]
mod objects;
#[cfg(test)]
mod runs;
#[cfg(test)]
mod told;
#[cfg(test)]
mod traces;

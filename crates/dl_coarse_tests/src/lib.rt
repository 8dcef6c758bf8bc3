//! Tests of the ground of one turn, apart from the crate whose calls they try, so that it is proved once.
#![tactic(auto)]

#[cfg(test)]
mod freshness;
#[cfg(test)]
mod inputs;
#[cfg(test)]
mod meetings;

//! Tests of replays, apart from the crate whose calls they try, so that it is proved once.
#![tactic(auto)]

#[cfg(test)]
mod histories;

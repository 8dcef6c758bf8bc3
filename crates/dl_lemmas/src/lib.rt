//! Lemmas that speak of no type of this repository, each once. There is no code here: the crates above cite the files in
//! `proofs/`.
#![tactic(auto)]

//! Tests of public calls, apart from the crates whose calls they try, so that each of those is proved once: of the readers
//! and the printers, of the type checker, of codes with added drops, of the heap, of settling, and of merging what several callers did.
#![tactic(auto)]

#[cfg(test)]
mod built_modules;
#[cfg(test)]
mod canonical;
#[cfg(test)]
mod code_drops;
#[cfg(test)]
mod emits;
#[cfg(test)]
mod grammar;
#[cfg(test)]
mod heaps;
#[cfg(test)]
mod listings;
#[cfg(test)]
mod merging;
#[cfg(test)]
mod operation_files;
#[cfg(test)]
mod settling;
#[cfg(test)]
mod typing;

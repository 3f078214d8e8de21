//! Tests of the readers of modules, certificates and traces, of the facts of blocks, and of calls that no command makes. Each returns
//! a plain value, which one assertion compares.
#![tactic(auto)]

#[cfg(test)]
mod anew_tests;
#[cfg(test)]
mod block_tests;
#[cfg(test)]
mod faults;
#[cfg(test)]
mod front_tests;
#[cfg(test)]
mod fronts;
#[cfg(test)]
mod library_tests;
#[cfg(test)]
mod section_tests;
#[cfg(test)]
mod texts;
#[cfg(test)]
mod wide_tests;

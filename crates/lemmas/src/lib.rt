//! Lemmas on truth values, numbers and lists that several crates cite.
#![tactic(auto)]

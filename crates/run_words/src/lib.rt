//! The words of a heap after a run: one operation on one word at a time.
#![tactic(auto)]

mod opening;
mod run_words;

pub use run_words::RunWords;

//! Whether a recorded run of any runtime is a run of the collector's profile, whose threads keep the discipline.
#![tactic(auto)]

mod discipline;
mod operations;
mod record_check;
mod rule;
mod run_check;
mod thread_check;
mod verdict;

pub use record_check::{RecordCheck, conform};
pub use rule::Rule;
pub use verdict::Verdict;

//! A thread's token that anyone may use: each call is tested by the discipline first, and where a step would break it none is made.
#![tactic(auto)]

mod kinds;
mod refusal;
mod tests_of_calls;
mod watched;

pub use refusal::Refusal;
pub use watched::Watched;

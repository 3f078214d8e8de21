//! Stages: how threads answer them and how the collector waits for that; and the law of the threads' steps alone.
#![tactic(auto)]

mod laws;
mod safepoint;
mod waiting;

pub use colours::cycle_of;
pub use laws::{mutator_law, safepoint_law};
pub use safepoint::{Safepoint, answer_safepoint};
pub use waiting::has_answered;

//! What a thread holds and which of it is fresh, followed step by step, so that a step can be tested by the discipline in a few
//! operations, whoever asks for it.
#![tactic(auto)]

mod cell_set;
mod holdings;

pub use cell_set::CellSet;
pub use holdings::{Holdings, others_law};

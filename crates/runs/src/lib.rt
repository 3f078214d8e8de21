//! Runs of a module: threads of one machine and the collector, one atomic step at a time; when the end of a run is broken;
//! and why threads that keep the discipline break none.
#![tactic(auto)]

mod laws;
mod machine;

pub use laws::{
    cause_law, next_move_law, real_thread_law, safety_law, soundness_law, standing_law,
};
pub use machine::{Judged, Machine};

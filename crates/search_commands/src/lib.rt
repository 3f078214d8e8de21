//! The commands `soak` and `hunt`, and the traces that they save.
#![tactic(auto)]

mod counts;
mod found_seeds;
mod hunts;
mod onlooker;
mod pace;
mod searching;
mod shorter;
mod soaking;
mod sources;

pub use counts::tell_happened;
pub use hunts::hunt_files;
pub use onlooker::{Nobody, Onlooker, SoFar};
pub use soaking::soak_files;

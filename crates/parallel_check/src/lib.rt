//! The check of a whole module by several workers. Each checks its share of the functions, and together they find what one finds.
#![tactic(auto)]

mod checking;
mod first;
mod ranges;
mod share;

pub use checking::{check_all, check_seen, check_with};
pub use gate::{Gate, OpenGate};

//! Tables whose rows are found by their numbers.
#![tactic(auto)]

mod buckets;
mod rows;

pub use buckets::Buckets;
pub use rows::{put, row_or};

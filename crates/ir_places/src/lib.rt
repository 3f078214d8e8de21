//! Where the instructions of a function begin: its body is read by the forms of the reader, and how many tokens are left is kept before
//! each phi, each instruction and the end of each block. What is read so is read by the reader's own form of a body.
#![tactic(auto)]

mod places;
mod plainly;

pub use places::{BlockPlaces, body_places};
pub use plainly::is_read_plainly;

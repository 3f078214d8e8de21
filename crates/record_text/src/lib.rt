//! Recorded runs as bytes: 16 for each entry, and what the entries say of the steps of a run, read and written.
#![tactic(auto)]

mod entry;
mod steps;
mod writing;

pub use entry::{ENTRY_BYTES, Entry, RECORD_LIMIT};
pub use steps::{COLLECTOR, Recorded, ThreadStep, read_entry};
pub use writing::{entry_of, put_entry};

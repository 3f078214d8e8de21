//! The steps that a run of a trace makes, as plain data: who makes each, where the thread stands, what it does, and what the root
//! slots hold then. They are told in stretches, so that what is kept does not grow with the run.
#![tactic(auto)]

mod frame_notes;
mod from_outside;
mod log;
mod recording;
mod stretch;
mod upcoming;

pub use log::{FrameNote, LogStep};
pub use stretch::StepLog;
pub use upcoming::Upcoming;

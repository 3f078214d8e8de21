//! The record of a replay: the steps on the heap of the run that a trace makes, as `conform` reads them.
#![tactic(auto)]

mod record_fault;
mod recording;
mod said;
mod writing;

pub use record_fault::RecordFault;
pub use recording::record_run;

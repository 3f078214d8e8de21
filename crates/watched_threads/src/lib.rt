//! The threads of a setup of any module on real threads, whoever checked it: each call on the heap is tested first, and the first
//! instruction of a thread that breaks the discipline is told.
#![tactic(auto)]

mod jobs;
mod report;
mod running;
mod thread_ends;

pub use gate::{Gate, OpenGate};
pub use program_runner::SetupFault as WatchFault;
pub use report::{BrokenThread, WatchReport};
pub use running::watch;
pub use serving::Limits;
pub use watched::Refusal;
pub use watched_serving::Breach;

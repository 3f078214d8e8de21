//! Accepted modules on real threads: the threads of a setup, served by one heap beside its collector, and what is told of them.
#![tactic(auto)]

mod jobs;
mod promises;
mod report;
mod running;
mod thread_end;

pub use gate::{Gate, OpenGate};
pub use program_runner::SetupFault as RunFault;
pub use report::RunReport;
pub use running::run;
pub use serving::Limits;
pub use thread_end::ThreadEnd;

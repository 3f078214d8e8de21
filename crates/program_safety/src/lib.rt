//! Why the runs of a certified program's threads, over a heap with its collector, are safe, where the threads start with
//! arguments that fit and meet what is promised.
#![tactic(auto)]

mod law;
mod program_machine;

pub use law::program_law;
pub use program_machine::ProgramMachine;
pub use soundness::discipline_law;

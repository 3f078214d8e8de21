//! A program's thread as one that runs over the words of a heap, step by step, whatever the program; and how the threads of a setup
//! begin: each at its function, over a heap whose globals hold their first values, or why one does not.
#![tactic(auto)]

mod answers;
mod globals;
mod laws;
mod newest;
mod program_thread;
mod setup_fault;
mod starts;

pub use globals::values_at_start;
pub use laws::{begun_law, setup_law};
pub use program_safety::program_law;
pub use program_thread::ProgramThread;
pub use setup_fault::SetupFault;
pub use starts::{begun_thread, begun_threads};

//! Traces: pools and threads to begin with, and a list of atomic steps, read from their text and printed.
#![tactic(auto)]

mod fault;
mod forms;
mod input;
mod mistake;
mod naming;
mod numbers;
mod print;
mod progress;
mod reader;
mod trace;
mod versions;

pub use fault::TraceFault;
pub use print::print_trace;
pub use reader::read_trace;
pub use trace::{Arrival, STEP_LIMIT, Setup, Start, Steps, THREAD_LIMIT, Trace};

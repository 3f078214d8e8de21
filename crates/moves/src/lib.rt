//! The run that a list of actors makes, threads of one machine and the collector over one heap; and, in code, the next move of
//! a thread, what it leaves in the shared words, and where the thread is after it.
#![tactic(auto)]

mod actor;
mod call;
mod cause;
mod cell_words;
mod going;
mod hints;
mod laws;
mod moves;
mod moving;
mod next;
mod roots_after;
mod runner;
mod shared;
mod thread_state;
mod word_value;

pub use actor::Actor;
pub use call::{Answer, Call};
pub use cause::{Cause, broken_by};
pub use cell_words::CellWords;
pub use going::go_on;
pub use laws::{drawn_law, sight_law, touch_law};
pub use moves::Move;
pub use next::next_move;
pub use roots_after::RootsAfter;
pub use runner::Runner;
pub use shared::Shared;
pub use thread_state::{CallPhase, ThreadState};
pub use word_value::{NULL, WordValue};

//! Threads of a machine and the collector over one heap, one atomic step at a time, and what can then be reached and is gone.
//! Laws of runs: bounds of stages and births, and what one more step makes of the words, the births and the threads.
#![tactic(auto)]

mod acting;
mod beginning;
mod bounds_laws;
mod cover;
mod gone;
mod growth_laws;
mod happening;
mod laws;
mod loss;
mod roots;
mod walk;

pub use acting::Actors;
pub use beginning::NewThread;
pub use bounds_laws::bounds_law;
pub use cover::Cover;
pub use gone::{Gone, HeapSchema};
pub use growth_laws::growth_law;
pub use happening::{Happening, MadeStep};
pub use laws::{cover_law, loss_law};
pub use loss::Loss;

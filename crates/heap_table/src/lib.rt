//! A heap that threads and a collector share, without a lock. Whatever they call, there is one run of the heap that ends in its
//! words, and whose shares are what the tokens logged.
#![tactic(auto)]

mod allocating;
mod beginning;
mod closed;
mod finishing;
mod heap;
mod laws;
mod makes;
mod mutator;
mod opening;
mod reading;
mod safepoint;
mod storing;
mod sweeper;
mod writing;

pub use closed::Closed;
pub use heap::Heap;
pub use heap_rule::Plan;
pub use laws::own_word_law;
pub use mutator::Mutator;
pub use sweeper::Sweeper;

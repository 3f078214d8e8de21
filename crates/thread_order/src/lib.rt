//! Whether a thread's steps come in the order that its calls have: the barrier's steps, tries, answers, and the beginning of a
//! late thread.
#![tactic(auto)]

mod at;
mod marks;
mod order;

pub use order::ThreadOrder;

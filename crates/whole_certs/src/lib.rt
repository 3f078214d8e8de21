//! Whether certificates are whole: they fit their module, exactly the words of type `ptr` have a shape, and each root slot has one.
#![tactic(auto)]

mod roots;
mod whole;
mod words;

pub use whole::are_whole;

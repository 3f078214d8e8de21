//! The layouts of the references of a module whose types name none, `i8*` and `ptr`: found by a data flow over its text.
//! Nothing is promised of them but that they are found.
#![tactic(auto)]

mod evidence;
mod first_words;
mod flow;
mod kinds;
mod numbers;
mod reading;
mod spread;

pub use flow::{LayoutFlow, Leads};

//! Calls by the marks of their callees: which may be made, and what is known after one that may reach a safepoint.
#![tactic(auto)]

mod marks;

pub use marks::{after_call, is_may, marks_agree};

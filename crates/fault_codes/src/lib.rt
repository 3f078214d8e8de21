//! The code of each fault, and its place in a text: the one table that what is printed, explained and answered goes by.
#![tactic(auto)]

mod fault_codes;
mod fault_places;

pub use fault_codes::{cert_code, edit_code, layout_code, read_code, trace_code};
pub use fault_places::{cert_place, read_place, trace_place};

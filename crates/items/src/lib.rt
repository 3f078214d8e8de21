//! A `Vec` that contracts see as the list of its elements, so that a tree of them is plain data.
#![tactic(auto)]

mod items;

pub use items::Items;

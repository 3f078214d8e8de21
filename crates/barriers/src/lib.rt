//! Stores of references into cells: which may go without a barrier, and what is known after one.
#![tactic(auto)]

mod stores;

pub use stores::{after_store, may_store_plain};

//! What the words of a cell hold, and how many cells of each layout there are.
#![tactic(auto)]

mod layout_id;
mod layouts;
mod pools;
mod pools_fault;
mod word_kind;
mod word_set;

pub use layout_id::LayoutId;
pub use layouts::Layouts;
pub use pools::{CELL_LIMIT, Pools};
pub use pools_fault::PoolsFault;
pub use word_kind::WordKind;
pub use word_set::{CELL_WORDS, WordSet};

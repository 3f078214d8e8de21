//! Modules as text: the text of LLVM IR is read to a module, exactly; and one function is read anew from a text of its own, which takes
//! the old one's place.
#![tactic(auto)]

mod anew;
mod blocks;
mod data_items;
mod items_of_text;
mod late;
mod lines;
mod parameters;
mod read_fault;
mod reader;
mod replaced;
mod starts;

pub use anew::{Replacement, read_function};
pub use blocks::block_label;
pub use ir_print::print;
pub use items_of_text::{FunctionHead, body_after, defined_result, head_after, open_body};
pub use read_fault::ReadFault;
pub use reader::{read, read_as, read_in};
pub use replaced::{copy_first, name_of, replace};

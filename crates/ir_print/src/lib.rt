//! Modules as text: an item, a label or an instruction a line. And the parts of such a text, for other texts of a module.
#![tactic(auto)]

mod calls;
mod casts;
mod choices;
mod elements;
mod ends;
mod floats;
mod hexadecimal;
mod instructions;
mod items_of_text;
mod memory;
mod names;
mod numbers;
mod operands;
mod parameters;
mod parts;
mod printer;
mod types;

pub use choices::put_phis;
pub use elements::{element_word, put_indices};
pub use ends::put_end_line;
pub use hexadecimal::put_bits;
pub use instructions::{put_instruction, put_result};
pub use items_of_text::{put_collector, put_declare};
pub use names::{put_label, put_struct_name};
pub use operands::{put_argument, put_truth};
pub use parameters::put_parameters;
pub use parts::typed;
pub use printer::print;
pub use types::put_type;

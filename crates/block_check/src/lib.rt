//! One block, or each block of a function, against its certificate: the rules of every instruction, and what each edge out implies.
#![tactic(auto)]

mod all_refusals;
mod block_set;
mod block_walk;
mod breach;
mod check;
mod edges;
mod entries;
mod entry_facts;
mod entry_rows;
mod function_tables;
mod kept_rows;
mod phi_operands;
mod phis;
mod predecessors;
mod rooms;
mod under_check;

pub use all_refusals::refused_blocks;
pub use block_rules::{BlockFault, Breach, Detail, Refusal, Rule};
pub use check::{check_block, check_function, check_function_in, check_function_rows, check_rows};
pub use entry_rows::rows;
pub use kept_rows::Rows;
pub use rooms::CheckRooms;

//! The rules: what an instruction has to satisfy by what is known before it, what is known after it, and when a block is certified.
#![tactic(auto)]

mod barrier;
mod block_fault;
mod callee;
mod calls;
mod casts;
mod changes;
mod choices;
mod conditions;
mod context;
mod elements;
mod ends;
mod floats;
mod foreign;
mod head;
mod instr_context;
mod may_move_references;
mod memory;
mod numbers;
mod operands;
mod places;
mod promises;
mod refusals;
mod rule;
mod runtime_names;
mod signature;
mod stride;

pub use block_fault::{BlockFault, Breach, Detail, Refusal};
pub use changes::advance;
pub use choices::phi_refusal;
pub use conditions::first_failing;
pub use context::RuleContext;
pub use ends::end_refusal;
pub use head::head_of;
pub use instr_context::InstrContext;
pub use may_move_references::keeps_shadow_stack;
pub use numbers::below_next;
pub use operands::{known_in, known_of};
pub use promises::{given_by, own_mark, promised_in, promises_in};
pub use refusals::refusal;
pub use rule::Rule;
pub use type_kinds::TypeKind;

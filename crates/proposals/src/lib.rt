//! Certificates that are proposed for a module: what the rules imply at each block of each function, carried on until nothing
//! changes. Nothing is promised of them but that they are found: the check decides.
#![tactic(auto)]

mod best;
mod call_graph;
mod draft_claims;
mod first_claims;
mod flow_facts;
mod guesses;
mod incoming_operands;
mod inferred;
mod marks;
mod needs;
mod numbers;
mod order;
mod predecessors;
mod proposal;
mod scan;
mod summaries;
mod summary;
mod walk;
mod wanted;
mod weaken;

pub use proposal::{Boldness, propose};

//! The check of a whole module against its certificates, modules that it accepted, the first refusal of each block of one that is
//! not certified, and the functions outside of a module that it calls.
#![tactic(auto)]

mod accepted;
mod finding;
mod refusals;
mod rejected;
mod trusts;
mod under_check;
mod verdict;
mod witness;

pub use accepted::Accepted;
pub use block_check::{Rows, check_block, check_function, check_rows, rows};
pub use block_rules::{Detail, Refusal, Rule};
pub use finding::refusals_in;
pub use refusals::Refusals;
pub use rejected::{Rejected, decided};
pub use trusts::{outside_called, to_trust};
pub use under_check::UnderCheck;
pub use verdict::{NotAccepted, Reason, check, fault_in_module};
pub use witness::{Unseen, Witness};

//! The rule of the shared heap: there is one run that ends in the table's words, and what the holder of each token knows is a share of it.
#![tactic(auto)]

mod knowledge;
mod laws;
mod plan;
mod plays;

pub use knowledge::Knowledge;
pub use laws::rule_law;
pub use plan::Plan;
pub use plays::{Deals, Gathers, Logs, OneRun, Told};

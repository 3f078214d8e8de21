//! The maker of certificates: it proposes some, and returns what the check accepts.
#![tactic(auto)]

mod made;
mod maker;
mod plain;
mod tried;
mod trusting;

pub use made::{MakeFault, NotMade, Refused};
pub use trusting::{make, make_seen, make_with};

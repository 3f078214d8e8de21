//! Certificates as data: what each function promises, and which certificates fit a module.
#![tactic(auto)]

mod certs;
mod family;
mod fits;
mod foreign;
mod numbers;
mod roots;
mod runs;
mod section;
mod shapes;

pub use certs::Certs;
pub use family::{Family, family_of_type, family_of_value, is_opaque_text};
pub use numbers::{has_layout, has_number};
pub use section::{Age, Claim, Fact, Mark, Promise, Section};

//! The answer of a command as one object, for programs that read it: what is accepted, what is refused and why, faults of texts, places in
//! the files, and changes that mend what is refused. It is written as JSON, or as a log of SARIF; docs/JSON.md has the members. These are
//! texts: no contract says more than that they are made.
#![tactic(auto)]

mod answer;
mod finding;
mod fixes;
mod json;
mod sarif;
mod sarif_log;
mod sarif_places;
mod words;

pub use answer::{Answer, Step};
pub use finding::{Finding, finding_of};
pub use fixes::FileTexts;
pub use json::json_of;
pub use sarif::sarif_of;

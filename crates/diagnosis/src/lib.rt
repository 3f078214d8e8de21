//! What is wrong with a refused instruction, as a value without words: its case, what is known there and where that came from, and what
//! mends it. What is known is the facts that the check found there, and what they say of a value as claims of a certificate. Of a
//! diagnosis no contract says more than that it is found.
#![tactic(auto)]

mod before;
mod callers;
mod cases;
mod cells;
mod changes;
mod definitions;
mod diagnosis;
mod edges;
mod entered;
mod function;
mod holders;
mod known;
mod known_claims;
mod mismatches;
mod missing;
mod missing_blocks;
mod mistyped;
mod null_tests;
mod nulls;
mod one_way;
mod operands;
mod outside;
mod phis;
mod promised;
mod refusals;
mod scene;
mod stale;
mod subjects;
mod told;
mod unfresh;
mod unknown;
mod unrooted;
mod ways;
mod write_barrier;

pub use before::facts_before;
pub use cases::{
    Beyond, Case, Cause, Entries, Held, Loaded, Mending, Missing, Mistyped, Outside, Seen, Target,
    Unkept,
};
pub use changes::{Change, CodeAt, last_change};
pub use diagnosis::{At, Diagnosis, Mend, Note, Sought, Unlisted};
pub use function::UnderDiagnosis;
pub use known_claims::{claim_of, claims_as_certs};
pub use scene::Spot;
pub use told::{Holes, local};

//! Recorded runs of a program's setup: whether they conform to the collector's profile.
#![tactic(auto)]

mod conforming;

pub use conforming::judge;

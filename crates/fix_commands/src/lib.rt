//! The command `fix`: it makes the safe fixes of a module and its certificate, one after the other, and checks the texts that come of it.
#![tactic(auto)]

mod fixing;
mod makers;
mod mended;
mod offers;
mod pair;
mod reached;
mod steps;
mod trial;

pub use fixing::fix_files;

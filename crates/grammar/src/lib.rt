//! How forms of a text are read, as definitions that contracts cite: this crate has no code.
#![tactic(auto)]

//! Law of the collector: its invariant over one state, that each kind of step preserves it, and what follows for runs.
#![tactic(auto)]

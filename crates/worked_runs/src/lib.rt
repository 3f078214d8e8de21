//! Law of worked runs: short runs of the collector and of small machines, step by step, are runs by the definitions.
#![tactic(auto)]

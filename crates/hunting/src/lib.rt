//! Searches for a schedule that breaks a run. Seeds draw schedules with few switches: an actor goes on as long as lots say, or until its
//! rank falls, and switches come more often around loads, stores, barriers, handshakes, claims and frees, where threads may also stand
//! for long. A hunt draws the pools and the threads too. The steps of a broken seed become a trace, and shorter ones are searched for
//! that break by the same kind of cause: with fewer steps, threads or cells. Of seeds that break no run it is counted how much happened.
#![tactic(auto)]

mod biased_drawing;
mod biased_searching;
mod breaking;
mod broken_seed;
mod changes;
mod counting;
mod drawing;
mod habits;
mod judging;
mod kind;
mod lines;
mod merging;
mod numbers;
mod places;
mod scheduler;
mod searching;
mod seen;
mod setups;
mod shortening;
mod shorter_trace;
mod starts;
mod steps;

pub use biased_searching::{BiasedOutcome, BrokenSeed, biased_trace, first_broken};
pub use breaking::BrokenTrace;
pub use broken_seed::broken_trace;
pub use counting::{Happened, Sample, counted};
pub use judging::broken_trace_of;
pub use kind::{Kind, kind_of};
pub use searching::{ALIKE, Hunted, hunt};
pub use shortening::{ShorterTrace, shortened};

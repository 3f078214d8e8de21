//! Worlds, the replay of a trace, and many seeded schedules: the first step after which a run is broken, or where the actors are at
//! its end. Copies of setups, with numbers from outside that a seed draws.
#![tactic(auto)]

mod copies;
mod drawing;
mod drawn_values;
mod outcome;
mod pool_counts;
mod replaying;
mod seeds;
mod soaking;
mod thread_outcome;
mod watch;
mod world;

pub use copies::{add_starts, pools_copied, setup_copied, starts_copied};
pub use drawing::drawn_trace;
pub use drawn_values::{draws_values, start_of_seed};
pub use moves::Actor;
pub use outcome::{Break, BreakCause, Outcome, Report, SeedBreak, SoakOutcome};
pub use pool_counts::{counts_in, pools_with};
pub use program_runner::{SetupFault, SetupFault as ReplayFault, setup_law};
pub use replaying::replay;
pub use soaking::{Schedules, soak};
pub use thread_outcome::ThreadOutcome;
pub use trace_text::{Setup, Start, Steps, Trace, TraceFault, print_trace, read_trace};
pub use world::World;

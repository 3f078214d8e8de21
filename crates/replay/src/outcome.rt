ghost use Rattle.std.specs.Prelude.{Some};
ghost use Rattle.replay.specs.CauseNames.{cause_name};

use crate::thread_outcome::ThreadOutcome;
use items::Items;
use moves::Actor;
use std::fmt::{Display, Error, Formatter, Write};
use stepping::Gone;

/// Why a run is broken after a step.
#[derive(Clone, Copy)]
pub enum BreakCause {
    /// The step itself went wrong or used a cell that was gone.
    OfStep(moves::Cause),
    /// A cell is gone that can be reached.
    OfReach(Gone),
}

impl Display for BreakCause {
    ghost output = { λ cause. Some (cause_name cause) };

    fn fmt<W: Write>(&self, f: &mut Formatter<W>) -> Result<(), Error> {
        match self {
            BreakCause::OfStep(moves::Cause::Wrong) => write!(f, "wrong"),
            BreakCause::OfStep(moves::Cause::TouchBlue(cell)) => write!(f, "touch-blue {cell}"),
            BreakCause::OfStep(moves::Cause::TouchBirth(cell)) => write!(f, "touch-birth {cell}"),
            BreakCause::OfReach(Gone::Blue(cell)) => write!(f, "reach-blue {cell}"),
            BreakCause::OfReach(Gone::Reborn(cell)) => write!(f, "reach-birth {cell}"),
        }
    }
}

/// The first step after which a run is broken.
#[derive(Clone, Copy)]
pub struct Break {
    /// The step's number, from 1.
    pub step: u64,
    pub actor: Actor,
    pub cause: BreakCause,
}

/// Where the actors are after a run that no step breaks.
#[derive(Drop)]
pub struct Report {
    pub threads: Items<ThreadOutcome>,
    /// How many steps were made.
    pub steps: u64,
    /// How many cells were claimed, and how many freed.
    pub claims: u64,
    pub frees: u64,
    /// The stage that was posted last.
    pub posted: u64,
}

/// The outcome of a trace.
#[derive(Drop)]
pub enum Outcome {
    Broken(Break),
    Sound(Report),
}

/// A seed whose schedule breaks its run.
#[derive(Clone, Copy)]
pub struct SeedBreak {
    pub seed: u32,
    pub broken: Break,
}

/// The outcome of many seeds: the least one whose schedule breaks its run, or that there is none.
#[derive(Clone, Copy)]
pub enum SoakOutcome {
    Sound,
    Broken(SeedBreak),
}

//! Who looks on while a search works.
use std::time::Duration;

/// How far a search is.
#[derive(Clone, Copy)]
pub struct SoFar {
    /// How many seeds were tried.
    pub tried: u32,
    /// How many are tried at most.
    pub seeds: u32,
    /// How long that took.
    pub elapsed: Duration,
    /// After how many seconds no further seeds are tried.
    pub seconds: Option<u32>,
}

/// Looks on while a search works.
pub trait Onlooker {
    /// Some more seeds were tried.
    fn goes_on(&mut self, so_far: SoFar);

    /// This seed breaks its run, and its schedule is made shorter now.
    fn shortens(&mut self, seed: u32);

    /// The search is over. What came of it is printed next.
    fn ended(&mut self);
}

/// Nobody looks on.
#[derive(Clone, Copy)]
pub struct Nobody;

impl Onlooker for Nobody {
    fn goes_on(&mut self, _so_far: SoFar) {}

    fn shortens(&mut self, _seed: u32) {}

    fn ended(&mut self) {}
}

use crate::loss::Loss;
use colours::Turn;
use moves::{Cause, Move};

/// What an actor did: a move of the thread with this number, or a step of the collector.
#[derive(Clone, Copy)]
pub enum Happening {
    Thread(u32, Move),
    Collector(Turn),
}

/// A step that an actor made.
#[derive(Clone, Copy)]
pub struct MadeStep {
    pub happening: Happening,
    /// The cause by which the step itself breaks the run: it is wrong, or uses a cell that was gone before it.
    pub broke: Option<Cause>,
    /// Whether a reference that is gone may be reachable after the step, where none was before.
    pub loss: Loss,
}

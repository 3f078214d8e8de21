use ir_ast::FuncId;
use machine::FramePlace;
use moves::Actor;
use stepping::Happening;

/// A step of a run.
#[derive(Clone, Copy)]
pub struct LogStep {
    pub actor: Actor,
    /// Where the thread stands before the step. None of the collector, and of a thread that has ended.
    pub place: Option<FramePlace>,
    /// What the step does. None where the actor has no next step.
    pub happening: Option<Happening>,
    /// The number that the thread takes from outside of the module by the step, if it takes one.
    pub from_outside: Option<u64>,
    /// How many notes of frames come before the step. If it changes the root slots, the next note is about that.
    pub notes: usize,
}

/// The newest frame of a thread, as it is when it or its root slots have changed.
#[derive(Clone, Copy)]
pub struct FrameNote {
    /// After how many steps of the run.
    pub steps: usize,
    pub thread: u32,
    /// How many frames the thread has. Without one it has ended.
    pub frames: usize,
    pub function: FuncId,
    /// Where the cells of its root slots begin in the log, and how many these are.
    pub first: usize,
    pub roots: usize,
}

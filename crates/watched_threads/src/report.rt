use items::Items;
use machine::FramePlace;
use mutators::{RunReport, ThreadEnd};
use watched_serving::Breach;

/// A thread that broke the discipline.
#[derive(Clone, Copy)]
pub struct BrokenThread {
    /// Its number.
    pub thread: u32,
    /// Where its instruction is.
    pub at: FramePlace,
    /// Why it may not be executed there.
    pub why: Breach,
}

/// What is told of a watched run.
#[derive(Drop)]
pub enum WatchReport {
    /// No thread broke the discipline: what is told of a run of a checked module.
    Kept(RunReport),
    /// The thread of the lowest number that did.
    Broken(BrokenThread),
}

/// What is told of threads that were served.
#[derive(Drop)]
pub(crate) enum ToldThreads {
    /// How each ended.
    Ends(Items<ThreadEnd>),
    /// The first that broke the discipline.
    Broken(BrokenThread),
}

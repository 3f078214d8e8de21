use crate::thread_end::ThreadEnd;
use items::Items;

/// What is told of a run on real threads.
#[derive(Drop)]
pub struct RunReport {
    /// How each thread ended, in the order of the setup.
    pub threads: Items<ThreadEnd>,
    /// How many steps the collector made.
    pub turns: u32,
    /// How many of its sweeps looked at their last cell; without cells, how many of its traces ended.
    pub cycles: u64,
}

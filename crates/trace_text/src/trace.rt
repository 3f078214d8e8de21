use ir_ast::FuncId;
use items::Items;
use moves::Actor;
use pools::Pools;

/// How many threads a trace begins with at most.
pub const THREAD_LIMIT: usize = 64;

/// How many steps a trace lists at most.
pub const STEP_LIMIT: u64 = 10_000_000;

/// Steps of one actor, one after the other.
#[derive(Clone, Copy)]
pub struct Steps {
    pub actor: Actor,
    pub count: u32,
}

/// When a thread begins.
#[derive(Clone, Copy)]
pub enum Arrival {
    /// It is there from the first step on.
    AtStart,
    /// It begins while others run.
    Late,
}

/// How a thread begins.
#[derive(Drop)]
pub struct Start {
    pub arrival: Arrival,
    pub function: FuncId,
    pub arguments: Items<u64>,
    /// The numbers that it gets from outside of the program.
    pub values: Items<u64>,
}

/// The pools of a program's layouts, and one start for each thread.
#[derive(Drop)]
pub struct Setup {
    pub pools: Pools,
    pub starts: Items<Start>,
}

/// A setup, and the steps that are made from it.
#[derive(Drop)]
pub struct Trace {
    pub setup: Setup,
    pub steps: Items<Steps>,
}

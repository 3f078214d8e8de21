use certs::{Mark, Promise};

/// Where an instruction is.
#[derive(Clone, Copy)]
pub struct InstrContext {
    pub in_entry: bool,
    /// In the head of the entry block, where gcroot is allowed.
    pub in_head: bool,
    /// Not the first instruction of a function that moves references without a shadow stack.
    pub may_move_references: bool,
    /// What the function promises of its result.
    pub promised: Option<Promise>,
    /// Whether the function may reach a safepoint.
    pub mark: Mark,
}

//! A gate: what pieces of work that run beside one another call before their first step and after their last.
#![tactic(auto)]

/// What each piece of work calls, by its number.
pub trait Gate {
    /// Before the piece's first step.
    fn before(&self, piece: usize);

    /// After its last.
    fn after(&self, piece: usize);
}

/// The gate that lets each piece through.
#[derive(Clone, Copy)]
pub struct OpenGate;

impl Gate for OpenGate {
    fn before(&self, _piece: usize) {}

    fn after(&self, _piece: usize) {}
}

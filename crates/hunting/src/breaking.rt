use replay::Break;
use trace_text::Trace;

/// A trace, and the break that its last step makes.
#[derive(Drop)]
pub struct BrokenTrace {
    pub trace: Trace,
    pub broken: Break,
}

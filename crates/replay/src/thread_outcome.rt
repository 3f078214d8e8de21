use machine::Value;

/// Where a thread is after a run.
#[derive(Clone, Copy)]
pub enum ThreadOutcome {
    /// It begins late, and has not begun.
    Absent,
    /// Its first function returned, with this result if it has one.
    Returned(Option<Value>),
    /// It ended otherwise.
    Ended,
    /// It is under way, and this is the stage that it stored last.
    Running(u64),
}

//! What a trace is read from.
use crate::mistake::TraceMistake;
use crate::progress::TraceProgress;
use name_text::Reader;

/// A trace's text, and what is read of it so far.
pub type Input<'a> = Reader<'a, TraceProgress>;

/// A fault of a trace's text.
pub type WordFault = name_text::WordFault<TraceMistake>;

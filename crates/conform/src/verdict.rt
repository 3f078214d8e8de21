use crate::rule::Rule;

/// What is told of a record.
#[derive(Clone, Copy)]
pub enum Verdict {
    /// Each step is one of the profile; there are so many.
    Conforms(u32),
    /// The step with this number, counted from 1, is not: its actor, as the record has it, and the rule that it breaks.
    Broken(u32, u8, Rule),
}

/// What a recorded step breaks. docs/RECORDS.md has each by its code.
#[derive(Clone, Copy)]
pub enum Rule {
    /// H1: there is no such actor, or no step of it is of this kind.
    NoStep,
    /// H2: the thread's call does not go on by such a step.
    Order,
    /// H3: the word held another value than was recorded.
    Value,
    /// H4: a barriered store comes before the marks of its values.
    UnmarkedStore,
    /// H5: the roots that are named at an answer are not those that were marked.
    UnmarkedRoots,
    /// H6: a stage is stored that is not the one to answer.
    Stage,
    /// H7: the cell is read, written or marked, and the thread does not hold it.
    NotHeld,
    /// H8: the cell has no such word, or the word holds no references.
    Word,
    /// H9: the stored value is a reference that the thread does not hold or of another layout, or an integer that does not fit.
    StoredValue,
    /// H10: a reference is stored plainly into a cell that is not fresh.
    NotFresh,
    /// H11: a root is named that the thread does not hold.
    RootNotHeld,
    /// H12: the cell may not be tried now.
    Try,
    /// H13: no place of the collector allows the look at this cell.
    Look,
    /// H14: the sweep may not clear this word, or free this cell.
    Sweep,
    /// H15: the stage may not be posted now.
    Post,
    /// H16: no place of the collector allows the step.
    Turn,
}

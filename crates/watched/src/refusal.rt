/// Why a call was refused, and no step made.
#[derive(Clone, Copy, Debug, PartialEq, Eq)]
pub enum Refusal {
    /// The thread does not hold the cell.
    NotHeld,
    /// The cell has no such word.
    NoWord,
    /// The word holds no references, and only these are stored after the barrier.
    NoReference,
    /// The cell is not fresh, and only then a reference is stored without the barrier.
    NotFresh,
    /// The number has more bits than the word.
    TooLarge,
    /// The thread does not hold the cell that was to be stored.
    ValueNotHeld,
    /// The cell that was to be stored has another layout than the word refers to.
    OtherLayout,
    /// The thread does not hold this root.
    RootNotHeld(u32),
}

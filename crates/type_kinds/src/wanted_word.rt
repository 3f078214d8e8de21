use pools::LayoutId;

/// What a word has to hold.
#[derive(Clone, Copy)]
pub enum WantedWord {
    /// Integers of this number of bits.
    Integer(u32),
    /// References to this layout.
    Reference(LayoutId),
    /// References.
    AnyReference,
    /// What no word holds.
    Nothing,
}

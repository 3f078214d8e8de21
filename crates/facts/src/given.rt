use pools::LayoutId;

/// What the type of a parameter says of it.
#[derive(Clone, Copy)]
pub enum Given {
    Nothing,
    /// An integer of this number of bits.
    Number(u32),
    /// A reference to this layout.
    Reference(LayoutId),
    /// `i8*`: a reference to a layout that only the certificate says.
    AnyReference,
}

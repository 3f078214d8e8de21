/// What may be wrong with a certificate whose words are of the format. Each place is how much of the text is left there.
#[derive(Clone, Copy)]
pub enum Mistake {
    Version(usize),
    UnknownName(usize),
    ListedTwice(usize),
    /// This word of this layout, of type `ptr`, has no shape.
    MissingWord(usize, usize),
    /// This global of type `ptr` has no shape.
    MissingGlobal(usize),
    /// Of this function this root slot, by its local name, has no shape.
    MissingRoot(usize, usize),
    /// This function has no section.
    Missing(usize),
    /// Of this function this block has no section.
    MissingBlock(usize, usize),
}

use ir_tokens::Position;
use thiserror::Error;

/// The first fault of a certificate's text, with its place.
#[derive(Clone, Copy, Debug, PartialEq, Eq, Error)]
pub enum CertFault {
    /// The fault C1: no form continues with this word or line end.
    #[error("certificate syntax at {}:{}", .0.line, .0.column)]
    Syntax(Position),
    /// The fault C2.
    #[error("other version at {}:{}", .0.line, .0.column)]
    Version(Position),
    /// The fault C3: the module defines nothing of this name.
    #[error("unknown name at {}:{}", .0.line, .0.column)]
    UnknownName(Position),
    /// The fault C4.
    #[error("listed twice at {}:{}", .0.line, .0.column)]
    ListedTwice(Position),
    /// The fault C6: this word of this layout, of type `ptr`, has no shape.
    #[error("word {1} of layout {0} has no shape")]
    MissingWord(usize, usize),
    /// The fault C6: the global of this symbol, of type `ptr`, has no shape.
    #[error("global {0} has no shape")]
    MissingGlobal(usize),
    /// The fault C6: of this function, by its number, the root slot with this local name has no shape.
    #[error("slot {1} of function {0} has no shape")]
    MissingRoot(usize, usize),
    /// The fault C5: this defined function, by its number, has no section.
    #[error("function {0} has no section")]
    Missing(usize),
    /// The fault C5: this block, by the numbers of its function and of itself, has no section.
    #[error("block {1} of function {0} has no section")]
    MissingBlock(usize, usize),
    #[error("out of memory")]
    Memory,
}

use std::alloc::AllocError;
use thiserror::Error;

/// Why a module has no layouts. A struct is named by its number in text order.
#[derive(Clone, Copy, Debug, PartialEq, Eq, Error)]
pub enum LayoutFault {
    /// The fault Y1.
    #[error("struct {0} holds itself")]
    HoldsItself(usize),
    /// The fault Y2.
    #[error("struct {0} has more than 64 words")]
    TooManyWords(usize),
    /// The fault Y3.
    #[error("a word of struct {0} points to no named struct")]
    NoSuchLayout(usize),
    /// The fault Y5.
    #[error("a type is ptr, and there are no shapes")]
    ShapesWanted,
    #[error("out of memory")]
    Memory,
}

impl From<AllocError> for LayoutFault {
    ghost use Rattle.std.specs.Prelude.{◌≡◌};
    ghost use Rattle.layout.specs.declared.fault.LayoutFault.TheVariants.{Memory};

    ghost from_gives = { λ _ e. e ≡ Memory };

    fn from(_refused: AllocError) -> LayoutFault {
        LayoutFault::Memory
    }
}

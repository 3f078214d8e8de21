use std::alloc::AllocError;

/// A fault of a text, with how much of the text is left where it is found.
#[derive(Clone, Copy)]
pub enum WordFault<M> {
    /// No form continues with this word or line end.
    Syntax(usize),
    /// What is written has this mistake.
    Wrong(M),
    Memory,
}

impl<M> From<AllocError> for WordFault<M> {
    ghost use Rattle.std.specs.Prelude.{◌≡◌};
    ghost use Rattle.name_text.specs.declared.found.WordFault.TheVariants.{Memory};

    ghost from_gives = { λ _ e. e ≡ Memory };

    fn from(_refused: AllocError) -> WordFault<M> {
        WordFault::Memory
    }
}

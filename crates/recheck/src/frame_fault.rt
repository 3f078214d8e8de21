use std::alloc::AllocError;

/// A fault of the frame, with how much of the text is left where it is found.
#[derive(Clone, Copy)]
pub enum FrameFault {
    /// No form continues with this word, line end or end of the text.
    Syntax(usize),
    Memory,
}

impl From<AllocError> for FrameFault {
    ghost use Rattle.std.specs.Prelude.{◌≡◌};
    ghost use Rattle.recheck.specs.declared.frame_fault.FrameFault.TheVariants.{Memory};

    ghost from_gives = { λ _ e. e ≡ Memory };

    fn from(_refused: AllocError) -> FrameFault {
        FrameFault::Memory
    }
}

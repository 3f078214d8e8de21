use std::alloc::{AllocError, AllocFailed};
use thiserror::Error;

/// Why no world begins with a setup.
#[derive(Clone, Copy, Debug, PartialEq, Eq, Error)]
pub enum SetupFault {
    /// The fault K13, with the thread's number.
    #[error("thread {0} begins with arguments that its function does not take")]
    WrongArguments(u32),
    /// The fault K20, with the thread's number.
    #[error("thread {0} begins at a function that takes a reference")]
    ReferenceParameter(u32),
    #[error("out of memory")]
    Memory,
}

impl From<AllocError> for SetupFault {
    ghost use Rattle.std.specs.Prelude.{◌≡◌};
    ghost use Rattle.program_runner.specs.declared.setup_fault.SetupFault.TheVariants.{Memory};

    ghost from_gives = { λ _ e. e ≡ Memory };

    fn from(_refused: AllocError) -> SetupFault {
        SetupFault::Memory
    }
}

impl<T: Drop> From<AllocFailed<T>> for SetupFault {
    ghost use Rattle.std.specs.Prelude.{◌≡◌};
    ghost use Rattle.program_runner.specs.declared.setup_fault.SetupFault.TheVariants.{Memory};

    ghost from_gives = { λ _ e. e ≡ Memory };

    fn from(_refused: AllocFailed<T>) -> SetupFault {
        SetupFault::Memory
    }
}

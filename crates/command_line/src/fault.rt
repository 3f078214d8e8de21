//! Why a command line asks for nothing.
ghost use Rattle.std.specs.Prelude.{◌≡◌};
ghost use Rattle.command_line.specs.Asked.{fault_of_error};
ghost use Rattle.command_line.specs.declared.fault.LineFault.TheVariants.{Memory};

use clap::Error;
use clap::error::ErrorKind;
use std::alloc::AllocError;

/// Why a command line asks for nothing.
#[derive(Debug, Drop, thiserror::Error)]
pub enum LineFault {
    /// The words are no command line, or ask for help or the version.
    #[error(transparent)]
    Words(Error),
    /// They ask for nothing, and this is the likeliest reason.
    #[error("{0}")]
    NoCommand(&'static str),
    #[error("out of memory")]
    Memory,
}

impl From<Error> for LineFault {
    ghost from_gives = { λ error fault. fault ≡ fault_of_error error };

    fn from(error: Error) -> LineFault {
        match error.kind() {
            ErrorKind::OutOfMemory => LineFault::Memory,
            _ => LineFault::Words(error),
        }
    }
}

impl From<AllocError> for LineFault {
    ghost from_gives = { λ _ fault. fault ≡ Memory };

    fn from(_refused: AllocError) -> LineFault {
        LineFault::Memory
    }
}

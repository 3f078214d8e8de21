use certificate::CertFault;
use ir_text::ReadFault;
use std::alloc::AllocError;
use thiserror::Error;

/// Why an edit is refused.
#[derive(Debug, Drop, Error)]
pub enum EditFault {
    /// The fault L5: code is given for a function of this name, and there is none.
    #[error("L5: no function has this name")]
    NoFunction,
    /// The fault C3: a section is given for a function of this name, and there is none.
    #[error("C3: no function has this name")]
    NoSection,
    /// The first fault of the code, with its place in the code's own text.
    #[error(transparent)]
    Code(ReadFault),
    /// The fault C2: the code writes the type `ptr`, and the certificates have no shapes.
    #[error("C2: the code writes the type ptr, and the certificates have no shapes")]
    ShapesWanted,
    /// The first fault of the section, with its place in the section's own text.
    #[error(transparent)]
    Cert(CertFault),
    #[error("out of memory")]
    Memory,
}

impl From<AllocError> for EditFault {
    ghost use Rattle.std.specs.Prelude.{◌≡◌};
    ghost use Rattle.recheck.specs.declared.edit_fault.EditFault.TheVariants.{Memory};

    ghost from_gives = { λ _ e. e ≡ Memory };

    fn from(_refused: AllocError) -> EditFault {
        EditFault::Memory
    }
}

impl From<ReadFault> for EditFault {
    ghost use Rattle.std.specs.Prelude.{◌≡◌};
    ghost use Rattle.recheck.specs.Edits.{code_fault};

    ghost from_gives = { λ fault e. e ≡ code_fault fault };

    fn from(fault: ReadFault) -> EditFault {
        match fault {
            ReadFault::Memory => EditFault::Memory,
            fault => EditFault::Code(fault),
        }
    }
}

impl From<CertFault> for EditFault {
    ghost use Rattle.std.specs.Prelude.{◌≡◌};
    ghost use Rattle.recheck.specs.Edits.{section_fault};

    ghost from_gives = { λ fault e. e ≡ section_fault fault };

    fn from(fault: CertFault) -> EditFault {
        match fault {
            CertFault::Memory => EditFault::Memory,
            fault => EditFault::Cert(fault),
        }
    }
}

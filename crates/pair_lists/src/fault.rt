//! Why a text is no list of pairs.
ghost use Rattle.std.specs.Prelude.{◌≡◌};
ghost use Rattle.pair_lists.specs.declared.fault.ListFault.TheVariants.{Memory};

use std::alloc::{AllocError, AllocFailed};

/// Why a text is no list of pairs.
#[derive(Clone, Copy, Debug, thiserror::Error)]
pub enum ListFault {
    #[error("the list is no UTF-8")]
    NotText,
    /// The line of this number, counted from 1, is no pair.
    #[error("line {0} of the list is no pair")]
    Line(usize),
    #[error("out of memory")]
    Memory,
}

impl From<AllocError> for ListFault {
    ghost from_gives = { λ _ fault. fault ≡ Memory };

    fn from(_refused: AllocError) -> ListFault {
        ListFault::Memory
    }
}

impl<T: Drop> From<AllocFailed<T>> for ListFault {
    ghost use Rattle.std.specs.Prelude.{◌≡◌};
    ghost use Rattle.pair_lists.specs.declared.fault.ListFault.TheVariants.{Memory};

    ghost from_gives = { λ _ fault. fault ≡ Memory };

    fn from(_refused: AllocFailed<T>) -> ListFault {
        ListFault::Memory
    }
}

use ir_tokens::Position;
use items::Items;
use std::alloc::AllocError;
use thiserror::Error;

/// Why a text is no module: its first fault, and the line and column where it is.
#[derive(Debug, Drop, Error)]
pub enum ReadFault {
    #[error("memory ran out")]
    Memory,
    #[error("L1: no token begins here, or one is not finished")]
    BadByte(Position),
    #[error("L2: the text is not finished")]
    Unfinished(Position),
    #[error("L3: no form goes on with this token")]
    Unexpected(Position),
    #[error("L4: the name is defined already")]
    DefinedTwice(Position),
    #[error("L5: the name is not defined")]
    NotDefined(Position),
    #[error("L6: the number is out of range")]
    OutOfRange(Position),
    /// The word is the token with which the form begins.
    #[error("L7: the form is left out")]
    LeftOut { place: Position, word: Items<u8> },
    #[error("L8: a limit is passed")]
    Limit(Position),
    #[error("L9: the number is not the next one")]
    WrongNumber(Position),
    #[error("L10: a text has pointer types of one kind")]
    OtherPointer(Position),
}

impl From<AllocError> for ReadFault {
    ghost use Rattle.std.specs.Prelude.{◌≡◌};
    ghost use Rattle.ir_text.specs.declared.read_fault.ReadFault.TheVariants.{Memory};

    ghost from_gives = { λ _ e. e ≡ Memory };

    fn from(_: AllocError) -> ReadFault {
        ReadFault::Memory
    }
}

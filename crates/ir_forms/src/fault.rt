use std::alloc::AllocError;

/// The first fault of a text, and at which byte it is found.
#[derive(Clone, Copy)]
pub enum Fault {
    Memory,
    /// No token begins here, or one is not finished.
    BadByte(u32),
    /// The text ends before an item does.
    Unfinished(u32),
    /// No form goes on with this token.
    Unexpected(u32),
    /// The name is defined already.
    DefinedTwice(u32),
    /// The name is nowhere defined, or means something of another sort.
    NotDefined(u32),
    /// The number does not fit its type.
    OutOfRange(u32),
    /// The token begins a form that is left out.
    LeftOut { start: u32, length: u32 },
    /// More than a limit allows.
    Limit(u32),
    /// The number in place of a name is not the next one.
    WrongNumber(u32),
    /// The type is a pointer of another kind than those before it.
    OtherPointer(u32),
}

impl From<AllocError> for Fault {
    ghost use Rattle.std.specs.Prelude.{◌≡◌};
    ghost use Rattle.ir_forms.specs.declared.fault.Fault.TheVariants.{Memory};

    ghost from_gives = { λ _ e. e ≡ Memory };

    fn from(_: AllocError) -> Fault {
        Fault::Memory
    }
}

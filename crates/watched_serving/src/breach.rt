use std::alloc::AllocError;
use watched::Refusal;

/// Why a thread may not make the call that it asks for.
#[derive(Clone, Copy)]
pub enum Breach {
    /// Its instruction has no meaning in the thread's state.
    Wrong,
    /// The call would break the discipline.
    Refused(Refusal),
}

/// Why a thread does not go on.
#[derive(Clone, Copy)]
pub(crate) enum Halt {
    Broke(Breach),
    Memory,
}

impl From<Refusal> for Halt {
    ghost use Rattle.std.specs.Prelude.{◌≡◌};
    ghost use Rattle.watched_serving.specs.declared.breach.Breach.TheVariants.{Refused};
    ghost use Rattle.watched_serving.specs.declared.breach.Halt.TheVariants.{Broke};

    ghost from_gives = { λ why e. e ≡ Broke (Refused why) };

    fn from(why: Refusal) -> Halt {
        Halt::Broke(Breach::Refused(why))
    }
}

impl From<AllocError> for Halt {
    ghost use Rattle.std.specs.Prelude.{◌≡◌};
    ghost use Rattle.watched_serving.specs.declared.breach.Halt.TheVariants.{Memory};

    ghost from_gives = { λ _ e. e ≡ Memory };

    fn from(_refused: AllocError) -> Halt {
        Halt::Memory
    }
}

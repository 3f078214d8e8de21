use program_runner::SetupFault;
use std::alloc::AllocError;

/// Why a run has no record.
#[derive(Clone, Copy)]
pub enum RecordFault {
    /// A thread may not begin, or memory was refused.
    Setup(SetupFault),
    /// The number of a step does not fit its field, or the record would have more than 2^30 bytes.
    TooLarge,
}

impl From<AllocError> for RecordFault {
    ghost use Rattle.std.specs.Prelude.{◌≡◌};
    ghost use Rattle.program_runner.specs.declared.setup_fault.SetupFault.TheVariants.{Memory};
    ghost use Rattle.step_records.specs.declared.record_fault.RecordFault.TheVariants.{Setup};

    ghost from_gives = { λ _ e. e ≡ Setup Memory };

    fn from(_refused: AllocError) -> RecordFault {
        RecordFault::Setup(SetupFault::Memory)
    }
}

impl From<SetupFault> for RecordFault {
    ghost use Rattle.std.specs.Prelude.{◌≡◌};
    ghost use Rattle.step_records.specs.declared.record_fault.RecordFault.TheVariants.{Setup};

    ghost from_gives = { λ fault e. e ≡ Setup fault };

    fn from(fault: SetupFault) -> RecordFault {
        RecordFault::Setup(fault)
    }
}

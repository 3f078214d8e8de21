use crate::tried::MakeFailure;
use block_rules::Refusal;
use certs::Certs;
use ir_ast::Module;
use layout::LayoutFault;

/// Why no certificates are made.
#[derive(Clone, Copy)]
pub enum MakeFault {
    /// The module has no layouts.
    Layout(LayoutFault),
    /// None of those that are proposed is accepted, and the plain ones are not.
    NoAnswer,
    /// Memory was refused.
    Memory,
}

/// Certificates, and the first instruction that is refused with them.
#[derive(Drop)]
pub struct Refused {
    pub certs: Certs,
    pub refusal: Refusal,
}

/// A module for which no certificates are made, given back.
#[derive(Drop)]
pub struct NotMade {
    pub fault: MakeFault,
    pub of_module: Module,
    /// The boldest of the certificates that were refused. Where none that is proposed fits the module, these are the plain ones.
    pub refused: Option<Refused>,
}

impl From<LayoutFault> for MakeFault {
    ghost use Rattle.std.specs.Prelude.{◌≡◌};
    ghost use Rattle.cert_maker.specs.Made.{fault_of_layout};

    ghost from_gives = { λ fault made. made ≡ fault_of_layout fault };

    fn from(fault: LayoutFault) -> MakeFault {
        match fault {
            LayoutFault::Memory => MakeFault::Memory,
            fault => MakeFault::Layout(fault),
        }
    }
}

impl From<MakeFailure> for MakeFault {
    ghost use Rattle.std.specs.Prelude.{◌≡◌};
    ghost use Rattle.cert_maker.specs.Made.{fault_of_make_failure};

    ghost from_gives = { λ make_failure made. made ≡ fault_of_make_failure make_failure };

    fn from(make_failure: MakeFailure) -> MakeFault {
        match make_failure {
            MakeFailure::NoAnswer => MakeFault::NoAnswer,
            MakeFailure::Memory => MakeFault::Memory,
        }
    }
}

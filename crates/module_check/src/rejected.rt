//! The answer to a module of which all refusals are found.
ghost use Rattle.std.specs.Prelude.{◌≡◌, Some, length, slice_get, IfOk, IfErr};
ghost use Rattle.block_rules.specs.declared.block_fault.Refusal.{Refusal as ARefusal};
ghost use Rattle.module_check.specs.Accepted.{IsModuleCertified, IsFirstInModule};
ghost use Rattle.module_check.specs.Discipline.{AreDisciplined};
ghost use Rattle.module_check.specs.Refusals.{AreOfFunctions};
ghost use Rattle.program_safety.specs.Safety.{IsCarefulProgram, IsSafeProgram};

use crate::accepted::Accepted;
use crate::refusals::Refusals;
use crate::under_check::UnderCheck;

/// A module that is not accepted, as it was checked.
#[derive(Drop)]
pub struct Rejected {
    pub under: UnderCheck,
    /// What is refused of it. None where memory was refused.
    pub refusals: Option<Refusals>,
}

/// The answer to a module of which these are the refusals. It is accepted where there are none. The first of them is what the check
/// finds.
pub fn decided(under: UnderCheck, refusals: Refusals) -> Result<Accepted, Rejected>
    requires { AreOfFunctions under.program under.certs.sections (length under.program.of_module.functions) refusals }
    ensures kept { IfOk result (λ accepted. (accepted.program ≡ under.program) × (accepted.certs ≡ under.certs)) }
    ensures certified { IfOk result (λ _. IsModuleCertified under.program under.certs.sections (length under.program.of_module.functions)) }
    ensures disciplined { IfOk result (λ accepted. AreDisciplined accepted.program accepted.certs.sections) }
    ensures careful { IfOk result (λ accepted. IsCarefulProgram accepted.program accepted.certs.sections) }
    ensures safe { IfOk result (λ accepted. IsSafeProgram accepted.program accepted.certs.sections) }
    ensures given_back { IfErr result (λ rejected. (rejected.under ≡ under) × (rejected.refusals ≡ Some refusals)) }
    ensures first { IfErr result (λ _. (refusal : ARefusal) × (slice_get refusals 0 ≡ Some refusal) × IsFirstInModule under.program under.certs.sections (length under.program.of_module.functions) refusal) }
{
    match refusals.first() {
        None => {
            drop(refusals);
            let (program, certs) = under.into_parts();
            Ok(Accepted::of(program, certs))
        }
        Some(_) => Err(Rejected {
            under,
            refusals: Some(refusals),
        }),
    }
}

//! Whether a module is accepted with some certificates.
ghost use Rattle.std.specs.Prelude.{◌≡◌, IfOk, IfErr};
ghost use Rattle.cert_maker.specs.Made.{AreGood, IsOfPlain, IsTried};

use crate::made::Refused;
use crate::plain::plain;
use block_rules::BlockFault;
use certs::Certs;
use layout::Program;
use module_check::fault_in_module;
use proposals::{Boldness, propose};
use std::alloc::{AllocError, Global};

/// Why proposed certificates are not accepted.
#[derive(Drop)]
pub enum Rejection {
    /// An instruction is refused with them.
    Refused(Refused),
    /// They are no certificates of the module.
    Misfit,
    /// Memory was refused.
    Memory,
}

/// Why there are no certificates of a module that has layouts.
#[derive(Clone, Copy)]
pub enum MakeFailure {
    NoAnswer,
    /// Memory was refused.
    Memory,
}

impl From<AllocError> for Rejection {
    ghost use Rattle.cert_maker.specs.declared.tried.Rejection.TheVariants.{Memory};

    ghost from_gives = { λ _ tried. tried ≡ Memory };

    fn from(_refused: AllocError) -> Rejection {
        Rejection::Memory
    }
}

/// Proposed certificates, if the module is accepted with them.
pub fn proposed(alloc: Global, program: &Program, boldness: Boldness) -> Result<Certs, Rejection>
    ensures good { IfOk result (AreGood program.now) }
    ensures tried { IfErr result (IsTried program.now) }
{
    let certs = propose(alloc, program, boldness)?;
    accepted(alloc, program, certs)
}

/// Certificates, if the module is accepted with them.
fn accepted(alloc: Global, program: &Program, certs: Certs) -> Result<Certs, Rejection>
    ensures good { IfOk result (AreGood program.now) }
    ensures tried { IfErr result (IsTried program.now) }
{
    if !certs.sections_fit(program.module()) {
        return Err(Rejection::Misfit);
    }
    match fault_in_module(alloc, program, &certs) {
        None => Ok(certs),
        Some(BlockFault::Refused(refusal)) => Err(Rejection::Refused(Refused { certs, refusal })),
        Some(BlockFault::Memory) => Err(Rejection::Memory),
    }
}

/// The plain certificates, if the module is accepted with them.
pub fn plain_certs(alloc: Global, program: &Program) -> Result<Certs, Rejection>
    ensures good { IfOk result (AreGood program.now) }
    ensures tried { IfErr result (IsTried program.now) }
    ensures plain { IfErr result (IsOfPlain program.now) }
{
    let plainest = plain(alloc, program.module())?;
    match fault_in_module(alloc, program, &plainest) {
        None => Ok(plainest),
        Some(BlockFault::Refused(refusal)) => Err(Rejection::Refused(Refused {
            certs: plainest,
            refusal,
        })),
        Some(BlockFault::Memory) => Err(Rejection::Memory),
    }
}

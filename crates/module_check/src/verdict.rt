ghost use Rattle.std.specs.Prelude.{◌≡◌, ◌<◌, ◌≤◌, length, IfOk, IfErr, MatchOption, OnOk};
ghost use Rattle.module_check.specs.Accepted.{IsAccepted, IsModuleCertified, IsModuleFault, IsProgramCertified, IsVerdictOf, shaped};
ghost use Rattle.module_check.specs.Discipline.{AreDisciplined};
ghost use Rattle.program_safety.specs.Safety.{IsCarefulProgram, IsSafeProgram};

use crate::accepted::Accepted;
use crate::under_check::UnderCheck;
use block_check::{CheckRooms, check_function_in};
use block_rules::{BlockFault, Refusal};
use certs::Certs;
use ir_ast::{FuncId, Module};
use layout::{LayoutFault, Program};
use std::alloc::Global;

/// Why a module is not accepted.
#[derive(Clone, Copy)]
pub enum Reason {
    /// An instruction is refused, the first one in text order.
    Refused(Refusal),
    /// The module has no layouts.
    Layout(LayoutFault),
    /// Memory was refused.
    Memory,
}

/// A module that is not accepted, given back with its certificates.
#[derive(Drop)]
pub struct NotAccepted {
    pub verdict: Reason,
    pub of_module: Module,
    pub certs: Certs,
}

impl From<BlockFault> for Reason {
    ghost use Rattle.module_check.specs.Accepted.{reason_of_block};

    ghost from_gives = { λ fault verdict. verdict ≡ reason_of_block fault };

    fn from(fault: BlockFault) -> Reason {
        match fault {
            BlockFault::Refused(refusal) => Reason::Refused(refusal),
            BlockFault::Memory => Reason::Memory,
        }
    }
}

impl From<LayoutFault> for Reason {
    ghost use Rattle.module_check.specs.Accepted.{reason_of_layout};

    ghost from_gives = { λ fault verdict. verdict ≡ reason_of_layout fault };

    fn from(fault: LayoutFault) -> Reason {
        match fault {
            LayoutFault::Memory => Reason::Memory,
            fault => Reason::Layout(fault),
        }
    }
}

/// The first fault in the first `count` functions of a module, in text order.
fn fault_in_functions(
    alloc: Global,
    rooms: &mut CheckRooms,
    program: &Program,
    certs: &Certs,
    count: u32,
) -> Option<BlockFault>
    requires { count ≤ length program.now.of_module.functions }
    ensures { MatchOption result (IsModuleCertified program.now certs.now.sections count) (IsModuleFault program.now certs.now.sections count) }
{
    for number in 0..count {
        if let Err(fault) = check_function_in(alloc, rooms, program, certs, FuncId::new(number)) {
            return Some(fault);
        }
    }
    None
}

/// The first fault in a module, in text order.
pub fn fault_in_module(alloc: Global, program: &Program, certs: &Certs) -> Option<BlockFault>
    ensures { let count = length program.now.of_module.functions in MatchOption result (IsModuleCertified program.now certs.now.sections count) (IsModuleFault program.now certs.now.sections count) }
{
    // No memory holds more functions than there are numbers for them.
    match u32::try_from(program.module().functions.len()) {
        Ok(count) => fault_in_own_rooms(alloc, program, certs, count),
        Err(_) => Some(BlockFault::Memory),
    }
}

/// The same in a room of its own.
fn fault_in_own_rooms(
    alloc: Global,
    program: &Program,
    certs: &Certs,
    count: u32,
) -> Option<BlockFault>
    requires { count ≤ length program.now.of_module.functions }
    ensures { MatchOption result (IsModuleCertified program.now certs.now.sections count) (IsModuleFault program.now certs.now.sections count) }
{
    match CheckRooms::new(alloc) {
        Ok(mut rooms) => {
            let fault = fault_in_functions(alloc, &mut rooms, program, certs, count);
            drop(rooms);
            fault
        }
        Err(_) => Some(BlockFault::Memory),
    }
}

/// Checks a module against its certificates. It has their shapes then in place of its own, and trusts what they trust. Where it is
/// not accepted, the verdict is the first refusal in the order of functions, blocks, instructions and targets, or the fault of its
/// layouts; module and certificates are given back as they were.
/// Take a thread that begins at a function of an accepted module, with integer arguments that fit their types and meet what is
/// promised of the parameters. It is never wrong, its roots are null or held, and its steps on the heap obey the discipline,
/// whatever possible answers it gets, in whole calls and at each atomic step of a call. So for every number of such threads and
/// every list of atomic steps of theirs and the collector's: no cell that is reachable from a global or a root slot is freed, no instruction
/// touches a freed cell, and none is wrong.
pub fn check(alloc: Global, of_module: Module, certs: Certs) -> Result<Accepted, NotAccepted>
    ensures kept { IfOk result (λ accepted. (accepted.program.of_module ≡ shaped of_module certs) × (accepted.certs ≡ certs)) }
    ensures accepted { OnOk result (IsAccepted (shaped of_module certs) certs.sections) }
    ensures certified { IfOk result (λ accepted. IsProgramCertified accepted.program accepted.certs.sections) }
    ensures disciplined { IfOk result (λ accepted. AreDisciplined accepted.program accepted.certs.sections) }
    ensures careful { IfOk result (λ accepted. IsCarefulProgram accepted.program accepted.certs.sections) }
    ensures safe { IfOk result (λ accepted. IsSafeProgram accepted.program accepted.certs.sections) }
    ensures verdict { IfErr result (λ refused. IsVerdictOf (shaped of_module certs) certs.sections refused.verdict) }
    ensures only { IsAccepted (shaped of_module certs) certs.sections → IfErr result (λ refused. refused.verdict ≡ Reason.Memory) }
    ensures given_back { IfErr result (λ refused. (refused.of_module ≡ of_module) × (refused.certs ≡ certs)) }
{
    let under = UnderCheck::new(alloc, of_module, certs)?;
    match fault_in_module(alloc, under.program(), under.certs()) {
        None => {
            let (program, certs) = under.into_parts();
            Ok(Accepted::of(program, certs))
        }
        Some(fault) => Err(under.refused(Reason::from(fault))),
    }
}

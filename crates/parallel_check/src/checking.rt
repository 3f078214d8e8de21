//! The check by workers.
ghost use Rattle.std.specs.Prelude.{◌≡◌, ◌<◌, ◌≤◌, Some, length, slice_get, IfErr, IfOk, IfSome, MatchOption, OnOk};
ghost use Rattle.block_rules.specs.declared.block_fault.BlockFault.{BlockFault as ABlockFault};
ghost use Rattle.block_rules.specs.declared.block_fault.Refusal.{Refusal as ARefusal};
ghost use Rattle.layout.specs.Functions.{with_certified};
ghost use Rattle.module_check.specs.Accepted.{IsAccepted, IsFirstInModule, IsModuleCertified, IsModuleFault, IsProgramCertified, IsVerdictOf, reason_of_block, shaped};
ghost use Rattle.module_check.specs.Discipline.{AreDisciplined};
ghost use Rattle.module_check.specs.Refusals.{AreOfFunctions};
ghost use Rattle.program_safety.specs.Safety.{IsCarefulProgram, IsSafeProgram};
ghost use Rattle.parallel_check.specs.Shares.{IsFirstFault, IsOf};

use crate::first::first_of;
use crate::ranges::all_refusals;
use crate::share::{FirstFunctions, fault_in_share};
use block_rules::BlockFault;
use certs::Certs;
use gate::{Gate, OpenGate};
use ir_ast::Module;
use layout::Program;
use module_check::{Accepted, NotAccepted, Reason, Rejected, UnderCheck, Unseen, Witness, decided};
use std::alloc::Global;
use std::thread::{Threads, map_indices};

/// The first fault in the first `count` functions of a module, whichever worker finds it.
fn fault_by_workers<R: Threads + Sync, G: Gate + Sync>(
    rt: &R,
    alloc: Global,
    workers: u32,
    gate: &G,
    functions: &FirstFunctions,
) -> Option<BlockFault>
    requires some { 1 ≤ workers }
    requires few { workers ≤ 64 }
    requires count { functions.now.count ≤ length functions.now.program.now.of_module.functions }
    ensures { MatchOption result (IsModuleCertified functions.now.program.now functions.now.certs.now.sections functions.now.count) (IsModuleFault functions.now.program.now functions.now.certs.now.sections functions.now.count) }
{
    let faults = map_indices(
        rt,
        alloc,
        workers as usize,
        &|worker: usize| -> Option<BlockFault>
            requires { (worker < workers) × (workers ≤ 64) × (functions.now.count ≤ length functions.now.program.now.of_module.functions) }
            ensures { IsFirstFault functions.entry.now.program.now functions.entry.now.certs.now.sections (IsOf workers worker) functions.entry.now.count result }
        { fault_in_share(alloc, workers, worker as u32, gate, functions) },
    );
    match faults {
        Ok(faults) => first_of(faults),
        Err(_) => Some(BlockFault::Memory),
    }
}

/// The first fault in a module.
fn fault_in_module<R: Threads + Sync, G: Gate + Sync>(
    rt: &R,
    alloc: Global,
    workers: u32,
    gate: &G,
    program: &Program,
    certs: &Certs,
) -> Option<BlockFault>
    requires some { 1 ≤ workers }
    requires few { workers ≤ 64 }
    ensures { let count = length program.now.of_module.functions in MatchOption result (IsModuleCertified program.now certs.now.sections count) (IsModuleFault program.now certs.now.sections count) }
{
    // No memory holds more functions than there are numbers for them.
    match u32::try_from(program.module().functions.len()) {
        Ok(count) => {
            let functions = FirstFunctions {
                program,
                certs,
                count,
            };
            fault_by_workers(rt, alloc, workers, gate, &functions)
        }
        Err(_) => Some(BlockFault::Memory),
    }
}

/// The witness sees the instruction that is refused, if this is the fault.
fn show(seen: &mut impl Witness, under: &UnderCheck, fault: &BlockFault) {
    if let BlockFault::Refused(refusal) = fault {
        seen.refused(under.program(), under.certs(), [*refusal].as_slice());
    }
}

/// Checks a module with its layouts. What is refused is seen.
fn check_under<R: Threads + Sync, G: Gate + Sync>(
    rt: &R,
    alloc: Global,
    workers: u32,
    gate: &G,
    under: UnderCheck,
    seen: &mut impl Witness,
) -> Result<Accepted, NotAccepted>
    requires some { 1 ≤ workers }
    requires few { workers ≤ 64 }
    ensures kept { IfOk result (λ accepted. (accepted.program ≡ under.program) × (accepted.certs ≡ under.certs)) }
    ensures certified { IfOk result (λ _. IsModuleCertified under.program under.certs.sections (length under.program.of_module.functions)) }
    ensures disciplined { IfOk result (λ accepted. AreDisciplined accepted.program accepted.certs.sections) }
    ensures careful { IfOk result (λ accepted. IsCarefulProgram accepted.program accepted.certs.sections) }
    ensures safe { IfOk result (λ accepted. IsSafeProgram accepted.program accepted.certs.sections) }
    ensures refused { IfErr result (λ refused. (fault : ABlockFault) × IsModuleFault under.program under.certs.sections (length under.program.of_module.functions) fault × (refused.verdict ≡ reason_of_block fault)) }
    ensures given_back { IfErr result (λ refused. (refused.of_module ≡ with_certified under.program.of_module under.own.shapes under.own.trusted) × (refused.certs ≡ under.certs)) }
{
    match fault_in_module(rt, alloc, workers, gate, under.program(), under.certs()) {
        None => {
            let (program, certs) = under.into_parts();
            Ok(Accepted::of(program, certs))
        }
        Some(fault) => {
            show(seen, &under, &fault);
            Err(under.refused(Reason::from(fault)))
        }
    }
}

/// The same check as `module_check::check`, by workers, from 1 to 64: one on the caller's thread, and each other one on a thread of
/// its own.
///
/// No clause says the following. Worker `w` of `n` checks the functions `w`, `w + n`, `w + 2n` and so on, up to its first fault, and calls the gate round the
/// check of each, by the function's number. Whichever worker is done first, the verdict is the first refusal
/// of the module. Memory may be refused to any of the workers.
pub fn check_with<R: Threads + Sync, G: Gate + Sync>(
    rt: &R,
    alloc: Global,
    workers: u32,
    gate: &G,
    of_module: Module,
    certs: Certs,
) -> Result<Accepted, NotAccepted>
    requires some { 1 ≤ workers }
    requires few { workers ≤ 64 }
    ensures kept { IfOk result (λ accepted. (accepted.program.of_module ≡ shaped of_module certs) × (accepted.certs ≡ certs)) }
    ensures accepted { OnOk result (IsAccepted (shaped of_module certs) certs.sections) }
    ensures certified { IfOk result (λ accepted. IsProgramCertified accepted.program accepted.certs.sections) }
    ensures disciplined { IfOk result (λ accepted. AreDisciplined accepted.program accepted.certs.sections) }
    ensures careful { IfOk result (λ accepted. IsCarefulProgram accepted.program accepted.certs.sections) }
    ensures safe { IfOk result (λ accepted. IsSafeProgram accepted.program accepted.certs.sections) }
    ensures verdict { IfErr result (λ refused. IsVerdictOf (shaped of_module certs) certs.sections refused.verdict) }
    ensures only { IsAccepted (shaped of_module certs) certs.sections → IfErr result (λ refused. refused.verdict ≡ Reason.Memory) }
    ensures given_back { IfErr result (λ refused. (refused.of_module ≡ of_module) × (refused.certs ≡ certs)) }
{
    let under = UnderCheck::new(alloc, of_module, certs)?;
    check_under(rt, alloc, workers, gate, under, &mut Unseen)
}

/// The same check by a gate that lets each function through. A witness sees the instruction that is refused, before the module is given
/// back.
pub fn check_seen<R: Threads + Sync>(
    rt: &R,
    alloc: Global,
    workers: u32,
    of_module: Module,
    certs: Certs,
    seen: &mut impl Witness,
) -> Result<Accepted, NotAccepted>
    requires some { 1 ≤ workers }
    requires few { workers ≤ 64 }
    ensures kept { IfOk result (λ accepted. (accepted.program.of_module ≡ shaped of_module certs) × (accepted.certs ≡ certs)) }
    ensures accepted { OnOk result (IsAccepted (shaped of_module certs) certs.sections) }
    ensures certified { IfOk result (λ accepted. IsProgramCertified accepted.program accepted.certs.sections) }
    ensures disciplined { IfOk result (λ accepted. AreDisciplined accepted.program accepted.certs.sections) }
    ensures careful { IfOk result (λ accepted. IsCarefulProgram accepted.program accepted.certs.sections) }
    ensures safe { IfOk result (λ accepted. IsSafeProgram accepted.program accepted.certs.sections) }
    ensures verdict { IfErr result (λ refused. IsVerdictOf (shaped of_module certs) certs.sections refused.verdict) }
    ensures only { IsAccepted (shaped of_module certs) certs.sections → IfErr result (λ refused. refused.verdict ≡ Reason.Memory) }
    ensures given_back { IfErr result (λ refused. (refused.of_module ≡ of_module) × (refused.certs ≡ certs)) }
{
    let under = UnderCheck::new(alloc, of_module, certs)?;
    check_under(rt, alloc, workers, &OpenGate, under, seen)
}

/// Checks all blocks of a module by workers, each of them one range of the functions. What is refused is given with the module as it was
/// checked.
pub fn check_all<R: Threads + Sync>(
    rt: &R,
    alloc: Global,
    workers: u32,
    under: UnderCheck,
) -> Result<Accepted, Rejected>
    requires { 1 ≤ workers }
    ensures kept { IfOk result (λ accepted. (accepted.program ≡ under.program) × (accepted.certs ≡ under.certs)) }
    ensures certified { IfOk result (λ _. IsModuleCertified under.program under.certs.sections (length under.program.of_module.functions)) }
    ensures disciplined { IfOk result (λ accepted. AreDisciplined accepted.program accepted.certs.sections) }
    ensures careful { IfOk result (λ accepted. IsCarefulProgram accepted.program accepted.certs.sections) }
    ensures safe { IfOk result (λ accepted. IsSafeProgram accepted.program accepted.certs.sections) }
    ensures given_back { IfErr result (λ rejected. rejected.under ≡ under) }
    ensures each { IfErr result (λ rejected. IfSome rejected.refusals (AreOfFunctions under.program under.certs.sections (length under.program.of_module.functions))) }
    // The first of them is what the check finds.
    ensures first { IfErr result (λ rejected. IfSome rejected.refusals (λ each. (refusal : ARefusal) × (slice_get each 0 ≡ Some refusal) × IsFirstInModule under.program under.certs.sections (length under.program.of_module.functions) refusal)) }
{
    match all_refusals(rt, alloc, workers, under.program(), under.certs()) {
        Ok(refusals) => decided(under, refusals),
        Err(_) => Err(Rejected {
            under,
            refusals: None,
        }),
    }
}

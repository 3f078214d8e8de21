//! Ranges of functions, one for each worker: all refusals are found in them.
ghost use Rattle.std.specs.Prelude.{◌≡◌, ◌<◌, ◌≤◌, length, IfOk};
ghost use Rattle.module_check.specs.Refusals.{AreOfFunctions};
ghost use Rattle.parallel_check.specs.Shares as spec;
ghost use Rattle.parallel_check.specs.Shares.{AreOfWorker};

use crate::share::FirstFunctions;
use block_rules::Refusal;
use certs::Certs;
use layout::Program;
use module_check::{Refusals, refusals_in};
use std::alloc::{AllocError, Global};
use std::thread::{Threads, map_indices};

/// The number of the first function of a worker's range.
fn range_from(workers: u32, count: u32, worker: u32) -> u32
    requires some { 1 ≤ workers }
    requires worker { worker ≤ workers }
    ensures { result ≡ spec.range_from workers count worker }
{
    let product = worker as u64 * count as u64;
    let from = product / workers as u64;
    from as u32
}

/// The refusals of a worker's range.
fn refusals_in_range(
    alloc: Global,
    workers: u32,
    worker: u32,
    functions: &FirstFunctions,
) -> Result<Vec<Refusal>, AllocError>
    requires worker { worker < workers }
    requires count { functions.now.count ≤ length functions.now.program.now.of_module.functions }
    ensures { IfOk result (λ found. AreOfWorker functions.now.program.now functions.now.certs.now.sections workers functions.now.count worker found.items) }
{
    let FirstFunctions {
        program,
        certs,
        count,
    } = *functions;
    let from = range_from(workers, count, worker);
    let to = range_from(workers, count, worker + 1);
    refusals_in(alloc, program, certs, from, to)
}

/// The refusals of the first functions of a program, whichever worker finds them.
fn refusals_by_workers<R: Threads + Sync>(
    rt: &R,
    alloc: Global,
    workers: u32,
    functions: &FirstFunctions,
) -> Result<Refusals, AllocError>
    requires some { 1 ≤ workers }
    requires count { functions.now.count ≤ length functions.now.program.now.of_module.functions }
    ensures { IfOk result (AreOfFunctions functions.now.program.now functions.now.certs.now.sections functions.now.count) }
{
    let parts = map_indices(
        rt,
        alloc,
        workers as usize,
        &|worker: usize| -> Result<Vec<Refusal>, AllocError>
            requires { (worker < workers) × (functions.now.count ≤ length functions.now.program.now.of_module.functions) }
            ensures { IfOk result (λ found. AreOfWorker functions.entry.now.program.now functions.entry.now.certs.now.sections workers functions.entry.now.count worker found.items) }
        { refusals_in_range(alloc, workers, worker as u32, functions) },
    )?;
    let mut each = Vec::new(alloc);
    for part in parts.as_slice() {
        let Ok(found) = part else {
            return Err(AllocError);
        };
        each.extend_from_slice(found.as_slice())?;
    }
    Ok(Refusals::of(each))
}

/// The refusals of all functions of a program.
pub fn all_refusals<R: Threads + Sync>(
    rt: &R,
    alloc: Global,
    workers: u32,
    program: &Program,
    certs: &Certs,
) -> Result<Refusals, AllocError>
    requires { 1 ≤ workers }
    ensures { IfOk result (AreOfFunctions program.now certs.now.sections (length program.now.of_module.functions)) }
{
    // No memory holds more functions than there are numbers for them.
    let Ok(count) = u32::try_from(program.module().functions.len()) else {
        return Err(AllocError);
    };
    let functions = FirstFunctions {
        program,
        certs,
        count,
    };
    refusals_by_workers(rt, alloc, workers, &functions)
}

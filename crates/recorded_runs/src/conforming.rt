ghost use Rattle.std.specs.Prelude.{◌≡◌, ◌≢◌, ◌≤◌, ◌^◌, length, map, IfOk, IfErr};
ghost use Rattle.record_text.specs.Entries.{entries_of};
ghost use Rattle.conform.specs.Verdicts.{IsVerdict};
ghost use Rattle.program_runner.specs.Heaps.{heap_of};
ghost use Rattle.program_runner.specs.Setups.{HasNoFault, IsSetupFault, IsSetupOf};
ghost use Rattle.program_runner.specs.declared.setup_fault.SetupFault.TheVariants as fault;
ghost use Rattle.trace_text.specs.Arrivals.{is_late};

use conform::{Verdict, conform};
use heap_rule::Plan;
use layout::Program;
use program_runner::{SetupFault, begun_threads, values_at_start};
use std::alloc::{AllocError, Global};
use trace_text::Setup;

/// What is told of a record of a run of this setup, or the first thread that may not begin. Memory is also answered where there are
/// 2^32 globals.
pub fn judge(
    alloc: Global,
    program: &Program,
    setup: &Setup,
    bytes: &[u8],
) -> Result<Verdict, SetupFault>
    requires setup { IsSetupOf program.now setup.now }
    requires long { length bytes.now ≤ 2 ^ 30 }
    ensures verdict { IfOk result (IsVerdict (heap_of program.now setup.now) (entries_of bytes.now)) }
    ensures no_fault { IfOk result (λ _. HasNoFault program.now setup.now) }
    ensures fault { IfErr result (λ e. e ≢ fault.Memory → IsSetupFault program.now setup.now e) }
{
    let threads = begun_threads(alloc, program, setup)?;
    drop(threads);
    Ok(conform_setup(alloc, program, setup, bytes)?)
}

/// What is told of a record of a run of this setup: of the pools and the threads, whatever functions the threads begin at.
fn conform_setup(
    alloc: Global,
    program: &Program,
    setup: &Setup,
    bytes: &[u8],
) -> Result<Verdict, AllocError>
    requires setup { IsSetupOf program.now setup.now }
    requires long { length bytes.now ≤ 2 ^ 30 }
    ensures { IfOk result (IsVerdict (heap_of program.now setup.now) (entries_of bytes.now)) }
{
    let globals = program.globals();
    if u32::try_from(globals.len()).is_err() {
        return Err(AllocError);
    }
    let values = values_at_start(alloc, program.module())?;
    let late = late_threads(alloc, setup)?;
    let plan = Plan {
        pools: &setup.pools,
        layouts: program.layouts(),
        globals,
        values: values.as_slice(),
        threads: setup.starts.len(),
        late: late.as_slice(),
    };
    conform(alloc, &plan, bytes)
}

/// For each thread of a setup, whether it begins late.
fn late_threads(alloc: Global, setup: &Setup) -> Result<Vec<bool>, AllocError>
    ensures { IfOk result (λ late. late.items ≡ map (λ start. is_late start.arrival) setup.now.starts) }
{
    setup
        .starts
        .as_slice()
        .iter()
        .map(|begun| begun.arrival.is_late())
        .collect(alloc)
}

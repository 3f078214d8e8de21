//! From what the run of a seed begins, where the seed also draws the numbers that threads get from outside.
ghost use Rattle.std.specs.Prelude.{◌≡◌, ◌<◌, ◌≤◌, ◌+◌, ◌*◌, ◌^◌, ◌++◌, ◌&&◌, length, IfOk, OnOk};
ghost use Rattle.program_runner.specs.Setups.{IsSetupOf};
ghost use Rattle.trace_text.specs.Traces.{IsTraceOf};
ghost use Rattle.replay.specs.DrawnValues as spec;
ghost use Rattle.replay.specs.DrawnValues.{setup_of_seed, values_drawn};

use crate::copies::{pools_copied, start_copied};
use crate::seeds::seeded;
use items::Items;
use layout::Program;
use rand_core::Rng;
use std::alloc::{AllocError, Global};
use trace_text::{Setup, Start, Trace};

/// How many numbers a seed draws for a thread.
const VALUES: u32 = 16;

/// The seed of the generator of a thread's numbers: another one for each seed and thread, and none that draws a schedule.
fn seed_of_values(seed: u32, thread: u32) -> u64
    requires { thread < 64 }
    ensures { result ≡ seed + (thread + 2) * 2 ^ 32 }
{
    u64::from(seed) + (u64::from(thread) + 2) * (1 << 32)
}

/// The numbers that a seed draws for a thread, after others.
fn add_drawn(values: &mut Items<u64>, seed: u32, thread: u32) -> Result<(), AllocError>
    requires { thread < 64 }
    ensures { OnOk result (values.new ≡ values.old ++ values_drawn seed thread) }
{
    let mut rng = seeded(seed_of_values(seed, thread));
    for _value in 0..VALUES {
        values.push(rng.next_u64())?;
    }
    Ok(())
}

/// The start of a thread, with the numbers that a seed draws for it after its own.
fn start_drawn(alloc: Global, start: &Start, seed: u32, thread: u32) -> Result<Start, AllocError>
    requires { thread < 64 }
    ensures { IfOk result (λ drawn. drawn ≡ spec.start_drawn seed thread start.now) }
{
    let mut drawn = start_copied(alloc, start)?;
    add_drawn(&mut drawn.values, seed, thread)?;
    Ok(drawn)
}

/// The starts of threads, each with the numbers that a seed draws for it after its own.
fn starts_drawn(alloc: Global, starts: &[Start], seed: u32) -> Result<Items<Start>, AllocError>
    requires { length starts.now ≤ 64 }
    ensures { IfOk result (λ drawn. drawn ≡ spec.starts_drawn seed 0 starts.now) }
{
    let mut drawn = Items::new(alloc);
    for start in starts {
        let thread = drawn.len() as u32;
        drawn.push(start_drawn(alloc, start, seed, thread)?)?;
    }
    Ok(drawn)
}

/// Whether seeds draw numbers from outside for the threads of a program: where that is wanted, and its module may have the wide forms.
pub fn draws_values(program: &Program, wanted: bool) -> bool
    ensures { result ≡ (wanted && program.now.of_module.wide) }
{
    wanted && program.module().wide
}

/// The setup with the numbers that a seed draws for each thread after its own.
pub(crate) fn setup_drawn(
    alloc: Global,
    program: &Program,
    setup: &Setup,
    seed: u32,
) -> Result<Setup, AllocError>
    requires { IsSetupOf program.now setup.now }
    ensures { IfOk result (λ drawn. drawn ≡ spec.setup_drawn seed setup.now) }
{
    let pools = pools_copied(alloc, program, &setup.pools)?;
    let starts = starts_drawn(alloc, setup.starts.as_slice(), seed)?;
    Ok(Setup { pools, starts })
}

/// A trace without steps that begins as the run of a seed does.
pub fn start_of_seed(
    alloc: Global,
    program: &Program,
    start: Trace,
    seed: u32,
    drawn_values: bool,
) -> Result<Trace, AllocError>
    requires { IsTraceOf program.now start }
    ensures is_trace { IfOk result (IsTraceOf program.now) }
    ensures setup { IfOk result (λ begun. begun.setup ≡ setup_of_seed drawn_values program.now start.setup seed) }
{
    let steps = Items::new(alloc);
    if !draws_values(program, drawn_values) {
        let setup = start.setup;
        return Ok(Trace { setup, steps });
    }
    let setup = setup_drawn(alloc, program, &start.setup, seed);
    drop(start);
    match setup {
        Ok(setup) => Ok(Trace { setup, steps }),
        Err(refused) => Err(refused),
    }
}
